//! Rows that are turned.
use super::{is_rising, made_rows, wah_of_rows, wah_of_words};
use crate::{Memory, Wah};
use std::alloc::Global;
use std::process::Abort;
use std::test::Fail;

fn toggled(
    rt: &impl Abort,
    alloc: Global,
    wah: &Wah,
    places: &[u32],
    rows: u32,
) -> Result<Wah, Fail> {
    assert!(rt; is_rising(places));
    assert!(rt; places.iter().all(|place| *place < rows));
    assert!(rt; wah.len() <= rows);
    Ok(wah.toggled(alloc, places, rows)?)
}

fn has_words(
    rt: &impl Abort,
    alloc: Global,
    wah: &Wah,
    places: &[u32],
    rows: u32,
    expected: &[u32],
) -> Result<(), Fail> {
    let new = toggled(rt, alloc, wah, places, rows)?;
    assert_eq!(rt; new.words(), expected);
    assert_eq!(rt; new.len(), rows);
    Ok(())
}

#[test]
fn rows_of_runs_are_turned(rt: HostRuntime) -> Result<(), Fail> {
    for (words, rows, places, expected) in [
        (&[][..], 0, &[][..], &[][..]),
        (
            &[0x8000_0003],
            93,
            &[40],
            &[0x8000_0001, 0x0000_0200, 0x8000_0001],
        ),
        (
            &[0xc000_0003],
            93,
            &[40],
            &[0xc000_0001, 0x7fff_fdff, 0xc000_0001],
        ),
        (
            &[0x8000_0004],
            124,
            &[0, 123],
            &[0x0000_0001, 0x8000_0002, 0x4000_0000],
        ),
        (&[0x8000_0001, 0x8, 0x8000_0001], 93, &[34], &[0x8000_0003]),
        (
            &[0xc000_0001, 0x7fff_fff7, 0xc000_0001],
            93,
            &[34],
            &[0xc000_0003],
        ),
        (&[0x0000_0007], 31, &[0, 1, 30], &[0x4000_0004]),
        (&[0xc000_0001, 0x1f], 36, &[35], &[0xc000_0001, 0x0f]),
    ] {
        let wah = wah_of_words(rt.alloc(), words, rows)?;
        has_words(&rt, rt.alloc(), &wah, places, rows, expected)?;
    }
    Ok(())
}

#[test]
fn rows_past_the_end_are_turned(rt: HostRuntime) -> Result<(), Fail> {
    for (words, old_rows, places, rows, expected) in [
        (&[][..], 0, &[][..], 63, &[0x8000_0003][..]),
        (&[], 0, &[62], 63, &[0x8000_0002, 0x0000_0001]),
        (&[0x0000_001f], 5, &[], 36, &[0x0000_001f, 0x8000_0001]),
        (&[0x0000_001f], 5, &[5, 40], 62, &[0x0000_003f, 0x0000_0200]),
        (
            &[0xc000_0001, 0x0000_0010],
            36,
            &[35],
            100,
            &[0xc000_0001, 0x8000_0003],
        ),
    ] {
        let wah = wah_of_words(rt.alloc(), words, old_rows)?;
        has_words(&rt, rt.alloc(), &wah, places, rows, expected)?;
    }
    Ok(())
}

// Drawn places below `rows`, about one of `every`.
fn drawn_places(alloc: Global, state: &mut u64, rows: u32, every: u64) -> Result<Vec<u32>, Memory> {
    let mut places = Vec::new(alloc);
    for row in 0..rows {
        *state = state
            .wrapping_mul(6_364_136_223_846_793_005)
            .wrapping_add(1_442_695_040_888_963_407);
        if (*state >> 33) % every.max(1) == 0 {
            places.push(row)?;
        }
    }
    Ok(places)
}

// A drawn list of 10,000 rows, with `longer` rows after it and about one row of `every` turned.
fn has_toggles(
    rt: &impl Abort,
    alloc: Global,
    state: &mut u64,
    longer: u32,
    every: u64,
) -> Result<(), Fail> {
    let mut plain = made_rows(alloc, state, 10_000)?;
    let wah = wah_of_rows(rt, alloc, &plain)?;
    for _ in 0..longer {
        plain.push(false)?;
    }
    let rows = wah_of_rows(rt, alloc, &plain)?.len();
    let places = drawn_places(alloc, state, rows, every)?;
    for place in &places {
        if let Some(row) = plain.get_mut(*place as usize) {
            *row = !*row;
        }
    }
    let new = toggled(rt, alloc, &wah, &places, rows)?;
    assert_eq!(rt; new.words(), wah_of_rows(rt, alloc, &plain)?.words());
    Ok(())
}

#[test]
fn drawn_rows_are_turned(rt: HostRuntime) -> Result<(), Fail> {
    let mut state = 1;
    for every in [1, 2, 20, 300, 2_000] {
        for longer in [0, 1, 500] {
            has_toggles(&rt, rt.alloc(), &mut state, longer, every)?;
        }
    }
    Ok(())
}

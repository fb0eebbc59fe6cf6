//! Drawn lists, short and long, against plain lists of truth values.
use super::{is_rising, made_rows, wah_of_rows, wah_of_words};
use crate::{Memory, Wah};
use std::alloc::Global;
use std::process::Abort;
use std::test::Fail;

// Rows of a list that is long enough for every vector to grow several times.
const LONG: usize = 130_000;

fn has_operations(rt: &impl Abort, alloc: Global, a: &[bool], b: &[bool]) -> Result<(), Fail> {
    let both: Vec<bool> = a
        .iter()
        .zip(b.iter())
        .map(|(x, y)| *x && *y)
        .collect(alloc)?;
    let either: Vec<bool> = a
        .iter()
        .zip(b.iter())
        .map(|(x, y)| *x || *y)
        .collect(alloc)?;
    let one: Vec<bool> = a
        .iter()
        .zip(b.iter())
        .map(|(x, y)| *x != *y)
        .collect(alloc)?;
    let others: Vec<bool> = a.iter().map(|x| !*x).collect(alloc)?;
    let a = wah_of_rows(rt, alloc, a)?;
    let b = wah_of_rows(rt, alloc, b)?;
    assert_eq!(rt; a.len(), b.len());
    assert_eq!(rt;
        a.and(alloc, &b)?.words(),
        wah_of_rows(rt, alloc, &both)?.words()
    );
    assert_eq!(rt;
        a.or(alloc, &b)?.words(),
        wah_of_rows(rt, alloc, &either)?.words()
    );
    assert_eq!(rt;
        a.xor(alloc, &b)?.words(),
        wah_of_rows(rt, alloc, &one)?.words()
    );
    assert_eq!(rt;
        a.not(alloc)?.words(),
        wah_of_rows(rt, alloc, &others)?.words()
    );
    Ok(())
}

#[test]
fn operations_are_those_of_plain_lists(rt: HostRuntime) -> Result<(), Fail> {
    let mut state = 1;
    for count in (0..131).chain(3_960..3_975).chain(LONG..LONG + 1) {
        let a = made_rows(rt.alloc(), &mut state, count)?;
        let b = made_rows(rt.alloc(), &mut state, count)?;
        has_operations(&rt, rt.alloc(), &a, &b)?;
    }
    Ok(())
}

#[test]
fn plain_lists_are_counted_and_read_back(rt: HostRuntime) -> Result<(), Fail> {
    let mut state = 1;
    for count in (0..131).chain(3_960..3_975).chain(LONG..LONG + 1) {
        let rows = made_rows(rt.alloc(), &mut state, count)?;
        let wah = wah_of_rows(&rt, rt.alloc(), &rows)?;
        let back = wah_of_words(rt.alloc(), wah.words(), wah.len())?;
        assert_eq!(rt; back.words(), wah.words());
        let true_rows = rows.iter().filter(|x| **x).count();
        assert_eq!(rt;
            (wah.count() as usize, back.count() as usize),
            (true_rows, true_rows)
        );
    }
    Ok(())
}

#[test]
fn a_long_list_is_extended(rt: HostRuntime) -> Result<(), Fail> {
    let mut rows = made_rows(rt.alloc(), &mut 1, LONG)?;
    let wah = wah_of_rows(&rt, rt.alloc(), &rows)?;
    for _ in 0..1_000 {
        rows.push(false)?;
    }
    let longer = wah_of_rows(&rt, rt.alloc(), &rows)?;
    assert!(rt; wah.len() <= longer.len());
    assert_eq!(rt;
        wah.extended(rt.alloc(), longer.len())?.words(),
        longer.words()
    );
    Ok(())
}

fn true_places(alloc: Global, rows: &[bool]) -> Result<Vec<u32>, Memory> {
    let mut places = Vec::new(alloc);
    let mut place = 0u32;
    for row in rows {
        if *row {
            places.push(place)?;
        }
        place = place.wrapping_add(1);
    }
    Ok(places)
}

#[test]
fn many_places_are_true(rt: HostRuntime) -> Result<(), Fail> {
    let rows = made_rows(rt.alloc(), &mut 1, LONG)?;
    let wah = wah_of_rows(&rt, rt.alloc(), &rows)?;
    let places = true_places(rt.alloc(), &rows)?;
    let count = wah.len();
    assert!(rt; is_rising(&places));
    assert!(rt; places.iter().all(|place| *place < count));
    assert_eq!(rt;
        Wah::from_places(rt.alloc(), &places, count)?.words(),
        wah.words()
    );
    Ok(())
}

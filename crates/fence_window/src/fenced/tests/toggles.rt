//! Lists with rows turned page by page, against those whose words are all passed over.
ghost use Rattle.std.specs.Prelude.{IsTrue};
ghost use Rattle.std.specs.List.Sorted.{IsStrictlyIncreasing};

use super::{Fenced, drawn_rows};
use crate::{Memory, PAGE_GROUPS, PAGE_ROWS};
use std::alloc::Global;
use std::process::Abort;
use std::test::Fail;
use wah_words::Wah;

// The rows at these places are turned alike by both ways, and the pages of the list are where its fences say.
fn is_toggled(
    rt: &impl Abort,
    alloc: Global,
    list: &Fenced,
    places: &[u32],
    rows: u32,
) -> Result<(), Fail> {
    assert!(rt; list.wah().len() <= rows);
    assert!(rt; places.iter().all(|place| *place < rows));
    assert!(rt; is_rising(places));
    let plain = Fenced::make(alloc, list.wah().toggled(alloc, places, rows)?)?;
    let paged = list.toggled_pages(alloc, places, rows)?;
    assert!(rt; paged.wah().len() == rows);
    assert!(rt; paged.wah().words() == plain.wah().words(), "{rows} rows");
    for page in 0..rows / PAGE_ROWS + 2 {
        let mut one = [0x5555_5555; PAGE_GROUPS];
        let mut other = [0x5555_5555; PAGE_GROUPS];
        plain.window(page, &mut one);
        paged.window(page, &mut other);
        assert!(rt; one == other, "page {page} of {rows} rows");
    }
    Ok(())
}

fn is_rising(places: &[u32]) -> bool
    ensures { IsTrue result → IsStrictlyIncreasing places.now }
{
    for i in 1..places.len() {
        if places[i] <= places[i - 1] {
            return false;
        }
    }
    true
}

// The list of so many rows that is true at these places.
fn listed(rt: &impl Abort, alloc: Global, places: &[u32], rows: u32) -> Result<Wah, Memory> {
    assert!(rt; is_rising(places));
    assert!(rt; places.iter().all(|place| *place < rows));
    Wah::from_places(alloc, places, rows)
}

// Of so many rows each whose place the step divides, from the first on.
fn every(alloc: Global, first: u32, step: u32, rows: u32) -> Result<Vec<u32>, Memory> {
    let mut places = Vec::new(alloc);
    for place in first..rows {
        if step != 0 && (place - first) % step == 0 {
            places.push(place)?;
        }
    }
    Ok(places)
}

fn drawn(alloc: Global, seed: u64, count: usize) -> Result<Fenced, Memory> {
    let rows = drawn_rows(alloc, seed, count)?;
    if rows.len() > 1_000_000 {
        return Fenced::make(alloc, Wah::from_rows(alloc, &[])?);
    }
    Fenced::make(alloc, Wah::from_rows(alloc, &rows)?)
}

#[test]
fn rows_at_the_ends_of_pages(rt: HostRuntime) -> Result<(), Fail> {
    let alloc = rt.alloc();
    for count in [0, 1, 31, 3_967, 3_968, 3_969, 7_936, 30_000, 39_680] {
        let list = drawn(alloc, 7 + count as u64, count)?;
        let rows = list.wah().len();
        for places in [
            &[][..],
            &[0],
            &[3_967],
            &[3_968],
            &[7_935],
            &[7_936, 11_903],
            &[3_967, 3_968, 11_904],
            &[0, 15_871, 15_872],
        ] {
            let last = places.last().copied().unwrap_or(0);
            for more in [0, 1, 31, 3_968, 9_000] {
                let longer = rows.saturating_add(more);
                if last < longer {
                    is_toggled(&rt, alloc, &list, places, longer)?;
                }
            }
        }
    }
    Ok(())
}

#[test]
fn rows_in_runs_over_pages(rt: HostRuntime) -> Result<(), Fail> {
    let alloc = rt.alloc();
    for rows in [100_000, 99_200, 3_968 * 40] {
        for list in [
            listed(&rt, alloc, &[], rows)?,
            listed(&rt, alloc, &[], rows)?.not(alloc)?,
            listed(&rt, alloc, &[0, 3_967, 3_968, 50_000], rows)?,
            listed(&rt, alloc, &[3_936, 3_967, 20_000], rows)?.not(alloc)?,
        ] {
            let list = Fenced::make(alloc, list)?;
            for places in [
                &[][..],
                &[39_680],
                &[43_647],
                &[39_679, 39_680],
                &[0, 3_967, 3_968, 50_000],
                &[10, 99_199],
            ] {
                is_toggled(&rt, alloc, &list, places, rows)?;
                is_toggled(&rt, alloc, &list, places, rows.saturating_add(20_000))?;
            }
        }
    }
    Ok(())
}

#[test]
fn many_rows_of_drawn_lists(rt: HostRuntime) -> Result<(), Fail> {
    let alloc = rt.alloc();
    for seed in 0..6u64 {
        let list = drawn(alloc, seed, 60_000)?;
        let rows = list.wah().len();
        for (first, step) in [(0, 1), (5, 2), (3_000, 3_968), (17, 10_007), (59_999, 1)] {
            let places = every(alloc, first, step, rows)?;
            is_toggled(&rt, alloc, &list, &places, rows)?;
            // Once more, from what was made page by page.
            let places_again = every(alloc, first, 7, rows)?;
            assert!(rt; places.iter().all(|place| *place < rows));
            assert!(rt; is_rising(&places));
            let made = list.toggled_pages(alloc, &places, rows)?;
            is_toggled(&rt, alloc, &made, &places_again, rows)?;
        }
    }
    Ok(())
}

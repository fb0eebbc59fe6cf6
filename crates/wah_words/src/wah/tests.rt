//! Words against the tables of the form, and operations against those of plain lists.
ghost use Rattle.std.specs.Prelude.{IsTrue};
ghost use Rattle.std.specs.List.Sorted.{IsStrictlyIncreasing};

use super::*;
use std::process::Abort;
use std::test::Fail;

mod algebra;
mod plain_lists;
mod toggles;
mod words;

// Rows given by runs of one value.
fn rows_of_runs(alloc: Global, runs: &[(bool, u32)]) -> Result<Vec<bool>, Memory> {
    let mut rows = Vec::new(alloc);
    for (value, count) in runs {
        for _ in 0..*count {
            rows.push(*value)?;
        }
    }
    Ok(rows)
}

fn wah_of_rows(rt: &impl Abort, alloc: Global, rows: &[bool]) -> Result<Wah, Fail> {
    assert!(rt; rows.len() < 4_294_967_296);
    Ok(Wah::from_rows(alloc, rows)?)
}

fn wah_of_words(alloc: Global, words: &[u32], rows: u32) -> Result<Wah, Fail> {
    Ok(Wah::from_words(words.to_vec(alloc)?, rows).ok_or("not canonical")?)
}

// Rows in runs of one to ninety, from a fixed generator.
fn made_rows(alloc: Global, state: &mut u64, count: usize) -> Result<Vec<bool>, Memory> {
    let mut rows = Vec::new(alloc);
    let mut value = false;
    let mut left = 0;
    for _ in 0..count {
        if left == 0 {
            *state = state
                .wrapping_mul(6_364_136_223_846_793_005)
                .wrapping_add(1_442_695_040_888_963_407);
            let draw = *state >> 33;
            left = if draw % 4 == 0 {
                draw / 4 % 97
            } else {
                draw / 4 % 4
            };
            value = !value;
        } else {
            left -= 1;
        }
        rows.push(value)?;
    }
    Ok(rows)
}

// Whether each place lies below the next.
fn is_rising(places: &[u32]) -> bool
    ensures { IsTrue result → IsStrictlyIncreasing places.now }
{
    for i in 1..places.len() {
        if places[i] <= places[i - 1] {
            return false;
        }
    }
    true
}

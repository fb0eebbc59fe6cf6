//! The last states of rows in the order of rows, from no states to many.
ghost use Rattle.std.specs.Prelude.{◌<◌};

use super::plain::tuple_of;
use crate::Memory;
use crate::row_state::{RowState, last_states};
use std::alloc::Global;
use std::test::Fail;

// How many rows are drawn from.
const ROWS: u32 = 700;

// The number of a row: they lie far apart, up to row 5,535,381.
fn row_of(n: u32) -> u32
    requires { n < 700 }
{
    n * 7_919
}

// One of the rows.
fn drawn(n: u32) -> u32
    ensures { result < 700 }
{
    (n.wrapping_mul(2_654_435_761) >> 8) % ROWS
}

fn states_of(alloc: Global, count: u32) -> Result<Vec<RowState>, Memory> {
    let mut states = Vec::new(alloc);
    for n in 0..count {
        states.push(RowState {
            row: row_of(drawn(n)),
            tuple: Some(tuple_of(n)),
        })?;
    }
    Ok(states)
}

// What is left of so many states, row by row.
fn left_of(alloc: Global, count: u32) -> Result<Vec<RowState>, Memory> {
    let mut newest = [None; ROWS as usize];
    for n in 0..count {
        newest[drawn(n) as usize] = Some(tuple_of(n));
    }
    let mut left = Vec::new(alloc);
    for n in 0..ROWS {
        if let Some(tuple) = newest[n as usize] {
            left.push(RowState {
                row: row_of(n),
                tuple: Some(tuple),
            })?;
        }
    }
    Ok(left)
}

#[test]
fn last_states_of_few_and_many(rt: HostRuntime) -> Result<(), Fail> {
    for count in [0, 1, 40, 1_000, 1_001, 20_000] {
        let states = states_of(rt.alloc(), count)?;
        if states.len() < 0x1_0000_0000 {
            let last = last_states(rt.alloc(), &states)?;
            assert_eq!(rt; last, left_of(rt.alloc(), count)?);
        }
    }
    Ok(())
}

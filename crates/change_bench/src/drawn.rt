//! Rows that are drawn from a table, and new tuples for them.
use cubit_base::{Flag, Key, LineStatus, Memory, Table, Tuple};
use std::alloc::Global;

// How many rows are drawn.
const ROWS: u32 = 400_000;

/// What is drawn next.
#[derive(Drop)]
pub(crate) struct Drawn {
    rows: Vec<(Key, Tuple)>,
    at: usize,
    state: u64,
}

impl Drawn {
    /// Draws rows from a table.
    pub(crate) fn from(alloc: Global, table: &Table) -> Result<Drawn, Memory> {
        let mut rows = Vec::with_capacity(alloc, ROWS as usize)?;
        let mut state = 1u64;
        for _ in 0..ROWS {
            let row = next(&mut state) % table.len().max(1);
            let Some((key, tuple)) = table.row(row) else {
                continue;
            };
            if let Some(tuple) = tuple {
                rows.push((key, tuple))?;
            }
        }
        Ok(Drawn { rows, at: 0, state })
    }

    /// The rows.
    pub(crate) fn rows(&self) -> &[(Key, Tuple)] {
        &self.rows
    }

    /// Tuples for so many rows: with other quantities than those of the base, or others in all columns.
    pub(crate) fn batch(
        &mut self,
        alloc: Global,
        count: u32,
        whole: bool,
    ) -> Result<Vec<(Key, Tuple)>, Memory> {
        let mut batch = Vec::with_capacity(alloc, count as usize)?;
        for _ in 0..count {
            let Some((key, old)) = self.rows.get(self.at) else {
                self.at = 0;
                continue;
            };
            self.at += 1;
            batch.push((*key, tuple_of(old, next(&mut self.state), whole)))?;
        }
        Ok(batch)
    }
}

/// The next number of a fixed sequence.
pub(crate) fn next(state: &mut u64) -> u32 {
    *state = state
        .wrapping_mul(6_364_136_223_846_793_005)
        .wrapping_add(1_442_695_040_888_963_407);
    (*state >> 33) as u32
}

// A tuple by a drawn number.
fn tuple_of(old: &Tuple, draw: u32, whole: bool) -> Tuple {
    let qty = (draw % 50) as u8 + 1;
    if !whole {
        return Tuple { qty, ..*old };
    }
    Tuple {
        price: draw % 10_000_000,
        day: (draw / 3 % 2_557) as u16,
        qty,
        disc: (draw / 50 % 11) as u8,
        tax: (draw / 7 % 9) as u8,
        flag: if draw & 256 == 0 { Flag::R } else { Flag::N },
        status: if draw & 512 == 0 {
            LineStatus::O
        } else {
            LineStatus::F
        },
    }
}

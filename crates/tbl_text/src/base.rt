//! A whole file: its lines one after another, and then a look for a key that stands twice.
ghost use Rattle.std.specs.Prelude.{◌≡◌, ◌≢◌, ◌≤◌, [], length, IfOk};
ghost use Rattle.cubit_base.specs.Table.{HasDistinctKeys};
ghost use Rattle.tbl_text.specs.Base.{IsBaseResult};
ghost use Rattle.tbl_text.specs.FirstRow.{IsFirstRow};
ghost use Rattle.tbl_text.specs.Lines.{lines_of};
ghost use Rattle.tbl_text.specs.Reading.{read_from, fault_of_end};

mod repeats;
mod rows;

use crate::{LineFault, Memory, careful, fast};
use cubit_base::{Key, ROW_LIMIT, Table, Tuple};
use rows::ReadRows;
use std::alloc::Global;

/// Why a file is no base table. Lines count from 1.
#[derive(Clone, Copy, Debug, PartialEq, Eq)]
pub enum BaseFault {
    /// This line is one more than the row limit.
    TooMany(u32),
    /// This line has this fault.
    Line(u32, LineFault),
    /// This line has the key of that earlier line.
    Twice(u32, u32),
    /// Memory ran out.
    Memory,
}

impl From<Memory> for BaseFault {
    ghost use Rattle.std.specs.Prelude.{◌≡◌};
    ghost use Rattle.tbl_text.specs.declared.base.BaseFault.TheVariants as fault;

    ghost from_gives = { λ _ given. given ≡ fault.Memory };

    fn from(_: Memory) -> BaseFault {
        BaseFault::Memory
    }
}

// Few lines of `lineitem` are shorter, so that room for the rows is mostly taken once.
const SHORT_LINE_LEN: usize = 100;

// Where the reading of lines ended.
#[derive(Clone, Copy, Debug, PartialEq, Eq)]
enum ReadEnd {
    // At the end of the file.
    File,
    // At this line, which is one more than the row limit.
    TooMany(u32),
    // At this line, which has this fault of its own.
    Faulty(u32, LineFault),
}

// The rows of the lines before that end.
#[derive(Drop)]
struct Reading {
    rows: ReadRows,
    end: ReadEnd,
}

/// The table of all lines, or what is wrong with the first bad line. At one line the order is as in `BaseFault`.
pub fn base_of(alloc: Global, bytes: &[u8], row_limit: u32) -> Result<Table, BaseFault>
    requires bytes { length bytes.now ≤ u32.MAX }
    requires limit { row_limit ≤ ROW_LIMIT }

    ensures value { IsBaseResult row_limit bytes.now result }
    ensures within { IfOk result (λ table. length table ≤ row_limit) }
    ensures distinct { IfOk result HasDistinctKeys }
{
    let reading = read_lines(alloc, bytes, row_limit)?;
    if let Some(repeat) = reading.rows.first_repeat(alloc)? {
        return Err(BaseFault::Twice(repeat.later + 1, repeat.earlier + 1));
    }
    match reading.end {
        ReadEnd::File => Ok(reading.rows.table),
        ReadEnd::TooMany(line) => Err(BaseFault::TooMany(line)),
        ReadEnd::Faulty(line, fault) => Err(BaseFault::Line(line, fault)),
    }
}

// Reads line after line.
fn read_lines(alloc: Global, bytes: &[u8], row_limit: u32) -> Result<Reading, Memory>
    requires bytes { length bytes.now ≤ u32.MAX }
    requires limit { row_limit ≤ ROW_LIMIT }

    ensures value { IfOk result (λ r. (r.rows.table, fault_of_end r.end) ≡ read_from row_limit 0 (lines_of bytes.now)) }
    ensures within { IfOk result (λ r. length r.rows.table ≤ row_limit) }
{
    let expected_rows = (bytes.len() / SHORT_LINE_LEN).min(row_limit as usize) as u32;
    let mut rows = ReadRows::with_capacity(alloc, expected_rows)?;
    let mut rest = bytes;
    while !rest.is_empty() {
        let number = rows.table.len() + 1;
        if number > row_limit {
            let end = ReadEnd::TooMany(number);
            return Ok(Reading { rows, end });
        }
        match first_row(rest) {
            Ok((key, tuple, others)) => {
                rows.push(key, tuple)?;
                rest = others;
            }
            Err(fault) => {
                let end = ReadEnd::Faulty(number, fault);
                return Ok(Reading { rows, end });
            }
        }
    }
    let end = ReadEnd::File;
    Ok(Reading { rows, end })
}

/// The key and the tuple of the first line and what follows the line, or the line's first fault: by the fast reader, and
/// where that gives up by the careful one. It takes no memory.
#[inline(always)]
pub fn first_row(bytes: &[u8]) -> Result<(Key, Tuple, &[u8]), LineFault>
    requires some { bytes.now ≢ [] }
    requires few { length bytes.now ≤ u32.MAX }
    ensures { IsFirstRow bytes.now result }
{
    match fast::first_row(bytes) {
        Some(found) => Ok(found),
        None => careful::first_row(bytes),
    }
}

#[cfg(test)]
mod tests;

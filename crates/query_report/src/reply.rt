//! Replies to commands, and their texts.
ghost use Rattle.std.specs.Prelude.{◌≡◌, ◌+◌, ◌<◌, ◌≤◌, ◌++◌, length, codes, count_by, OnOk, IfOk};
ghost use Rattle.query_report.specs.Field.{two_fields};
ghost use Rattle.query_report.specs.Reply.{numbered_text, drops_text, drop_reply, is_deleted, more_text, list_text, rows_reply, found_text, count_text, sum_text, merge_text, reply_bytes, reply_line};

use crate::Memory;
use crate::piece::{put_decimal4, put_field, put_tuple};
use cubit_base::{RowList, Tuple};
use std::alloc::Global;

/// What became of one line of an order that is dropped.
#[derive(Clone, Copy, Debug, PartialEq, Eq)]
pub enum DropLine {
    /// The place of its delta, from 0.
    Placed(u32),
    /// The line is missing at a front of this length.
    Missing(u32),
    /// The log is full at a front of this length.
    LogFull(u32),
}

/// The reply to a command. A place is that of the command's delta, from 0; a front is the length of the prefix of the
/// log at which the command was answered.
#[derive(Drop)]
pub enum Reply {
    /// The change of this row has this place.
    Placed {
        place: u32,
        row: u32,
    },
    /// The key is live, at this row.
    Duplicate {
        front: u32,
        row: u32,
    },
    /// The key is not live.
    Missing {
        front: u32,
    },
    /// No row may be added.
    TableFull {
        front: u32,
    },
    /// No delta may be added.
    LogFull {
        front: u32,
    },
    /// What became of the lines 1 to 7 of an order.
    DropLines([DropLine; 7]),
    /// The key's live row.
    Found {
        front: u32,
        row: u32,
        tuple: Tuple,
    },
    /// The key is not live.
    Absent {
        front: u32,
    },
    /// The rows that match; `patched` deltas were looked at.
    Rows {
        front: u32,
        list: RowList,
        patched: u32,
    },
    /// How many rows match.
    Count {
        front: u32,
        count: u32,
        patched: u32,
    },
    /// How many rows match, and the sum of price times discount over them in units of 0.0001.
    Sum {
        front: u32,
        count: u32,
        sum: u64,
        patched: u32,
    },
    /// The same for the form of TPC-H's query 6.
    Q6 {
        front: u32,
        count: u32,
        sum: u64,
        patched: u32,
    },
    /// How many units were merged, had nothing to merge, or were in others' hands.
    Merge {
        merged: u32,
        fresh: u32,
        busy: u32,
    },
}

// About as much as a reply's line takes.
const LINE_ROOM: usize = 64;

/// The line of a worker's reply to its command with this number, counted from 1.
pub fn reply_text(alloc: Global, worker: u8, number: u32, reply: &Reply) -> Result<Vec<u8>, Memory>
    ensures { IfOk result (λ text. text.items ≡ reply_line worker number reply.now) }
{
    let mut text = Vec::with_capacity(alloc, LINE_ROOM)?;
    put_reply_line(&mut text, worker, number, reply)?;
    Ok(text)
}

/// The same at the end of a text.
#[tactic(auto, unfolding(crate::specs::Reply::reply_line))]
pub(crate) fn put_reply_line(
    text: &mut Vec<u8>,
    worker: u8,
    number: u32,
    reply: &Reply,
) -> Result<(), Memory>
    ensures { OnOk result (text.new.items ≡ text.old.items ++ reply_line worker number reply.now) }
{
    put_two(text, b"w", u32::from(worker), b" ", number)?;
    text.extend_from_slice(b" ")?;
    put_reply(text, reply)?;
    text.extend_from_slice(b"\n")?;
    Ok(())
}

#[tactic(auto, unfolding(crate::specs::Reply::reply_bytes))]
fn put_reply(text: &mut Vec<u8>, reply: &Reply) -> Result<(), Memory>
    ensures { OnOk result (text.new.items ≡ text.old.items ++ reply_bytes reply.now) }
{
    match reply {
        Reply::Placed { place, row } => put_two(text, b"placed at=", *place, b" row=", *row),
        Reply::Duplicate { front, row } => put_duplicate(text, *front, *row),
        Reply::Missing { front } => put_field(text, b"missing front=", *front),
        Reply::TableFull { front } => put_field(text, b"table-full front=", *front),
        Reply::LogFull { front } => put_field(text, b"log-full front=", *front),
        Reply::DropLines(lines) => put_drop(text, lines),
        Reply::Found { front, row, tuple } => put_found(text, *front, *row, tuple),
        Reply::Absent { front } => put_field(text, b"absent front=", *front),
        Reply::Rows {
            front,
            list,
            patched,
        } => put_rows(text, *front, list, *patched),
        Reply::Count {
            front,
            count,
            patched,
        } => put_count(text, *front, *count, *patched),
        Reply::Sum {
            front,
            count,
            sum,
            patched,
        } => put_sum(text, b"sum front=", *front, *count, *sum, *patched),
        Reply::Q6 {
            front,
            count,
            sum,
            patched,
        } => put_sum(text, b"q6 front=", *front, *count, *sum, *patched),
        Reply::Merge {
            merged,
            fresh,
            busy,
        } => put_merge(text, *merged, *fresh, *busy),
    }
}

/// Two labels with their numbers.
#[tactic(auto, unfolding(crate::specs::Field::two_fields))]
pub(crate) fn put_two(
    text: &mut Vec<u8>,
    label: &[u8],
    number: u32,
    next: &[u8],
    second: u32,
) -> Result<(), Memory>
    ensures { OnOk result (text.new.items ≡ text.old.items ++ two_fields label.now number next.now second) }
{
    put_field(text, label, number)?;
    put_field(text, next, second)?;
    Ok(())
}

fn put_duplicate(text: &mut Vec<u8>, front: u32, row: u32) -> Result<(), Memory>
    ensures { OnOk result (text.new.items ≡ text.old.items
        ++ two_fields (codes "duplicate front=") front (codes " row=") row) }
{
    put_two(text, b"duplicate front=", front, b" row=", row)
}

fn put_found(text: &mut Vec<u8>, front: u32, row: u32, tuple: &Tuple) -> Result<(), Memory>
    ensures { OnOk result (text.new.items ≡ text.old.items ++ found_text front row tuple.now) }
{
    put_two(text, b"found front=", front, b" row=", row)?;
    text.extend_from_slice(b" tuple=")?;
    put_tuple(text, tuple)?;
    Ok(())
}

fn put_count(text: &mut Vec<u8>, front: u32, count: u32, patched: u32) -> Result<(), Memory>
    ensures { OnOk result (text.new.items ≡ text.old.items ++ count_text front count patched) }
{
    put_two(text, b"count front=", front, b" count=", count)?;
    put_field(text, b" patched=", patched)?;
    Ok(())
}

fn put_sum(
    text: &mut Vec<u8>,
    label: &[u8],
    front: u32,
    count: u32,
    sum: u64,
    patched: u32,
) -> Result<(), Memory>
    ensures { OnOk result (text.new.items ≡ text.old.items ++ sum_text label.now front count sum patched) }
{
    put_two(text, label, front, b" count=", count)?;
    text.extend_from_slice(b" sum=")?;
    put_decimal4(text, sum)?;
    put_field(text, b" patched=", patched)?;
    Ok(())
}

fn put_merge(text: &mut Vec<u8>, merged: u32, fresh: u32, busy: u32) -> Result<(), Memory>
    ensures { OnOk result (text.new.items ≡ text.old.items ++ merge_text merged fresh busy) }
{
    put_two(text, b"merge merged=", merged, b" fresh=", fresh)?;
    put_field(text, b" busy=", busy)?;
    Ok(())
}

fn put_rows(text: &mut Vec<u8>, front: u32, list: &RowList, patched: u32) -> Result<(), Memory>
    ensures { OnOk result (text.new.items ≡ text.old.items ++ rows_reply front list.now patched) }
{
    put_two(text, b"rows front=", front, b" count=", list.len())?;
    put_list(text, list.as_slice())?;
    put_field(text, b" patched=", patched)?;
    Ok(())
}

#[tactic(auto, unfolding(crate::specs::Reply::list_text))]
fn put_list(text: &mut Vec<u8>, list: &[u32]) -> Result<(), Memory>
    ensures { OnOk result (text.new.items ≡ text.old.items ++ list_text list.now) }
{
    match list {
        [] => text.extend_from_slice(b" list=-"),
        [first, rest @ ..] => {
            put_field(text, b" list=", *first)?;
            put_rest(text, rest)
        }
    }
}

// Each number behind a comma.
fn put_rest(text: &mut Vec<u8>, list: &[u32]) -> Result<(), Memory>
    ensures { OnOk result (text.new.items ≡ text.old.items ++ more_text 1 list.now) }
{
    for row in list {
        put_field(text, b",", *row)?;
    }
    Ok(())
}

fn put_drop(text: &mut Vec<u8>, lines: &[DropLine; 7]) -> Result<(), Memory>
    ensures { OnOk result (text.new.items ≡ text.old.items ++ drop_reply lines.now) }
{
    put_field(text, b"drop deleted=", deleted_count(lines))?;
    put_drop_lines(text, lines)
}

pub(crate) fn deleted_count(lines: &[DropLine]) -> u32
    requires { length lines.now ≤ 7 }
    ensures { result ≡ count_by is_deleted lines.now }
{
    let mut count = 0;
    for line in lines {
        if let DropLine::Placed(_) = line {
            count += 1;
        }
    }
    count
}

// Each line behind its number.
fn put_drop_lines(text: &mut Vec<u8>, lines: &[DropLine]) -> Result<(), Memory>
    requires { length lines.now ≤ 7 }
    ensures { OnOk result (text.new.items ≡ text.old.items ++ drops_text 49 lines.now) }
{
    for (at, line) in lines.iter().enumerate() {
        put_drop_line(text, b'1' + at as u8, *line)?;
    }
    Ok(())
}

fn put_drop_line(text: &mut Vec<u8>, digit: u8, line: DropLine) -> Result<(), Memory>
    ensures { OnOk result (text.new.items ≡ text.old.items ++ numbered_text digit line) }
{
    text.extend_from_slice(&[b' ', digit, b'='])?;
    match line {
        DropLine::Placed(place) => put_field(text, b"p", place),
        DropLine::Missing(front) => put_field(text, b"m", front),
        DropLine::LogFull(front) => put_field(text, b"f", front),
    }
}

#[cfg(test)]
mod tests;

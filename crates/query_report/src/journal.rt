//! The text of a journal.
ghost use Rattle.std.specs.Prelude.{◌≡◌, ◌+◌, ◌<◌, ◌^◌, ◌++◌, length, OnOk, IfOk};
ghost use Rattle.query_report.specs.Journal.{place_text, delta_line, delta_lines, journal_bytes};

use crate::Memory;
use crate::piece::{put_field, put_held, put_number};
use cubit_base::{Delta, DeltaList};
use std::alloc::Global;

// About as much as a line of a journal takes.
const LINE_ROOM: usize = 128;

/// The number of the deltas, and a line for each in order.
pub fn journal_text(alloc: Global, journal: &DeltaList) -> Result<Vec<u8>, Memory>
    ensures { IfOk result (λ text. text.items ≡ journal_bytes journal.now) }
{
    let mut text = Vec::with_capacity(alloc, journal.len() as usize * LINE_ROOM)?;
    put_journal(&mut text, journal)?;
    Ok(text)
}

/// The same at the end of a text.
pub(crate) fn put_journal(text: &mut Vec<u8>, journal: &DeltaList) -> Result<(), Memory>
    ensures { OnOk result (text.new.items ≡ text.old.items ++ journal_bytes journal.now) }
{
    put_field(text, b"journal ", journal.len())?;
    text.extend_from_slice(b"\n")?;
    put_deltas(text, journal.as_slice())
}

fn put_deltas(text: &mut Vec<u8>, deltas: &[Delta]) -> Result<(), Memory>
    requires { length deltas.now < 2 ^ 32 }
    ensures { OnOk result (text.new.items ≡ text.old.items ++ delta_lines 0 deltas.now) }
{
    for (place, delta) in deltas.iter().enumerate() {
        put_delta(text, place as u32, delta)?;
    }
    Ok(())
}

// The line of the delta at a place.
#[tactic(auto, unfolding(crate::specs::Journal::delta_line))]
fn put_delta(text: &mut Vec<u8>, place: u32, delta: &Delta) -> Result<(), Memory>
    ensures { OnOk result (text.new.items ≡ text.old.items ++ delta_line place delta.now) }
{
    put_place(text, place, delta)?;
    text.extend_from_slice(b" old=")?;
    put_held(text, delta.before)?;
    text.extend_from_slice(b" new=")?;
    put_held(text, delta.after)?;
    text.extend_from_slice(b"\n")?;
    Ok(())
}

// The place, the author, the key and the row.
#[tactic(auto, unfolding(crate::specs::Journal::place_text))]
fn put_place(text: &mut Vec<u8>, place: u32, delta: &Delta) -> Result<(), Memory>
    ensures { OnOk result (text.new.items
        ≡ text.old.items ++ place_text place delta.now.author delta.now.key delta.now.row) }
{
    put_number(text, place)?;
    put_field(text, b" w", u32::from(delta.author))?;
    put_field(text, b" ", delta.key.order)?;
    put_field(text, b".", u32::from(delta.key.line))?;
    put_field(text, b" row=", delta.row)?;
    Ok(())
}

#[cfg(test)]
mod tests;

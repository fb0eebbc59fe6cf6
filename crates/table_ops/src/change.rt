//! Changes, and what each comes to by the live row that its key has at a front.
ghost use Rattle.std.specs.Prelude.{◌≡◌, List, length, Option, Some, None};
ghost use Rattle.cubit_base.specs.Table.{Row};
ghost use Rattle.cubit_base.specs.LiveRow.{live_row};
ghost use Rattle.cubit_base.specs.Change.{outcome, key_of, insert_outcome, live_outcome};
ghost use Rattle.table_ops.specs.Changed.{change_of, decided, IsAt};

use crate::OpStop;
use commit_log::Front;
use cubit_base::{Delta, Key, Limits, Tuple};

// A change that a caller asks for.
#[derive(Clone, Copy)]
pub(crate) enum Asked {
    // A new row with this key and tuple.
    Insert(Key, Tuple),
    // Another tuple for the key's live row.
    Update(Key, Tuple),
    // No tuple for it.
    Delete(Key),
}

impl Asked {
    /// The key.
    pub(crate) fn key(&self) -> Key
        ensures { result ≡ key_of (change_of self.now) }
    {
        match self {
            Asked::Insert(key, _) | Asked::Update(key, _) | Asked::Delete(key) => *key,
        }
    }

    /// What comes of the author's change at a front where the key has this live row.
    pub(crate) fn decide(
        &self,
        author: u8,
        live: Option<(u32, Tuple)>,
        front: &Front,
        limits: &Limits,
    ) -> Result<Delta, OpStop>
        ensures outcome { (table : List Row) → length table ≡ front.now.rows →
            live_row table (key_of (change_of self.now)) ≡ live →
            outcome limits.now.row_limit limits.now.log_limit table front.now.len author (change_of self.now)
            ≡ decided result }
        ensures front { IsAt front.now result }
    {
        match self {
            Asked::Insert(key, tuple) => insert_at(author, *key, *tuple, live, front, limits),
            Asked::Update(key, tuple) => change_at(author, *key, Some(*tuple), live, front, limits),
            Asked::Delete(key) => change_at(author, *key, None, live, front, limits),
        }
    }
}

// An insert of a key that has this live row at a front.
fn insert_at(
    author: u8,
    key: Key,
    tuple: Tuple,
    live: Option<(u32, Tuple)>,
    front: &Front,
    limits: &Limits,
) -> Result<Delta, OpStop>
    ensures outcome { (table : List Row) → length table ≡ front.now.rows →
        insert_outcome limits.now.row_limit limits.now.log_limit table front.now.len
        (record { author = author; row = length table; key = key; before = None; after = Some tuple }) live
        ≡ decided result }
    ensures front { IsAt front.now result }
{
    if let Some((row, _)) = live {
        return Err(OpStop::Duplicate(*front, row));
    }
    if front.rows == limits.row_limit {
        return Err(OpStop::TableFull(*front));
    }
    if front.len == limits.log_limit {
        return Err(OpStop::LogFull(*front));
    }
    Ok(Delta {
        author,
        row: front.rows,
        key,
        before: None,
        after: Some(tuple),
    })
}

// An update or a delete of a key that has this live row at a front.
fn change_at(
    author: u8,
    key: Key,
    after: Option<Tuple>,
    live: Option<(u32, Tuple)>,
    front: &Front,
    limits: &Limits,
) -> Result<Delta, OpStop>
    ensures outcome { live_outcome limits.now.log_limit front.now.len author key after live ≡ decided result }
    ensures front { IsAt front.now result }
{
    let Some((row, before)) = live else {
        return Err(OpStop::Missing(*front));
    };
    if front.len == limits.log_limit {
        return Err(OpStop::LogFull(*front));
    }
    Ok(Delta {
        author,
        row,
        key,
        before: Some(before),
        after,
    })
}

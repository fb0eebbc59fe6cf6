//! The rows that were read, in the order of their lines.
ghost use Rattle.std.specs.Prelude.{◌≡◌, ◌<◌, ◌≤◌, [], ◌∷◌, ◌++◌, length, Some, IfOk, OnOk, OnErr, IsTrue, ◌↔◌};
ghost use Rattle.cubit_base.specs.declared.table.TheConstants.{ROW_LIMIT};
ghost use Rattle.tbl_text.specs.ReadRows.{is_above, HasRisingKeys, last_key};

use crate::Memory;
use cubit_base::{Key, Table, Tuple};
use std::alloc::Global;

/// The rows of the lines that were read.
#[derive(Drop)]
pub(crate) struct ReadRows {
    /// The rows in the order of their lines.
    pub(crate) table: Table,
    // The key of the last row.
    last: Option<Key>,
    /// Whether each row's key is above the one before it, as in the files that TPC-H's generator writes.
    pub(crate) are_rising: bool,
    ghost ends: { last ≡ last_key table },
    ghost rising: { IsTrue are_rising ↔ HasRisingKeys table },
}

// Whether the key is above the other, if there is one.
fn is_above(key: Key, other: Option<Key>) -> bool
    ensures { result ≡ is_above key other }
{
    match other {
        Some(other) => other < key,
        None => true,
    }
}

impl ReadRows {
    /// No rows, with room for so many.
    pub(crate) fn with_capacity(alloc: Global, rows: u32) -> Result<ReadRows, Memory>
        ensures { IfOk result (λ r. r.table ≡ []) }
    {
        Ok(ReadRows {
            table: Table::with_capacity(alloc, rows)?,
            last: None,
            are_rising: true,
        })
    }

    /// Puts the row of a line at the end.
    pub(crate) fn push(&mut self, key: Key, tuple: Tuple) -> Result<(), Memory>
        requires { length self.old.table < ROW_LIMIT }
        ensures ok { OnOk result (self.new.table ≡ self.old.table ++ (key, Some tuple) ∷ []) }
        ensures err { OnErr result (self.new.table ≡ self.old.table) }
    {
        self.table.push(key, Some(tuple))?;
        self.are_rising &= is_above(key, self.last);
        self.last = Some(key);
        Ok(())
    }
}

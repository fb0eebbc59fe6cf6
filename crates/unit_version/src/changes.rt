//! What a stretch of deltas changes, found once for all units.
ghost use Rattle.std.specs.Prelude.{◌≡◌, ◌<◌, All, IfOk};
ghost use Rattle.unit_version.specs.Changes.{AreKeyChanges, AreRowChanges, AreTurnedIn, IsBitUnit};

mod keyed;
mod row;
mod span;
mod turned;

use crate::{Memory, Unit};
use cubit_base::DeltaList;
pub(crate) use keyed::KeyChange;
use keyed::key_changes;
use row::row_changes;
pub(crate) use row::{RowChange, first_from};
use std::alloc::Global;
use std::marker::Model;
use std::snapshot::Snapshot;
use turned::{place_of, turned_rows};

/// What deltas change, row by row, bin by bin and key by key; contracts see the deltas.
#[derive(Drop)]
pub struct Changes {
    // The deltas, which take no bytes here: contracts alone read them.
    deltas: Snapshot<DeltaList>,
    // In rising order of rows.
    rows: Vec<RowChange>,
    // For each unit of truth values the rows that are turned in it, rising.
    turned: Vec<Vec<u32>>,
    // For each key page the keys that change, in rising order of codes.
    keys: Vec<Vec<KeyChange>>,
}

impl Model for Changes {
    ghost use Rattle.std.specs.Prelude.{List};
    ghost use Rattle.cubit_base.specs.declared.delta.Delta.{Delta};

    ghost Value = { List Delta };

    ghost use Rattle.unit_version.specs.Changes.{AreChanges};

    ghost view = { λ c. c.deltas.value };

    ghost invariant = { λ c. AreChanges c.deltas.value c.rows.items c.turned.items c.keys.items };
}

impl Changes {
    /// What the deltas change. It takes two sorts of their numbers, and passes over them.
    pub fn of(alloc: Global, deltas: &DeltaList) -> Result<Changes, Memory>
        ensures { IfOk result (λ changes. changes ≡ deltas.now) }
    {
        // Their number is read, so that it is known to have 32 bits.
        let _count = deltas.len();
        let rows = row_changes(alloc, deltas.as_slice())?;
        let turned = turned_rows(alloc, &rows)?;
        let keys = key_changes(alloc, deltas.as_slice())?;
        Ok(Changes {
            deltas: Snapshot::of(deltas),
            rows,
            turned,
            keys,
        })
    }

    /// The rows that change, rising.
    pub(crate) fn rows(&self) -> &[RowChange]
        ensures { AreRowChanges self.now result.now }
    {
        &self.rows
    }

    /// The rows that are turned in a unit of truth values, rising.
    pub(crate) fn turned_in(&self, unit: Unit) -> &[u32]
        requires { IsBitUnit unit }
        ensures { AreTurnedIn unit self.now result.now }
    {
        &self.turned[place_of(unit)]
    }

    /// The keys of a page that change, in rising order of codes.
    pub(crate) fn keys_of(&self, rest: u8) -> &[KeyChange]
        requires { rest < 64 }
        ensures keys { AreKeyChanges rest self.now result.now }
        ensures lines { All (λ d. d.key.line < 8) self.now }
    {
        &self.keys[usize::from(rest)]
    }
}

//! Deltas in memory, at 48 bytes each.
ghost use Rattle.std.specs.Prelude.{◌≡◌, ◌↔◌, IsTrue, IfSome};
ghost use Rattle.cubit_base.specs.Tuple.{IsTuple};
ghost use Rattle.commit_log.specs.StoredDelta.{delta_of, stored_of};

use cubit_base::{Delta, Entry, Key, Tuple};

/// A delta of author 0, with both tuples as a reader takes them.
#[derive(Drop)]
pub(crate) struct StoredDelta {
    before: Option<Tuple>,
    after: Option<Tuple>,
    key: Key,
    row: u32,
    /// How many rows there ever were after it.
    rows: u32,
}

const _: () = prove!(size_of::<StoredDelta>() == 48);

impl StoredDelta {
    /// The author is left out.
    pub(crate) fn new(delta: &Delta, rows: u32) -> StoredDelta
        ensures { result ≡ stored_of delta.now rows }
    {
        StoredDelta {
            before: delta.before,
            after: delta.after,
            key: delta.key,
            row: delta.row,
            rows,
        }
    }

    /// The entry of this delta as the one with that number, counted from 1.
    pub(crate) fn entry(&self, seq: u32) -> Entry
        ensures { result ≡ record { seq = seq; rows = self.now.rows; delta = delta_of self.now } }
    {
        Entry {
            seq,
            rows: self.rows,
            delta: Delta {
                author: 0,
                row: self.row,
                key: self.key,
                before: self.before,
                after: self.after,
            },
        }
    }

    /// The order of its key.
    pub(crate) fn order(&self) -> u32
        ensures { result ≡ self.now.key.order }
    {
        self.key.order
    }

    /// Whether it has this key.
    pub(crate) fn has_key(&self, key: &Key) -> bool
        ensures { IsTrue result ↔ (self.now.key ≡ key.now) }
    {
        self.key == *key
    }
}

/// A tuple is within its ranges. This does nothing: where it is called, that is known.
pub(crate) fn is_within(tuple: &Option<Tuple>)
    ensures { IfSome tuple.now IsTuple }
{
    match tuple {
        Some(tuple) => {
            let _day = tuple.day;
        }
        None => {}
    }
}

//! Whether a delta is lawful behind a place of the chain.
ghost use Rattle.std.specs.Prelude.{◌≡◌, ◌≢◌, ℕ, if◌then◌else◌, ◌≤◌, ◌<◌, ◌^◌, length, take, [], ◌∷◌, ◌++◌, slice_get, Some, None, IfSome, IsTrue, ◌↔◌};
ghost use Rattle.cubit_base.specs.Key.{IsKey};
ghost use Rattle.cubit_base.specs.Tuple.{TupleValue, IsTuple};
ghost use Rattle.cubit_base.specs.LiveRow.{IsFree};
ghost use Rattle.cubit_base.specs.Delta.{IsInsert, IsLawful, is_insert};
ghost use Rattle.cubit_base.specs.History.{after, rows_after};
ghost use Rattle.cubit_base.specs.EntryWords.{FitsWords};
ghost use Rattle.log_core.specs.Chain.{delta_count, entry_count, delta_at};
ghost use Rattle.log_core.specs.Steps.{MayComeNext};
ghost use Rattle.log_core.specs.Run.{MayCommit};

use super::Core;
use cubit_base::{Delta, Entry, Key, Tuple, laws};

type Row = (Key, Option<Tuple>);

fn is_row(row: &Option<Row>, key: &Key, tuple: &Option<Tuple>) -> bool
    ensures { IsTrue result ↔ (row.now ≡ Some (key.now, tuple.now)) }
{
    match row {
        Some((k, t)) => k == key && t == tuple,
        None => false,
    }
}

fn is_live(row: &Option<Row>, key: &Key) -> bool
    ensures { IsTrue result ↔ ((t : TupleValue) × (row.now ≡ Some (key.now, Some t))) }
{
    match row {
        Some((k, Some(_))) => k == key,
        _ => false,
    }
}

// A key, a tuple, and those of a delta are within their ranges. These do nothing: where they are called, that is known.
fn is_key(key: &Key)
    ensures key { IsKey key.now }
    ensures order { key.now.order < 2 ^ 32 }
{
    let _order = key.order;
}

fn is_tuple(tuple: &Option<Tuple>)
    ensures { IfSome tuple.now IsTuple }
{
    match tuple {
        Some(tuple) => {
            let _day = tuple.day;
        }
        None => {}
    }
}

fn is_within(delta: &Delta)
    ensures key { IsKey delta.now.key }
    ensures order { delta.now.key.order < 2 ^ 32 }
    ensures before { IfSome delta.now.before IsTuple }
    ensures after { IfSome delta.now.after IsTuple }
{
    is_key(&delta.key);
    is_tuple(&delta.before);
    is_tuple(&delta.after);
}

fn rows_added(delta: &Delta) -> u32
    ensures value { result ≡ (if is_insert delta.now then 1 else 0) }
    ensures within { result ≤ 1 }
{
    u32::from(delta.before.is_none())
}

// The row after a delta, by what it was before.
fn row_after(delta: &Delta, row: u32, before: Option<Row>) -> Option<Row>
    ensures own { row ≡ delta.now.row → result ≡ Some (delta.now.key, delta.now.after) }
    ensures other { row ≢ delta.now.row → result ≡ before }
{
    if delta.row == row {
        return Some((delta.key, delta.after));
    }
    before
}

impl Core {
    // How many rows there are behind a place.
    fn rows_behind(&self, place: u32) -> u32
        requires { place ≤ entry_count self.now.chain.history }
        ensures value { result ≡ rows_after self.now.terms.base (take place self.now.chain.history) }
        ensures within { result ≤ 16_777_216 }
    {
        laws::deltas();
        laws::rows();
        laws::histories();
        self.is_sound();
        let mut rows = self.base_rows();
        for i in 0..place {
            rows += rows_added(self.delta(i));
        }
        rows
    }

    /// How many rows there are after a delta behind a place.
    pub(super) fn rows_with(&self, place: u32, delta: &Delta) -> u32
        requires place { place ≤ entry_count self.now.chain.history }
        requires lawful { IsLawful self.now.terms.limits.row_limit
            (after self.now.terms.base (take place self.now.chain.history)) delta.now }
        ensures { result ≡ rows_after self.now.terms.base (take place self.now.chain.history ++ delta.now ∷ []) }
    {
        laws::deltas();
        self.rows_behind(place) + rows_added(delta)
    }

    /// The entry with this delta, where that may come next of all.
    pub(crate) fn next_entry(&self, party: u8, delta: &Delta) -> Entry
        requires party { party < length self.now.parties }
        requires author { delta.now.author ≡ party }
        requires room { delta_count self.now.chain.history < self.now.terms.limits.log_limit }
        requires lawful { IsLawful self.now.terms.limits.row_limit
            (after self.now.terms.base self.now.chain.history) delta.now }
        ensures fits { FitsWords result }
        ensures next { MayComeNext self.now party (entry_count self.now.chain.history) result }
        ensures delta { result.delta ≡ delta.now }
    {
        laws::deltas();
        laws::rows();
        laws::histories();
        self.is_sound();
        is_within(delta);
        let place = self.len();
        Entry {
            seq: place + 1,
            rows: self.rows_with(place, delta),
            delta: Delta { ..*delta },
        }
    }

    /// Whether the party may append the delta next of all.
    pub(crate) fn may_append(&self, party: u8, delta: &Delta) -> bool
        ensures { IsTrue result ↔ MayCommit self.now party delta.now }
    {
        self.is_sound();
        let at = usize::from(party);
        if at >= self.party_count()
            || delta.author != party
            || self.len() >= self.limits.log_limit
        {
            return false;
        }
        if !self.has_node(at) {
            return false;
        }
        self.is_lawful_behind(self.len(), delta)
    }

    // A row behind a place, or none past the last one.
    fn row_behind(&self, place: u32, row: u32) -> Option<Row>
        requires { place ≤ entry_count self.now.chain.history }
        ensures { result ≡ slice_get (after self.now.terms.base (take place self.now.chain.history)) row }
    {
        laws::deltas();
        self.is_sound();
        let mut now = self.base_row(row);
        for i in 0..place {
            now = row_after(self.delta(i), row, now);
        }
        now
    }

    // Whether no row behind a place has the key and a tuple.
    fn is_free_behind(&self, place: u32, key: &Key) -> bool
        requires { place ≤ entry_count self.now.chain.history }
        ensures { IsTrue result ↔ IsFree (after self.now.terms.base (take place self.now.chain.history)) key.now }
    {
        for row in 0..self.rows_behind(place) {
            if is_live(&self.row_behind(place, row), key) {
                return false;
            }
        }
        true
    }

    /// Whether the delta is lawful behind a place.
    pub(super) fn is_lawful_behind(&self, place: u32, delta: &Delta) -> bool
        requires { place ≤ entry_count self.now.chain.history }
        ensures { IsTrue result ↔ IsLawful self.now.terms.limits.row_limit
            (after self.now.terms.base (take place self.now.chain.history)) delta.now }
    {
        if delta.before.is_some() {
            return is_row(
                &self.row_behind(place, delta.row),
                &delta.key,
                &delta.before,
            );
        }
        self.is_insert_behind(place, delta)
    }

    fn is_insert_behind(&self, place: u32, delta: &Delta) -> bool
        requires place { place ≤ entry_count self.now.chain.history }
        requires before { delta.now.before ≡ None }
        ensures { IsTrue result ↔ IsInsert self.now.terms.limits.row_limit
            (after self.now.terms.base (take place self.now.chain.history)) delta.now }
    {
        let rows = self.rows_behind(place);
        if delta.after.is_none() || delta.row != rows || rows >= self.limits.row_limit {
            return false;
        }
        self.is_free_behind(place, &delta.key)
    }

    fn base_rows(&self) -> u32
        ensures value { result ≡ length self.now.terms.base }
        ensures within { result ≤ 16_777_216 }
    {
        self.base.len()
    }

    fn base_row(&self, row: u32) -> Option<Row>
        ensures { result ≡ slice_get self.now.terms.base row }
    {
        self.base.row(row)
    }

    fn delta(&self, place: u32) -> &Delta
        requires { place < entry_count self.now.chain.history }
        ensures { result.now ≡ delta_at self.now.chain.history place }
    {
        &self.deltas[place as usize]
    }
}

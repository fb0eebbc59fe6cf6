//! A log of one caller, who keeps its deltas in order.
ghost use Rattle.std.specs.Prelude.{◌≡◌, ◌+◌, ◌-◌, ◌≤◌, ◌<◌, List, [], ◌∷◌, ◌++◌, length, take, IfOk, IfSome, IfNone, IsTrue, ◌↔◌, OnErr, All, if◌then◌else◌};
ghost use Rattle.std.specs.List.{range_with_len};
ghost use Rattle.cubit_base.specs.Table.{Row};
ghost use Rattle.cubit_base.specs.Delta.{is_insert, IsLawful};
ghost use Rattle.cubit_base.specs.History.{after, LimitsFit};
ghost use Rattle.cubit_base.specs.declared.entry.Limits.{Limits as LimitsValue};
ghost use Rattle.commit_log.specs.Log.{IsLog, Stands, IsWhole, IsEntry, MayFollow, HasKey, HasNone, IsLastPlace};
ghost use Rattle.commit_log.specs.Handle.{Begins, mine, Appends, append_steps, RisesWithin};
ghost use Rattle.commit_log.specs.Serial.{SerialValue, is_late, serial_terms, serial_handle};

use crate::orders::last_end;
use crate::stored::{StoredDelta, is_within};
use crate::{AppendStop, CommitLog, Cursor, Front, Memory};
use cubit_base::{Delta, Entry, Key, Limits, Steps, laws};
use std::alloc::Global;
use std::marker::{Brand, Model, PhantomData};
use std::sync::ledger::Ledger;

/// The base table and the limits of a log, for contracts alone. The function round a whole session picks them.
pub trait Setup {
    ghost base: { List Row };

    ghost limits: { LimitsValue };
}

impl Setup for Brand {
    ghost base = { [] };

    ghost limits = { record { row_limit = 0; log_limit = 0; tries = 0 } };
}

/// A log of one caller, whose author is 0, at 52 bytes a delta.
#[derive(Drop)]
pub struct SerialLog<S: Setup> {
    entries: Vec<StoredDelta>,
    orders: Vec<u32>,
    base_rows: u32,
    rows: u32,
    spare: u32,
    walked: u64,
    limits: Limits,
    setup: PhantomData<S>,
}

impl<S: Setup> Model for SerialLog<S> {
    ghost use Rattle.std.specs.Prelude.{vec_len, vec_capacity};
    ghost use Rattle.commit_log.specs.Serial.{SerialValue, serial_terms, deltas_of, IsSerial, HasRoom};

    ghost Value = { SerialValue };

    ghost view = { λ s. record { seen = deltas_of s.entries.items; spare = s.spare; walked = s.walked } };

    ghost invariant = { λ s.
        IsSerial (serial_terms S.base S.limits) s.entries.items s.orders.items s.base_rows s.rows s.limits
        × HasRoom (vec_len s.entries) (vec_capacity s.entries) s.spare
        × HasRoom (vec_len s.orders) (vec_capacity s.orders) s.spare };
}

/// It names the prefix of this length.
#[derive(Drop)]
pub struct SerialDate {
    len: u32,
}

impl<S: Setup> SerialLog<S> {
    /// An empty log over a base table with so many rows, and room for a share of deltas. Later calls take no memory.
    pub fn make(
        alloc: Global,
        base_rows: u32,
        share: u32,
        limits: Limits,
    ) -> Result<SerialLog<S>, Memory>
        requires base { base_rows ≡ length S.base }
        requires limits { limits ≡ S.limits }
        requires fit { LimitsFit limits.row_limit limits.log_limit S.base }
        requires tries { 1 ≤ limits.tries }
        requires share { share ≤ 4_194_304 }
        ensures { IfOk result (λ log. log ≡ record { seen = []; spare = share; walked = 0 }) }
    {
        Ok(SerialLog {
            entries: Vec::with_capacity(alloc, share as usize)?,
            orders: Vec::with_capacity(alloc, share as usize)?,
            base_rows,
            rows: base_rows,
            spare: share,
            walked: 0,
            limits,
            setup: PhantomData,
        })
    }

    // The front of all that there is.
    fn whole(&self) -> Front
        ensures log { IsLog (serial_terms S.base S.limits) self.now.seen }
        ensures whole { IsWhole (serial_terms S.base S.limits) self.now.seen result }
    {
        let len = self.entries.len() as u32;
        Front {
            len,
            rows: self.rows,
            node: len,
        }
    }

    // Puts a delta at the end.
    fn add(&mut self, delta: &Delta)
        requires room { length self.old.seen < S.limits.log_limit }
        requires lawful { IsLawful S.limits.row_limit (after S.base self.old.seen) delta.now }
        requires author { delta.now.author ≡ 0 }
        requires spare { 1 ≤ self.old.spare }
        ensures { self.new ≡ record self.old { seen = self.old.seen ++ delta.now ∷ []; spare = self.old.spare - 1 } }
    {
        laws::histories();
        laws::deltas();
        laws::rows();
        is_within(&delta.after);
        let rows = self.rows + rows_added(delta);
        let stored = StoredDelta::new(delta, rows);
        self.rows = rows;
        self.spare -= 1;
        self.orders.push_reserved(stored.order());
        self.entries.push_reserved(stored);
    }

    // The entry in a place.
    fn entry(&self, place: u32) -> Entry
        requires { place < length self.now.seen }
        ensures { IsEntry (serial_terms S.base S.limits) self.now.seen place result }
    {
        let stored = &self.entries[place as usize];
        stored.entry(place + 1)
    }

    // Where the last deltas up to a place that cannot have the key begin; the first place at the least.
    fn end_of(&self, key: &Key, from: u32, to: u32) -> u32
        requires order { from ≤ to }
        requires within { to ≤ length self.now.seen }
        ensures first { from ≤ result }
        ensures within { result ≤ to }
        ensures none { HasNone self.now.seen key.now result to }
    {
        last_end(&self.orders, key.order, from as usize, to as usize) as u32
    }

    fn has_key(&self, key: &Key, place: u32) -> bool
        requires { place < length self.now.seen }
        ensures { IsTrue result ↔ HasKey self.now.seen key.now place }
    {
        let stored = &self.entries[place as usize];
        stored.has_key(key)
    }

    // The place of the last delta with this key from one length to another.
    fn last_place(&self, key: &Key, from: u32, to: u32) -> Option<u32>
        requires order { from ≤ to }
        requires within { to ≤ length self.now.seen }
        ensures some { IfSome result (IsLastPlace self.now.seen key.now from to) }
        ensures none { IfNone result (HasNone self.now.seen key.now from to) }
    {
        let mut end = to;
        while from < end {
            let last = self.end_of(key, from, end);
            if last == from {
                return None;
            }
            end = last - 1;
            if self.has_key(key, end) {
                return Some(end);
            }
        }
        None
    }
}

fn rows_added(delta: &Delta) -> u32
    ensures { result ≡ (if is_insert delta.now then 1 else 0) }
{
    u32::from(delta.before.is_none())
}

impl<S: Setup> CommitLog for SerialLog<S> {
    ghost use Rattle.std.specs.Prelude.{length, take, ◌≤◌};
    ghost use Rattle.commit_log.specs.Growing.{dated-begins};

    type Date = SerialDate;

    ghost terms = { serial_terms S.base S.limits };

    ghost handle = { serial_handle };

    ghost is_of = { λ log date. date.len ≤ length log.seen };

    ghost named = { λ log date. take date.len log.seen };

    fn front<N: Ledger>(&mut self, steps: &mut Steps<N>) -> Front
        ensures whole { IsWhole (serial_terms S.base S.limits) self.new.seen result }
        ensures log { IsLog (serial_terms S.base S.limits) self.new.seen }
        ensures same { self.new ≡ self.old }
        ensures steps { steps.new ≡ steps.old + 3 }
    {
        steps.tick(3);
        self.whole()
    }

    fn start(&self) -> Front {
        Front {
            len: 0,
            rows: self.base_rows,
            node: 0,
        }
    }

    fn spare(&self) -> u32 {
        self.spare
    }

    /// 0, which every delta here has: each place is one of this author's.
    fn author(&self) -> u8
        ensures zero { result ≡ 0 }
        ensures own { All (λ d. d.author ≡ 0) self.now.seen }
        ensures mine { mine (serial_handle self.now) ≡ range_with_len 0 (length self.now.seen) }
    {
        let _ = &self.entries;
        0
    }

    fn limits(&self) -> Limits {
        self.limits
    }

    fn date<N: Ledger>(&mut self, steps: &mut Steps<N>) -> SerialDate {
        steps.tick(1);
        SerialDate {
            len: self.entries.len() as u32,
        }
    }

    fn copy<N: Ledger>(&mut self, date: &mut SerialDate, steps: &mut Steps<N>) -> SerialDate {
        steps.tick(1);
        SerialDate { len: date.len }
    }

    fn meet<N: Ledger>(&mut self, date: SerialDate, steps: &mut Steps<N>)
        requires { date.len ≤ length self.old.seen }
        ensures met { Begins (take date.len self.old.seen) self.new.seen }
        ensures log { IsLog (serial_terms S.base S.limits) self.new.seen }
        ensures same { self.new ≡ self.old }
        ensures steps { steps.new ≡ steps.old + 2 }
    {
        steps.tick(2);
        let _ = &self.entries;
        let _ = date.len;
    }

    fn cursor(&self, at: &Front) -> Cursor {
        Cursor {
            len: at.len,
            node: at.node,
        }
    }

    fn following<N: Ledger>(
        &mut self,
        cursor: &mut Cursor,
        to: &Front,
        steps: &mut Steps<N>,
    ) -> Option<Entry> {
        if cursor.len == to.len {
            return None;
        }
        let entry = self.entry(cursor.len);
        *cursor = Cursor {
            len: entry.seq,
            node: entry.seq,
        };
        self.walked = self.walked.saturating_add(1);
        steps.tick(5);
        Some(entry)
    }

    fn latest<N: Ledger>(
        &mut self,
        key: &Key,
        from: &Front,
        to: &Front,
        steps: &mut Steps<N>,
    ) -> Option<Entry> {
        let place = self.last_place(key, from.len, to.len)?;
        Some(self.entry(place))
    }

    fn try_append<N: Ledger>(
        &mut self,
        at: &Front,
        delta: &Delta,
        steps: &mut Steps<N>,
    ) -> Result<Front, AppendStop>
        requires at { Stands (serial_terms S.base S.limits) self.old.seen at.now }
        requires lawful { MayFollow (serial_terms S.base S.limits) self.old.seen at.now delta.now }
        requires author { delta.now.author ≡ 0 }
        requires spare { 1 ≤ self.old.spare }
        ensures append { Appends (serial_terms S.base S.limits) (serial_handle self.old) at.now delta.now
            (serial_handle self.new) result }
        ensures log { IsLog (serial_terms S.base S.limits) self.new.seen }
        ensures stop { OnErr result (self.new ≡ self.old) }
        ensures late { IsTrue (is_late result) ↔ (at.now.len < length self.old.seen) }
        ensures steps { RisesWithin (append_steps result) steps.old steps.new }
    {
        if at.len == self.limits.log_limit {
            return Err(AppendStop::Full);
        }
        steps.tick(1);
        let whole = self.whole();
        if at.len < whole.len {
            return Err(AppendStop::Late(whole));
        }
        self.add(delta);
        Ok(self.whole())
    }

    ghost dates = { λ log later date grows within. dated-begins log.seen later.seen date.len grows.begins within };
}

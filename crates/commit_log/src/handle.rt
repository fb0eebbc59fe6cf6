//! One caller's handle of a log.
ghost use Rattle.std.specs.Prelude.{◌≡◌, ◌+◌, ◌-◌, ◌*◌, ◌≤◌, List, length};
ghost use Rattle.cubit_base.specs.declared.delta.Delta.{Delta as DeltaValue};
ghost use Rattle.commit_log.specs.Log.{Terms, IsLog, Stands, IsWhole, IsPlace, MayFollow, IsLatest};
ghost use Rattle.commit_log.specs.Handle.{Handle, Begins, Grows, SeesMore, with_look, Walks, walk_steps, Appends, append_steps, RisesWithin};

use crate::{AppendStop, Cursor, Front};
use cubit_base::{Delta, Entry, Key, Limits, Steps};
use std::sync::ledger::Ledger;

/// A log of changes, as one of its callers sees it: what was seen stays, and more may be seen. No call takes memory.
///
/// Contracts speak of what a handle tells (`Handle`) and of what the log was told once (`Terms`). What is seen is
/// always a log on these terms; `start`, which costs nothing, tells that.
pub trait CommitLog {
    /// It names a prefix of this log, and can be handed to another caller of it.
    type Date: Drop;

    /// The base table, the limits and the nodes. The type fixes them, so no call changes them.
    ghost terms: { Terms };

    /// What this handle tells.
    ghost handle: { Self → Handle };

    /// The date is one of this log.
    ghost is_of: { Self → Self.Date → Type 0 };

    /// The prefix that a date of this log names.
    ghost named: { Self → Self.Date → List DeltaValue };

    /// The front of all that the log holds.
    fn front<N: Ledger>(&mut self, steps: &mut Steps<N>) -> Front
        ensures whole { IsWhole terms (handle self.new).seen result }
        ensures log { IsLog terms (handle self.new).seen }
        ensures more { SeesMore (with_look (handle self.old)) (handle self.new) }
        ensures steps { steps.new ≡ steps.old + 3 };

    /// The front of the empty prefix.
    fn start(&self) -> Front
        ensures value { result ≡ record { len = 0; rows = length terms.base; node = 0 } }
        ensures stands { Stands terms (handle self.now).seen result }
        ensures log { IsLog terms (handle self.now).seen };

    /// How many more deltas this caller may append.
    fn spare(&self) -> u32
        ensures { result ≡ (handle self.now).spare };

    /// The author of this caller's deltas.
    fn author(&self) -> u8
        ensures { result ≡ (handle self.now).author };

    /// The limits.
    fn limits(&self) -> Limits
        ensures { result ≡ terms.limits };

    /// A date that names all that was seen.
    fn date<N: Ledger>(&mut self, steps: &mut Steps<N>) -> Self::Date
        ensures date { is_of self.new result }
        ensures named { named self.new result ≡ (handle self.old).seen }
        ensures same { handle self.new ≡ handle self.old }
        ensures steps { steps.new ≡ steps.old + 1 };

    /// Another date that names the same prefix.
    fn copy<N: Ledger>(&mut self, date: &mut Self::Date, steps: &mut Steps<N>) -> Self::Date
        requires { is_of self.old date.old }
        ensures date { is_of self.new date.new }
        ensures named { named self.new date.new ≡ named self.old date.old }
        ensures copy { is_of self.new result }
        ensures copy_named { named self.new result ≡ named self.old date.old }
        ensures same { handle self.new ≡ handle self.old }
        ensures steps { steps.new ≡ steps.old + 1 };

    /// Sees what the date names.
    fn meet<N: Ledger>(&mut self, date: Self::Date, steps: &mut Steps<N>)
        requires { is_of self.old date }
        ensures met { Begins (named self.old date) (handle self.new).seen }
        ensures log { IsLog terms (handle self.new).seen }
        ensures more { SeesMore (handle self.old) (handle self.new) }
        ensures steps { steps.new ≡ steps.old + 2 };

    /// Where a walk that goes on from a front begins.
    fn cursor(&self, at: &Front) -> Cursor
        requires { Stands terms (handle self.now).seen at.now }
        ensures place { IsPlace terms (handle self.now).seen result }
        ensures len { result.len ≡ at.now.len };

    /// The entry at the cursor, which is moved on; none at the end of the front.
    fn following<N: Ledger>(
        &mut self,
        cursor: &mut Cursor,
        to: &Front,
        steps: &mut Steps<N>,
    ) -> Option<Entry>
        requires place { IsPlace terms (handle self.old).seen cursor.old }
        requires to { Stands terms (handle self.old).seen to.now }
        requires before { cursor.old.len ≤ to.now.len }
        ensures walk { Walks terms (handle self.old) cursor.old to.now (handle self.new) cursor.new result }
        ensures steps { steps.new ≡ steps.old + walk_steps result };

    /// The entry of the last delta with this key between two fronts, or none.
    fn latest<N: Ledger>(
        &mut self,
        key: &Key,
        from: &Front,
        to: &Front,
        steps: &mut Steps<N>,
    ) -> Option<Entry>
        requires from { Stands terms (handle self.old).seen from.now }
        requires to { Stands terms (handle self.old).seen to.now }
        requires order { from.now.len ≤ to.now.len }
        ensures latest { IsLatest terms (handle self.old).seen key.now from.now.len to.now.len result }
        ensures same { handle self.new ≡ handle self.old }
        ensures steps { RisesWithin (5 * (to.now.len - from.now.len) + 2) steps.old steps.new };

    /// Appends a delta of this author behind a front, unless another one stands there or the log is full.
    fn try_append<N: Ledger>(
        &mut self,
        at: &Front,
        delta: &Delta,
        steps: &mut Steps<N>,
    ) -> Result<Front, AppendStop>
        requires at { Stands terms (handle self.old).seen at.now }
        requires lawful { MayFollow terms (handle self.old).seen at.now delta.now }
        requires author { delta.now.author ≡ (handle self.old).author }
        requires spare { 1 ≤ (handle self.old).spare }
        ensures append { Appends terms (handle self.old) at.now delta.now (handle self.new) result }
        ensures log { IsLog terms (handle self.new).seen }
        ensures steps { RisesWithin (append_steps result) steps.old steps.new };

    /// A date of this log stays one and names the same prefix, whatever more is seen.
    ghost dates: { (log later : Self) (date : Self.Date) → Grows (handle log) (handle later) → is_of log date →
        is_of later date × (named later date ≡ named log date) };
}

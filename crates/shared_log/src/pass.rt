//! A caller's pass of a shared log.
ghost use Rattle.std.specs.Prelude.{◌≡◌, ◌+◌, ◌-◌, ◌*◌, ◌<◌, ◌≤◌, ◌++◌, length};
ghost use Rattle.log_core.specs.Terms.{share};
ghost use Rattle.commit_log.specs.Log.{IsLog, Stands, IsWhole, IsPlace, IsLatest, MayFollow};
ghost use Rattle.commit_log.specs.Handle.{Begins, SeesMore, with_look, Walks, walk_steps, Appends, append_steps, RisesWithin};
ghost use Rattle.shared_log.specs.Shown.{new_view, noting};
ghost use Rattle.shared_log.specs.Told.{shared_terms};
ghost use Rattle.shared_log.specs.Calls.{pass_handle, TakesFront, MeetsDate as DateMet};
ghost use Rattle.shared_log.specs.Appends.{append_ticks, AppendTrace};
ghost use Rattle.shared_log.specs.Walks.{walk_loads, TakesLoads};

use super::date::Date;
use super::log::{Opening, SharedLog};
use super::rule::{LogTerms, WhichLog};
use super::seat::PassSeat;
use super::walk::last_with;
use commit_log::{AppendStop, Cursor, Front};
use cubit_base::{Delta, Entry, Key, Limits, Steps};
use std::marker::Model;
use std::sync::ledger::Ledger;

/// One caller's handle of a shared log. It may go to another thread.
#[derive(Drop)]
pub struct Pass<'a, T: LogTerms, W: WhichLog> {
    seat: PassSeat<'a, T, W>,
    author: u8,
    first: u32,
    share: u32,
    used: u32,
    looks: u64,
}

impl<'a, T: LogTerms, W: WhichLog> Model for Pass<'a, T, W> {
    ghost use Rattle.shared_log.specs.Calls.{PassValue, IsPass};

    ghost Value = { PassValue };

    ghost view = { λ p. record { view = p.seat; looks = p.looks } };

    ghost invariant = { λ p. IsPass T.terms p.seat p.author p.first p.share p.used };
}

impl<'a, T: LogTerms, W: WhichLog> Pass<'a, T, W> {
    /// The front of all that the log holds, by three steps.
    pub fn front<N: Ledger>(&mut self, steps: &mut Steps<N>) -> Front
        ensures front { TakesFront T.terms self.old.view result self.new.view }
        ensures whole { IsWhole (shared_terms T.terms) self.new.view.seen result }
        ensures log { IsLog (shared_terms T.terms) self.new.view.seen }
        ensures more { SeesMore (with_look (pass_handle T.terms self.old)) (pass_handle T.terms self.new) }
        ensures steps { steps.new ≡ steps.old + 3 }
    {
        steps.tick(3);
        let front = self.seat.look();
        self.looks = self.looks.saturating_add(1);
        front
    }

    /// The front of the empty prefix.
    pub fn start(&self) -> Front
        ensures value { result ≡ record { len = 0; rows = length T.terms.base; node = 0 } }
        ensures stands { Stands (shared_terms T.terms) self.now.view.seen result }
        ensures log { IsLog (shared_terms T.terms) self.now.view.seen }
    {
        Front {
            len: 0,
            rows: self.seat.base_rows(),
            node: 0,
        }
    }

    /// How many more deltas this caller may append.
    pub fn spare(&self) -> u32
        ensures { result ≡ (pass_handle T.terms self.now).spare }
    {
        self.share - self.used
    }

    /// The author of this caller's deltas.
    pub fn author(&self) -> u8
        ensures { result ≡ (pass_handle T.terms self.now).author }
    {
        self.author
    }

    /// The limits.
    pub fn limits(&self) -> Limits
        ensures { result ≡ T.terms.limits }
    {
        self.seat.limits()
    }

    /// A date that names all that was seen.
    pub fn date<N: Ledger>(&mut self, steps: &mut Steps<N>) -> Date<W>
        ensures note { self.new.view ≡ noting self.old.view }
        ensures named { result ≡ self.old.view.seen }
        ensures same { pass_handle T.terms self.new ≡ pass_handle T.terms self.old }
        ensures steps { steps.new ≡ steps.old + 1 }
    {
        steps.tick(1);
        self.seat.date()
    }

    /// Another date that names the same prefix.
    pub fn copy<N: Ledger>(&mut self, date: &mut Date<W>, steps: &mut Steps<N>) -> Date<W>
        ensures named { date.new ≡ date.old }
        ensures copy_named { result ≡ date.old }
        ensures same { self.new ≡ self.old }
        ensures steps { steps.new ≡ steps.old + 1 }
    {
        steps.tick(1);
        self.seat.copy(date)
    }

    /// Sees what the date names.
    pub fn meet<N: Ledger>(&mut self, date: Date<W>, steps: &mut Steps<N>)
        ensures date { DateMet T.terms self.old.view date self.new.view }
        ensures met { Begins date self.new.view.seen }
        ensures log { IsLog (shared_terms T.terms) self.new.view.seen }
        ensures more { SeesMore (pass_handle T.terms self.old) (pass_handle T.terms self.new) }
        ensures steps { steps.new ≡ steps.old + 2 }
    {
        steps.tick(2);
        self.seat.meet(date);
    }

    /// Where a walk that goes on from a front begins.
    pub fn cursor(&self, at: &Front) -> Cursor
        requires { Stands (shared_terms T.terms) self.now.view.seen at.now }
        ensures place { IsPlace (shared_terms T.terms) self.now.view.seen result }
        ensures len { result.len ≡ at.now.len }
    {
        let _ = &self.seat;
        Cursor {
            len: at.len,
            node: at.node,
        }
    }

    /// The entry at the cursor, which is moved on; none at the end of the front.
    pub fn following<N: Ledger>(
        &mut self,
        cursor: &mut Cursor,
        to: &Front,
        steps: &mut Steps<N>,
    ) -> Option<Entry>
        requires place { IsPlace (shared_terms T.terms) self.old.view.seen cursor.old }
        requires to { Stands (shared_terms T.terms) self.old.view.seen to.now }
        requires before { cursor.old.len ≤ to.now.len }
        ensures walk { Walks (shared_terms T.terms) (pass_handle T.terms self.old) cursor.old to.now
            (pass_handle T.terms self.new) cursor.new result }
        ensures loads { self.new.view.trace ≡ self.old.view.trace ++ walk_loads cursor.old cursor.new result }
        ensures steps { steps.new ≡ steps.old + walk_steps result }
    {
        if cursor.len == to.len {
            return None;
        }
        steps.tick(5);
        Some(self.seat.read_entry(cursor))
    }

    /// The entry of the last delta with this key between two fronts, or none.
    pub fn latest<N: Ledger>(
        &mut self,
        key: &Key,
        from: &Front,
        to: &Front,
        steps: &mut Steps<N>,
    ) -> Option<Entry>
        requires from { Stands (shared_terms T.terms) self.old.view.seen from.now }
        requires to { Stands (shared_terms T.terms) self.old.view.seen to.now }
        requires order { from.now.len ≤ to.now.len }
        ensures latest { IsLatest (shared_terms T.terms) self.old.view.seen key.now from.now.len to.now.len result }
        ensures same { pass_handle T.terms self.new ≡ pass_handle T.terms self.old }
        ensures loads { TakesLoads self.old.view self.new.view (5 * (to.now.len - from.now.len)) }
        ensures steps { RisesWithin (5 * (to.now.len - from.now.len) + 2) steps.old steps.new }
    {
        let mut cursor = self.cursor(from);
        let mut latest = None;
        while let Some(entry) = self.following(&mut cursor, to, steps) {
            latest = last_with(key, latest, entry);
        }
        latest
    }

    /// Appends a delta of this author behind a front, unless another one stands there or the log is full.
    pub fn try_append<N: Ledger>(
        &mut self,
        at: &Front,
        delta: &Delta,
        steps: &mut Steps<N>,
    ) -> Result<Front, AppendStop>
        requires at { Stands (shared_terms T.terms) (pass_handle T.terms self.old).seen at.now }
        requires lawful { MayFollow (shared_terms T.terms) (pass_handle T.terms self.old).seen at.now delta.now }
        requires author { delta.now.author ≡ (pass_handle T.terms self.old).author }
        requires spare { 1 ≤ (pass_handle T.terms self.old).spare }
        ensures append { Appends (shared_terms T.terms) (pass_handle T.terms self.old) at.now delta.now
            (pass_handle T.terms self.new) result }
        ensures log { IsLog (shared_terms T.terms) (pass_handle T.terms self.new).seen }
        ensures steps { RisesWithin (append_steps result) steps.old steps.new }
        ensures ticks { steps.new ≡ steps.old + append_ticks result }
        ensures trace { AppendTrace self.old.view at.now self.new.view result }
    {
        if at.len == self.limits().log_limit {
            return Err(AppendStop::Full);
        }
        let node = self.seat.next_node(self.first, self.used);
        let entry = self.seat.entry_behind(at, delta);
        if !self.seat.append(at, &entry, u64::from(node)) {
            steps.tick(11);
            return Err(AppendStop::Late(self.seat.look()));
        }
        steps.tick(9);
        self.used += 1;
        Ok(Front {
            len: entry.seq,
            rows: entry.rows,
            node,
        })
    }
}

impl<T: LogTerms> SharedLog<T> {
    /// The next author's pass, which has seen nothing.
    pub fn pass<'a, W: WhichLog>(&'a self, opening: &mut Opening) -> Pass<'a, T, W>
        requires log { opening.old.table ≡ self.now }
        requires which { self.now ≡ W.table }
        requires share { opening.old.given < length T.terms.shares }
        ensures opening { opening.new ≡ record opening.old { given = opening.old.given + 1 } }
        ensures pass { result ≡ record { view = new_view opening.old.given; looks = 0 } }
        ensures spare { (pass_handle T.terms result).spare ≡ share T.terms opening.old.given }
    {
        let author = opening.given();
        let first = self.first_node(author);
        let share = self.share(author);
        let seat = self.seat::<W>(opening);
        Pass {
            seat,
            author,
            first,
            share,
            used: 0,
            looks: 0,
        }
    }
}

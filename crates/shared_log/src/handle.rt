//! A pass is a handle of the log.

use super::date::Date;
use super::pass::Pass;
use super::rule::{LogTerms, WhichLog};
use commit_log::{AppendStop, CommitLog, Cursor, Front};
use cubit_base::{Delta, Entry, Key, Limits, Steps};
use std::sync::ledger::Ledger;

impl<'a, T: LogTerms, W: WhichLog> CommitLog for Pass<'a, T, W> {
    ghost use Rattle.shared_log.specs.Told.{shared_terms};
    ghost use Rattle.shared_log.specs.Calls.{pass_handle};

    type Date = Date<W>;

    ghost terms = { shared_terms T.terms };

    ghost handle = { pass_handle T.terms };

    ghost is_of = { λ log date. Unit {0} };

    ghost named = { λ log date. date };

    fn front<N: Ledger>(&mut self, steps: &mut Steps<N>) -> Front {
        Pass::front(self, steps)
    }

    fn start(&self) -> Front {
        Pass::start(self)
    }

    fn spare(&self) -> u32 {
        Pass::spare(self)
    }

    fn author(&self) -> u8 {
        Pass::author(self)
    }

    fn limits(&self) -> Limits {
        Pass::limits(self)
    }

    fn date<N: Ledger>(&mut self, steps: &mut Steps<N>) -> Date<W> {
        Pass::date(self, steps)
    }

    fn copy<N: Ledger>(&mut self, date: &mut Date<W>, steps: &mut Steps<N>) -> Date<W> {
        Pass::copy(self, date, steps)
    }

    fn meet<N: Ledger>(&mut self, date: Date<W>, steps: &mut Steps<N>) {
        Pass::meet(self, date, steps)
    }

    fn cursor(&self, at: &Front) -> Cursor {
        Pass::cursor(self, at)
    }

    fn following<N: Ledger>(
        &mut self,
        cursor: &mut Cursor,
        to: &Front,
        steps: &mut Steps<N>,
    ) -> Option<Entry> {
        Pass::following(self, cursor, to, steps)
    }

    fn latest<N: Ledger>(
        &mut self,
        key: &Key,
        from: &Front,
        to: &Front,
        steps: &mut Steps<N>,
    ) -> Option<Entry> {
        Pass::latest(self, key, from, to, steps)
    }

    fn try_append<N: Ledger>(
        &mut self,
        at: &Front,
        delta: &Delta,
        steps: &mut Steps<N>,
    ) -> Result<Front, AppendStop> {
        Pass::try_append(self, at, delta, steps)
    }

    ghost dates = { λ log later date grows of. (of, λ i. date) };
}

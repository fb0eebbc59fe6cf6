//! A worker.
ghost use Rattle.std.specs.Prelude.{◌≡◌, ◌+◌, ◌≤◌, ◌<◌};
ghost use Rattle.cubit_base.specs.Command.{weight_of};
ghost use Rattle.cubit_base.specs.declared.command.Command.TheVariants.{DropOrder};
ghost use Rattle.refresh_streams.specs.Script.{DropsSomeOrder};
ghost use Rattle.commit_log.specs.Serial.{serial_terms, serial_handle};
ghost use Rattle.version_store.specs.Memory.{memory_store};
ghost use Rattle.cubit_session.specs.Step.{IsStep, StandsOver, Replies, DropsLine, told_by};
ghost use Rattle.cubit_session.specs.Alone.{OwnsLog};

use crate::replies::{
    change_reply, count_reply, found_reply, merge_reply, q6_reply, rows_reply, sum_reply,
};
use commit_log::{CommitLog, Setup};
use cubit_base::{Command, Key, Memory, Steps};
use merger::merge_all;
use query_report::{DropLine, Reply};
use selection::{count, rows, sum};
use std::alloc::Global;
use std::marker::{Brand, Model};
use std::sync::ledger::{Blank, Ledger};
use table_ops::{OpStop, delete, insert, lookup, update};
use unit_version::Base;
use version_store::{MemoryStore, VersionStore};

/// A caller of a log and of a store of versions over it, who has a handle of each.
#[derive(Drop)]
pub struct Worker<S: VersionStore> {
    log: S::Log,
    store: S,
}

impl<S: VersionStore> Model for Worker<S> {
    ghost Value = { S.Log × S };

    ghost view = { λ w. (w.log, w.store) };
}

impl<S: VersionStore> Worker<S> {
    /// A worker with these handles.
    pub fn make(log: S::Log, store: S) -> Worker<S>
        requires { (S.store store).lent ≡ 0 }
        ensures { result ≡ (log, store) }
    {
        Worker { log, store }
    }

    /// Its handles.
    pub fn into_parts(self) -> (S::Log, S)
        ensures { result ≡ self }
    {
        (self.log, self.store)
    }

    /// Runs a command, each by the calls of the layers below.
    pub fn step(
        &mut self,
        alloc: Global,
        base: &Base,
        command: &Command,
        tries: u32,
    ) -> Result<Reply, Memory>
        requires standing { StandsOver S.Log.terms S.store S.over base.now self.old }
        requires tries { 1 ≤ tries }
        requires spare { weight_of command.now ≤ (S.Log.handle self.old.0).spare }
        requires order { DropsSomeOrder command.now }
        ensures steps { IsStep S.Log.terms tries command.now (told_by S.Log.handle S.store self.old)
            (told_by S.Log.handle S.store self.new) result }
        ensures standing { StandsOver S.Log.terms S.store S.over base.now self.new }
    {
        let blanks = (Blank::new(1), Blank::new(1));
        self.step_counted::<Brand, Brand>(alloc, blanks, base, command, tries)
    }

    // The same, with the counters of steps and of reads, which take no time.
    fn step_counted<N: Ledger, M: Ledger>(
        &mut self,
        alloc: Global,
        blanks: (Blank, Blank),
        base: &Base,
        command: &Command,
        tries: u32,
    ) -> Result<Reply, Memory>
        requires steps_name { blanks.0.name ≡ N.name }
        requires steps_parts { blanks.0.parts ≡ N.parts }
        requires steps_some { 0 < N.parts }
        requires reads_name { blanks.1.name ≡ M.name }
        requires reads_parts { blanks.1.parts ≡ M.parts }
        requires reads_some { 0 < M.parts }
        requires standing { StandsOver S.Log.terms S.store S.over base.now self.old }
        requires tries { 1 ≤ tries }
        requires spare { weight_of command.now ≤ (S.Log.handle self.old.0).spare }
        requires order { DropsSomeOrder command.now }
        ensures steps { IsStep S.Log.terms tries command.now (told_by S.Log.handle S.store self.old)
            (told_by S.Log.handle S.store self.new) result }
        ensures standing { StandsOver S.Log.terms S.store S.over base.now self.new }
    {
        let (steps, reads) = blanks;
        let steps = &mut Steps::<N>::make(steps);
        let reads = &mut Steps::<M>::make(reads);
        let (log, store) = (&mut self.log, &mut self.store);
        match command {
            Command::Insert(key, tuple) => {
                Ok(change_reply(insert(log, store, base, key, tuple, tries, steps)))
            }
            Command::Update(key, tuple) => {
                Ok(change_reply(update(log, store, base, key, tuple, tries, steps)))
            }
            Command::Delete(key) => Ok(change_reply(delete(log, store, base, key, tries, steps))),
            Command::DropOrder(order) => Ok(self.drop_order(base, *order, tries, steps)),
            Command::Lookup(key) => Ok(found_reply(lookup(log, store, base, key, tries, steps))),
            Command::Rows(p) => rows(alloc, log, store, base, p, tries, steps, reads).map(
                rows_reply,
            ),
            Command::Count(p) => count(alloc, log, store, base, p, tries, steps, reads).map(
                count_reply,
            ),
            Command::Sum(p) => sum(alloc, log, store, base, p, tries, steps, reads).map(sum_reply),
            Command::Q6(p) => sum(alloc, log, store, base, p, tries, steps, reads).map(q6_reply),
            Command::Merge => merge_all(alloc, log, store, base, tries, steps).map(merge_reply),
        }
    }

    // Deletes lines 1 to 7 of an order, one after another.
    fn drop_order<N: Ledger>(
        &mut self,
        base: &Base,
        order: u32,
        tries: u32,
        steps: &mut Steps<N>,
    ) -> Reply
        requires standing { StandsOver S.Log.terms S.store S.over base.now self.old }
        requires tries { 1 ≤ tries }
        requires spare { 7 ≤ (S.Log.handle self.old.0).spare }
        requires order { 1 ≤ order }
        ensures steps { Replies S.Log.terms tries (DropOrder order) (told_by S.Log.handle S.store self.old)
            (told_by S.Log.handle S.store self.new) result }
        ensures standing { StandsOver S.Log.terms S.store S.over base.now self.new }
    {
        Reply::DropLines([
            self.drop_line(base, order, 1, tries, steps),
            self.drop_line(base, order, 2, tries, steps),
            self.drop_line(base, order, 3, tries, steps),
            self.drop_line(base, order, 4, tries, steps),
            self.drop_line(base, order, 5, tries, steps),
            self.drop_line(base, order, 6, tries, steps),
            self.drop_line(base, order, 7, tries, steps),
        ])
    }

    // Deletes a line of an order.
    fn drop_line<N: Ledger>(
        &mut self,
        base: &Base,
        order: u32,
        line: u8,
        tries: u32,
        steps: &mut Steps<N>,
    ) -> DropLine
        requires standing { StandsOver S.Log.terms S.store S.over base.now self.old }
        requires tries { 1 ≤ tries }
        requires spare { 1 ≤ (S.Log.handle self.old.0).spare }
        requires order { 1 ≤ order }
        requires line { (1 ≤ line) × (line ≤ 7) }
        ensures drops { DropsLine S.Log.terms order line (told_by S.Log.handle S.store self.old)
            (told_by S.Log.handle S.store self.new) result }
        ensures standing { StandsOver S.Log.terms S.store S.over base.now self.new }
        ensures spare { (S.Log.handle self.old.0).spare ≤ (S.Log.handle self.new.0).spare + 1 }
    {
        let key = Key { order, line };
        match delete(&mut self.log, &mut self.store, base, &key, tries, steps) {
            Ok(placed) => DropLine::Placed(placed.place),
            Err(OpStop::Missing(front)) => DropLine::Missing(front.len),
            Err(OpStop::LogFull(front)) => DropLine::LogFull(front.len),
            Err(_) => unreachable!(),
        }
    }
}

// All deltas of a log of one caller are its own.
pub(crate) fn owns_log<S: Setup>(worker: &Worker<MemoryStore<S>>)
    ensures { OwnsLog (serial_terms S.base S.limits) (told_by serial_handle memory_store worker.now) }
{
    worker.log.author();
    worker.log.start();
}

//! One script, run by one worker.
ghost use Rattle.std.specs.Prelude.{◌≡◌, ℕ, ◌+◌, ◌≤◌, ◌<◌, List, [], ◌∷◌, All, IfOk, length};
ghost use Rattle.wah_words.specs.Place.{page_count};
ghost use Rattle.cubit_base.specs.declared.delta.Delta.{Delta as DeltaValue};
ghost use Rattle.cubit_base.specs.declared.command.Command.{Command as CommandValue};
ghost use Rattle.query_report.specs.declared.reply.Reply.{Reply as ReplyValue};
ghost use Rattle.query_report.specs.ReplyTable.{replies_of};
ghost use Rattle.commit_log.specs.Handle.{Handle};
ghost use Rattle.commit_log.specs.Log.{IsLog, Terms};
ghost use Rattle.commit_log.specs.Serial.{serial_terms, serial_handle};
ghost use Rattle.version_store.specs.Store.{IsStanding};
ghost use Rattle.version_store.specs.Memory.{memory_store, AreVersions, IsNew};
ghost use Rattle.version_store.specs.Version.{base_version};
ghost use Rattle.refresh_streams.specs.Script.{DropsSomeOrder, weights};
ghost use Rattle.cubit_session.specs.Run.{IsRun};
ghost use Rattle.cubit_session.specs.Step.{setting_of, told_by};
ghost use Rattle.cubit_session.specs.Alone.{IsAlone, HasRunAlone};
ghost use Rattle.cubit_session.specs.Through.{CanRun, HasRun, run_setting};

use crate::Worker;
use crate::laws::{alone, parts, steps as step_laws};
use crate::worker::owns_log;
use commit_log::{CommitLog, SerialLog, Setup};
use cubit_base::{Command, DeltaList, Limits, Memory, Steps};
use query_report::ReplyTable;
use refresh_streams::Script;
use std::alloc::Global;
use std::marker::Brand;
use std::sync::ledger::{Blank, Ledger};
use unit_version::Base;
use version_store::MemoryStore;

/// What a run comes to.
#[derive(Drop)]
pub struct Outcome {
    /// The replies, by workers.
    pub replies: ReplyTable,
    /// All changes that were made, in order.
    pub journal: DeltaList,
}

/// Runs the commands of a script one after another, over a log and versions of its own.
pub fn run_script(
    alloc: Global,
    base: &Base,
    script: &Script,
    limits: &Limits,
) -> Result<Outcome, Memory>
    requires can_run { CanRun limits.now base.now.table script.now }
    requires room { limits.now.row_limit ≤ base.now.row_room }
    ensures run { IfOk result (λ o. IsRun (run_setting base.now limits.now) (script.now ∷ []) o.replies o.journal) }
    ensures alone { IfOk result (λ o. IsAlone (run_setting base.now limits.now) script.now (replies_of o.replies 0)
        o.journal) }
{
    run_over::<Brand, Brand>(alloc, Blank::new(1), base, script, limits)
}

// The same over a log of these limits, with a counter of steps, which takes no time.
fn run_over<S: Setup, N: Ledger>(
    alloc: Global,
    blank: Blank,
    base: &Base,
    script: &Script,
    limits: &Limits,
) -> Result<Outcome, Memory>
    requires name { blank.name ≡ N.name }
    requires parts { blank.parts ≡ N.parts }
    requires some { 0 < N.parts }
    requires base { S.base ≡ base.now.table }
    requires limits { S.limits ≡ limits.now }
    requires can_run { CanRun limits.now base.now.table script.now }
    requires room { limits.now.row_limit ≤ base.now.row_room }
    ensures run { IfOk result (λ o. IsRun (run_setting base.now limits.now) (script.now ∷ []) o.replies o.journal) }
    ensures alone { IfOk result (λ o. IsAlone (run_setting base.now limits.now) script.now (replies_of o.replies 0)
        o.journal) }
{
    runs();
    let steps = &mut Steps::<N>::make(blank);
    let mut log = SerialLog::<S>::make(alloc, base.rows(), weight(script), *limits)?;
    let store = MemoryStore::make(alloc, base, &mut log)?;
    let mut worker = Worker::make(log, store);
    let replies = replies_to(&mut worker, alloc, base, script, limits.tries)?;
    let (mut log, _) = worker.into_parts();
    let journal = journal_of(alloc, &mut log, steps)?;
    Ok(Outcome { replies, journal })
}

// The replies to a script's commands, one after another, by a worker that begins.
fn replies_to<S: Setup>(
    worker: &mut Worker<MemoryStore<S>>,
    alloc: Global,
    base: &Base,
    script: &Script,
    tries: u32,
) -> Result<ReplyTable, Memory>
    requires standing { IsStanding (serial_terms S.base S.limits) (memory_store worker.old.1) base.now
        (AreVersions (serial_terms S.base S.limits) worker.old.1 worker.old.0.seen) }
    requires empty { worker.old.0.seen ≡ [] }
    requires new { IsNew (page_count base.now.row_room) (base_version (serial_terms S.base S.limits)) worker.old.1 }
    requires tries { 1 ≤ tries }
    requires orders { All DropsSomeOrder script.now }
    requires spare { weights script.now ≤ worker.old.0.spare }
    ensures run { IfOk result (HasRun (setting_of (serial_terms S.base S.limits) (page_count base.now.row_room))
        (serial_handle worker.old.0) (serial_handle worker.new.0) script.now) }
    ensures alone { IfOk result (λ replies. HasRunAlone
        (setting_of (serial_terms S.base S.limits) (page_count base.now.row_room))
        (told_by serial_handle memory_store worker.new) script.now (replies_of replies 0)) }
{
    step_laws();
    parts();
    alone();
    let mut replies = ReplyTable::new(alloc);
    for n in 0..script.len() {
        let command = script.get(n).unwrap();
        let reply = worker.step(alloc, base, command, tries)?;
        owns_log(worker);
        replies.add(alloc, 0, reply)?;
    }
    Ok(replies)
}

// How many deltas the script may place at most.
fn weight(script: &Script) -> u32
    requires { weights script.now ≤ 4_194_304 }
    ensures { result ≡ weights script.now }
{
    let mut sum = 0;
    for n in 0..script.len() {
        sum += script.get(n).unwrap().weight();
    }
    sum
}

// What one worker ran over a log of its own is a run.
fn runs()
    ensures { (terms : Terms) (pages : ℕ) (start now : Handle) (commands : List CommandValue)
        (replies : List (List ReplyValue)) → HasRun (setting_of terms pages) start now commands replies →
        start.seen ≡ [] → start.author ≡ 0 → IsLog terms now.seen → All (λ d. d.author ≡ 0) now.seen →
        IsRun (setting_of terms pages) (commands ∷ []) replies now.seen }
{}

// All deltas of a log, in order.
fn journal_of<S: Setup, N: Ledger>(
    alloc: Global,
    log: &mut SerialLog<S>,
    steps: &mut Steps<N>,
) -> Result<DeltaList, Memory>
    ensures journal { IfOk result (λ journal. journal ≡ log.old.seen) }
    ensures log { IsLog (serial_terms S.base S.limits) log.old.seen }
    ensures own { All (λ d. d.author ≡ 0) log.old.seen }
{
    commit_log::laws::prefixes();
    commit_log::laws::stretches();
    log.author();
    let front = log.front(steps);
    let start = log.start();
    let mut deltas = DeltaList::new(alloc);
    let mut cursor = log.cursor(&start);
    while let Some(entry) = log.following(&mut cursor, &front, steps) {
        deltas.push(entry.delta)?;
    }
    Ok(deltas)
}

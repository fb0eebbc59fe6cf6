//! Changes, tried at one front after another.
ghost use Rattle.std.specs.Prelude.{◌≡◌, ◌+◌, ◌-◌, ◌*◌, ◌≤◌, length};
ghost use Rattle.cubit_base.specs.Change.{key_of};
ghost use Rattle.cubit_base.specs.LiveRow.{HasDistinctLiveKeys};
ghost use Rattle.commit_log.specs.Log.{IsLog};
ghost use Rattle.commit_log.specs.Handle.{RisesWithin, others};
ghost use Rattle.table_ops.specs.Found.{IsFound};
ghost use Rattle.table_ops.specs.Changed.{change_of, IsChanged};
ghost use Rattle.table_ops.specs.Tried.{IsTried};

use crate::change::Asked;
use crate::laws::changes;
use crate::live::found_behind;
use crate::{OpStop, Placed};
use commit_log::{AppendStop, CommitLog, Front};
use cubit_base::{Steps, Tuple, laws};
use std::sync::ledger::Ledger;

// The live row of a key at a front, or none.
#[derive(Clone, Copy)]
pub(crate) struct Found {
    pub(crate) front: Front,
    pub(crate) live: Option<(u32, Tuple)>,
}

// What one try comes to.
enum Tried {
    // The change was made, or is refused.
    Settled(Result<Placed, OpStop>),
    // Another delta came first; this front has it.
    Late(Front),
}

/// Makes the change where its key has this live row, at the front of all that was seen, or else at a later one.
pub(crate) fn settle<L: CommitLog, N: Ledger>(
    log: &mut L,
    asked: &Asked,
    found: &Found,
    steps: &mut Steps<N>,
) -> Result<Placed, OpStop>
    requires found { IsFound L.terms (L.handle log.old).seen (key_of (change_of asked.now))
        (found.now.front, found.now.live) }
    requires keys { HasDistinctLiveKeys L.terms.base }
    requires spare { 1 ≤ (L.handle log.old).spare }
    ensures changed { IsChanged L.terms (L.handle log.old) (change_of asked.now) (L.handle log.new) result }
    ensures steps { RisesWithin (12 * (1 + others (L.handle log.old) (L.handle log.new))
        + 5 * (length (L.handle log.new).seen - length (L.handle log.old).seen)) steps.old steps.new }
{
    changes();
    commit_log::laws::reads();
    commit_log::laws::prefixes();
    // From here on it is known that what was seen is a log.
    log.start();
    let key = asked.key();
    let mut found = *found;
    loop {
        match attempt(log, asked, &found, steps) {
            Tried::Settled(result) => return result,
            Tried::Late(front) => {
                let live = found_behind(log, &key, found.live, &found.front, &front, steps);
                found = Found { front, live };
            }
        }
    }
}

// One try to make the change at the front of all that was seen.
fn attempt<L: CommitLog, N: Ledger>(
    log: &mut L,
    asked: &Asked,
    at: &Found,
    steps: &mut Steps<N>,
) -> Tried
    requires log { IsLog L.terms (L.handle log.old).seen }
    requires at { IsFound L.terms (L.handle log.old).seen (key_of (change_of asked.now))
        (at.now.front, at.now.live) }
    requires spare { 1 ≤ (L.handle log.old).spare }
    ensures tried { IsTried L.terms (L.handle log.old) at.now.front (change_of asked.now) (L.handle log.new) result }
    ensures log { IsLog L.terms (L.handle log.new).seen }
    ensures steps { RisesWithin 12 steps.old steps.new }
{
    laws::outcomes();
    commit_log::laws::prefixes();
    let (author, limits) = (log.author(), log.limits());
    let delta = match asked.decide(author, at.live, &at.front, &limits) {
        Ok(delta) => delta,
        Err(stop) => return Tried::Settled(Err(stop)),
    };
    match log.try_append(&at.front, &delta, steps) {
        Ok(front) => Tried::Settled(Ok(Placed {
            place: at.front.len,
            row: delta.row,
            front,
        })),
        Err(AppendStop::Full) => Tried::Settled(Err(OpStop::LogFull(at.front))),
        Err(AppendStop::Late(front)) => Tried::Late(front),
    }
}

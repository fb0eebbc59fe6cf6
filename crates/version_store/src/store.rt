//! One caller's handle of a store of versions.
ghost use Rattle.std.specs.Prelude.{◌≡◌, ◌+◌, ◌-◌, ◌*◌, ◌≤◌, ◌<◌, take};
ghost use Rattle.std.specs.Option.{option_map};
ghost use Rattle.cubit_base.specs.History.{after};
ghost use Rattle.commit_log.specs.Log.{Stands};
ghost use Rattle.commit_log.specs.Handle.{Grows, SeesMore};
ghost use Rattle.unit_version.specs.Content.{content_of};
ghost use Rattle.unit_version.specs.Unit.{IsUnit};
ghost use Rattle.version_store.specs.Version.{Version};
ghost use Rattle.version_store.specs.Store.{Store, Asks, Holds, KeepsClaims, Keeps, Replaces, stop_number};

use commit_log::{CommitLog, Front};
use cubit_base::Steps;
use std::sync::ledger::Ledger;
use unit_version::{Content, Unit};

/// A hold that was given up.
#[derive(Clone, Copy, Debug, PartialEq, Eq)]
pub struct Again {
    /// How many turns it lost.
    pub lost: u32,
}

/// Why a version was not replaced.
#[derive(Clone, Copy, Debug, PartialEq, Eq)]
pub enum ReplaceStop {
    /// Another caller has it.
    Busy,
    /// It is newer than what was to replace it; this is its front.
    Newer(Front),
}

impl ReplaceStop {
    /// Busy 1, Newer 2.
    pub fn number(&self) -> u8
        ensures { result ≡ stop_number self.now }
    {
        match self {
            ReplaceStop::Busy => 1,
            ReplaceStop::Newer(_) => 2,
        }
    }
}

/// A store of a version for each unit, as one of its callers sees it. No call takes memory.
///
/// Contracts speak of what a handle tells (`Store`). Which units there are never changes.
pub trait VersionStore {
    /// The log whose prefixes the versions stand at.
    type Log: CommitLog;

    /// The right to read a version, which has to be given back.
    type Claim;

    /// What this handle tells.
    ghost store: { Self → Store };

    /// The store was made over this log, and over a base of its table.
    ghost over: { Self → Self.Log → Type 0 };

    /// This handle gave the claim, and did not get it back.
    ghost gave: { Self → Self.Claim → Type 0 };

    /// The version that a claim of this handle shows.
    ghost shown: { Self → Self.Claim → Version };

    /// Holds the unit's version, whose front the log has seen then. It gives up after as many lost turns as there are
    /// tries.
    fn hold<N: Ledger>(
        &mut self,
        log: &mut Self::Log,
        unit: Unit,
        tries: u32,
        steps: &mut Steps<N>,
    ) -> Result<Self::Claim, Again>
        requires over { over self.old log.old }
        requires unit { IsUnit (store self.old).pages unit }
        requires tries { 1 ≤ tries }
        requires lent { (store self.old).lent < 65_536 }
        ensures hold { Holds Self.Log.terms (Self.Log.handle log.new).seen unit tries (gave self.new) (shown self.new)
            (store self.old) (store self.new) result }
        ensures asks { Asks unit (store self.old) (store self.new) }
        ensures claims { KeepsClaims (gave self.old) (gave self.new) (shown self.old) (shown self.new) }
        ensures more { SeesMore (Self.Log.handle log.old) (Self.Log.handle log.new) }
        ensures over { over self.new log.new }
        ensures some_steps { steps.old + 1 ≤ steps.new }
        ensures steps { steps.new ≤ steps.old + (2 * tries + 8) };

    /// The front of the version that a claim shows.
    fn front(&self, claim: &Self::Claim) -> Front
        requires { gave self.now claim.now }
        ensures { result ≡ (shown self.now claim.now).front };

    /// The version's own content, or none where it is the base's.
    fn content<'c>(&'c self, claim: &'c Self::Claim) -> Option<&'c Content>
        requires { gave self.now claim.now }
        ensures { option_map (λ content. content.now) result ≡ (shown self.now claim.now).content };

    /// Takes a claim back.
    fn leave(&mut self, claim: Self::Claim)
        requires gave { gave self.old claim }
        requires lent { 1 ≤ (store self.old).lent }
        ensures store { store self.new ≡ record (store self.old) { lent = (store self.old).lent - 1 } }
        ensures claims { KeepsClaims (gave self.old) (gave self.new) (shown self.old) (shown self.new) }
        ensures over { (log : Self.Log) → over self.old log → over self.new log };

    /// Puts a version in the place of the unit's, unless that is newer or another caller has it. One of equal length is
    /// replaced.
    fn replace<N: Ledger>(
        &mut self,
        log: &mut Self::Log,
        unit: Unit,
        front: &Front,
        content: Content,
        steps: &mut Steps<N>,
    ) -> Result<(), (Content, ReplaceStop)>
        requires over { over self.old log.old }
        requires unit { IsUnit (store self.old).pages unit }
        requires lent { (store self.old).lent ≡ 0 }
        requires front { Stands Self.Log.terms (Self.Log.handle log.old).seen front.now }
        requires content { content
            ≡ content_of unit (after Self.Log.terms.base (take front.now.len (Self.Log.handle log.old).seen)) }
        ensures replace { Replaces Self.Log.terms (Self.Log.handle log.old) (store self.old) unit front.now content
            (Self.Log.handle log.new) (store self.new) result }
        ensures keeps { Keeps (store self.old) (store self.new) }
        ensures more { SeesMore (Self.Log.handle log.old) (Self.Log.handle log.new) }
        ensures over { over self.new log.new }
        ensures steps { steps.old ≤ steps.new };

    /// A store stays over its log, whatever more of it is seen.
    ghost lasts: { (versions : Self) (log later : Self.Log) → over versions log →
        Grows (Self.Log.handle log) (Self.Log.handle later) → over versions later };
}

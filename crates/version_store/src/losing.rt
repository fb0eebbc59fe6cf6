//! A store for tests, which loses turns where it is told to, as a store that is shared may at any time.
ghost use Rattle.std.specs.Prelude.{◌≡◌, ◌+◌, ◌*◌, ◌<◌, ◌≤◌, ◌↔◌, [], ◌-◌, take, IfOk, IfErr, IsErr, IsTrue};
ghost use Rattle.wah_words.specs.Place.{page_count};
ghost use Rattle.cubit_base.specs.History.{after};
ghost use Rattle.commit_log.specs.Log.{Stands};
ghost use Rattle.commit_log.specs.Serial.{SerialValue, serial_terms, serial_handle};
ghost use Rattle.commit_log.specs.Handle.{SeesMore};
ghost use Rattle.unit_version.specs.Content.{content_of};
ghost use Rattle.unit_version.specs.Unit.{IsUnit};
ghost use Rattle.version_store.specs.Version.{base_version};
ghost use Rattle.version_store.specs.Store.{IsStanding, Asks, Holds, KeepsClaims, Keeps, Replaces};
ghost use Rattle.version_store.specs.Memory.{AreVersions, IsNew, IsGiven, shown_by};
ghost use Rattle.version_store.specs.Losing.{LosingValue, losing_store, IsNextLost, with_call, hold_losses, replace_losses, IsLost, IsBusyStop};

use crate::{Again, Memory, MemoryClaim, MemoryStore, ReplaceStop, VersionStore};
use commit_log::{Front, SerialLog, Setup};
use cubit_base::Steps;
use std::alloc::Global;
use std::marker::Model;
use std::sync::ledger::Ledger;
use unit_version::{Base, Content, Unit};

// Calls of one kind: the numbers of those to be lost, from 1, and how many there were.
#[derive(Drop)]
struct Calls {
    lost: Vec<u32>,
    count: u64,
}

impl Model for Calls {
    ghost use Rattle.version_store.specs.Losing.{Calls as CallsValue};

    ghost Value = { CallsValue };

    ghost view = { λ s. record { lost = s.lost.items; count = s.count } };
}

impl Calls {
    // Counts a call, and says whether it is to be lost.
    fn is_next_lost(&mut self) -> bool
        ensures lost { IsTrue result ↔ IsNextLost self.old }
        ensures count { self.new ≡ with_call self.old }
    {
        self.count = self.count.saturating_add(1);
        let count = self.count;
        self.lost.iter().any(|number| u64::from(*number) == count)
    }
}

/// A `MemoryStore` that loses the holds with these numbers, counted from 1, and the replacements that
/// `lose_replacements` names.
#[derive(Drop)]
pub struct LosingStore<S: Setup> {
    memory: MemoryStore<S>,
    losses: u64,
    holds: Calls,
    replacements: Calls,
}

impl<S: Setup> Model for LosingStore<S> {
    ghost use Rattle.version_store.specs.Losing.{LosingValue};

    ghost Value = { LosingValue };

    ghost view = { λ s. record {
      memory = s.memory;
      losses = s.losses;
      holds = s.holds;
      replacements = s.replacements;
    } };
}

impl<S: Setup> LosingStore<S> {
    /// A store with the base's version of each unit, which loses the holds with these numbers, counted from 1. All
    /// memory that it ever has is taken here.
    pub fn make(
        alloc: Global,
        base: &Base,
        log: &mut SerialLog<S>,
        lost: Vec<u32>,
    ) -> Result<LosingStore<S>, Memory>
        requires table { base.now.table ≡ S.base }
        requires row_room { S.limits.row_limit ≤ base.now.row_room }
        requires tries { 1 ≤ S.limits.tries }
        ensures new { IfOk result (λ store.
            IsNew (page_count base.now.row_room) (base_version (serial_terms S.base S.limits)) store.memory) }
        ensures calls { IfOk result (λ store. store ≡ record {
          memory = store.memory;
          losses = 0;
          holds = record { lost = lost.items; count = 0 };
          replacements = record { lost = []; count = 0 };
        }) }
        ensures standing { IfOk result (λ store. IsStanding (serial_terms S.base S.limits) (losing_store store) base.now
            (AreVersions (serial_terms S.base S.limits) store.memory log.new.seen)) }
        ensures same { log.new ≡ log.old }
    {
        Ok(LosingStore {
            memory: MemoryStore::make(alloc, base, log)?,
            losses: 0,
            holds: Calls { lost, count: 0 },
            replacements: Calls {
                lost: Vec::new(alloc),
                count: 0,
            },
        })
    }

    /// From here on the replacements with these numbers, counted from 1, are lost, where the unit's version is not
    /// newer.
    pub fn lose_replacements(&mut self, lost: Vec<u32>)
        ensures { self.new ≡ record self.old { replacements = record { lost = lost.items; count = 0 } } }
    {
        self.replacements = Calls { lost, count: 0 };
    }
}

impl<S: Setup> VersionStore for LosingStore<S> {
    ghost use Rattle.commit_log.specs.Serial.{serial_terms};
    ghost use Rattle.version_store.specs.Memory.{AreVersions, IsGiven, shown_by, versions-last};
    ghost use Rattle.version_store.specs.Losing.{losing_store};

    type Log = SerialLog<S>;

    type Claim = MemoryClaim;

    ghost store = { losing_store };

    ghost over = { λ store log. AreVersions (serial_terms S.base S.limits) store.memory log.seen };

    ghost gave = { λ store. IsGiven store.memory };

    ghost shown = { λ store. shown_by store.memory };

    fn hold<N: Ledger>(
        &mut self,
        log: &mut SerialLog<S>,
        unit: Unit,
        tries: u32,
        steps: &mut Steps<N>,
    ) -> Result<MemoryClaim, Again>
        requires over { AreVersions (serial_terms S.base S.limits) self.old.memory log.old.seen }
        requires unit { IsUnit self.old.memory.pages unit }
        requires tries { 1 ≤ tries }
        requires lent { self.old.memory.lent < 65_536 }
        ensures hold { Holds (serial_terms S.base S.limits) log.new.seen unit tries
            (IsGiven self.new.memory) (shown_by self.new.memory) (losing_store self.old) (losing_store self.new)
            result }
        ensures lost { IsErr result ↔ IsNextLost self.old.holds }
        ensures again { IfErr result (λ again. again ≡ record { lost = tries }) }
        ensures is { self.new ≡ record self.old {
          memory = self.new.memory;
          losses = hold_losses tries self.old.losses result;
          holds = with_call self.old.holds;
        } }
        ensures asks { Asks unit (losing_store self.old) (losing_store self.new) }
        ensures claims { KeepsClaims (IsGiven self.old.memory) (IsGiven self.new.memory)
            (shown_by self.old.memory) (shown_by self.new.memory) }
        ensures more { SeesMore (serial_handle log.old) (serial_handle log.new) }
        ensures over { AreVersions (serial_terms S.base S.limits) self.new.memory log.new.seen }
        ensures some_steps { steps.old + 1 ≤ steps.new }
        ensures steps { steps.new ≤ steps.old + (2 * tries + 8) }
    {
        if !self.holds.is_next_lost() {
            return self.memory.hold(log, unit, tries, steps);
        }
        self.memory.ask(unit);
        self.losses = self.losses.saturating_add(u64::from(tries));
        steps.tick(2 * u64::from(tries));
        Err(Again { lost: tries })
    }

    fn front(&self, claim: &MemoryClaim) -> Front {
        self.memory.front(claim)
    }

    fn content<'c>(&'c self, claim: &'c MemoryClaim) -> Option<&'c Content> {
        self.memory.content(claim)
    }

    fn leave(&mut self, claim: MemoryClaim)
        requires gave { IsGiven self.old.memory claim }
        requires lent { 1 ≤ self.old.memory.lent }
        ensures store { losing_store self.new
            ≡ record (losing_store self.old) { lent = self.old.memory.lent - 1 } }
        ensures is { self.new ≡ record self.old { memory = self.new.memory } }
        ensures claims { KeepsClaims (IsGiven self.old.memory) (IsGiven self.new.memory)
            (shown_by self.old.memory) (shown_by self.new.memory) }
        ensures over { (log : SerialValue) → AreVersions (serial_terms S.base S.limits) self.old.memory log.seen →
            AreVersions (serial_terms S.base S.limits) self.new.memory log.seen }
    {
        self.memory.leave(claim);
    }

    fn replace<N: Ledger>(
        &mut self,
        log: &mut SerialLog<S>,
        unit: Unit,
        front: &Front,
        content: Content,
        steps: &mut Steps<N>,
    ) -> Result<(), (Content, ReplaceStop)>
        requires over { AreVersions (serial_terms S.base S.limits) self.old.memory log.old.seen }
        requires unit { IsUnit self.old.memory.pages unit }
        requires lent { self.old.memory.lent ≡ 0 }
        requires front { Stands (serial_terms S.base S.limits) log.old.seen front.now }
        requires content { content ≡ content_of unit (after S.base (take front.now.len log.old.seen)) }
        ensures replace { Replaces (serial_terms S.base S.limits) (serial_handle log.old) (losing_store self.old) unit
            front.now content (serial_handle log.new) (losing_store self.new) result }
        ensures busy { IsBusyStop result ↔ IsLost self.old unit front.now }
        ensures is { self.new ≡ record self.old {
          memory = self.new.memory;
          losses = replace_losses self.old.losses result;
          replacements = with_call self.old.replacements;
        } }
        ensures keeps { Keeps (losing_store self.old) (losing_store self.new) }
        ensures more { SeesMore (serial_handle log.old) (serial_handle log.new) }
        ensures over { AreVersions (serial_terms S.base S.limits) self.new.memory log.new.seen }
        ensures steps { steps.old ≤ steps.new }
    {
        let is_lost = self.replacements.is_next_lost();
        if is_lost && self.memory.length(unit) <= front.len {
            self.losses = self.losses.saturating_add(1);
            return Err((content, ReplaceStop::Busy));
        }
        self.memory.replace(log, unit, front, content, steps)
    }

    ghost lasts = { λ store log later over grows.
        versions-last (serial_terms S.base S.limits) store.memory log.seen later.seen over grows.begins };
}

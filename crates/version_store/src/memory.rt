//! A store in memory for one caller, who never loses a turn.
ghost use Rattle.std.specs.Prelude.{◌≡◌, ◌<◌, ◌≤◌, IfOk, None, replicate};
ghost use Rattle.wah_words.specs.Place.{page_count};
ghost use Rattle.commit_log.specs.Serial.{serial_terms};
ghost use Rattle.commit_log.specs.Handle.{raised};
ghost use Rattle.unit_version.specs.Unit.{IsUnit};
ghost use Rattle.version_store.specs.Version.{base_version};
ghost use Rattle.version_store.specs.Store.{IsStanding, ChangesAt};
ghost use Rattle.version_store.specs.Memory.{MemoryValue, memory_store, version_of, asked_of, AreVersions, IsNew};

use crate::place::place;
use crate::{Again, Memory, ReplaceStop, VersionStore};
use commit_log::{CommitLog, Front, SerialLog, Setup};
use cubit_base::Steps;
use std::alloc::Global;
use std::marker::{Model, PhantomData};
use std::sync::ledger::Ledger;
use unit_version::{Base, Content, Unit};

// A version: its front, and its content if that is not the base's.
#[derive(Drop)]
struct Stored {
    front: Front,
    content: Option<Content>,
}

impl Model for Stored {
    ghost use Rattle.version_store.specs.Version.{Version};

    ghost Value = { Version };

    ghost view = { λ s. record { front = s.front; content = s.content } };
}

/// The versions of all units, for one caller.
#[derive(Drop)]
pub struct MemoryStore<S: Setup> {
    versions: Vec<Stored>,
    asked: Vec<u64>,
    pages: u32,
    lent: u32,
    setup: PhantomData<S>,
}

impl<S: Setup> Model for MemoryStore<S> {
    ghost use Rattle.version_store.specs.Memory.{MemoryValue, HasPlaces};

    ghost Value = { MemoryValue };

    ghost view = { λ s. record { pages = s.pages; lent = s.lent; versions = s.versions.items; asked = s.asked.items } };

    ghost invariant = { λ s. HasPlaces s.pages s.versions.items s.asked.items };
}

/// The right to read the version of a unit.
#[derive(Debug)]
pub struct MemoryClaim {
    unit: Unit,
}

impl<S: Setup> MemoryStore<S> {
    /// A store with the base's version of each unit. All memory that it ever has is taken here.
    pub fn make(
        alloc: Global,
        base: &Base,
        log: &mut SerialLog<S>,
    ) -> Result<MemoryStore<S>, Memory>
        requires table { base.now.table ≡ S.base }
        requires row_room { S.limits.row_limit ≤ base.now.row_room }
        requires tries { 1 ≤ S.limits.tries }
        ensures new { IfOk result (IsNew (page_count base.now.row_room) (base_version (serial_terms S.base S.limits))) }
        ensures standing { IfOk result (λ store. IsStanding (serial_terms S.base S.limits) (memory_store store) base.now
            (AreVersions (serial_terms S.base S.limits) store log.new.seen)) }
        ensures same { log.new ≡ log.old }
    {
        let units = base.units();
        let versions = base_versions(alloc, log.start(), units)?;
        let asked = vec![in alloc; 0; units as usize]?;
        Ok(MemoryStore {
            versions,
            asked,
            pages: base.pages(),
            lent: 0,
            setup: PhantomData,
        })
    }
}

impl<S: Setup> MemoryStore<S> {
    /// Counts that the unit was asked for.
    pub(crate) fn ask(&mut self, unit: Unit)
        requires { IsUnit self.old.pages unit }
        ensures asked { ChangesAt self.old.pages unit (raised (asked_of self.old.asked unit)) (asked_of self.old.asked)
            (asked_of self.new.asked) }
        ensures same { self.new ≡ record self.old { asked = self.new.asked } }
    {
        let asked = &mut self.asked[place(unit, self.pages)];
        *asked = asked.saturating_add(1);
    }

    /// The length of the front of the unit's version.
    pub(crate) fn length(&self, unit: Unit) -> u32
        requires { IsUnit self.now.pages unit }
        ensures { result ≡ (version_of self.now.versions unit).front.len }
    {
        self.stored(unit).front.len
    }

    // The unit's version.
    fn stored(&self, unit: Unit) -> &Stored
        requires { IsUnit self.now.pages unit }
        ensures { result.now ≡ version_of self.now.versions unit }
    {
        &self.versions[place(unit, self.pages)]
    }

    // Puts a version in the place of the unit's.
    fn put(&mut self, unit: Unit, version: Stored)
        requires { IsUnit self.old.pages unit }
        ensures put { ChangesAt self.old.pages unit version (version_of self.old.versions)
            (version_of self.new.versions) }
        ensures same { self.new ≡ record self.old { versions = self.new.versions } }
    {
        self.versions[place(unit, self.pages)] = version;
    }
}

impl<S: Setup> VersionStore for MemoryStore<S> {
    ghost use Rattle.commit_log.specs.Serial.{serial_terms};
    ghost use Rattle.version_store.specs.Memory.{memory_store, AreVersions, IsGiven, shown_by, versions-last};

    type Log = SerialLog<S>;

    type Claim = MemoryClaim;

    ghost store = { memory_store };

    ghost over = { λ memory log. AreVersions (serial_terms S.base S.limits) memory log.seen };

    ghost gave = { IsGiven };

    ghost shown = { shown_by };

    fn hold<N: Ledger>(
        &mut self,
        log: &mut SerialLog<S>,
        unit: Unit,
        tries: u32,
        steps: &mut Steps<N>,
    ) -> Result<MemoryClaim, Again> {
        self.ask(unit);
        self.lent += 1;
        steps.tick(1);
        Ok(MemoryClaim { unit })
    }

    fn front(&self, claim: &MemoryClaim) -> Front {
        self.stored(claim.unit).front
    }

    fn content<'c>(&'c self, claim: &'c MemoryClaim) -> Option<&'c Content> {
        self.stored(claim.unit).content.as_ref()
    }

    fn leave(&mut self, claim: MemoryClaim) {
        let MemoryClaim { unit: _ } = claim;
        self.lent -= 1;
    }

    fn replace<N: Ledger>(
        &mut self,
        log: &mut SerialLog<S>,
        unit: Unit,
        front: &Front,
        content: Content,
        steps: &mut Steps<N>,
    ) -> Result<(), (Content, ReplaceStop)> {
        let stored = self.stored(unit).front;
        if front.len < stored.len {
            return Err((content, ReplaceStop::Newer(stored)));
        }
        let version = Stored {
            front: *front,
            content: Some(content),
        };
        self.put(unit, version);
        Ok(())
    }

    ghost lasts = { λ memory log later over grows.
        versions-last (serial_terms S.base S.limits) memory log.seen later.seen over grows.begins };
}

// So many versions with the base's content, at the empty front.
fn base_versions(alloc: Global, start: Front, count: u32) -> Result<Vec<Stored>, Memory>
    ensures { IfOk result (λ versions. versions.items ≡ replicate count (record { front = start; content = None })) }
{
    let mut versions = Vec::with_capacity(alloc, count as usize)?;
    for place in 0..count {
        versions.push(Stored {
            front: start,
            content: None,
        })?;
    }
    Ok(versions)
}

//! The claims of a plan's units.
ghost use Rattle.std.specs.Prelude.{◌≡◌, ◌+◌, ◌-◌, ◌*◌, ◌≤◌, ◌<◌, ◌⊎◌, [], length, map, min, true, IfSome, All, AllPairs, vec_capacity};
ghost use Rattle.std.specs.Option.{option_map};
ghost use Rattle.commit_log.specs.Log.{Stands};
ghost use Rattle.commit_log.specs.Handle.{SeesMore};
ghost use Rattle.unit_version.specs.Unit.{IsUnit};
ghost use Rattle.version_store.specs.Store.{Asks, KeepsClaims};
ghost use Rattle.wah_words.specs.Place.{page_count};
ghost use Rattle.version_store.specs.Place.{place_of};
ghost use Rattle.front_patch.specs.Since.{ShowsBase, content_by};
ghost use Rattle.front_patch.specs.Taken.{AreGiven, claim_count, fallback_count};
ghost use Rattle.front_patch.specs.Takes.{least_length, length_of};
ghost use Rattle.front_patch.specs.Holding.{HoldsEach, HoldsOne, AreAtFronts};

use commit_log::{CommitLog, Front};
use cubit_base::Steps;
use std::sync::ledger::Ledger;
use unit_version::{Base, Content, Unit};
use version_store::VersionStore;

/// Holds each of the units once, and puts its claim, or none where the hold was given up, behind the claims, which have
/// room.
pub(crate) fn hold_each<S: VersionStore, N: Ledger>(
    log: &mut S::Log,
    store: &mut S,
    units: &[Unit],
    tries: u32,
    claims: &mut Vec<Option<S::Claim>>,
    steps: &mut Steps<N>,
)
    requires over { S.over store.old log.old }
    requires units { All (IsUnit (S.store store.old).pages) units.now }
    requires rising { AllPairs (λ a b. place_of a < place_of b) units.now }
    requires few { length units.now ≤ 65_536 }
    requires lent { (S.store store.old).lent ≡ 0 }
    requires tries { 1 ≤ tries }
    requires none { claims.old.items ≡ [] }
    requires room { length units.now ≤ vec_capacity claims.old }
    ensures held { HoldsEach S.Log.terms (S.Log.handle log.new).seen tries units.now (S.gave store.new)
        (S.shown store.new) (S.store store.old) (S.store store.new) claims.new.items }
    ensures over { S.over store.new log.new }
    ensures more { SeesMore (S.Log.handle log.old) (S.Log.handle log.new) }
    ensures steps { steps.new ≤ steps.old + (2 * tries + 8) * length units.now }
{
    for i in 0..units.len() {
        let claim = hold_one(log, store, units[i], tries, steps);
        claims.push_reserved(claim);
    }
}

// Holds a unit. None where that was given up.
fn hold_one<S: VersionStore, N: Ledger>(
    log: &mut S::Log,
    store: &mut S,
    unit: Unit,
    tries: u32,
    steps: &mut Steps<N>,
) -> Option<S::Claim>
    requires over { S.over store.old log.old }
    requires unit { IsUnit (S.store store.old).pages unit }
    requires tries { 1 ≤ tries }
    requires lent { (S.store store.old).lent < 65_536 }
    ensures hold { HoldsOne S.Log.terms (S.Log.handle log.new).seen tries unit (S.gave store.new) (S.shown store.new)
        (S.store store.old) (S.store store.new) result }
    ensures asks { Asks unit (S.store store.old) (S.store store.new) }
    ensures claims { KeepsClaims (S.gave store.old) (S.gave store.new) (S.shown store.old) (S.shown store.new) }
    ensures more { SeesMore (S.Log.handle log.old) (S.Log.handle log.new) }
    ensures over { S.over store.new log.new }
    ensures steps { steps.new ≤ steps.old + (2 * tries + 8) }
{
    match store.hold(log, unit, tries, steps) {
        Ok(claim) => Some(claim),
        Err(_) => None,
    }
}

/// The shortest of a first front and of the fronts of the versions; the empty one where the base's content serves.
pub(crate) fn oldest<S: VersionStore>(
    log: &S::Log,
    store: &S,
    claims: &[Option<S::Claim>],
    first: Front,
) -> Front
    requires given { AreGiven (S.gave store.now) claims.now }
    requires first { Stands S.Log.terms (S.Log.handle log.now).seen first }
    requires stand { AreAtFronts S.Log.terms (S.Log.handle log.now).seen (S.shown store.now) claims.now }
    ensures len { result.len ≡ least_length first.len (map (option_map (S.shown store.now)) claims.now) }
    ensures stands { Stands S.Log.terms (S.Log.handle log.now).seen result }
{
    let mut oldest = first;
    for claim in claims {
        oldest = shorter(oldest, front_of(log, store, claim));
    }
    oldest
}

// The front of what serves a unit.
fn front_of<S: VersionStore>(log: &S::Log, store: &S, claim: &Option<S::Claim>) -> Front
    requires given { IfSome claim.now (S.gave store.now) }
    requires stands { IfSome claim.now (λ c.
        Stands S.Log.terms (S.Log.handle log.now).seen (S.shown store.now c).front) }
    ensures len { result.len ≡ length_of (option_map (S.shown store.now) claim.now) }
    ensures stands { Stands S.Log.terms (S.Log.handle log.now).seen result }
{
    match claim {
        Some(claim) => store.front(claim),
        None => log.start(),
    }
}

// The shorter of two fronts.
fn shorter(a: Front, b: Front) -> Front
    ensures len { result.len ≡ min a.len b.len }
    ensures one { (result ≡ a) ⊎ (result ≡ b) }
{
    if b.len < a.len { b } else { a }
}

/// What serves a unit: the content of the version that its claim shows, or the base's.
pub(crate) fn content_by<'t, S: VersionStore>(
    store: &'t S,
    base: &'t Base,
    claim: &'t Option<S::Claim>,
    unit: Unit,
) -> &'t Content
    requires given { IfSome claim.now (S.gave store.now) }
    requires unit { IsUnit (page_count base.now.row_room) unit }
    ensures { result.now ≡ content_by (option_map (S.shown store.now) claim.now) unit base.now.table }
{
    match claim {
        Some(claim) => match store.content(claim) {
            Some(content) => content,
            None => base.content(unit),
        },
        None => base.content(unit),
    }
}

/// Whether a unit is served by the base's content, either way.
pub(crate) fn shows_base<S: VersionStore>(store: &S, claim: &Option<S::Claim>) -> bool
    requires { IfSome claim.now (S.gave store.now) }
    ensures { result ≡ true → ShowsBase (option_map (S.shown store.now) claim.now) }
{
    match claim {
        Some(claim) => store.content(claim).is_none(),
        None => true,
    }
}

/// How many units the base's content serves.
pub(crate) fn count_fallbacks<S: VersionStore>(claims: &[Option<S::Claim>]) -> u32
    requires { length claims.now ≤ 65_536 }
    ensures { result ≡ fallback_count claims.now }
{
    let mut count = 0;
    for claim in claims {
        count += u32::from(claim.is_none());
    }
    count
}

/// Gives each claim back.
pub(crate) fn leave_each<S: VersionStore>(store: &mut S, mut claims: Vec<Option<S::Claim>>)
    requires given { AreGiven (S.gave store.old) claims.items }
    requires lent { (S.store store.old).lent ≡ claim_count claims.items }
    ensures store { S.store store.new ≡ record (S.store store.old) { lent = 0 } }
    ensures over { (log : S.Log) → S.over store.old log → S.over store.new log }
{
    while let Some(claim) = claims.pop() {
        match claim {
            Some(claim) => store.leave(claim),
            None => {}
        }
    }
    claims.destroy_empty();
}

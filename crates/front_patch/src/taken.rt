//! Versions that are held, seen at one front.
ghost use Rattle.std.specs.Prelude.{◌≡◌, ◌+◌, ◌*◌, ◌<◌, ◌≤◌, ℕ, true, map, length, Contains};
ghost use Rattle.unit_version.specs.declared.unit.Unit.TheVariants.{Bin};
ghost use Rattle.front_patch.specs.PageAtFront.{tuple_here};
ghost use Rattle.cubit_base.specs.LiveRow.{tuple_at};
ghost use Rattle.fence_window.specs.Window.{IsWindow};
ghost use Rattle.unit_version.specs.Content.{is_in_bins};
ghost use Rattle.front_patch.specs.Bits.{IsBits, bits_of, AreGroups};
ghost use Rattle.front_patch.specs.declared.row_test.RowTest.TheVariants.{IsInBins};
ghost use Rattle.front_patch.specs.Planned.{HasBin, units_of};
ghost use Rattle.front_patch.specs.Patch.{IsPatch};
ghost use Rattle.front_patch.specs.Taken.{IsTakenOver, AreGiven, table_at, patched_by, claim_count, fallback_count};

use crate::bits::{first_row, set_changed, show_none, show_page};
use crate::changed::ChangedRows;
use crate::claims::{count_fallbacks, leave_each};
use crate::page::{PageAtFront, marks_of};
use crate::patches::changed_rows;
use crate::planned::test_of;
use crate::row_test::RowTest;
use crate::taking::Patch;
use column_bins::{Column, Plan, Stretch};
use commit_log::Front;
use cubit_base::{Steps, Tuple};
use fence_window::{BLOCK_GROUPS, PAGE_GROUPS, PAGE_ROWS};
use std::marker::Model;
use std::snapshot::Snapshot;
use std::sync::ledger::Ledger;
use unit_version::{Base, Unit, laws};
use version_store::VersionStore;

/// Versions of the units of a plan that a caller holds, and the rows that were changed since the oldest of them. It has
/// to be closed.
pub struct Taken<S: VersionStore> {
    // What the log had seen, which takes no bytes here: contracts alone read it.
    pub(crate) log: Snapshot<S::Log>,
    pub(crate) front: Front,
    pub(crate) least: u32,
    pub(crate) fallbacks: u32,
    pub(crate) plan: Plan,
    pub(crate) pages: u32,
    pub(crate) units: Vec<Unit>,
    pub(crate) claims: Vec<Option<S::Claim>>,
    pub(crate) changed: ChangedRows,
}

impl<S: VersionStore> Model for Taken<S> {
    ghost use Rattle.std.specs.Prelude.{◌≡◌, length};
    ghost use Rattle.front_patch.specs.Planned.{units_of};
    ghost use Rattle.front_patch.specs.Patch.{IsPatch};
    ghost use Rattle.front_patch.specs.Taken.{TakenValue, fallback_count};

    ghost Value = { TakenValue S.Claim };

    ghost view = { λ t. record {
      seen = (S.Log.handle t.log.value).seen;
      front = t.front;
      least = t.least;
      plan = t.plan;
      pages = t.pages;
      claims = t.claims.items;
    } };

    ghost invariant = { λ t.
        IsPatch S.Log.terms (S.Log.handle t.log.value).seen t.front t.least t.plan t.pages t.changed
        × (t.units.items ≡ units_of t.plan t.pages) × (length t.claims.items ≡ length t.units.items)
        × (t.fallbacks ≡ fallback_count t.claims.items) };
}

/// Claims of a plan's units, and the patch that brings what they show to a front.
pub(crate) fn taken_of<S: VersionStore>(
    log: &S::Log,
    plan: &Plan,
    pages: u32,
    units: Vec<Unit>,
    claims: Vec<Option<S::Claim>>,
    patch: Patch,
) -> Taken<S>
    requires patch { IsPatch S.Log.terms (S.Log.handle log.now).seen patch.front patch.least plan.now pages
        patch.changed }
    requires units { units.items ≡ units_of plan.now pages }
    requires claims { length claims.items ≡ length units.items }
    requires few { length claims.items ≤ 65_536 }
    ensures { result ≡ record {
      seen = (S.Log.handle log.now).seen;
      front = patch.front;
      least = patch.least;
      plan = plan.now;
      pages = pages;
      claims = claims.items;
    } }
{
    let fallbacks = count_fallbacks::<S>(&claims);
    Taken {
        log: Snapshot::of(log),
        front: patch.front,
        least: patch.least,
        fallbacks,
        plan: *plan,
        pages,
        units,
        claims,
        changed: patch.changed,
    }
}

impl<S: VersionStore> Taken<S> {
    /// The front at which everything is seen.
    pub fn front(&self) -> Front
        ensures { result ≡ self.now.front }
    {
        self.front
    }

    /// How many deltas the versions are patched by: those from the shortest of them on.
    pub fn patched(&self) -> u32
        ensures { result ≡ patched_by self.now }
    {
        self.front.len - self.least
    }

    /// How many units the base's content serves, since their holds were given up.
    pub fn fallbacks(&self) -> u32
        ensures { result ≡ fallback_count self.now.claims }
    {
        self.fallbacks
    }

    /// Writes the groups of a page of a bitvector at the front, and 0 where there are none. It takes no memory.
    pub fn window(
        &self,
        store: &S,
        base: &Base,
        unit: Unit,
        page: u32,
        out: &mut [u32; PAGE_GROUPS],
    )
        requires over { IsTakenOver S.Log.terms (S.gave store.now) (S.shown store.now) base.now self.now }
        requires planned { Contains (units_of self.now.plan self.now.pages) unit }
        requires bits { IsBits unit }
        ensures { IsWindow (bits_of unit (table_at S.Log.terms self.now)) page out.new }
    {
        changed_rows();
        let test = test_of(unit);
        show_page(self.bits(store, base, unit), page, out);
        set_changed(self.changed(), test, page, out);
    }

    /// Writes the groups of 32 pages from the first on, in which the rows are true that are live at the front and have
    /// their bin of the column in the stretch; 0 where there are none. It takes no memory.
    pub fn stretch(
        &self,
        store: &S,
        base: &Base,
        column: Column,
        stretch: Stretch,
        first: u32,
        out: &mut [u32; BLOCK_GROUPS],
    )
        requires over { IsTakenOver S.Log.terms (S.gave store.now) (S.shown store.now) base.now self.now }
        requires planned { (bin : ℕ) → HasBin stretch bin →
            Contains (units_of self.now.plan self.now.pages) (Bin column bin) }
        ensures { AreGroups (map (is_in_bins column stretch) (table_at S.Log.terms self.now)) first out.new }
    {
        changed_rows();
        show_none(out);
        let mut bin = stretch.first;
        while bin < stretch.after {
            bin += self.or_bins(store, base, column, bin, stretch.after, first, out);
        }
        set_changed(
            self.changed(),
            RowTest::IsInBins(column, stretch),
            first,
            out,
        );
    }

    /// The tuples of a page at the front. It takes no memory.
    pub fn page<'t>(&'t self, store: &'t S, base: &'t Base, page: u32) -> PageAtFront<'t>
        requires over { IsTakenOver S.Log.terms (S.gave store.now) (S.shown store.now) base.now self.now }
        requires pages { self.now.plan.pages ≡ true }
        ensures { (at : ℕ) → at < 3_968 →
            tuple_here result at ≡ tuple_at (table_at S.Log.terms self.now) (3_968 * page + at) }
    {
        changed_rows();
        laws::tuples();
        let first = first_row(page);
        let held = self.held_page(store, base, page);
        let changed = self.changed().among(first, u64::from(PAGE_ROWS));
        PageAtFront {
            page: held,
            first,
            changed,
            marks: marks_of(changed, first),
        }
    }

    /// The row's tuple at the front, or none where the row is not live and past the last row. It counts one read, and
    /// takes no memory.
    pub fn tuple<N: Ledger>(
        &self,
        store: &S,
        base: &Base,
        row: u32,
        reads: &mut Steps<N>,
    ) -> Option<Tuple>
        requires over { IsTakenOver S.Log.terms (S.gave store.now) (S.shown store.now) base.now self.now }
        requires pages { self.now.plan.pages ≡ true }
        ensures value { result ≡ tuple_at (table_at S.Log.terms self.now) row }
        ensures reads { reads.new ≡ reads.old + 1 }
    {
        let page = self.page(store, base, row / PAGE_ROWS);
        page.get((row % PAGE_ROWS) as u16, reads)
    }

    /// Gives every claim back to the store that gave it. It takes no memory.
    pub fn close(self, store: &mut S)
        requires given { AreGiven (S.gave store.old) self.claims }
        requires lent { (S.store store.old).lent ≡ claim_count self.claims }
        ensures store { S.store store.new ≡ record (S.store store.old) { lent = 0 } }
        ensures over { (log : S.Log) → S.over store.old log → S.over store.new log }
    {
        let Taken {
            log: _,
            front: _,
            least: _,
            fallbacks: _,
            plan: _,
            pages: _,
            units: _,
            claims,
            changed: _,
        } = self;
        leave_each(store, claims);
    }
}

//! Taken versions, scanned by a predicate, 32 pages at a time.
ghost use Rattle.std.specs.Prelude.{◌≡◌, ◌+◌, ◌*◌, ◌≤◌, ◌<◌, ◌&&◌, ◌||◌, ℕ, true, Bool, List, Option, Contains, All, if◌then◌else◌, is_some};
ghost use Rattle.cubit_base.specs.Tuple.{TupleValue};
ghost use Rattle.column_bins.specs.Plan.{is_open, range_of, stretch_of, IsStretch, has_part, in_stretch, may_match};
ghost use Rattle.column_bins.specs.declared.plan_type.Stretch.{Stretch as StretchValue};
ghost use Rattle.column_bins.specs.declared.column.Column.TheVariants as column;
ghost use Rattle.unit_version.specs.declared.unit.Unit.TheVariants.{Bin};
ghost use Rattle.front_patch.specs.Planned.{HasBin, units_of};
ghost use Rattle.front_patch.specs.Taken.{IsTakenOver, table_at};
ghost use Rattle.selection.specs.Blocks.{Tells, IsBlock};
ghost use Rattle.selection.specs.Candidates.{is_candidate_at, is_cut_at};
ghost use Rattle.selection.specs.Scan.{HasTuples, IsScan, begins_at, has_bin_at, admits_at};

use crate::asked::Asked;
use crate::block::Block;
use crate::groups::{is_empty, join, keep, put_page, set_all};
use crate::months::cut_months;
use column_bins::{Column, Plan, Stretch};
use cubit_base::Predicate;
use fence_window::{BLOCK_GROUPS, PAGE_GROUPS};
use front_patch::{Taken, laws};
use std::marker::Model;
use unit_version::{Base, Unit};
use version_store::VersionStore;
use wah_words::laws::groups;

/// A predicate, and versions that were taken for it, with the store and the base that show them.
#[derive(Drop)]
pub(crate) struct Scan<'t, S: VersionStore> {
    pub(crate) predicate: &'t Predicate,
    plan: &'t Plan,
    pub(crate) taken: &'t Taken<S>,
    pub(crate) store: &'t S,
    pub(crate) base: &'t Base,
    // Whether some month is met in part, so that days decide.
    pub(crate) cuts: bool,
}

impl<'t, S: VersionStore> Model for Scan<'t, S> {
    ghost use Rattle.selection.specs.Scan.{ScanValue, IsScan};

    ghost Value = { ScanValue S.Claim };

    ghost view = { λ s. record { predicate = s.predicate.now; taken = s.taken.now } };

    ghost invariant = { λ s. IsScan S.Log.terms (S.gave s.store.now) (S.shown s.store.now) s.base.now s.taken.now
        s.predicate.now s.plan.now s.cuts };
}

impl<'t, S: VersionStore> Scan<'t, S> {
    /// Of what was taken for a predicate.
    pub(crate) fn new(
        predicate: &'t Predicate,
        asked: &'t Asked<S>,
        store: &'t S,
        base: &'t Base,
    ) -> Scan<'t, S>
        requires { IsScan S.Log.terms (S.gave store.now) (S.shown store.now) base.now asked.now.taken predicate.now
            asked.now.plan asked.now.cuts }
        ensures { result ≡ record { predicate = predicate.now; taken = asked.now.taken } }
    {
        Scan {
            predicate,
            plan: &asked.plan,
            taken: &asked.taken,
            store,
            base,
            cuts: asked.cuts,
        }
    }

    /// Writes what 32 pages from the first on have.
    pub(crate) fn read(&self, first: u32, block: &mut Block)
        requires { first ≤ 16_777_216 }
        ensures first { block.new.first ≡ first }
        ensures block { IsBlock self.now.predicate (table_at S.Log.terms self.now.taken) block.new }
    {
        block.first = first;
        self.candidates(first, &mut block.candidates);
        if self.cuts {
            self.cut_rows(first, &mut block.cut);
        }
    }

    /// Writes which rows of 32 pages from the first on are candidates.
    pub(crate) fn candidates(&self, first: u32, rows: &mut [u32; BLOCK_GROUPS])
        requires { first ≤ 16_777_216 }
        ensures { Tells (is_candidate_at self.now.predicate) (table_at S.Log.terms self.now.taken) first rows.new }
    {
        self.begin(first, rows);
        self.narrow(Column::Disc, first, rows);
        self.narrow(Column::Ship, first, rows);
        self.narrow(Column::Qty, first, rows);
        self.narrow(Column::Flag, first, rows);
        self.narrow(Column::Status, first, rows);
    }

    // Writes the live rows where no column is restricted, and else every row.
    fn begin(&self, first: u32, rows: &mut [u32; BLOCK_GROUPS])
        requires { first ≤ 16_777_216 }
        ensures { Tells (begins_at self.now.predicate) (table_at S.Log.terms self.now.taken) first rows.new }
    {
        if is_open(self.predicate) {
            self.live_rows(first, rows);
        } else {
            set_all(rows);
        }
    }

    // Writes the live rows.
    fn live_rows(&self, first: u32, rows: &mut [u32; BLOCK_GROUPS])
        requires near { first ≤ 16_777_216 }
        requires open { is_open self.now.predicate ≡ true }
        ensures { Tells is_some (table_at S.Log.terms self.now.taken) first rows.new }
    {
        laws::units();
        groups();
        let mut page = [0; PAGE_GROUPS];
        for k in 0..32 {
            self.taken
                .window(self.store, self.base, Unit::Live, first + k, &mut page);
            put_page(rows, k, &page);
        }
    }

    // Keeps the rows whose bin in a column is met, if that column is restricted and any row is left.
    fn narrow(&self, column: Column, first: u32, rows: &mut [u32; BLOCK_GROUPS])
        ensures { (test : Option TupleValue → Bool) →
            Tells test (table_at S.Log.terms self.now.taken) first rows.old →
            Tells (λ tuple. test tuple && admits_at column (range_of column self.now.predicate) tuple)
            (table_at S.Log.terms self.now.taken) first rows.new }
    {
        laws::units();
        let Some(stretch) = stretch_of(self.plan, column) else {
            return;
        };
        if is_empty(rows) {
            return;
        }
        let mut met = [0; BLOCK_GROUPS];
        self.stretch(column, stretch, first, &mut met);
        keep(rows, &met);
    }

    // Writes which rows of 32 pages are live and have their bin in a stretch of the plan's.
    fn stretch(&self, column: Column, stretch: Stretch, first: u32, out: &mut [u32; BLOCK_GROUPS])
        requires { (bin : ℕ) → HasBin stretch bin →
            Contains (units_of self.now.taken.plan self.now.taken.pages) (Bin column bin) }
        ensures { Tells (has_bin_at column stretch) (table_at S.Log.terms self.now.taken) first out.new }
    {
        groups();
        self.taken
            .stretch(self.store, self.base, column, stretch, first, out);
    }

    // Writes which rows of 32 pages have a month that is met in part.
    fn cut_rows(&self, first: u32, out: &mut [u32; BLOCK_GROUPS])
        requires { has_part self.now.predicate.ship ≡ true }
        ensures { Tells (is_cut_at self.now.predicate) (table_at S.Log.terms self.now.taken) first out.new }
    {
        laws::units();
        let met = self.plan.ship.unwrap();
        let range = self.predicate.ship.unwrap();
        let (low, high) = cut_months(&range, met);
        let mut others = [0; BLOCK_GROUPS];
        self.stretch(Column::Ship, low, first, out);
        self.stretch(Column::Ship, high, first, &mut others);
        join(out, &others);
    }
}

// Whether no column is restricted.
fn is_open(predicate: &Predicate) -> bool
    ensures { result ≡ is_open predicate.now }
{
    predicate.ship.is_none()
        && predicate.disc.is_none()
        && predicate.qty.is_none()
        && predicate.flag.is_none()
        && predicate.status.is_none()
}

// The stretch of a column.
fn stretch_of(plan: &Plan, column: Column) -> Option<Stretch>
    ensures { result ≡ stretch_of column plan.now }
{
    match column {
        Column::Ship => plan.ship,
        Column::Disc => plan.disc,
        Column::Qty => plan.qty,
        Column::Flag => plan.flag,
        Column::Status => plan.status,
    }
}

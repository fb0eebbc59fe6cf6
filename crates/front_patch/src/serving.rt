//! What serves the units of a taken plan: their versions' contents, or the base's.
ghost use Rattle.std.specs.Prelude.{◌≡◌, ◌+◌, ◌*◌, ◌^◌, ◌||◌, ◌<◌, ◌≤◌, ℕ, true, slice_get, All, Contains, Some, IfSome, IfNone};
ghost use Rattle.cubit_base.specs.LiveRow.{tuple_at};
ghost use Rattle.unit_version.specs.Content.{one_bin};
ghost use Rattle.unit_version.specs.Union.{bins_from};
ghost use Rattle.unit_version.specs.declared.content.Content.TheVariants as content;
ghost use Rattle.unit_version.specs.declared.content.Content.TheVariants.{Bits};
ghost use Rattle.unit_version.specs.declared.unit.Unit.TheVariants as unit;
ghost use Rattle.unit_version.specs.declared.unit.Unit.TheVariants.{Bin};
ghost use Rattle.front_patch.specs.Bits.{IsBits, passes, row_in};
ghost use Rattle.front_patch.specs.Changed.{IsSteady};
ghost use Rattle.front_patch.specs.Patch.{IsPatch};
ghost use Rattle.front_patch.specs.Planned.{units_of};
ghost use Rattle.front_patch.specs.Since.{IsContentSince, IsUnionSince};
ghost use Rattle.front_patch.specs.Taken.{IsTakenOver, table_at};
ghost use Rattle.front_patch.specs.declared.row_test.RowTest.TheVariants.{IsInBins};

use crate::bits::{or_pages, or_plain};
use crate::changed::ChangedRows;
use crate::claims::{content_by, shows_base};
use crate::patches::{base_serves, contents_since};
use crate::planned::{page_place, place_in};
use crate::taken::Taken;
use column_bins::Column;
use fence_window::{BLOCK_GROUPS, Fenced, Plain};
use unit_version::{Base, Content, Page, Unit};
use version_store::VersionStore;

impl<S: VersionStore> Taken<S> {
    /// The last states of the rows that were changed since the oldest version.
    pub(crate) fn changed(&self) -> &ChangedRows
        ensures { IsPatch S.Log.terms self.now.seen self.now.front self.now.least self.now.plan self.now.pages
            result.now }
    {
        &self.changed
    }

    /// What serves a unit.
    pub(crate) fn content<'t>(
        &'t self,
        store: &'t S,
        base: &'t Base,
        unit: Unit,
        place: usize,
    ) -> &'t Content
        requires over { IsTakenOver S.Log.terms (S.gave store.now) (S.shown store.now) base.now self.now }
        requires place { slice_get (units_of self.now.plan self.now.pages) place ≡ Some unit }
        ensures { IsContentSince S.Log.terms self.now.seen self.now.least unit result.now }
    {
        contents_since();
        content_by(store, base, &self.claims[place], unit)
    }

    /// The bitvector that serves a unit.
    pub(crate) fn bits<'t>(&'t self, store: &'t S, base: &'t Base, unit: Unit) -> &'t Fenced
        requires over { IsTakenOver S.Log.terms (S.gave store.now) (S.shown store.now) base.now self.now }
        requires planned { Contains (units_of self.now.plan self.now.pages) unit }
        requires bits { IsBits unit }
        ensures { IsContentSince S.Log.terms self.now.seen self.now.least unit (Bits result.now) }
    {
        match self.content(store, base, unit, place_in(&self.units, unit)) {
            Content::Bits(bits) => bits,
            _ => unreachable!(),
        }
    }

    /// The page that serves the rows of a page of tuples; none where there were no such rows when it was taken.
    pub(crate) fn held_page<'t>(
        &'t self,
        store: &'t S,
        base: &'t Base,
        page: u32,
    ) -> Option<&'t Page>
        requires over { IsTakenOver S.Log.terms (S.gave store.now) (S.shown store.now) base.now self.now }
        ensures some { IfSome result (λ held.
            IsContentSince S.Log.terms self.now.seen self.now.least (unit.Page page) (content.Page held.now)) }
        ensures none { IfNone result (self.now.pages ≤ page) }
    {
        if self.pages <= page {
            return None;
        }
        let place = page_place(&self.plan, &self.units, self.pages, page);
        match self.content(store, base, Unit::Page(page), place) {
            Content::Page(page) => Some(page),
            _ => unreachable!(),
        }
    }

    /// Puts the groups of 32 pages of a bin into others, by or: what each row that did not change since the oldest
    /// version has.
    pub(crate) fn or_bin(
        &self,
        store: &S,
        base: &Base,
        column: Column,
        bin: u8,
        first: u32,
        out: &mut [u32; BLOCK_GROUPS],
    )
        requires over { IsTakenOver S.Log.terms (S.gave store.now) (S.shown store.now) base.now self.now }
        requires planned { Contains (units_of self.now.plan self.now.pages) (Bin column bin) }
        requires groups { All (λ group. group < 2 ^ 31) out.old }
        ensures groups { All (λ group. group < 2 ^ 31) out.new }
        ensures rows { (row : ℕ) → row < 126_976 →
            IsSteady S.Log.terms self.now.seen self.now.least (3_968 * first + row) →
            row_in out.new row ≡ (row_in out.old row
            || passes (IsInBins column (one_bin bin))
            (tuple_at (table_at S.Log.terms self.now) (3_968 * first + row))) }
    {
        or_pages(self.bits(store, base, Unit::Bin(column, bin)), first, out);
    }

    /// The same of some bins from one on, and how many these are: those of a union that the base keeps, where its
    /// content serves each of them, or else that bin.
    pub(crate) fn or_bins(
        &self,
        store: &S,
        base: &Base,
        column: Column,
        bin: u8,
        after: u8,
        first: u32,
        out: &mut [u32; BLOCK_GROUPS],
    ) -> u8
        requires over { IsTakenOver S.Log.terms (S.gave store.now) (S.shown store.now) base.now self.now }
        requires some { bin < after }
        requires planned { (n : ℕ) → bin ≤ n → n < after →
            Contains (units_of self.now.plan self.now.pages) (Bin column n) }
        requires groups { All (λ group. group < 2 ^ 31) out.old }
        ensures some { 1 ≤ result }
        ensures within { bin + result ≤ after }
        ensures groups { All (λ group. group < 2 ^ 31) out.new }
        ensures rows { (row : ℕ) → row < 126_976 →
            IsSteady S.Log.terms self.now.seen self.now.least (3_968 * first + row) →
            row_in out.new row ≡ (row_in out.old row || passes (IsInBins column (bins_from bin result))
            (tuple_at (table_at S.Log.terms self.now) (3_968 * first + row))) }
    {
        match self.union_from(store, base, column, bin, after) {
            Some((union, bins)) => {
                or_plain(union, first, out);
                bins
            }
            None => {
                self.or_bin(store, base, column, bin, first, out);
                1
            }
        }
    }

    /// The widest union from a bin on that the base keeps of the bins before another, where its content serves each of
    /// them, and of how many bins it is.
    pub(crate) fn union_from<'t>(
        &'t self,
        store: &'t S,
        base: &'t Base,
        column: Column,
        bin: u8,
        after: u8,
    ) -> Option<(&'t Plain, u8)>
        requires over { IsTakenOver S.Log.terms (S.gave store.now) (S.shown store.now) base.now self.now }
        requires planned { (n : ℕ) → bin ≤ n → n < after →
            Contains (units_of self.now.plan self.now.pages) (Bin column n) }
        ensures { IfSome result (λ r. IsUnionSince S.Log.terms self.now.least column bin after r.1 r.0.now) }
    {
        for bins in [16, 12, 4, 2] {
            if bins <= after.saturating_sub(bin)
                && self.shows_base(store, base, column, bin, bins)
            {
                if let Some(union) = base.coarse(column, bin, bins) {
                    return Some((union, bins));
                }
            }
        }
        None
    }

    /// Whether the base's content serves each of so many bins from one on.
    pub(crate) fn shows_base(
        &self,
        store: &S,
        base: &Base,
        column: Column,
        bin: u8,
        bins: u8,
    ) -> bool
        requires over { IsTakenOver S.Log.terms (S.gave store.now) (S.shown store.now) base.now self.now }
        requires planned { (n : ℕ) → bin ≤ n → n < bin + bins →
            Contains (units_of self.now.plan self.now.pages) (Bin column n) }
        requires end { bin + bins ≤ 255 }
        requires some { 1 ≤ bins }
        ensures { result ≡ true → self.now.least ≡ 0 }
    {
        if !self.is_of_base(store, base, Unit::Bin(column, bin)) {
            return false;
        }
        for n in bin + 1..bin + bins {
            if !self.is_of_base(store, base, Unit::Bin(column, n)) {
                return false;
            }
        }
        true
    }

    /// Whether the base's content serves a unit.
    pub(crate) fn is_of_base(&self, store: &S, base: &Base, unit: Unit) -> bool
        requires over { IsTakenOver S.Log.terms (S.gave store.now) (S.shown store.now) base.now self.now }
        requires planned { Contains (units_of self.now.plan self.now.pages) unit }
        ensures { result ≡ true → self.now.least ≡ 0 }
    {
        base_serves();
        let _ = base;
        shows_base(store, &self.claims[place_in(&self.units, unit)])
    }
}

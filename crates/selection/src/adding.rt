//! What the rows that match add up to: each candidate's tuple is read once.
ghost use Rattle.std.specs.Prelude.{◌≡◌, ◌+◌, ◌*◌, ◌≤◌, ◌<◌, true, ℕ, length, count_by};
ghost use Rattle.cubit_base.specs.Answer.{answer};
ghost use Rattle.unit_version.specs.Content.{tuples_from};
ghost use Rattle.front_patch.specs.Taken.{table_at};
ghost use Rattle.selection.specs.Blocks.{Tells};
ghost use Rattle.selection.specs.Pages.{AddsUp};
ghost use Rattle.selection.specs.Candidates.{is_candidate_at, candidate_count};

use crate::block::{BLOCK_PAGES, BLOCK_ROWS, PAGE_LENGTH};
use crate::groups::page_of;
use crate::page_rows::add_up;
use crate::scan::Scan;
use column_bins::laws;
use cubit_base::{Steps, Totals};
use fence_window::{BLOCK_GROUPS, PAGE_GROUPS};
use std::sync::ledger::Ledger;
use version_store::VersionStore;
use wah_words::laws::rows_of_groups;
use wah_words::true_places;

impl<'t, S: VersionStore> Scan<'t, S> {
    /// The sum of price times discount over those of so many rows that match, and how many these are.
    pub(crate) fn sum<M: Ledger>(&self, rows: u32, reads: &mut Steps<M>) -> Totals
        requires rows { length (table_at S.Log.terms self.now.taken) ≡ rows }
        requires few { rows ≤ 16_777_216 }
        requires pages { self.now.taken.plan.pages ≡ true }
        ensures count { result.count ≡ (answer (table_at S.Log.terms self.now.taken) self.now.predicate).count }
        ensures sum { result.sum ≡ (answer (table_at S.Log.terms self.now.taken) self.now.predicate).sum }
        ensures reads { reads.new
            ≡ reads.old + candidate_count self.now.predicate (table_at S.Log.terms self.now.taken) }
    {
        let mut candidates = [0; BLOCK_GROUPS];
        let mut places = [0; PAGE_LENGTH];
        let mut totals = Totals { count: 0, sum: 0 };
        for n in 0..rows.div_ceil(BLOCK_ROWS) {
            self.candidates(BLOCK_PAGES * n, &mut candidates);
            self.add_block(
                BLOCK_PAGES * n,
                &candidates,
                &mut totals,
                &mut places,
                reads,
            );
        }
        totals
    }

    // Adds up the candidates of 32 pages from the first on.
    fn add_block<M: Ledger>(
        &self,
        first: u32,
        candidates: &[u32; BLOCK_GROUPS],
        totals: &mut Totals,
        places: &mut [u16; PAGE_LENGTH],
        reads: &mut Steps<M>,
    )
        requires candidates { Tells (is_candidate_at self.now.predicate) (table_at S.Log.terms self.now.taken) first
            candidates.now }
        requires pages { self.now.taken.plan.pages ≡ true }
        requires near { first ≤ 5_000 }
        requires count { totals.old.count ≤ 3_968 * first }
        requires sum { totals.old.sum ≤ 999_999_990 * (3_968 * first) }
        ensures totals { AddsUp self.now.predicate
            (tuples_from (table_at S.Log.terms self.now.taken) (3_968 * first) 126_976) totals.old totals.new }
        ensures low { totals.new.sum ≤ totals.old.sum + 999_999_990 * 126_976 }
        ensures reads { reads.new ≡ reads.old + count_by (is_candidate_at self.now.predicate)
            (tuples_from (table_at S.Log.terms self.now.taken) (3_968 * first) 126_976) }
    {
        for k in 0..BLOCK_PAGES {
            let page = page_of(candidates, k);
            self.add_page(first + k, &page, totals, places, reads);
        }
    }

    // Adds up the candidates of a page.
    fn add_page<M: Ledger>(
        &self,
        page: u32,
        candidates: &[u32; PAGE_GROUPS],
        totals: &mut Totals,
        places: &mut [u16; PAGE_LENGTH],
        reads: &mut Steps<M>,
    )
        requires candidates { Tells (is_candidate_at self.now.predicate) (table_at S.Log.terms self.now.taken) page
            candidates.now }
        requires pages { self.now.taken.plan.pages ≡ true }
        requires near { page ≤ 5_100 }
        requires count { totals.old.count ≤ 3_968 * page }
        requires sum { totals.old.sum ≤ 999_999_990 * (3_968 * page) }
        ensures totals { AddsUp self.now.predicate
            (tuples_from (table_at S.Log.terms self.now.taken) (3_968 * page) 3_968) totals.old totals.new }
        ensures low { totals.new.sum ≤ totals.old.sum + 999_999_990 * 3_968 }
        ensures reads { reads.new ≡ reads.old + count_by (is_candidate_at self.now.predicate)
            (tuples_from (table_at S.Log.terms self.now.taken) (3_968 * page) 3_968) }
    {
        rows_of_groups();
        laws::candidates();
        let len = true_places(candidates, places);
        let tuples = self.taken.page(self.store, self.base, page);
        add_up(
            &tuples,
            &places[..len],
            self.predicate,
            self.cuts,
            totals,
            reads,
        );
    }
}

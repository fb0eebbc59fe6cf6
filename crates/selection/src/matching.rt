//! The rows that match, page by page: tuples are read only where the day decides.
ghost use Rattle.std.specs.Prelude.{◌≡◌, true, ◌+◌, ◌*◌, ◌^◌, ◌≤◌, ◌<◌, ◌++◌, ℕ, map, length, count_by, OnOk, IfOk};
ghost use Rattle.cubit_base.specs.Answer.{answer};
ghost use Rattle.column_bins.specs.Plan.{has_part};
ghost use Rattle.unit_version.specs.Content.{tuples_from};
ghost use Rattle.wah_words.specs.Rows.{true_places as places_of};
ghost use Rattle.front_patch.specs.Taken.{table_at};
ghost use Rattle.selection.specs.Blocks.{Tells, IsBlock};
ghost use Rattle.selection.specs.Candidates.{is_candidate_at, is_match_at, is_part_at, part_count};

use crate::block::{BLOCK_PAGES, BLOCK_ROWS, Block, PAGE_LENGTH};
use crate::groups::{is_empty, keep, page_of};
use crate::page_rows::{drop_others, push_rows};
use crate::scan::Scan;
use column_bins::laws::candidates;
use commit_log::Memory;
use cubit_base::{RowList, Steps};
use fence_window::{PAGE_GROUPS, PAGE_ROWS};
use std::alloc::Global;
use std::sync::ledger::Ledger;
use version_store::VersionStore;
use wah_words::laws::rows_of_groups;
use wah_words::{true_places, true_rows_of};

impl<'t, S: VersionStore> Scan<'t, S> {
    /// How many of so many rows match.
    pub(crate) fn count<M: Ledger>(&self, rows: u32, reads: &mut Steps<M>) -> u32
        requires rows { length (table_at S.Log.terms self.now.taken) ≡ rows }
        requires few { rows ≤ 16_777_216 }
        ensures count { result ≡ (answer (table_at S.Log.terms self.now.taken) self.now.predicate).count }
        ensures reads { reads.new ≡ reads.old + part_count self.now.predicate (table_at S.Log.terms self.now.taken) }
    {
        let mut block = Block::new();
        let mut places = [0; PAGE_LENGTH];
        let mut count = 0;
        for n in 0..rows.div_ceil(BLOCK_ROWS) {
            self.read(BLOCK_PAGES * n, &mut block);
            count += self.count_block(&block, &mut places, reads);
        }
        count
    }

    // How many rows of a block match.
    fn count_block<M: Ledger>(
        &self,
        block: &Block,
        places: &mut [u16; PAGE_LENGTH],
        reads: &mut Steps<M>,
    ) -> u32
        requires { IsBlock self.now.predicate (table_at S.Log.terms self.now.taken) block.now }
        ensures count { result ≡ count_by (is_match_at self.now.predicate)
            (tuples_from (table_at S.Log.terms self.now.taken) (3_968 * block.now.first) 126_976) }
        ensures reads { reads.new ≡ reads.old + count_by (is_part_at self.now.predicate)
            (tuples_from (table_at S.Log.terms self.now.taken) (3_968 * block.now.first) 126_976) }
    {
        rows_of_groups();
        let mut count = 0;
        for k in 0..BLOCK_PAGES {
            let page = self.matching(block, k, places, reads);
            count += true_rows_of(&page);
        }
        count
    }

    /// The numbers of those of so many rows that match.
    pub(crate) fn rows<M: Ledger>(
        &self,
        alloc: Global,
        rows: u32,
        reads: &mut Steps<M>,
    ) -> Result<RowList, Memory>
        requires rows { length (table_at S.Log.terms self.now.taken) ≡ rows }
        requires few { rows ≤ 16_777_216 }
        ensures list { IfOk result (λ list.
            list ≡ (answer (table_at S.Log.terms self.now.taken) self.now.predicate).rows) }
        ensures reads { reads.new ≤ reads.old + part_count self.now.predicate (table_at S.Log.terms self.now.taken) }
    {
        let mut list = RowList::new(alloc);
        let mut block = Block::new();
        let mut places = [0; PAGE_LENGTH];
        for n in 0..rows.div_ceil(BLOCK_ROWS) {
            self.read(BLOCK_PAGES * n, &mut block);
            self.list_block(&block, &mut list, &mut places, reads)?;
        }
        Ok(list)
    }

    // Puts the numbers of the rows of a block that match behind the list.
    fn list_block<M: Ledger>(
        &self,
        block: &Block,
        list: &mut RowList,
        places: &mut [u16; PAGE_LENGTH],
        reads: &mut Steps<M>,
    ) -> Result<(), Memory>
        requires block { IsBlock self.now.predicate (table_at S.Log.terms self.now.taken) block.now }
        requires room { length list.old ≤ 3_968 * block.now.first }
        requires near { block.now.first ≤ 5_000 }
        ensures list { OnOk result (list.new ≡ list.old ++ places_of (3_968 * block.now.first)
            (map (is_match_at self.now.predicate)
            (tuples_from (table_at S.Log.terms self.now.taken) (3_968 * block.now.first) 126_976))) }
        ensures reads { reads.new ≤ reads.old + count_by (is_part_at self.now.predicate)
            (tuples_from (table_at S.Log.terms self.now.taken) (3_968 * block.now.first) 126_976) }
    {
        rows_of_groups();
        for k in 0..BLOCK_PAGES {
            let page = self.matching(block, k, places, reads);
            let len = true_places(&page, places);
            push_rows(list, PAGE_ROWS * (block.first + k), &places[..len])?;
        }
        Ok(())
    }

    // The rows of one of a block's pages that match.
    fn matching<M: Ledger>(
        &self,
        block: &Block,
        k: u32,
        places: &mut [u16; PAGE_LENGTH],
        reads: &mut Steps<M>,
    ) -> [u32; PAGE_GROUPS]
        requires block { IsBlock self.now.predicate (table_at S.Log.terms self.now.taken) block.now }
        requires k { k < 32 }
        ensures long { length result ≡ 128 }
        ensures rows { Tells (is_match_at self.now.predicate) (table_at S.Log.terms self.now.taken)
            (block.now.first + k) result }
        ensures reads { reads.new ≡ reads.old + count_by (is_part_at self.now.predicate)
            (tuples_from (table_at S.Log.terms self.now.taken) (3_968 * (block.now.first + k)) 3_968) }
    {
        candidates();
        let mut rows = page_of(&block.candidates, k);
        if !self.cuts {
            return rows;
        }
        let mut part = page_of(&block.cut, k);
        keep(&mut part, &rows);
        if is_empty(&part) {
            return rows;
        }
        self.settle(block.first + k, &part, &mut rows, places, reads);
        rows
    }

    // Drops the candidates of a page whose day decides, where they do not match.
    fn settle<M: Ledger>(
        &self,
        page: u32,
        part: &[u32; PAGE_GROUPS],
        rows: &mut [u32; PAGE_GROUPS],
        places: &mut [u16; PAGE_LENGTH],
        reads: &mut Steps<M>,
    )
        requires cuts { has_part self.now.predicate.ship ≡ true }
        requires part { Tells (is_part_at self.now.predicate) (table_at S.Log.terms self.now.taken) page part.now }
        requires rows { Tells (is_candidate_at self.now.predicate) (table_at S.Log.terms self.now.taken) page rows.old }
        ensures rows { Tells (is_match_at self.now.predicate) (table_at S.Log.terms self.now.taken) page rows.new }
        ensures reads { reads.new ≡ reads.old + count_by (is_part_at self.now.predicate)
            (tuples_from (table_at S.Log.terms self.now.taken) (3_968 * page) 3_968) }
    {
        rows_of_groups();
        candidates();
        let len = true_places(part, places);
        let tuples = self.taken.page(self.store, self.base, page);
        drop_others(&tuples, &places[..len], self.predicate, rows, reads);
    }
}

//! The checksum of an index.
ghost use Rattle.std.specs.Prelude.{◌*◌, ◌<◌, ◌≤◌};
ghost use Rattle.column_bins.specs.Column.{bin_count};

use column_bins::Column;
use cubit_base::Steps;
use fence_window::{BLOCK_GROUPS, PAGE_GROUPS, Plain};
use std::sync::ledger::Ledger;
use unit_version::{Base, Content, Unit};

// The pages of a block.
const BLOCK_PAGES: u32 = 32;

/// How many words went in, and a mix of them in their order.
#[derive(Drop)]
pub(crate) struct Checksum {
    pub(crate) words: u64,
    pub(crate) mix: u64,
}

impl Checksum {
    pub(crate) fn new() -> Checksum {
        Checksum { words: 0, mix: 0 }
    }

    /// Puts in a word.
    pub(crate) fn add(&mut self, word: u64) {
        let product = (self.mix ^ word).wrapping_mul(0x9e37_79b9_7f4a_7c15);
        self.mix = product ^ (product >> 32);
        self.words = self.words.wrapping_add(1);
    }

    /// Puts in the words of all bins, of the live rows, of all unions, and of all pages.
    pub(crate) fn add_base<N: Ledger>(&mut self, base: &Base, reads: &mut Steps<N>) {
        self.add_column(base, Column::Ship, 84);
        self.add_column(base, Column::Disc, 11);
        self.add_column(base, Column::Qty, 50);
        self.add_column(base, Column::Flag, 3);
        self.add_column(base, Column::Status, 2);
        self.add_bits(base.content(Unit::Live));
        self.add_unions(base, Column::Ship, 12, 7);
        self.add_unions(base, Column::Qty, 16, 3);
        self.add_unions(base, Column::Qty, 4, 12);
        self.add_unions(base, Column::Disc, 2, 5);
        for page in 0..base.pages() {
            self.add_page(base.content(Unit::Page(page)), reads);
        }
    }

    fn add_column(&mut self, base: &Base, column: Column, bins: u8)
        requires { bins ≤ bin_count column }
    {
        for bin in 0..bins {
            self.add_bits(base.content(Unit::Bin(column, bin)));
        }
    }

    fn add_bits(&mut self, content: &Content) {
        if let Content::Bits(fenced) = content {
            for word in fenced.wah().words() {
                self.add(u64::from(*word));
            }
        }
    }

    // The first so many unions of so many bins each.
    fn add_unions(&mut self, base: &Base, column: Column, bins: u8, count: u8)
        requires { bins * count ≤ 84 }
    {
        for n in 0..count {
            if let Some(plain) = base.coarse(column, bins * n, bins) {
                for block in 0..base.pages().div_ceil(BLOCK_PAGES) {
                    self.add_block(plain, block, base.pages());
                }
            }
        }
    }

    // The groups of 32 pages, or of as many as there are.
    fn add_block(&mut self, plain: &Plain, block: u32, pages: u32)
        requires { block * 32 < pages }
    {
        let mut groups = [0; BLOCK_GROUPS];
        let first = BLOCK_PAGES * block;
        plain.or_into(first, &mut groups);
        let last = (pages - first).min(BLOCK_PAGES) as usize;
        for group in &groups[..PAGE_GROUPS * last] {
            self.add(u64::from(*group));
        }
    }

    fn add_page<N: Ledger>(&mut self, content: &Content, reads: &mut Steps<N>) {
        if let Content::Page(page) = content {
            for at in 0..3_968 {
                match page.get(at, reads) {
                    Some(tuple) => self.add(tuple.pack()),
                    None => self.add(0),
                }
            }
        }
    }
}

//! A checksum of numbers, and of what versions hold.
ghost use Rattle.std.specs.Prelude.{◌<◌, ◌≤◌};
ghost use Rattle.column_bins.specs.Column.{bin_count};
ghost use Rattle.unit_version.specs.Unit.{IsUnit};
ghost use Rattle.version_store.specs.Store.{IsStanding};

use column_bins::Column;
use cubit_base::Steps;
use std::sync::ledger::Ledger;
use unit_version::{Base, Content, Page, Unit};
use version_store::VersionStore;

/// A mix of numbers in their order.
#[derive(Drop)]
pub(crate) struct Checksum {
    mix: u64,
}

impl Checksum {
    pub(crate) fn new() -> Checksum {
        Checksum { mix: 0 }
    }

    pub(crate) fn value(&self) -> u64 {
        self.mix
    }

    /// Puts in a number.
    pub(crate) fn add(&mut self, word: u64) {
        let product = (self.mix ^ word).wrapping_mul(0x9e37_79b9_7f4a_7c15);
        self.mix = product ^ (product >> 32);
    }

    /// Puts in the words of the versions of all bins and of the live rows, and the tuples of those of all pages.
    pub(crate) fn add_versions<S: VersionStore, N: Ledger>(
        &mut self,
        log: &mut S::Log,
        store: &mut S,
        base: &Base,
        steps: &mut Steps<N>,
    )
        requires standing { IsStanding S.Log.terms (S.store store.old) base.now (S.over store.old log.old) }
        ensures standing { IsStanding S.Log.terms (S.store store.new) base.now (S.over store.new log.new) }
    {
        self.add_column(log, store, base, Column::Ship, 84, steps);
        self.add_column(log, store, base, Column::Disc, 11, steps);
        self.add_column(log, store, base, Column::Qty, 50, steps);
        self.add_column(log, store, base, Column::Flag, 3, steps);
        self.add_column(log, store, base, Column::Status, 2, steps);
        self.add_version(log, store, base, Unit::Live, steps);
        for page in 0..base.pages() {
            self.add_version(log, store, base, Unit::Page(page), steps);
        }
    }

    fn add_column<S: VersionStore, N: Ledger>(
        &mut self,
        log: &mut S::Log,
        store: &mut S,
        base: &Base,
        column: Column,
        bins: u8,
        steps: &mut Steps<N>,
    )
        requires bins { bins ≤ bin_count column }
        requires standing { IsStanding S.Log.terms (S.store store.old) base.now (S.over store.old log.old) }
        ensures standing { IsStanding S.Log.terms (S.store store.new) base.now (S.over store.new log.new) }
    {
        for bin in 0..bins {
            self.add_version(log, store, base, Unit::Bin(column, bin), steps);
        }
    }

    fn add_version<S: VersionStore, N: Ledger>(
        &mut self,
        log: &mut S::Log,
        store: &mut S,
        base: &Base,
        unit: Unit,
        steps: &mut Steps<N>,
    )
        requires unit { IsUnit (S.store store.old).pages unit }
        requires standing { IsStanding S.Log.terms (S.store store.old) base.now (S.over store.old log.old) }
        ensures standing { IsStanding S.Log.terms (S.store store.new) base.now (S.over store.new log.new) }
    {
        let Ok(claim) = store.hold(log, unit, 1, steps) else {
            return;
        };
        match store.content(&claim).unwrap_or(base.content(unit)) {
            Content::Bits(bits) => self.add_words(bits.wah().words()),
            Content::Page(page) => self.add_tuples(page, steps),
            Content::Keys(_) => {}
        }
        store.leave(claim);
    }

    fn add_words(&mut self, words: &[u32]) {
        for word in words {
            self.add(u64::from(*word));
        }
    }

    fn add_tuples<N: Ledger>(&mut self, page: &Page, reads: &mut Steps<N>) {
        for at in 0..3_968 {
            match page.get(at, reads) {
                Some(tuple) => self.add(tuple.pack()),
                None => self.add(0),
            }
        }
    }
}

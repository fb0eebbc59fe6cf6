//! The tuples of a page at a front.
ghost use Rattle.std.specs.Prelude.{◌≡◌, ◌+◌, ◌^◌, ◌==◌, ◌<◌, ◌≤◌, ℕ, All, AllPairs, None, true, slice_index_or, if◌then◌else◌};
ghost use Rattle.std.specs.Option.{option_and_then};
ghost use Rattle.front_patch.specs.Marks.{AreMarks, has_bit, is_marked};

use crate::row_state::{RowState, state_of};
use cubit_base::{Steps, Tuple};
use std::sync::ledger::Ledger;
use unit_version::Page;

/// The tuples of 3,968 rows at a front; `tuple_here` is what contracts see.
#[derive(Drop)]
pub struct PageAtFront<'t> {
    // What a version of the page holds, or none where there were no such rows when it was taken.
    pub(crate) page: Option<&'t Page>,
    // The page's first row, and the rows of it that were changed, in rising order.
    pub(crate) first: u64,
    pub(crate) changed: &'t [RowState],
    // The rows that were changed have marks: the others need no search.
    pub(crate) marks: [u64; MARKS],
    ghost rising: { AllPairs (λ a b. a.row < b.row) changed.now },
    ghost end: { first + 3_968 < 2 ^ 64 },
    ghost marked: { AreMarks marks first changed.now },
}

// How many words the marks of a page take.
pub(crate) const MARKS: usize = 62;

const _: () = prove!(64 * MARKS == 3_968);

/// Marks the rows of a page that were changed.
pub(crate) fn marks_of(changed: &[RowState], first: u64) -> [u64; MARKS]
    requires { All (λ s. (first ≤ s.row) × (s.row < first + 3_968)) changed.now }
    ensures { AreMarks result first changed.now }
{
    let mut marks = [0; MARKS];
    for state in changed {
        mark(&mut marks, (u64::from(state.row) - first) as usize);
    }
    marks
}

// Gives the row at a place a mark.
#[inline(always)]
fn mark(marks: &mut [u64; MARKS], at: usize)
    requires { at < 3_968 }
    ensures { (other : ℕ) → is_marked marks.new other ≡ (if other == at then true else is_marked marks.old other) }
{
    marks[at / 64] = with_bit(marks[at / 64], (at % 64) as u32);
}

// The word with the bit at a place set.
#[inline(always)]
fn with_bit(word: u64, place: u32) -> u64
    requires { place < 64 }
    ensures { (other : ℕ) → has_bit result other ≡ (if other == place then true else has_bit word other) }
{
    word | 1 << place
}

// Whether the row at a place has a mark.
#[inline(always)]
fn is_marked(marks: &[u64; MARKS], at: usize) -> bool
    requires { at < 3_968 }
    ensures { result ≡ is_marked marks.now at }
{
    marks[at / 64] >> (at % 64) & 1 == 1
}

impl<'t> PageAtFront<'t> {
    ghost use Rattle.front_patch.specs.PageAtFront.{tuple_here};

    /// The tuple of the row at this place of the page, or none where the row is not live and past the last row. It
    /// counts one read whatever it answers.
    pub fn get<N: Ledger>(&self, at: u16, reads: &mut Steps<N>) -> Option<Tuple>
        requires { at < 3_968 }
        ensures value { result ≡ tuple_here self.now at }
        ensures reads { reads.new ≡ reads.old + 1 }
    {
        if !is_marked(&self.marks, usize::from(at)) {
            return held_tuple(self.page, at, reads);
        }
        self.searched(at, reads)
    }

    // The same by a search among the changed rows.
    fn searched<N: Ledger>(&self, at: u16, reads: &mut Steps<N>) -> Option<Tuple>
        requires { at < 3_968 }
        ensures value { result ≡ tuple_here self.now at }
        ensures reads { reads.new ≡ reads.old + 1 }
    {
        let changed = self.changed;
        match state_of(changed, self.first + u64::from(at)) {
            Some(tuple) => {
                reads.tick(1);
                tuple
            }
            None => held_tuple(self.page, at, reads),
        }
    }
}

// What a page holds at a place; none where there is no page. It counts one read.
fn held_tuple<N: Ledger>(page: Option<&Page>, at: u16, reads: &mut Steps<N>) -> Option<Tuple>
    requires { at < 3_968 }
    ensures value { result ≡ option_and_then (λ page. slice_index_or page.now at None) page.entry }
    ensures reads { reads.new ≡ reads.old + 1 }
{
    match page {
        Some(page) => page.get(at, reads),
        None => {
            reads.tick(1);
            None
        }
    }
}

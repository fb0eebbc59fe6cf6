//! Rows of one page, by their tuples.
ghost use Rattle.std.specs.Prelude.{◌≡◌, ◌≢◌, ◌+◌, ◌*◌, ◌^◌, ◌<◌, ◌≤◌, ◌++◌, ◌&&◌, not, ℕ, true, false, All, length, map, if◌then◌else◌, OnOk};
ghost use Rattle.cubit_base.specs.Predicate.{matches};
ghost use Rattle.column_bins.specs.Plan.{has_part, is_candidate};
ghost use Rattle.wah_words.specs.Rows.{has};
ghost use Rattle.front_patch.specs.Bits.{row_in};
ghost use Rattle.front_patch.specs.PageAtFront.{tuple_here};
ghost use Rattle.selection.specs.Candidates.{is_candidate_at, is_match_at, amount_at};
ghost use Rattle.selection.specs.Pages.{AddsUp};

use crate::groups::drop_row;
use column_bins::laws::candidates;
use commit_log::Memory;
use cubit_base::{Predicate, RowList, Steps, Totals, Tuple};
use fence_window::PAGE_GROUPS;
use front_patch::PageAtFront;
use std::sync::ledger::Ledger;

/// Drops those of the places whose tuples do not match.
pub(crate) fn drop_others<M: Ledger>(
    page: &PageAtFront,
    places: &[u16],
    predicate: &Predicate,
    rows: &mut [u32; PAGE_GROUPS],
    reads: &mut Steps<M>,
)
    requires places { All (λ place. place < 3_968) places.now }
    requires small { All (λ group. group < 2 ^ 31) rows.old }
    ensures small { All (λ group. group < 2 ^ 31) rows.new }
    ensures rows { (row : ℕ) → row_in rows.new row ≡ (row_in rows.old row
        && not (has places.now row && not (is_match_at predicate.now (tuple_here page.now row)))) }
    ensures reads { reads.new ≡ reads.old + length places.now }
{
    for place in places {
        let tuple = page.get(*place, reads);
        drop_row(rows, *place, !is_match(predicate, &tuple));
    }
}

// Whether there is a tuple, and it matches.
fn is_match(predicate: &Predicate, tuple: &Option<Tuple>) -> bool
    ensures { result ≡ is_match_at predicate.now tuple.now }
{
    match tuple {
        Some(tuple) => predicate.matches(tuple),
        None => false,
    }
}

/// Adds up the candidates at the places. Where no month is met in part, each of them matches.
pub(crate) fn add_up<M: Ledger>(
    page: &PageAtFront,
    places: &[u16],
    predicate: &Predicate,
    cuts: bool,
    totals: &mut Totals,
    reads: &mut Steps<M>,
)
    requires places { All (λ place. place < 3_968) places.now }
    requires candidates { All (λ place. is_candidate_at predicate.now (tuple_here page.now place) ≡ true) places.now }
    requires cuts { cuts ≡ has_part predicate.now.ship }
    requires count { totals.old.count + length places.now < 2 ^ 32 }
    requires sum { totals.old.sum + 999_999_990 * length places.now < 2 ^ 64 }
    ensures totals { AddsUp predicate.now (map (tuple_here page.now) places.now) totals.old totals.new }
    ensures low { totals.new.sum ≤ totals.old.sum + 999_999_990 * length places.now }
    ensures reads { reads.new ≡ reads.old + length places.now }
{
    let (mut count, mut sum) = (totals.count, totals.sum);
    for place in places {
        let tuple = page.get(*place, reads);
        let (one, amount) = share(predicate, cuts, &tuple);
        count += one;
        sum += amount;
    }
    totals.count = count;
    totals.sum = sum;
}

// What a candidate's tuple adds to the count, and to the sum.
#[inline(always)]
fn share(predicate: &Predicate, cuts: bool, tuple: &Option<Tuple>) -> (u32, u64)
    requires candidate { is_candidate_at predicate.now tuple.now ≡ true }
    requires cuts { cuts ≡ has_part predicate.now.ship }
    ensures count { result.0 ≡ (if is_match_at predicate.now tuple.now then 1 else 0) }
    ensures sum { result.1 ≡ amount_at predicate.now tuple.now }
    ensures bound { result.1 ≤ 999_999_990 }
{
    match tuple {
        Some(tuple) if passes(predicate, cuts, tuple) => (1, tuple.amount()),
        _ => (0, 0),
    }
}

// Whether a candidate matches: its day decides only where some month is met in part.
#[inline(always)]
fn passes(predicate: &Predicate, cuts: bool, tuple: &Tuple) -> bool
    requires candidate { is_candidate predicate.now tuple.now ≡ true }
    requires cuts { cuts ≡ has_part predicate.now.ship }
    ensures { result ≡ matches predicate.now tuple.now }
{
    candidates();
    if cuts {
        return predicate.matches(tuple);
    }
    // From here on it is known that the tuple is within its ranges.
    let _day = tuple.day;
    true
}

/// Puts the numbers of a page's rows at these places behind the list.
pub(crate) fn push_rows(list: &mut RowList, first: u32, places: &[u16]) -> Result<(), Memory>
    requires first { first + 3_968 < 2 ^ 32 }
    requires places { All (λ place. place < 3_968) places.now }
    requires room { length list.old + length places.now < 2 ^ 32 }
    ensures { OnOk result (list.new ≡ list.old ++ map (λ place. first + place) places.now) }
{
    for place in places {
        list.push(first + u32::from(*place))?;
    }
    Ok(())
}

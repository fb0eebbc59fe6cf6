//! Logs over three rows, and what their passes answer.
ghost use Rattle.std.specs.Prelude.{◌≡◌, ◌<◌, ◌≤◌, length, sum, IfOk};
ghost use Rattle.cubit_base.specs.LiveRow.{IsFree, HasDistinctLiveKeys};
ghost use Rattle.log_core.specs.Terms.{AreTerms};

use super::callers::{add, change};
use super::calls::tuple;
use crate::{LogTerms, Memory, Opening, Pass, SharedLog, WhichLog};
use commit_log::{AppendStop, CommitLog, Front};
use cubit_base::{Key, Limits, Steps, Table};
use std::alloc::Global;
use std::marker::Brand;
use std::process::Abort;
use std::sync::ledger::{Blank, Ledger};
use std::test::Fail;

// What the passes of a log do.
#[derive(Clone, Copy)]
enum Story {
    // Two of them append behind one front, to a log of one delta.
    OneIsLate,
    // One hands what it has seen to another one.
    TheyMeet,
    // Three of them add a row, change it and delete it.
    OneRow,
    // Each of them says which author it is.
    ManyAuthors,
}

fn front(len: u32, rows: u32, node: u32) -> Front {
    Front { len, rows, node }
}

// The keys 1.1, 1.2 and 1.3.
fn base(alloc: Global) -> Result<Table, Memory>
    ensures rows { IfOk result (λ table. length table ≡ 3) }
    ensures keys { IfOk result (λ table. HasDistinctLiveKeys table) }
    ensures free { IfOk result (λ table. IsFree table (record { order = 9; line = 1 })) }
{
    let mut table = Table::new(alloc);
    table.push(Key { order: 1, line: 1 }, Some(tuple(17)))?;
    table.push(Key { order: 1, line: 2 }, Some(tuple(36)))?;
    table.push(Key { order: 1, line: 3 }, Some(tuple(8)))?;
    Ok(table)
}

fn told<R: Abort + AllocGlobal>(
    rt: &R,
    shares: &[u32],
    log_limit: u32,
    story: Story,
) -> Result<(), Memory>
    requires shares { (1 ≤ length shares.now) × (length shares.now ≤ 64) }
    requires nodes { sum shares.now ≤ 4_194_304 }
    requires deltas { log_limit ≤ 4_194_304 }
{
    let base = base(rt.alloc())?;
    let limits = Limits {
        row_limit: 4,
        log_limit,
        tries: 1,
    };
    session::<Brand, Brand, R>(rt, Blank::new(1), &base, shares, limits, story)
}

fn session<T: LogTerms, N: Ledger, R: Abort + AllocGlobal>(
    rt: &R,
    blank: Blank,
    base: &Table,
    shares: &[u32],
    limits: Limits,
    story: Story,
) -> Result<(), Memory>
    requires name { blank.name ≡ N.name }
    requires parts { blank.parts ≡ N.parts }
    requires some { 0 < N.parts }
    requires base { base.now ≡ T.terms.base }
    requires shares { shares.now ≡ T.terms.shares }
    requires limits { limits ≡ T.terms.limits }
    requires terms { AreTerms T.terms }
    requires keys { HasDistinctLiveKeys T.terms.base }
    requires free { IsFree T.terms.base (record { order = 9; line = 1 }) }
{
    let mut steps = Steps::<N>::make(blank);
    let (log, mut opening) = SharedLog::<T>::make(rt.alloc(), base.len(), shares, limits)?;
    tell::<T, Brand, N, R>(rt, &log, &mut opening, base, shares, &mut steps, story);
    Ok(())
}

fn tell<'a, T: LogTerms, W: WhichLog, N: Ledger, R: Abort>(
    rt: &R,
    log: &'a SharedLog<T>,
    opening: &mut Opening,
    base: &Table,
    shares: &[u32],
    steps: &mut Steps<N>,
    story: Story,
)
    requires log { opening.old.table ≡ log.now }
    requires which { log.now ≡ W.table }
    requires base { base.now ≡ T.terms.base }
    requires shares { shares.now ≡ T.terms.shares }
    requires keys { HasDistinctLiveKeys T.terms.base }
    requires free { IsFree T.terms.base (record { order = 9; line = 1 }) }
{
    if matches!(story, Story::ManyAuthors) {
        return spares::<T, W, R>(rt, log, opening, shares);
    }
    let zero = next::<T, W, R>(rt, log, opening, shares.len());
    let one = next::<T, W, R>(rt, log, opening, shares.len());
    match story {
        Story::OneIsLate => one_is_late(rt, zero, one, base, steps),
        Story::TheyMeet => they_meet(rt, zero, one, base, steps),
        _ => {
            let two = next::<T, W, R>(rt, log, opening, shares.len());
            one_row(rt, zero, one, two, base, steps);
        }
    }
}

// The next pass, which is none where all were given.
fn next<'a, T: LogTerms, W: WhichLog, R: Abort>(
    rt: &R,
    log: &'a SharedLog<T>,
    opening: &mut Opening,
    count: usize,
) -> Pass<'a, T, W>
    requires log { opening.old.table ≡ log.now }
    requires which { log.now ≡ W.table }
    requires count { count ≡ length T.terms.shares }
    ensures { opening.new.table ≡ opening.old.table }
{
    assert!(rt; usize::from(opening.given()) < count);
    log.pass::<W>(opening)
}

// Two passes append behind one front, to a log of one delta.
fn one_is_late<'a, T: LogTerms, W: WhichLog, N: Ledger, R: Abort>(
    rt: &R,
    mut zero: Pass<'a, T, W>,
    mut one: Pass<'a, T, W>,
    base: &Table,
    steps: &mut Steps<N>,
)
    requires base { base.now ≡ T.terms.base }
{
    let at = zero.front(steps);
    let start = one.front(steps);
    assert_eq!(rt; (at, start), (front(0, 3, 0), front(0, 3, 0)));
    let placed = change(&mut one, base, &start, 0, Some(tuple(18)), steps);
    assert_eq!(rt; placed, Some(Ok(front(1, 3, 2))));
    let late = change(&mut zero, base, &at, 1, Some(tuple(1)), steps);
    assert_eq!(rt; late, Some(Err(AppendStop::Late(front(1, 3, 2)))));
    let at = zero.front(steps);
    let full = change(&mut zero, base, &at, 1, Some(tuple(1)), steps);
    assert_eq!(rt; full, Some(Err(AppendStop::Full)));
    assert_eq!(rt; (zero.spare(), one.spare()), (1, 0));
}

// One pass appends, and another one sees it by a date alone.
fn they_meet<'a, T: LogTerms, W: WhichLog, N: Ledger, R: Abort>(
    rt: &R,
    mut zero: Pass<'a, T, W>,
    mut one: Pass<'a, T, W>,
    base: &Table,
    steps: &mut Steps<N>,
)
    requires base { base.now ≡ T.terms.base }
{
    let empty = zero.date(steps);
    let at = one.front(steps);
    let placed = change(&mut one, base, &at, 0, Some(tuple(18)), steps);
    assert_eq!(rt; placed, Some(Ok(front(1, 3, 2))));
    one.meet(empty, steps);
    let mut date = one.date(steps);
    let copy = one.copy(&mut date, steps);
    zero.meet(copy, steps);
    // It has seen the delta before it takes a front: the change is late without a step of the other one.
    let start = zero.start();
    let late = change(&mut zero, base, &start, 1, Some(tuple(1)), steps);
    assert_eq!(rt; late, Some(Err(AppendStop::Late(front(1, 3, 2)))));
    let at = zero.front(steps);
    let mut cursor = zero.cursor(&start);
    let entry = zero.following(&mut cursor, &at, steps);
    let Some(entry) = entry else {
        panic!(rt; "no delta was seen");
    };
    assert_eq!(rt;
        (entry.seq, entry.rows, entry.delta.author, entry.delta.row),
        (1, 3, 1, 0)
    );
    assert_eq!(rt;
        (entry.delta.before, entry.delta.after),
        (Some(tuple(17)), Some(tuple(18)))
    );
    assert_eq!(rt; zero.following(&mut cursor, &at, steps), None);
}

// Three passes add a row, change it and delete it.
fn one_row<'a, T: LogTerms, W: WhichLog, N: Ledger, R: Abort>(
    rt: &R,
    mut zero: Pass<'a, T, W>,
    mut one: Pass<'a, T, W>,
    mut two: Pass<'a, T, W>,
    base: &Table,
    steps: &mut Steps<N>,
)
    requires base { base.now ≡ T.terms.base }
    requires keys { HasDistinctLiveKeys T.terms.base }
    requires free { IsFree T.terms.base (record { order = 9; line = 1 }) }
{
    let at = zero.front(steps);
    let added = add(&mut zero, &at, Key { order: 9, line: 1 }, tuple(5), steps);
    assert_eq!(rt; added, Some(Ok(front(1, 4, 1))));
    let at = one.front(steps);
    let changed = change(&mut one, base, &at, 3, Some(tuple(6)), steps);
    assert_eq!(rt; changed, Some(Ok(front(2, 4, 2))));
    let at = two.front(steps);
    let deleted = change(&mut two, base, &at, 3, None, steps);
    assert_eq!(rt; deleted, Some(Ok(front(3, 4, 3))));
    let at = zero.front(steps);
    assert_eq!(rt; at, front(3, 4, 3));
    assert_eq!(rt;
        change(&mut zero, base, &at, 3, Some(tuple(7)), steps),
        None
    );
}

// How many deltas each author may append.
fn spares<'a, T: LogTerms, W: WhichLog, R: Abort>(
    rt: &R,
    log: &'a SharedLog<T>,
    opening: &mut Opening,
    shares: &[u32],
)
    requires log { opening.old.table ≡ log.now }
    requires which { log.now ≡ W.table }
    requires shares { shares.now ≡ T.terms.shares }
{
    for author in 0..shares.len() {
        let pass = next::<T, W, R>(rt, log, opening, shares.len());
        assert_eq!(rt; usize::from(pass.author()), author);
        assert_eq!(rt; pass.spare(), shares[author]);
    }
}

#[test]
fn worked_rows(rt: HostRuntime) -> Result<(), Fail> {
    told(&rt, &[1, 1], 1, Story::OneIsLate)?;
    told(&rt, &[1, 1], 4_194_304, Story::TheyMeet)?;
    told(&rt, &[1, 1, 1], 4_194_304, Story::OneRow)?;
    told(&rt, &[0, 2], 4_194_304, Story::ManyAuthors)?;
    told(&rt, &[3; 64], 4_194_304, Story::ManyAuthors)?;
    Ok(())
}

//! Small tables with known answers.
ghost use Rattle.std.specs.Prelude.{◌≡◌, ◌+◌, ◌<◌, ◌≤◌, [], true, IfOk, IfSome, length};
ghost use Rattle.cubit_base.specs.Delta.{IsLawful};
ghost use Rattle.cubit_base.specs.History.{after};
ghost use Rattle.cubit_base.specs.LiveRow.{HasDistinctLiveKeys};
ghost use Rattle.column_bins.specs.Column.{bin_count};
ghost use Rattle.commit_log.specs.Log.{IsWhole};
ghost use Rattle.commit_log.specs.Handle.{Grows};
ghost use Rattle.version_store.specs.Store.{IsStanding};

use super::compared::{Told, agrees};
use super::moves::{append, replace_bins};
use super::plain::{change, copy_of, insertion, table_of};
use crate::{Memory, count};
use column_bins::{Column, Stretch, plan};
use commit_log::{CommitLog, Front, SerialLog, Setup};
use cubit_base::{Delta, Flag, Limits, LineStatus, Predicate, Range, Steps, Table, Tuple};
use std::marker::Brand;
use std::process::Abort;
use std::sync::ledger::{Blank, Ledger};
use std::test::Fail;
use unit_version::Base;
use version_store::{LosingStore, MemoryStore, VersionStore};

const LIMIT: u32 = 5_000;

// A change of the table.
#[derive(Clone, Copy)]
enum Move {
    Change(u32, Option<Tuple>),
    Insert(Tuple),
}

// What it comes to, if it can be made.
fn delta_of(step: &Move, table: &Table, author: u8) -> Option<Delta>
    ensures lawful { IfSome result (IsLawful LIMIT table.now) }
    ensures author { IfSome result (λ d. d.author ≡ author) }
{
    match step {
        Move::Change(row, tuple) => change(table, author, *row, *tuple),
        Move::Insert(tuple) => insertion(table, author, LIMIT, *tuple),
    }
}

// Makes the changes, one after another: the front and the table in the end.
fn moved<L: CommitLog, N: Ledger, R: Abort + AllocGlobal>(
    rt: &R,
    log: &mut L,
    table: Table,
    moves: &[Move],
    steps: &mut Steps<N>,
) -> Result<(Front, Table), Memory>
    requires limit { L.terms.limits.row_limit ≡ LIMIT }
    requires new { (L.handle log.old).seen ≡ [] }
    requires table { table ≡ L.terms.base }
    ensures whole { IfOk result (λ r. IsWhole L.terms (L.handle log.new).seen r.0) }
    ensures table { IfOk result (λ r. r.1 ≡ after L.terms.base (L.handle log.new).seen) }
    ensures grows { Grows (L.handle log.old) (L.handle log.new) }
{
    commit_log::laws::handles();
    let mut at = log.start();
    let mut now = table;
    for step in moves {
        let delta = delta_of(step, &now, log.author());
        (at, now) = append(rt, log, at, now, delta, steps)?;
    }
    Ok((at, now))
}

// A count over whole months, which reads no tuple, and whether its months are whole.
fn counts_unread<S: VersionStore, N: Ledger, M: Ledger, R: Abort + AllocGlobal>(
    rt: &R,
    log: &mut S::Log,
    store: &mut S,
    base: &Base,
    predicate: &Predicate,
    steps: &mut Steps<N>,
    reads: &mut Steps<M>,
) -> Result<(u32, bool), Memory>
    requires standing { IsStanding S.Log.terms (S.store store.old) base.now (S.over store.old log.old) }
    ensures standing { IsStanding S.Log.terms (S.store store.new) base.now (S.over store.new log.new) }
    ensures reads { IfOk result (λ r. r.1 ≡ true → reads.new ≤ reads.old) }
{
    let whole = !plan(predicate, false).pages;
    let told = count(rt.alloc(), log, store, base, predicate, 1, steps, reads)?;
    Ok((told.count, whole))
}

// Asks, and sees that the queries tell what is expected.
fn asks<S: VersionStore, N: Ledger, M: Ledger, R: Abort + AllocGlobal>(
    rt: &R,
    log: &mut S::Log,
    store: &mut S,
    base: &Base,
    table: &Table,
    cases: &[(Predicate, Told)],
    steps: &mut Steps<N>,
    reads: &mut Steps<M>,
) -> Result<(), Memory>
    requires standing { IsStanding S.Log.terms (S.store store.old) base.now (S.over store.old log.old) }
{
    for (predicate, expected) in cases {
        let told = agrees(rt, log, store, base, table, predicate, steps, reads)?;
        assert_eq!(rt; told, *expected);
        let unread = counts_unread(rt, log, store, base, predicate, steps, reads)?;
        let whole = !plan(predicate, false).pages;
        assert_eq!(rt; unread, (expected.count, whole));
    }
    Ok(())
}

// Changes, versions of these bins behind them, and queries.
fn session<S: VersionStore, N: Ledger, M: Ledger, R: Abort + AllocGlobal>(
    rt: &R,
    log: &mut S::Log,
    store: &mut S,
    base: &Base,
    table: Table,
    moves: &[Move],
    bins: (Column, Stretch),
    cases: &[(Predicate, Told)],
    steps: &mut Steps<N>,
    reads: &mut Steps<M>,
) -> Result<(), Memory>
    requires limit { S.Log.terms.limits.row_limit ≡ LIMIT }
    requires bins { bins.1.after ≤ bin_count bins.0 }
    requires standing { IsStanding S.Log.terms (S.store store.old) base.now (S.over store.old log.old) }
    requires new { (S.Log.handle log.old).seen ≡ [] }
    requires table { table ≡ S.Log.terms.base }
{
    let (at, now) = moved(rt, log, table, moves, steps)?;
    replace_bins(rt, log, store, base, bins, &at, &now, steps)?;
    asks(rt, log, store, base, &now, cases, steps, reads)
}

// Over a table, with a store that loses the holds with these numbers.
fn over<S: Setup, N: Ledger, M: Ledger, R: Abort + AllocGlobal>(
    rt: &R,
    blanks: (Blank, Blank),
    tables: (Table, Table),
    lost: &[u32],
    moves: &[Move],
    bins: (Column, Stretch),
    cases: &[(Predicate, Told)],
) -> Result<(), Memory>
    requires bins { bins.1.after ≤ bin_count bins.0 }
    requires name { blanks.0.name ≡ N.name }
    requires parts { blanks.0.parts ≡ N.parts }
    requires some { 0 < N.parts }
    requires other_name { blanks.1.name ≡ M.name }
    requires other_parts { blanks.1.parts ≡ M.parts }
    requires other_some { 0 < M.parts }
    requires limits { S.limits ≡ record { row_limit = LIMIT; log_limit = 9; tries = 1 } }
    requires base { S.base ≡ tables.0 }
    requires same { tables.1 ≡ tables.0 }
    requires keys { HasDistinctLiveKeys tables.0 }
    requires few { length tables.0 ≤ LIMIT }
{
    let alloc = rt.alloc();
    let (blank, other) = blanks;
    let (table, same) = tables;
    let mut steps = Steps::<N>::make(blank);
    let mut reads = Steps::<M>::make(other);
    let base = Base::build(alloc, same, LIMIT)?;
    let limits = Limits {
        row_limit: LIMIT,
        log_limit: 9,
        tries: 1,
    };
    let mut log = SerialLog::<S>::make(alloc, base.rows(), 9, limits)?;
    if lost.is_empty() {
        let mut store = MemoryStore::make(alloc, &base, &mut log)?;
        session(
            rt, &mut log, &mut store, &base, table, moves, bins, cases, &mut steps, &mut reads,
        )
    } else {
        let lost = Vec::from_slice(alloc, lost)?;
        let mut store = LosingStore::make(alloc, &base, &mut log, lost)?;
        session(
            rt, &mut log, &mut store, &base, table, moves, bins, cases, &mut steps, &mut reads,
        )
    }
}

// A session over these tuples.
fn check_replaced<R: Abort + AllocGlobal>(
    rt: &R,
    tuples: &[Option<Tuple>],
    lost: &[u32],
    moves: &[Move],
    bins: (Column, Stretch),
    cases: &[(Predicate, Told)],
) -> Result<(), Memory>
    requires tuples { length tuples.now ≤ LIMIT }
    requires bins { bins.1.after ≤ bin_count bins.0 }
{
    let table = table_of(rt.alloc(), tuples)?;
    let same = copy_of(rt.alloc(), &table)?;
    let blanks = (Blank::new(1), Blank::new(1));
    over::<Brand, Brand, Brand, R>(rt, blanks, (table, same), lost, moves, bins, cases)
}

// The same with the base's versions.
fn check<R: Abort + AllocGlobal>(
    rt: &R,
    tuples: &[Option<Tuple>],
    lost: &[u32],
    moves: &[Move],
    cases: &[(Predicate, Told)],
) -> Result<(), Memory>
    requires { length tuples.now ≤ LIMIT }
{
    let none = Stretch { first: 0, after: 0 };
    check_replaced(rt, tuples, lost, moves, (Column::Qty, none), cases)
}

fn tuple(price: u32, day: u16, qty: u8, disc: u8) -> Tuple
    requires price { price ≤ 99_999_999 }
    requires day { day < 2557 }
    requires qty { (1 ≤ qty) × (qty ≤ 50) }
    requires disc { disc ≤ 10 }
{
    Tuple {
        price,
        day,
        qty,
        disc,
        tax: 2,
        flag: Flag::N,
        status: LineStatus::O,
    }
}

// The three rows of a small file.
fn three_tuples() -> [Option<Tuple>; 3] {
    [
        Some(tuple(2_116_823, 1533, 17, 4)),
        Some(tuple(4_598_316, 1563, 36, 9)),
        Some(tuple(1_330_960, 1489, 8, 10)),
    ]
}

fn any() -> Predicate {
    Predicate {
        ship: None,
        disc: None,
        qty: None,
        flag: None,
        status: None,
    }
}

fn shipped(lo: u16, hi: u16) -> Predicate {
    Predicate {
        ship: Some(Range { lo, hi }),
        ..any()
    }
}

fn pieces(lo: u16, hi: u16) -> Predicate {
    Predicate {
        qty: Some(Range { lo, hi }),
        ..any()
    }
}

// What the queries tell; the versions for the rows and for the count are patched alike.
fn told(front: u32, count: u32, sum: u64, patched: (u32, u32)) -> Told {
    Told {
        front,
        count,
        sum,
        patched: (patched.0, patched.0, patched.1),
    }
}

// Without a range, in a whole month, over parts of months, and by the query of the benchmark.
#[test]
fn a_small_file(rt: HostRuntime) -> Result<(), Fail> {
    let cases = [
        (any(), told(0, 3, 63_161_736, (0, 0))),
        (shipped(1521, 1551), told(0, 1, 8_467_292, (0, 0))),
        (shipped(1534, 1581), told(0, 1, 41_384_844, (0, 0))),
        (Predicate::q6(1996, 5, 24), told(0, 1, 8_467_292, (0, 0))),
        (Predicate::q6(1996, 10, 24), told(0, 1, 13_309_600, (0, 0))),
        (Predicate::q6(1996, 0, 24), told(0, 0, 0, (0, 0))),
        (pieces(3, 2), told(0, 0, 0, (0, 0))),
    ];
    check(&rt, &three_tuples(), &[], &[], &cases)?;
    check(&rt, &three_tuples(), &[1], &[], &cases)?;
    check(&rt, &[], &[], &[], &[(any(), told(0, 0, 0, (0, 0)))])?;
    Ok(())
}

// The first row with so many pieces.
fn recount(qty: u8) -> Move
    requires { (1 ≤ qty) × (qty ≤ 50) }
{
    Move::Change(0, Some(tuple(2_116_823, 1533, qty, 4)))
}

// Changes of the first row, over a store that loses the holds with these numbers.
fn changes_are_seen<R: Abort + AllocGlobal>(rt: &R, lost: &[u32]) -> Result<(), Memory> {
    let tuples = three_tuples();
    let once = [
        (pieces(7, 7), told(1, 1, 8_467_292, (1, 1))),
        (pieces(17, 17), told(1, 0, 0, (1, 1))),
        // No bin is met: only the sum has units, which are pages.
        (pieces(3, 2), told(1, 0, 0, (0, 1))),
    ];
    check(rt, &tuples, lost, &[recount(7)], &once)?;
    let twice = [
        (pieces(7, 7), told(2, 0, 0, (2, 2))),
        (pieces(17, 17), told(2, 1, 8_467_292, (2, 2))),
    ];
    check(rt, &tuples, lost, &[recount(7), recount(17)], &twice)?;
    let gone = [(any(), told(2, 2, 54_694_444, (2, 2)))];
    check(
        rt,
        &tuples,
        lost,
        &[recount(7), Move::Change(0, None)],
        &gone,
    )
}

#[test]
fn own_changes_are_seen(rt: HostRuntime) -> Result<(), Fail> {
    changes_are_seen(&rt, &[])?;
    changes_are_seen(&rt, &[1, 3])?;
    Ok(())
}

// A version at the newest front is not patched, and the base's content is where its hold is lost.
#[test]
fn newest_versions_are_not_patched(rt: HostRuntime) -> Result<(), Fail> {
    let tuples = three_tuples();
    let bins = (Column::Qty, Stretch { first: 6, after: 7 });
    for (lost, patched) in [
        (&[][..], (0, 0, 1)),
        (&[1][..], (1, 0, 1)),
        (&[2][..], (0, 1, 1)),
    ] {
        let expected = Told {
            patched,
            ..told(1, 1, 8_467_292, (0, 1))
        };
        let case = (pieces(7, 7), expected);
        check_replaced(&rt, &tuples, lost, &[recount(7)], bins, &[case])?;
    }
    Ok(())
}

// The last row of a page is changed, and the page behind it begins.
#[test]
fn new_rows_are_seen(rt: HostRuntime) -> Result<(), Fail> {
    let even = vec![in rt.alloc(); Some(tuple(10_000, 896, 10, 5)); 3_967]?;
    let moves = [
        Move::Change(3_966, Some(tuple(10_000, 896, 12, 5))),
        Move::Insert(tuple(10_000, 896, 11, 5)),
        Move::Insert(tuple(10_000, 896, 11, 5)),
    ];
    let cases = [
        (pieces(11, 11), told(3, 2, 100_000, (3, 3))),
        (pieces(12, 12), told(3, 1, 50_000, (3, 3))),
        (any(), told(3, 3_969, 198_450_000, (3, 3))),
    ];
    check(&rt, &even, &[], &moves, &cases)?;
    Ok(())
}

//! Commands and their answers, over a store that loses no turn and over one that loses some.
ghost use Rattle.std.specs.Prelude.{◌≡◌, ◌≢◌, ◌⊎◌, ◌<◌, ◌≤◌, All, IfOk, IsTrue, length};
ghost use Rattle.cubit_base.specs.LiveRow.{HasDistinctLiveKeys};
ghost use Rattle.cubit_base.specs.History.{LimitsFit};
ghost use Rattle.commit_log.specs.Handle.{Grows};
ghost use Rattle.version_store.specs.Store.{IsStanding};

use super::plain::{Answer, Command, Plain};
use crate::{delete, insert, lookup, update};
use commit_log::{CommitLog, Memory, SerialLog, Setup};
use cubit_base::{Flag, Key, Limits, LineStatus, Steps, Table, Tuple, laws};
use std::alloc::Global;
use std::marker::Brand;
use std::process::Abort;
use std::sync::ledger::{Blank, Ledger};
use std::test::Fail;
use unit_version::Base;
use version_store::{LosingStore, MemoryStore, VersionStore};

// What one command comes to.
fn answer<S: VersionStore, N: Ledger>(
    log: &mut S::Log,
    store: &mut S,
    base: &Base,
    command: &Command,
    steps: &mut Steps<N>,
) -> Answer
    requires standing { IsStanding S.Log.terms (S.store store.old) base.now (S.over store.old log.old) }
    ensures standing { IsStanding S.Log.terms (S.store store.new) base.now (S.over store.new log.new) }
{
    if let Command::LookUp(key) = command {
        let (front, live) = lookup(log, store, base, key, 1, steps);
        let front = front.len;
        return match live {
            Some((row, tuple)) => Answer::Found { front, row, tuple },
            None => Answer::Absent { front },
        };
    }
    if log.spare() == 0 {
        return Answer::NoShareLeft;
    }
    let result = match command {
        Command::Insert(key, tuple) => insert(log, store, base, key, tuple, 1, steps),
        Command::Update(key, tuple) => update(log, store, base, key, tuple, 1, steps),
        Command::Delete(key) | Command::LookUp(key) => delete(log, store, base, key, 1, steps),
    };
    Answer::of_change(&result)
}

// Each command, and whether it answers what is expected.
fn run<S: VersionStore, N: Ledger, R: Abort + AllocGlobal>(
    rt: &R,
    log: &mut S::Log,
    store: &mut S,
    base: &Base,
    cases: &[(Command, Answer)],
    steps: &mut Steps<N>,
)
    requires standing { IsStanding S.Log.terms (S.store store.old) base.now (S.over store.old log.old) }
{
    for (command, expected) in cases {
        let said = answer(log, store, base, command, steps);
        assert_eq!(rt; said, *expected);
    }
}

// A session with a share of changes, which loses the holds with these numbers.
fn session<S: Setup, N: Ledger, R: Abort + AllocGlobal>(
    rt: &R,
    blank: Blank,
    table: Table,
    limits: Limits,
    share: u32,
    lost: &[u32],
    cases: &[(Command, Answer)],
) -> Result<(), Memory>
    requires name { blank.name ≡ N.name }
    requires parts { blank.parts ≡ N.parts }
    requires some { 0 < N.parts }
    requires base { S.base ≡ table }
    requires limits { S.limits ≡ limits }
    requires keys { HasDistinctLiveKeys table }
    requires fit { LimitsFit limits.row_limit limits.log_limit table }
    requires tries { 1 ≤ limits.tries }
    requires share { share ≤ 4_194_304 }
{
    let alloc = rt.alloc();
    let mut steps = Steps::<N>::make(blank);
    let base = Base::build(alloc, table, limits.row_limit)?;
    let mut log = SerialLog::<S>::make(alloc, base.rows(), share, limits)?;
    if lost.is_empty() {
        let mut store = MemoryStore::make(alloc, &base, &mut log)?;
        run(rt, &mut log, &mut store, &base, cases, &mut steps);
    } else {
        let lost = Vec::from_slice(alloc, lost)?;
        let mut store = LosingStore::make(alloc, &base, &mut log, lost)?;
        run(rt, &mut log, &mut store, &base, cases, &mut steps);
    }
    Ok(())
}

// Whether a row has the key.
fn has_key(table: &Table, key: &Key) -> bool
    ensures { IsTrue result ⊎ All (λ row. row.0 ≢ key.now) table.now }
{
    for n in 0..table.len() {
        let (other, _) = table.row(n).unwrap();
        if other == *key {
            return true;
        }
    }
    false
}

// A table of these rows. A key that stands already is left out.
fn table_of(alloc: Global, rows: &[(Key, Tuple)]) -> Result<Table, Memory>
    requires { length rows.now ≤ 5_000 }
    ensures distinct { IfOk result HasDistinctLiveKeys }
    ensures few { IfOk result (λ table. length table ≤ length rows.now) }
{
    laws::live_rows();
    let mut table = Table::new(alloc);
    for (key, tuple) in rows {
        if !has_key(&table, key) {
            table.push(*key, Some(*tuple))?;
        }
    }
    Ok(table)
}

// A session over these rows.
fn check<R: Abort + AllocGlobal>(
    rt: &R,
    rows: &[(Key, Tuple)],
    limits: Limits,
    share: u32,
    lost: &[u32],
    cases: &[(Command, Answer)],
) -> Result<(), Memory>
    requires rows { length rows.now ≤ limits.row_limit }
    requires row_limit { limits.row_limit ≤ 5_000 }
    requires log_limit { limits.log_limit ≤ 5_000 }
    requires tries { 1 ≤ limits.tries }
    requires share { share ≤ 5_000 }
{
    let table = table_of(rt.alloc(), rows)?;
    session::<Brand, Brand, R>(rt, Blank::new(1), table, limits, share, lost, cases)
}

fn key(order: u32, line: u8) -> Key
    requires order { 1 ≤ order }
    requires line { (1 ≤ line) × (line ≤ 7) }
    ensures { result ≡ record { order = order; line = line } }
{
    Key { order, line }
}

// The three rows of a small file.
fn three_rows() -> [(Key, Tuple); 3] {
    let (flag, status) = (Flag::N, LineStatus::O);
    [
        (
            key(1, 1),
            Tuple {
                price: 2_116_823,
                day: 1533,
                qty: 17,
                disc: 4,
                tax: 2,
                flag,
                status,
            },
        ),
        (
            key(1, 2),
            Tuple {
                price: 4_598_316,
                day: 1563,
                qty: 36,
                disc: 9,
                tax: 6,
                flag,
                status,
            },
        ),
        (
            key(1, 3),
            Tuple {
                price: 1_330_960,
                day: 1489,
                qty: 8,
                disc: 10,
                tax: 2,
                flag,
                status,
            },
        ),
    ]
}

// A tuple with this quantity.
fn tuple(qty: u8) -> Tuple
    requires { (1 ≤ qty) × (qty ≤ 50) }
{
    Tuple {
        price: 1_000,
        day: 1_096,
        qty,
        disc: 1,
        tax: 0,
        flag: Flag::R,
        status: LineStatus::F,
    }
}

fn limits(row_limit: u32, log_limit: u32) -> Limits
    ensures { result ≡ record { row_limit = row_limit; log_limit = log_limit; tries = 1 } }
{
    Limits {
        row_limit,
        log_limit,
        tries: 1,
    }
}

fn placed(at: u32, row: u32) -> Answer
    requires { at < 5_000 }
{
    let front = at + 1;
    Answer::Placed { at, row, front }
}

// A key that was deleted gets another row, and the old one stays empty.
#[test]
fn a_key_comes_back_in_a_new_row(rt: HostRuntime) -> Result<(), Fail> {
    let new = key(2, 1);
    let (front, row) = (1, 3);
    let cases = [
        (Command::Insert(new, tuple(5)), placed(0, 3)),
        (
            Command::Insert(new, tuple(6)),
            Answer::Duplicate { front, row },
        ),
        (Command::Delete(new), placed(1, 3)),
        (Command::LookUp(new), Answer::Absent { front: 2 }),
        (Command::Insert(new, tuple(6)), placed(2, 4)),
        (
            Command::LookUp(new),
            Answer::Found {
                front: 3,
                row: 4,
                tuple: tuple(6),
            },
        ),
    ];
    check(&rt, &three_rows(), limits(6, 4), 4, &[], &cases)?;
    Ok(())
}

#[test]
fn a_key_that_was_never_there(rt: HostRuntime) -> Result<(), Fail> {
    let other = key(9, 1);
    let cases = [
        (Command::Delete(other), Answer::Missing { front: 0 }),
        (Command::Delete(other), Answer::Missing { front: 0 }),
        (
            Command::Update(other, tuple(1)),
            Answer::Missing { front: 0 },
        ),
        (Command::LookUp(other), Answer::Absent { front: 0 }),
        // An order that has the same key page.
        (Command::LookUp(key(65, 1)), Answer::Absent { front: 0 }),
    ];
    check(&rt, &three_rows(), limits(6, 4), 4, &[], &cases)?;
    Ok(())
}

// A key that is live comes before a table that is full, and that before a log that is full.
#[test]
fn full_tables_and_logs(rt: HostRuntime) -> Result<(), Fail> {
    let rows = three_rows();
    let (new, live) = (key(2, 1), key(1, 1));
    let table_full = [
        (
            Command::Insert(live, tuple(5)),
            Answer::Duplicate { front: 0, row: 0 },
        ),
        (
            Command::Insert(new, tuple(5)),
            Answer::TableFull { front: 0 },
        ),
    ];
    check(&rt, &rows, limits(3, 4), 4, &[], &table_full)?;
    check(&rt, &rows, limits(3, 0), 4, &[], &table_full)?;
    let log_full = [
        (Command::Update(live, tuple(1)), placed(0, 0)),
        (Command::Update(key(1, 2), tuple(2)), placed(1, 1)),
        (
            Command::Update(key(1, 3), tuple(3)),
            Answer::LogFull { front: 2 },
        ),
        (Command::Insert(new, tuple(5)), Answer::LogFull { front: 2 }),
        (Command::Delete(live), Answer::LogFull { front: 2 }),
        (Command::Delete(new), Answer::Missing { front: 2 }),
        (
            Command::LookUp(live),
            Answer::Found {
                front: 2,
                row: 0,
                tuple: tuple(1),
            },
        ),
    ];
    check(&rt, &rows, limits(6, 2), 3, &[], &log_full)?;
    Ok(())
}

// Where a hold is lost the base serves.
#[test]
fn lost_holds_change_no_answer(rt: HostRuntime) -> Result<(), Fail> {
    let (new, live) = (key(2, 1), key(1, 1));
    let cases = [
        (Command::Insert(new, tuple(5)), placed(0, 3)),
        (Command::Update(new, tuple(7)), placed(1, 3)),
        (
            Command::LookUp(new),
            Answer::Found {
                front: 2,
                row: 3,
                tuple: tuple(7),
            },
        ),
        (Command::Delete(live), placed(2, 0)),
        (Command::LookUp(live), Answer::Absent { front: 3 }),
        (Command::Insert(live, tuple(9)), placed(3, 4)),
    ];
    let lost = [1, 2, 3, 4, 6];
    check(&rt, &three_rows(), limits(6, 9), 9, &lost, &cases)?;
    Ok(())
}

// The next number of a fixed sequence, below a bound.
fn next(state: &mut u64, bound: u32) -> u32
    requires { 1 ≤ bound }
    ensures { result < bound }
{
    *state = state
        .wrapping_mul(6_364_136_223_846_793_005)
        .wrapping_add(1_442_695_040_888_963_407);
    ((*state >> 33) % u64::from(bound)) as u32
}

fn drawn(state: &mut u64) -> Command {
    let key = Key {
        order: next(state, 130) + 1,
        line: next(state, 2) as u8 + 1,
    };
    let tuple = tuple(next(state, 50) as u8 + 1);
    match next(state, 8) {
        0 | 1 | 2 => Command::Insert(key, tuple),
        3 | 4 => Command::Update(key, tuple),
        5 => Command::Delete(key),
        _ => Command::LookUp(key),
    }
}

// Drawn commands, until the log is full, and what a plain list answers.
#[test]
fn four_hundred_drawn_commands(rt: HostRuntime) -> Result<(), Fail> {
    let limits = limits(180, 230);
    let mut plain = Plain::new(rt.alloc(), &three_rows(), limits)?;
    let mut state = 1;
    let mut cases = Vec::new(rt.alloc());
    for _ in 0..400 {
        let command = drawn(&mut state);
        let expected = plain.answer(&command)?;
        cases.push((command, expected))?;
    }
    check(&rt, &three_rows(), limits, 400, &[], &cases)?;
    check(
        &rt,
        &three_rows(),
        limits,
        400,
        &[2, 3, 5, 8, 13, 21],
        &cases,
    )?;
    Ok(())
}

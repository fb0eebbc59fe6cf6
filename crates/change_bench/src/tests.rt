//! Changes, merges and queries of one caller together.
ghost use Rattle.std.specs.Prelude.{◌≡◌, ◌≤◌, ◌<◌, length};
ghost use Rattle.cubit_base.specs.LiveRow.{HasDistinctLiveKeys};
ghost use Rattle.version_store.specs.Store.{IsStanding};

use crate::drawn::next;
use commit_log::{CommitLog, Front, SerialLog, Setup};
use cubit_base::{
    Flag, Key, Limits, LineStatus, Memory, Predicate, ROW_LIMIT, Range, Steps, Table, Tuple, laws,
};
use merger::{MergeCount, merge_all};
use selection::{count, rows, sum};
use std::alloc::Global;
use std::marker::Brand;
use std::process::Abort;
use std::sync::ledger::{Blank, Ledger};
use std::test::Fail;
use table_ops::{OpStop, Placed, delete, insert, lookup, update};
use tbl_text::base_of;
use unit_version::Base;
use version_store::{MemoryStore, VersionStore};

// A call.
#[derive(Clone, Copy)]
enum Call {
    LookUp(Key),
    Insert(Key, Tuple),
    Update(Key, Tuple),
    Delete(Key),
    MergeAll,
    Rows(Predicate),
    Count(Predicate),
    Sum(Predicate),
}

// What it answers.
#[derive(Clone, Copy, Debug, PartialEq, Eq)]
enum Answer {
    Live(Option<(u32, Tuple)>),
    Placed {
        at: u32,
        row: u32,
    },
    Stopped(OpStop),
    Merged(MergeCount),
    // How many rows, the first and the last of them, and by how many deltas the versions were patched.
    Rows {
        count: u32,
        ends: Option<(u32, u32)>,
        patched: u32,
    },
    Count {
        count: u32,
        patched: u32,
    },
    Sum {
        count: u32,
        sum: u64,
        patched: u32,
    },
    NoShareLeft,
}

// The first and the last number of a list.
fn ends_of(list: &[u32]) -> Option<(u32, u32)> {
    Some((*list.first()?, *list.last()?))
}

fn answer_of(change: Result<Placed, OpStop>) -> Answer {
    match change {
        Ok(placed) => Answer::Placed {
            at: placed.place,
            row: placed.row,
        },
        Err(stop) => Answer::Stopped(stop),
    }
}

fn merged(merged: u32, fresh: u32) -> Answer {
    Answer::Merged(MergeCount {
        merged,
        fresh,
        busy: 0,
    })
}

fn placed(at: u32, row: u32) -> Answer {
    Answer::Placed { at, row }
}

fn live(row: u32, tuple: Tuple) -> Answer {
    Answer::Live(Some((row, tuple)))
}

// What one call comes to.
fn answer_to<S: VersionStore, N: Ledger, M: Ledger>(
    alloc: Global,
    log: &mut S::Log,
    store: &mut S,
    base: &Base,
    call: &Call,
    steps: &mut Steps<N>,
    reads: &mut Steps<M>,
) -> Result<Answer, Memory>
    requires standing { IsStanding S.Log.terms (S.store store.old) base.now (S.over store.old log.old) }
    ensures standing { IsStanding S.Log.terms (S.store store.new) base.now (S.over store.new log.new) }
{
    if log.spare() == 0 {
        return Ok(Answer::NoShareLeft);
    }
    Ok(match call {
        Call::LookUp(key) => {
            let (_, live) = lookup(log, store, base, key, 1, steps);
            Answer::Live(live)
        }
        Call::Insert(key, tuple) => answer_of(insert(log, store, base, key, tuple, 1, steps)),
        Call::Update(key, tuple) => answer_of(update(log, store, base, key, tuple, 1, steps)),
        Call::Delete(key) => answer_of(delete(log, store, base, key, 1, steps)),
        Call::MergeAll => Answer::Merged(merge_all(alloc, log, store, base, 1, steps)?),
        Call::Rows(predicate) => {
            let found = rows(alloc, log, store, base, predicate, 1, steps, reads)?;
            Answer::Rows {
                count: found.list.len(),
                ends: ends_of(found.list.as_slice()),
                patched: found.patched,
            }
        }
        Call::Count(predicate) => {
            let found = count(alloc, log, store, base, predicate, 1, steps, reads)?;
            Answer::Count {
                count: found.count,
                patched: found.patched,
            }
        }
        Call::Sum(predicate) => {
            let found = sum(alloc, log, store, base, predicate, 1, steps, reads)?;
            Answer::Sum {
                count: found.count,
                sum: found.sum,
                patched: found.patched,
            }
        }
    })
}

// What all calls come to, one after another.
fn run<S: VersionStore, N: Ledger, M: Ledger>(
    alloc: Global,
    log: &mut S::Log,
    store: &mut S,
    base: &Base,
    calls: &[Call],
    steps: &mut Steps<N>,
    reads: &mut Steps<M>,
) -> Result<Vec<Answer>, Memory>
    requires standing { IsStanding S.Log.terms (S.store store.old) base.now (S.over store.old log.old) }
{
    let mut answers = Vec::new(alloc);
    for call in calls {
        answers.push(answer_to(alloc, log, store, base, call, steps, reads)?)?;
    }
    Ok(answers)
}

fn session<S: Setup, N: Ledger, M: Ledger>(
    alloc: Global,
    blanks: (Blank, Blank),
    table: Table,
    limits: Limits,
    calls: &[Call],
) -> Result<Vec<Answer>, Memory>
    requires steps_name { blanks.0.name ≡ N.name }
    requires steps_parts { blanks.0.parts ≡ N.parts }
    requires steps_some { 0 < N.parts }
    requires reads_name { blanks.1.name ≡ M.name }
    requires reads_parts { blanks.1.parts ≡ M.parts }
    requires reads_some { 0 < M.parts }
    requires base { S.base ≡ table }
    requires limits { S.limits ≡ limits }
    requires keys { HasDistinctLiveKeys table }
    requires rows { length table ≤ limits.row_limit }
    requires row_limit { limits.row_limit ≤ ROW_LIMIT }
    requires log_limit { limits.log_limit ≤ 1_000 }
    requires tries { limits.tries ≡ 1 }
{
    let (steps, reads) = blanks;
    let mut steps = Steps::<N>::make(steps);
    let mut reads = Steps::<M>::make(reads);
    let base = Base::build(alloc, table, limits.row_limit)?;
    let mut log = SerialLog::<S>::make(alloc, base.rows(), 1_000, limits)?;
    let mut store = MemoryStore::make(alloc, &base, &mut log)?;
    run(
        alloc, &mut log, &mut store, &base, calls, &mut steps, &mut reads,
    )
}

// The answers to calls over the table of a file with these bytes, to which so many rows may be added.
fn answers<R: Abort + AllocGlobal>(
    rt: &R,
    bytes: &[u8],
    more: u32,
    log_limit: u32,
    calls: &[Call],
) -> Result<Vec<Answer>, Memory>
    requires more { more ≤ 1_000 }
    requires log_limit { log_limit ≤ 1_000 }
{
    laws::live_rows();
    let alloc = rt.alloc();
    assert!(rt; bytes.len() < 1_000_000);
    let Ok(table) = base_of(alloc, bytes, 100_000) else {
        return Ok(Vec::new(alloc));
    };
    let limits = Limits {
        row_limit: table.len() + more,
        log_limit,
        tries: 1,
    };
    let blanks = (Blank::new(1), Blank::new(1));
    session::<Brand, Brand, Brand>(alloc, blanks, table, limits, calls)
}

fn key(order: u32, line: u8) -> Key
    requires order { 1 ≤ order }
    requires line { (1 ≤ line) × (line ≤ 7) }
{
    Key { order, line }
}

const THREE_LINES: &str =
    "1|155190|7706|1|17|21168.23|0.04|0.02|N|O|1996-03-13|1996-02-12|1996-03-22|x|TRUCK|x|
1|67310|7311|2|36|45983.16|0.09|0.06|N|O|1996-04-12|1996-02-28|1996-04-20|x|MAIL|x|
1|63700|3701|3|8|13309.60|0.10|0.02|N|O|1996-01-29|1996-03-05|1996-01-31|x|REG AIR|x|
";

// The first of the three lines, with another quantity.
fn first_line(qty: u8) -> Tuple
    requires { (1 ≤ qty) × (qty ≤ 50) }
{
    Tuple {
        price: 2_116_823,
        day: 1533,
        qty,
        disc: 4,
        tax: 2,
        flag: Flag::N,
        status: LineStatus::O,
    }
}

// Every live row.
const OPEN: Predicate = Predicate {
    ship: None,
    disc: None,
    qty: None,
    flag: None,
    status: None,
};

fn only(number: u16) -> Option<Range> {
    Some(Range {
        lo: number,
        hi: number,
    })
}

fn summed(count: u32, sum: u64, patched: u32) -> Answer {
    Answer::Sum {
        count,
        sum,
        patched,
    }
}

// A table of one page has 216 units.
#[test]
fn all_units_follow_an_update(rt: HostRuntime) -> Result<(), Fail> {
    let first = key(1, 1);
    let calls = [
        Call::MergeAll,
        Call::Update(first, first_line(18)),
        Call::LookUp(first),
        Call::MergeAll,
        Call::Sum(OPEN),
        Call::LookUp(first),
        Call::MergeAll,
    ];
    let expected = [
        merged(0, 216),
        placed(0, 0),
        live(0, first_line(18)),
        merged(216, 0),
        summed(3, 63_161_736, 0),
        live(0, first_line(18)),
        merged(0, 216),
    ];
    let said = answers(&rt, THREE_LINES.as_bytes(), 0, 1_000, &calls)?;
    assert_eq!(&rt; said.as_slice(), expected.as_slice());
    Ok(())
}

// A row that is deleted stays empty, and its key comes back in another.
#[test]
fn a_key_comes_back(rt: HostRuntime) -> Result<(), Fail> {
    let (five, six) = (returned(5), returned(6));
    let again = key(2, 1);
    let calls = [
        Call::Insert(again, five),
        Call::Insert(again, six),
        Call::Delete(again),
        Call::Insert(again, six),
        Call::LookUp(again),
        Call::Rows(Predicate {
            flag: only(2),
            ..OPEN
        }),
    ];
    let one = Front {
        len: 1,
        rows: 4,
        node: 1,
    };
    let expected = [
        placed(0, 3),
        Answer::Stopped(OpStop::Duplicate(one, 3)),
        placed(1, 3),
        placed(2, 4),
        live(4, six),
        Answer::Rows {
            count: 1,
            ends: Some((4, 4)),
            patched: 3,
        },
    ];
    let said = answers(&rt, THREE_LINES.as_bytes(), 2, 1_000, &calls)?;
    assert_eq!(&rt; said.as_slice(), expected.as_slice());
    Ok(())
}

fn returned(qty: u8) -> Tuple
    requires { (1 ≤ qty) × (qty ≤ 50) }
{
    Tuple {
        price: 1_000,
        day: 1096,
        qty,
        disc: 1,
        tax: 0,
        flag: Flag::R,
        status: LineStatus::F,
    }
}

// Where the log is full no row changes, and all that changed before is counted.
#[test]
fn a_full_log(rt: HostRuntime) -> Result<(), Fail> {
    let calls = [
        Call::Update(key(1, 1), first_line(1)),
        Call::Update(key(1, 2), first_line(2)),
        Call::Update(key(1, 3), first_line(3)),
        Call::Count(OPEN),
    ];
    let two = Front {
        len: 2,
        rows: 3,
        node: 2,
    };
    let expected = [
        placed(0, 0),
        placed(1, 1),
        Answer::Stopped(OpStop::LogFull(two)),
        Answer::Count {
            count: 3,
            patched: 2,
        },
    ];
    let said = answers(&rt, THREE_LINES.as_bytes(), 0, 2, &calls)?;
    assert_eq!(&rt; said.as_slice(), expected.as_slice());
    Ok(())
}

// A tuple of the file whose lines have one tuple, with another quantity.
fn plain_line(qty: u8) -> Tuple
    requires { (1 ≤ qty) × (qty ≤ 50) }
{
    Tuple {
        price: 10_000,
        day: 896,
        qty,
        disc: 5,
        tax: 1,
        flag: Flag::A,
        status: LineStatus::F,
    }
}

// So many lines with one tuple, each of an order of its own.
fn plain_lines(alloc: Global, count: u32) -> Result<String, Memory> {
    let mut text = String::new(alloc);
    for order in 1..=count {
        let rest = "1|1|1|10|100.00|0.05|0.01|A|F|1994-06-15|1994-06-15|1994-06-15|x|AIR|x|";
        text.push_str(&format!(in alloc; "{order}|{rest}\n")?)?;
    }
    Ok(text)
}

// Rows that are added behind a merge stand at the end of the first page and on the second.
#[test]
fn rows_on_a_new_page(rt: HostRuntime) -> Result<(), Fail> {
    let (eleven, twelve) = (plain_line(11), plain_line(12));
    let elevens = Predicate {
        qty: only(11),
        ..OPEN
    };
    let calls = [
        Call::Update(key(1, 1), twelve),
        Call::MergeAll,
        Call::Insert(key(5000, 1), eleven),
        Call::Insert(key(5001, 1), eleven),
        Call::Insert(key(5002, 1), eleven),
        Call::Rows(elevens),
        Call::Sum(elevens),
        Call::LookUp(key(1, 1)),
        Call::LookUp(key(5001, 1)),
        Call::MergeAll,
        Call::Sum(elevens),
        Call::LookUp(key(5000, 1)),
        Call::LookUp(key(3967, 1)),
    ];
    let text = plain_lines(rt.alloc(), 3_967)?;
    let said = answers(&rt, text.as_bytes(), 2, 1_000, &calls)?;
    let full = Front {
        len: 3,
        rows: 3_969,
        node: 3,
    };
    let expected = [
        placed(0, 0),
        merged(217, 0),
        placed(1, 3_967),
        placed(2, 3_968),
        Answer::Stopped(OpStop::TableFull(full)),
        Answer::Rows {
            count: 2,
            ends: Some((3_967, 3_968)),
            patched: 2,
        },
        summed(2, 100_000, 2),
        live(0, twelve),
        live(3_968, eleven),
        merged(217, 0),
        summed(2, 100_000, 0),
        live(3_967, eleven),
        live(3_966, plain_line(10)),
    ];
    assert_eq!(&rt; said.as_slice(), expected.as_slice());
    Ok(())
}

fn drawn(state: &mut u64) -> Call {
    let key = Key {
        order: next(state) % 130 + 1,
        line: (next(state) % 2) as u8 + 1,
    };
    let tuple = plain_line((next(state) % 50) as u8 + 1);
    match next(state) % 8 {
        0 | 1 | 2 => Call::Insert(key, tuple),
        3 | 4 => Call::Update(key, tuple),
        5 => Call::Delete(key),
        _ => Call::LookUp(key),
    }
}

// Merges between drawn calls change no answer.
#[test]
fn three_hundred_calls_with_merges_between(rt: HostRuntime) -> Result<(), Fail> {
    let alloc = rt.alloc();
    let (mut calls, mut with_merges) = (Vec::new(alloc), Vec::new(alloc));
    let mut state = 1;
    for number in 0..300u32 {
        let call = drawn(&mut state);
        calls.push(call)?;
        with_merges.push(call)?;
        if number % 16 == 7 {
            with_merges.push(Call::MergeAll)?;
        }
    }
    let text = plain_lines(alloc, 100)?;
    let expected = answers(&rt, text.as_bytes(), 100, 1_000, &calls)?;
    let mut said = Vec::new(alloc);
    for answer in &answers(&rt, text.as_bytes(), 100, 1_000, &with_merges)? {
        if !is_of_merge(answer) {
            said.push(*answer)?;
        }
    }
    assert_eq!(&rt; said.as_slice(), expected.as_slice());
    assert_eq!(&rt; said.len(), 300);
    Ok(())
}

fn is_of_merge(answer: &Answer) -> bool {
    match answer {
        Answer::Merged(_) => true,
        _ => false,
    }
}

//! The log of one caller: each call once, at its edges.
ghost use Rattle.std.specs.Prelude.{◌≡◌, ◌<◌, ◌≤◌, [], ◌∷◌, Some};
ghost use Rattle.commit_log.specs.Log.{Stands};
ghost use Rattle.commit_log.specs.Serial.{serial_terms};

use super::update::update;
use super::walk::deltas_since;
use crate::{AppendStop, CommitLog, Cursor, Front, Memory, SerialLog, Setup};
use cubit_base::{Delta, Entry, Flag, Key, Limits, LineStatus, Steps, Tuple};
use std::marker::Brand;
use std::process::Abort;
use std::sync::ledger::{Blank, Ledger};
use std::test::Fail;

fn tuple(qty: u8) -> Tuple
    requires { (1 ≤ qty) × (qty ≤ 50) }
{
    let (price, day, flag, status) = (2_116_823, 1533, Flag::N, LineStatus::O);
    Tuple {
        price,
        day,
        qty,
        disc: 4,
        tax: 2,
        flag,
        status,
    }
}

fn front(len: u32) -> Front {
    Front {
        len,
        rows: 1,
        node: len,
    }
}

// A log over one live row, which takes two deltas and has room for three.
fn calls<S: Setup, N: Ledger, R: Abort + AllocGlobal>(
    rt: &R,
    blank: Blank,
    key: Key,
    first: Tuple,
) -> Result<(), Memory>
    requires name { blank.name ≡ N.name }
    requires parts { blank.parts ≡ N.parts }
    requires some { 0 < N.parts }
    requires base { S.base ≡ (key, Some first) ∷ [] }
    requires limits { S.limits ≡ record { row_limit = 1; log_limit = 2; tries = 1 } }
{
    let limits = Limits {
        row_limit: 1,
        log_limit: 2,
        tries: 1,
    };
    let mut steps = Steps::<N>::make(blank);
    let mut log = SerialLog::<S>::make(rt.alloc(), 1, 3, limits)?;
    let start = log.start();
    assert_eq!(rt; start, front(0));
    assert_eq!(rt; (log.limits(), log.author(), log.spare()), (limits, 0, 3));
    let second = tuple(7);
    let Ok(one) = update(&mut log, &start, 0, key, (first, second), &mut steps) else {
        panic!(rt; "the first delta is not appended");
    };
    assert_eq!(rt; one, front(1));
    let late = update(&mut log, &start, 0, key, (first, tuple(8)), &mut steps);
    assert_eq!(rt; (late, log.spare()), (Err(AppendStop::Late(one)), 2));
    let Ok(two) = update(&mut log, &one, 0, key, (second, first), &mut steps) else {
        panic!(rt; "the second delta is not appended");
    };
    assert_eq!(rt; (two, log.spare()), (front(2), 1));
    let full = update(&mut log, &two, 0, key, (first, second), &mut steps);
    assert_eq!(rt; (full, log.spare()), (Err(AppendStop::Full), 1));
    assert_eq!(rt; log.front(&mut steps), two);
    let (to, deltas) = deltas_since(rt.alloc(), &mut log, &start, &mut steps)?;
    assert_eq!(rt; (to, deltas.len()), (two, 2));
    walks(rt, &mut log, &one, &two, key, &mut steps);
    dates(rt, &mut log, &mut steps);
    Ok(())
}

// What lies behind a front, up to another one that is a delta longer.
fn walks<S: Setup, N: Ledger, R: Abort>(
    rt: &R,
    log: &mut SerialLog<S>,
    from: &Front,
    to: &Front,
    key: Key,
    steps: &mut Steps<N>,
)
    requires from { Stands (serial_terms S.base S.limits) log.old.seen from.now }
    requires to { Stands (serial_terms S.base S.limits) log.old.seen to.now }
    requires order { from.now.len ≤ to.now.len }
{
    let mut cursor = log.cursor(from);
    assert_eq!(rt; cursor, Cursor { len: 1, node: 1 });
    let next = log.following(&mut cursor, to, steps);
    assert_eq!(rt; cursor, Cursor { len: 2, node: 2 });
    let delta = Delta {
        author: 0,
        row: 0,
        key,
        before: Some(tuple(7)),
        after: Some(tuple(17)),
    };
    let entry = Entry {
        seq: 2,
        rows: 1,
        delta,
    };
    assert_eq!(rt; next, Some(entry));
    assert_eq!(rt; log.latest(&key, from, to, steps), next);
    assert_eq!(rt; log.latest(&key, to, to, steps), None);
    assert_eq!(rt;
        log.latest(&Key { order: 1, line: 2 }, from, to, steps),
        None
    );
}

fn dates<S: Setup, N: Ledger, R: Abort>(rt: &R, log: &mut SerialLog<S>, steps: &mut Steps<N>) {
    let whole = log.front(steps);
    let mut date = log.date(steps);
    let copy = log.copy(&mut date, steps);
    log.meet(date, steps);
    log.meet(copy, steps);
    assert_eq!(rt; log.front(steps), whole);
}

#[test]
fn each_call(rt: HostRuntime) -> Result<(), Fail> {
    let key = Key { order: 1, line: 1 };
    calls::<Brand, Brand, HostRuntime>(&rt, Blank::new(1), key, tuple(17))?;
    Ok(())
}

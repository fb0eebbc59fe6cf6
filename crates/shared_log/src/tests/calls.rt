//! Each call of a handle, proved from the trait's clauses alone.
ghost use Rattle.std.specs.Prelude.{◌≡◌, ◌≤◌, [], ◌∷◌, take, slice_get, Some, IfOk};
ghost use Rattle.cubit_base.specs.History.{after};
ghost use Rattle.commit_log.specs.Log.{Stands};
ghost use Rattle.commit_log.specs.Handle.{Grows, Appends};

use commit_log::{AppendStop, CommitLog, Front, laws};
use cubit_base::{Delta, Flag, Key, LineStatus, Steps, Tuple};
use std::process::Abort;
use std::sync::ledger::Ledger;

pub(super) fn tuple(qty: u8) -> Tuple
    requires { (1 ≤ qty) × (qty ≤ 50) }
{
    let (price, day, flag, status) = (2_116_823, 1533, Flag::N, LineStatus::O);
    Tuple {
        price,
        day,
        qty,
        disc: 4,
        tax: 2,
        flag,
        status,
    }
}

/// A change of the one row, behind a front.
pub(super) fn update<L: CommitLog, N: Ledger>(
    log: &mut L,
    at: &Front,
    key: Key,
    tuples: (Tuple, Tuple),
    steps: &mut Steps<N>,
) -> Result<Front, AppendStop>
    requires at { Stands L.terms (L.handle log.old).seen at.now }
    requires live { slice_get (after L.terms.base (take at.now.len (L.handle log.old).seen)) 0
        ≡ Some (key, Some tuples.0) }
    requires spare { 1 ≤ (L.handle log.old).spare }
    ensures append { Appends L.terms (L.handle log.old) at.now (record {
      author = (L.handle log.old).author;
      row = 0;
      key = key;
      before = Some tuples.0;
      after = Some tuples.1;
    }) (L.handle log.new) result }
    ensures live { IfOk result (λ front. slice_get (after L.terms.base (take front.len (L.handle log.new).seen)) 0
        ≡ Some (key, Some tuples.1)) }
{
    cubit_base::laws::deltas();
    laws::appends();
    let delta = Delta {
        author: log.author(),
        row: 0,
        key,
        before: Some(tuples.0),
        after: Some(tuples.1),
    };
    match log.try_append(at, &delta, steps) {
        Ok(front) => Ok(front),
        Err(stop) => Err(stop),
    }
}

/// The calls of a handle that has seen nothing, of a log over one live row, which takes two deltas.
pub(super) fn each_call<L: CommitLog, N: Ledger, R: Abort>(
    rt: &R,
    log: &mut L,
    key: Key,
    first: Tuple,
    steps: &mut Steps<N>,
)
    requires base { L.terms.base ≡ (key, Some first) ∷ [] }
    requires limits { L.terms.limits ≡ record { row_limit = 1; log_limit = 2; tries = 1 } }
    requires seen { (L.handle log.old).seen ≡ [] }
    requires spare { 3 ≤ (L.handle log.old).spare }
{
    let second = tuple(7);
    let start = log.start();
    assert_eq!(rt; (start.len, start.rows, log.spare()), (0, 1, 3));
    let Ok(one) = update(log, &start, key, (first, second), steps) else {
        panic!(rt; "the first delta is not appended");
    };
    let Ok(two) = update(log, &one, key, (second, first), steps) else {
        panic!(rt; "the second delta is not appended");
    };
    assert_eq!(rt; (two.len, two.rows, log.spare()), (2, 1, 1));
    let full = update(log, &two, key, (first, second), steps);
    assert_eq!(rt; (full, log.spare()), (Err(AppendStop::Full), 1));
    let late = update(log, &start, key, (first, second), steps);
    assert_eq!(rt; (late, log.spare()), (Err(AppendStop::Late(two)), 1));
    let whole = dates(rt, log, steps);
    assert_eq!(rt; whole, two);
    walk(rt, log, &whole, &[(1, second), (2, first)], steps);
    last(rt, log, &whole, key, steps);
}

// The front of all, before and after dates of it were met.
fn dates<L: CommitLog, N: Ledger, R: Abort>(rt: &R, log: &mut L, steps: &mut Steps<N>) -> Front
    ensures { Stands L.terms (L.handle log.new).seen result }
{
    let whole = log.front(steps);
    let mut date = log.date(steps);
    let copy = log.copy(&mut date, steps);
    log.meet(date, steps);
    log.meet(copy, steps);
    let again = log.front(steps);
    assert_eq!(rt; again, whole);
    again
}

// A walk from the start gives entries with these numbers and these tuples.
fn walk<L: CommitLog, N: Ledger, R: Abort>(
    rt: &R,
    log: &mut L,
    to: &Front,
    entries: &[(u32, Tuple)],
    steps: &mut Steps<N>,
)
    requires { Stands L.terms (L.handle log.old).seen to.now }
    ensures same { (L.handle log.new).seen ≡ (L.handle log.old).seen }
{
    let start = log.start();
    let mut cursor = log.cursor(&start);
    let mut place = 0;
    while let Some(entry) = log.following(&mut cursor, to, steps) {
        assert!(rt; place < entries.len());
        let (seq, after) = entries[place];
        assert_eq!(rt;
            (entry.seq, entry.rows, entry.delta.after),
            (seq, 1, Some(after))
        );
        place += 1;
    }
    assert_eq!(rt; place, entries.len());
}

// The last entry with the key of the one row, and none with another one.
fn last<L: CommitLog, N: Ledger, R: Abort>(
    rt: &R,
    log: &mut L,
    to: &Front,
    key: Key,
    steps: &mut Steps<N>,
)
    requires { Stands L.terms (L.handle log.old).seen to.now }
{
    let start = log.start();
    let Some(entry) = log.latest(&key, &start, to, steps) else {
        panic!(rt; "there is no entry with the key");
    };
    assert_eq!(rt; (entry.seq, entry.delta.key), (to.len, key));
    let other = Key {
        order: key.order,
        line: 2,
    };
    assert_eq!(rt; log.latest(&other, &start, to, steps), None);
    assert_eq!(rt; log.latest(&key, to, to, steps), None);
}

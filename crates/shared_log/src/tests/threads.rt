//! What goes to another thread, and what threads share.
ghost use Rattle.std.specs.Prelude.{◌≡◌, ◌≤◌, ◌<◌, [], ◌∷◌, Some};
ghost use Rattle.shared_log.specs.Calls.{pass_handle};

use super::calls::{tuple, update};
use crate::{Date, LogTerms, Memory, Opening, Pass, SharedLog, WhichLog};
use cubit_base::{Key, Limits, Steps, Tuple};
use std::marker::Brand;
use std::process::Abort;
use std::sync::ledger::{Blank, Ledger};
use std::test::Fail;
use std::thread::{Threads, join};

fn shared<X: Sync>(_x: &X) {}

fn sent<X: Send>(x: X) -> X
    ensures { result ≡ x }
{
    x
}

// A date may be lent to several threads, and moved to another one.
fn date_is_shared<W: WhichLog + Send + Sync>(date: Date<W>) -> Date<W>
    ensures { result ≡ date }
{
    shared(&date);
    sent(date)
}

// Whether a pass that has seen nothing was the first that changed the one row, and a date of what it then saw.
fn tried<'a, T: LogTerms, W: WhichLog, N: Ledger>(
    pass: Pass<'a, T, W>,
    key: Key,
    tuples: (Tuple, Tuple),
    blank: Blank,
) -> (bool, Date<W>, Pass<'a, T, W>)
    requires blank { (blank.name ≡ N.name) × (blank.parts ≡ N.parts) × (0 < N.parts) }
    requires base { T.terms.base ≡ (key, Some tuples.0) ∷ [] }
    requires seen { pass.view.seen ≡ [] }
    requires spare { 1 ≤ (pass_handle T.terms pass).spare }
{
    let mut pass = pass;
    let mut steps = Steps::<N>::make(blank);
    let start = pass.start();
    let is_first = update(&mut pass, &start, key, tuples, &mut steps).is_ok();
    let date = pass.date(&mut steps);
    (is_first, date, pass)
}

// Two passes change the one row, each on a thread of its own: one of them is the first, and once it met what the other
// one saw, the log has one delta.
fn two_at_once<'a, T, W, N, M, L, R>(
    rt: &R,
    log: &'a SharedLog<T>,
    opening: &mut Opening,
    key: Key,
    tuples: (Tuple, Tuple),
    blanks: (Blank, Blank, Blank),
)
where
    T: LogTerms + Send + Sync,
    W: WhichLog + Send + Sync,
    N: Ledger + Send + Sync,
    M: Ledger + Send + Sync,
    L: Ledger,
    R: Threads + Abort + Sync,
    requires first { (blanks.0.name ≡ N.name) × (blanks.0.parts ≡ N.parts) × (0 < N.parts) }
    requires second { (blanks.1.name ≡ M.name) × (blanks.1.parts ≡ M.parts) × (0 < M.parts) }
    requires third { (blanks.2.name ≡ L.name) × (blanks.2.parts ≡ L.parts) × (0 < L.parts) }
    requires terms { T.terms ≡ record {
      base = (key, Some tuples.0) ∷ [];
      shares = 1 ∷ 1 ∷ [];
      limits = record { row_limit = 1; log_limit = 2; tries = 1 };
    } }
    requires log { opening.old ≡ record { table = log.now; given = 0 } }
    requires which { log.now ≡ W.table }
{
    let (first, second, third) = blanks;
    let one = log.pass::<W>(opening);
    let two = log.pass::<W>(opening);
    let (before, after) = tuples;
    let (one, two) = join(
        rt,
        move || -> (bool, Date<W>, Pass<'_, T, W>)
            requires { (first.name ≡ N.name) × (first.parts ≡ N.parts) × (0 < N.parts)
                × (T.terms.base ≡ (key, Some before) ∷ []) × (one.view.seen ≡ [])
                × (1 ≤ (pass_handle T.terms one).spare) }
        { tried::<T, W, N>(one, key, (before, after), first) },
        move || -> (bool, Date<W>, Pass<'_, T, W>)
            requires { (second.name ≡ M.name) × (second.parts ≡ M.parts) × (0 < M.parts)
                × (T.terms.base ≡ (key, Some before) ∷ []) × (two.view.seen ≡ [])
                × (1 ≤ (pass_handle T.terms two).spare) }
        { tried::<T, W, M>(two, key, (before, after), second) },
    );
    let (one_is_first, _, mut pass) = one;
    let (two_is_first, date, _) = two;
    assert!(rt; one_is_first != two_is_first);
    let mut steps = Steps::<L>::make(third);
    pass.meet(date, &mut steps);
    assert_eq!(rt; pass.front(&mut steps).len, 1);
}

fn made<T: LogTerms + Send + Sync, R: Threads + Abort + AllocGlobal + Sync>(
    rt: &R,
    key: Key,
    tuples: (Tuple, Tuple),
) -> Result<(), Memory>
    requires { T.terms ≡ record {
      base = (key, Some tuples.0) ∷ [];
      shares = 1 ∷ 1 ∷ [];
      limits = record { row_limit = 1; log_limit = 2; tries = 1 };
    } }
{
    let limits = Limits {
        row_limit: 1,
        log_limit: 2,
        tries: 1,
    };
    let blanks = (Blank::new(1), Blank::new(1), Blank::new(1));
    let (log, mut opening) = SharedLog::<T>::make(rt.alloc(), 1, &[1, 1], limits)?;
    two_at_once::<T, Brand, Brand, Brand, Brand, R>(rt, &log, &mut opening, key, tuples, blanks);
    Ok(())
}

#[test]
fn one_of_two_is_the_first(rt: HostRuntime) -> Result<(), Fail> {
    let key = Key { order: 1, line: 1 };
    made::<Brand, HostRuntime>(&rt, key, (tuple(17), tuple(7)))?;
    Ok(())
}

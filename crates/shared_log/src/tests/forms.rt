//! The forms of a log: for one caller, and for several.
ghost use Rattle.std.specs.Prelude.{◌≡◌, ◌<◌, [], ◌∷◌, Some};

use super::calls::{each_call, tuple};
use crate::{LogTerms, Memory, Opening, SharedLog, WhichLog};
use commit_log::{SerialLog, Setup};
use cubit_base::{Key, Limits, Steps, Tuple};
use std::marker::Brand;
use std::process::Abort;
use std::sync::ledger::{Blank, Ledger};
use std::test::Fail;

const LIMITS: Limits = Limits {
    row_limit: 1,
    log_limit: 2,
    tries: 1,
};

// The log of one caller.
fn serial<S: Setup, N: Ledger, R: Abort + AllocGlobal>(
    rt: &R,
    blank: Blank,
    key: Key,
    first: Tuple,
) -> Result<(), Memory>
    requires name { blank.name ≡ N.name }
    requires parts { blank.parts ≡ N.parts }
    requires some { 0 < N.parts }
    requires base { S.base ≡ (key, Some first) ∷ [] }
    requires limits { S.limits ≡ record { row_limit = 1; log_limit = 2; tries = 1 } }
{
    let mut steps = Steps::<N>::make(blank);
    let mut log = SerialLog::<S>::make(rt.alloc(), 1, 3, LIMITS)?;
    each_call(rt, &mut log, key, first, &mut steps);
    Ok(())
}

// A shared log of two authors, and the pass of the second one.
fn shared<T: LogTerms, N: Ledger, R: Abort + AllocGlobal>(
    rt: &R,
    blank: Blank,
    key: Key,
    first: Tuple,
) -> Result<(), Memory>
    requires name { blank.name ≡ N.name }
    requires parts { blank.parts ≡ N.parts }
    requires some { 0 < N.parts }
    requires terms { T.terms ≡ record {
      base = (key, Some first) ∷ [];
      shares = 1 ∷ 3 ∷ [];
      limits = record { row_limit = 1; log_limit = 2; tries = 1 };
    } }
{
    let (log, mut opening) = SharedLog::<T>::make(rt.alloc(), 1, &[1, 3], LIMITS)?;
    second_pass::<T, Brand, N, R>(rt, &log, &mut opening, blank, key, first);
    Ok(())
}

fn second_pass<T: LogTerms, W: WhichLog, N: Ledger, R: Abort>(
    rt: &R,
    log: &SharedLog<T>,
    opening: &mut Opening,
    blank: Blank,
    key: Key,
    first: Tuple,
)
    requires name { blank.name ≡ N.name }
    requires parts { blank.parts ≡ N.parts }
    requires some { 0 < N.parts }
    requires terms { T.terms ≡ record {
      base = (key, Some first) ∷ [];
      shares = 1 ∷ 3 ∷ [];
      limits = record { row_limit = 1; log_limit = 2; tries = 1 };
    } }
    requires log { opening.old ≡ record { table = log.now; given = 0 } }
    requires which { log.now ≡ W.table }
{
    let mut steps = Steps::<N>::make(blank);
    let none = log.pass::<W>(opening);
    assert_eq!(rt; (none.author(), none.spare()), (0, 1));
    let mut pass = log.pass::<W>(opening);
    assert_eq!(rt; pass.author(), 1);
    each_call(rt, &mut pass, key, first, &mut steps);
}

#[test]
fn each_call_of_both_forms(rt: HostRuntime) -> Result<(), Fail> {
    let key = Key { order: 1, line: 1 };
    serial::<Brand, Brand, HostRuntime>(&rt, Blank::new(1), key, tuple(17))?;
    shared::<Brand, Brand, HostRuntime>(&rt, Blank::new(1), key, tuple(17))?;
    Ok(())
}

//! Which words are a query, and no command at all.
use super::{A, Left, NONE_FAILS, ROW_1, answers, check};
use crate::Status;
use std::test::Fail;

pub(super) const USAGE: Left<'static> = Left {
    status: Status::Usage,
    out: "",
    err: concat!(
        "usage: cubit q6 BASE YEAR DISCOUNT QUANTITY\n",
        "       cubit run [--row-limit N] [--log-limit N] [--tries N] BASE SCRIPT..\n",
        "       cubit drill SEED ORDERS\n",
    ),
};

#[test]
fn accepted_spellings(rt: HostRuntime) -> Result<(), Fail> {
    let alloc = rt.alloc();
    for (year, discount, quantity, line) in [
        ("01996", "0.05", "24", ROW_1),
        ("1996", "0.05", "24.0", ROW_1),
        ("1996", "0.05", "24.00", ROW_1),
        ("1996", "0.05", "024", ROW_1),
        ("1996", "0.1", "24", "front=0 count=1 sum=1330.9600\n"),
    ] {
        answers(&rt, alloc, A, &["q6", "A", year, discount, quantity], line)?;
    }
    Ok(())
}

#[test]
fn another_number_of_words(rt: HostRuntime) -> Result<(), Fail> {
    let alloc = rt.alloc();
    check(&rt, alloc, A, &[], NONE_FAILS, USAGE)?;
    check(&rt, alloc, A, &["run", "A"], NONE_FAILS, USAGE)?;
    check(
        &rt,
        alloc,
        A,
        &["q6", "A", "1996", "0.05"],
        NONE_FAILS,
        USAGE,
    )?;
    check(
        &rt,
        alloc,
        A,
        &["q6", "A", "1996", "0.05", "24", "24"],
        NONE_FAILS,
        USAGE,
    )?;
    Ok(())
}

#[test]
fn refused_spellings(rt: HostRuntime) -> Result<(), Fail> {
    let alloc = rt.alloc();
    for (command, base, year, discount, quantity) in [
        ("", "A", "1996", "0.05", "24"),
        ("q", "A", "1996", "0.05", "24"),
        ("Q6", "A", "1996", "0.05", "24"),
        ("q6 ", "A", "1996", "0.05", "24"),
        ("q6=1", "A", "1996", "0.05", "24"),
        ("--help", "A", "1996", "0.05", "24"),
        ("--", "A", "1996", "0.05", "24"),
        ("q6", "", "1996", "0.05", "24"),
        ("q6", "-x", "1996", "0.05", "24"),
        ("q6", "-", "1996", "0.05", "24"),
        ("q6", "--", "1996", "0.05", "24"),
        ("q6", "A", "", "0.05", "24"),
        ("q6", "A", "1991", "0.05", "24"),
        ("q6", "A", "1999", "0.05", "24"),
        ("q6", "A", "1996.0", "0.05", "24"),
        ("q6", "A", "-1996", "0.05", "24"),
        ("q6", "A", "19960000000", "0.05", "24"),
        ("q6", "A", "1996", "", "24"),
        ("q6", "A", "1996", "0.11", "24"),
        ("q6", "A", "1996", ".05", "24"),
        ("q6", "A", "1996", "0.055", "24"),
        ("q6", "A", "1996", "-0.05", "24"),
        ("q6", "A", "1996", "5%", "24"),
        ("q6", "A", "1996", "0.05", ""),
        ("q6", "A", "1996", "0.05", "0"),
        ("q6", "A", "1996", "0.05", "52"),
        ("q6", "A", "1996", "0.05", "24.5"),
        ("q6", "A", "1996", "0.05", "24.000"),
        ("q6", "A", "1996", "0.05", "+24"),
    ] {
        let words = [command, base, year, discount, quantity];
        check(&rt, alloc, A, &words, NONE_FAILS, USAGE)?;
    }
    Ok(())
}

//! Bases with a fault, and what is said of the first.
use super::{A, Left, NONE_FAILS, WORDS, check};
use crate::Status;
use std::alloc::{AllocError, Global};
use std::process::Abort;
use std::test::Fail;

// The fields of a sound line.
const SOUND: [&str; 16] = [
    "9",
    "155190",
    "7706",
    "1",
    "17",
    "21168.23",
    "0.04",
    "0.02",
    "N",
    "O",
    "1996-03-13",
    "1996-02-12",
    "1996-03-22",
    "NONE",
    "TRUCK",
    "a comment",
];

fn refuses(rt: &impl Abort, alloc: Global, base: &[u8], err: &str) -> Result<(), AllocError> {
    let left = Left {
        status: Status::Refused,
        out: "",
        err,
    };
    check(rt, alloc, base, &WORDS, NONE_FAILS, left)
}

// The sound line with other fields at some places from 1.
fn line_with(alloc: Global, fields: &[(usize, &str)]) -> Result<Vec<u8>, AllocError> {
    let mut line = Vec::new(alloc);
    for (place, sound) in SOUND.iter().enumerate() {
        let mut field = *sound;
        for (other, text) in fields {
            if *other == place + 1 {
                field = *text;
            }
        }
        line.extend_from_slice(field.as_bytes())?;
        line.extend_from_slice(b"|")?;
    }
    line.extend_from_slice(b"\n")?;
    Ok(line)
}

// A, and then such a line: it is line 4.
fn refuses_fields(
    rt: &impl Abort,
    alloc: Global,
    fields: &[(usize, &str)],
    err: &str,
) -> Result<(), AllocError> {
    let mut base = A.to_vec(alloc)?;
    base.extend_from_slice(&line_with(alloc, fields)?)?;
    refuses(rt, alloc, &base, err)
}

#[test]
fn each_field(rt: HostRuntime) -> Result<(), Fail> {
    let alloc = rt.alloc();
    for (field, text, err) in [
        (1, "", "cubit: A: line 4: fault 2\n"),
        (1, "0", "cubit: A: line 4: fault 2\n"),
        (1, "4294967296", "cubit: A: line 4: fault 2\n"),
        (1, "+9", "cubit: A: line 4: fault 2\n"),
        (2, "\t", "cubit: A: line 4: fault 11\n"),
        (3, "\r", "cubit: A: line 4: fault 11\n"),
        (4, "0", "cubit: A: line 4: fault 3\n"),
        (4, "8", "cubit: A: line 4: fault 3\n"),
        (5, "", "cubit: A: line 4: fault 4\n"),
        (5, "51", "cubit: A: line 4: fault 4\n"),
        (5, "17.5", "cubit: A: line 4: fault 4\n"),
        (6, "1000000.00", "cubit: A: line 4: fault 5\n"),
        (6, "1.", "cubit: A: line 4: fault 5\n"),
        (7, "0.11", "cubit: A: line 4: fault 6\n"),
        (7, "-0.01", "cubit: A: line 4: fault 6\n"),
        (8, "0.09", "cubit: A: line 4: fault 7\n"),
        (8, "0.055", "cubit: A: line 4: fault 7\n"),
        (9, "a", "cubit: A: line 4: fault 8\n"),
        (9, "NN", "cubit: A: line 4: fault 8\n"),
        (10, "", "cubit: A: line 4: fault 9\n"),
        (11, "1996-02-30", "cubit: A: line 4: fault 10\n"),
        (11, "1991-12-31", "cubit: A: line 4: fault 10\n"),
        (11, "1999-01-01", "cubit: A: line 4: fault 10\n"),
        (11, "1996/03/13", "cubit: A: line 4: fault 10\n"),
        (12, "\x1f", "cubit: A: line 4: fault 11\n"),
        (16, "\x7f", "cubit: A: line 4: fault 11\n"),
        (16, "a|b", "cubit: A: line 4: fault 1 fields=17\n"),
    ] {
        refuses_fields(&rt, alloc, &[(field, text)], err)?;
    }
    Ok(())
}

#[test]
fn the_first_of_two(rt: HostRuntime) -> Result<(), Fail> {
    let alloc = rt.alloc();
    for (fields, err) in [
        ([(5, ""), (11, "1996-02-30")], "cubit: A: line 4: fault 4\n"),
        ([(2, "\t"), (4, "8")], "cubit: A: line 4: fault 11\n"),
        (
            [(1, "0"), (16, "a|b")],
            "cubit: A: line 4: fault 1 fields=17\n",
        ),
        ([(1, "1"), (9, "x")], "cubit: A: line 4: fault 8\n"),
        ([(1, "1"), (4, "3")], "cubit: A: line 4: fault 12 first=3\n"),
    ] {
        refuses_fields(&rt, alloc, &fields, err)?;
    }
    Ok(())
}

#[test]
fn whole_bases(rt: HostRuntime) -> Result<(), Fail> {
    let alloc = rt.alloc();
    let fifteen = b"1|1|1|1|17|1.00|0.04|0.02|N|O|1996-03-13|a|b|c|d|";
    refuses(&rt, alloc, fifteen, "cubit: A: line 1: fault 1 fields=15\n")?;
    for base in [b"\n".as_slice(), b"\r", b"|\n"] {
        refuses(&rt, alloc, base, "cubit: A: line 1: fault 1 fields=1\n")?;
    }
    let mut twice = A.to_vec(alloc)?;
    twice.extend_from_slice(A)?;
    refuses(&rt, alloc, &twice, "cubit: A: line 4: fault 12 first=1\n")?;
    twice.extend_from_slice(b"\n")?;
    refuses(&rt, alloc, &twice, "cubit: A: line 4: fault 12 first=1\n")?;
    let mut later = b"\n".to_vec(alloc)?;
    later.extend_from_slice(&twice)?;
    refuses(&rt, alloc, &later, "cubit: A: line 1: fault 1 fields=1\n")?;
    Ok(())
}

//! Scripts and refresh files with a fault, and what is said of the first.
use super::{A, Left, NONE_FAILS, check_files};
use crate::Status;
use std::alloc::{AllocError, Global};
use std::process::Abort;
use std::test::Fail;

fn refuses(
    rt: &impl Abort,
    alloc: Global,
    held: &[(&str, &[u8])],
    status: Status,
    err: &str,
) -> Result<(), AllocError> {
    let left = Left {
        status,
        out: "",
        err,
    };
    check_files(rt, alloc, held, &["run", "A", "S"], NONE_FAILS, left)
}

#[test]
fn one_line(rt: HostRuntime) -> Result<(), Fail> {
    let alloc = rt.alloc();
    for (line, fault) in [
        (b"insert 1 9 5 10.00 0.01 0.00 R F 1995-01-01".as_slice(), 3),
        (b"insert 0 9 5 10.00 0.01 0.00 R F 1995-01-01", 2),
        (b"insert 1 1 51 1000000.00 0.01 0.00 R F 1995-01-01", 4),
        (b"insert 1 1 5 10.00 0.01 0.00 R F", 14),
        (b"insert 1 1 5 10.00 0.01 0.00 R F 1995-01-01 x", 14),
        (b"delete  1", 2),
        (b"delete 1", 14),
        (b"delete 4294967296 1", 2),
        (b"drop 0", 2),
        (b"drop", 14),
        (b"lookup 1 8", 3),
        (b"merge ", 14),
        (b"Merge", 14),
        (b" ", 14),
        (b"q6 1996 0.05", 14),
        (b"q6 1996 0.05 52", 14),
        (b"q6 1996 0.11 24", 14),
        (b"q6 1999 0.05 24", 14),
        (b"q6 01996 0.5 024.0", 14),
        (b"rows qty=0", 18),
        (b"rows qty=51", 18),
        (b"rows qty=1..50 qty=1", 18),
        (b"rows flag=A..R", 18),
        (b"rows flag=n", 18),
        (b"rows disc=0...1", 18),
        (b"rows ship=1996-02-30", 18),
        (b"rows  qty=5", 18),
        (b"rows a=1 b=2 c=3 d=4 e=5 f=6", 14),
        (b"insert-file", 14),
        (b"insert-file ", 14),
        (b"insert-file \xff", 14),
    ] {
        let mut err = String::new(alloc);
        writeln!(&mut err, "cubit: S: line 1: fault {fault}")?;
        let held: [(&str, &[u8]); 2] = [("A", A), ("S", line)];
        refuses(&rt, alloc, &held, Status::Refused, &err)?;
    }
    Ok(())
}

const FIFTEEN: &[u8] = b"1|1|1|1|17|1.00|0.04|0.02|N|O|1996-03-13|a|b|c|d|\n";

const INSERTS: &[u8] =
    b"7|1|1|1|10|100.00|0.05|0.01|A|F|1994-06-15|1994-06-15|1994-06-15|x|AIR|x|\n7|1|1|2\n";

// The base, the script, and what comes of them.
const FIRST_FILES: [(&[u8], &[u8], Status, &str); 6] = [
    (
        A,
        b"insert-file U\n",
        Status::Refused,
        "cubit: U: line 2: fault 1 fields=4\n",
    ),
    (
        A,
        b"merge\ndelete-file D\n",
        Status::Refused,
        "cubit: D: line 2: fault 15\n",
    ),
    (
        A,
        b"insert-file NONE\nMerge\n",
        Status::FileFault,
        "cubit: NONE: cannot be read\n",
    ),
    (
        A,
        b"Merge\ninsert-file NONE\n",
        Status::Refused,
        "cubit: S: line 1: fault 14\n",
    ),
    (
        A,
        b"delete-file D\ninsert-file NONE\n",
        Status::Refused,
        "cubit: D: line 2: fault 15\n",
    ),
    (
        FIFTEEN,
        b"Merge\n",
        Status::Refused,
        "cubit: A: line 1: fault 1 fields=15\n",
    ),
];

#[test]
fn the_first_file(rt: HostRuntime) -> Result<(), Fail> {
    for (base, script, status, err) in FIRST_FILES {
        let held: [(&str, &[u8]); 4] = [
            ("A", base),
            ("S", script),
            ("U", INSERTS),
            ("D", b"1|\nx\n"),
        ];
        refuses(&rt, rt.alloc(), &held, status, err)?;
    }
    Ok(())
}

#[test]
fn no_script(rt: HostRuntime) -> Result<(), Fail> {
    let alloc = rt.alloc();
    let twice = concat!(
        "5|1|1|1|10|100.00|0.05|0.01|A|F|1994-06-15|1994-06-15|1994-06-15|x|AIR|x|\n",
        "5|1|1|1|10|100.00|0.05|0.01|A|F|1994-06-15|1994-06-15|1994-06-15|x|AIR|x|\n",
    );
    for (base, status, err) in [
        (A, Status::FileFault, "cubit: S: cannot be read\n"),
        (
            twice.as_bytes(),
            Status::Refused,
            "cubit: A: line 2: fault 12 first=1\n",
        ),
    ] {
        refuses(&rt, alloc, &[("A", base)], status, err)?;
    }
    Ok(())
}

#[test]
fn more_lines_than_rows(rt: HostRuntime) -> Result<(), Fail> {
    let left = Left {
        status: Status::Refused,
        out: "",
        err: "cubit: A: line 3: fault 13\n",
    };
    check_files(
        &rt,
        rt.alloc(),
        &[("A", A), ("S", b"Merge\n")],
        &["run", "--row-limit", "2", "A", "S"],
        NONE_FAILS,
        left,
    )?;
    Ok(())
}

//! Which words are a run or a drill.
use super::words::USAGE;
use super::{A, NONE_FAILS, check_files, writes};
use std::test::Fail;

const HELD: [(&str, &[u8]); 2] = [("A", A), ("S", b"")];

#[test]
fn accepted(rt: HostRuntime) -> Result<(), Fail> {
    let alloc = rt.alloc();
    let held: [(&str, &[u8]); 4] = [("A", A), ("S", b""), ("-x", b""), ("--tries", b"")];
    for words in [
        ["run", "A", "S"].as_slice(),
        &["run", "A", "-x"],
        &["run", "A", "--tries"],
        &["run", "--tries", "1", "A", "S"],
        &["run", "--tries", "0000001000", "A", "S"],
        &["run", "--row-limit", "16777216", "A", "S"],
        &["run", "--log-limit", "4194304", "--tries", "3", "A", "S"],
        &[
            "run",
            "--tries",
            "3",
            "--log-limit",
            "0",
            "--row-limit",
            "3",
            "A",
            "S",
        ],
        &[
            "run",
            "--row-limit",
            "3",
            "--tries",
            "3",
            "--log-limit",
            "0",
            "A",
            "S",
        ],
    ] {
        writes(&rt, alloc, &held, words, "journal 0\n")?;
    }
    Ok(())
}

const REFUSED: [&[&str]; 36] = [
    &["run"],
    &["run", "A"],
    &["run", "A", ""],
    &["run", "", "S"],
    &["run", "-x", "S"],
    &["run", "A", "S", "S"],
    &["run", "A", "S", "S", "S"],
    &["run", "A", "--tries", "3", "S"],
    &["run", "--tries", "3"],
    &["run", "--tries", "3", "A"],
    &["run", "--tries", "A", "S"],
    &["run", "--tries", "0", "A", "S"],
    &["run", "--tries", "1001", "A", "S"],
    &["run", "--tries", "", "A", "S"],
    &["run", "--tries", "+3", "A", "S"],
    &["run", "--tries", "00000000003", "A", "S"],
    &["run", "--tries=3", "A", "S"],
    &["run", "--tries=3", "3", "A", "S"],
    &["run", "--tries", "3", "--tries", "3", "A", "S"],
    &["run", "--row-limit", "16777217", "A", "S"],
    &[
        "run",
        "--row-limit",
        "3",
        "--log-limit",
        "3",
        "--row-limit",
        "3",
        "A",
        "S",
    ],
    &["run", "--log-limit", "4194305", "A", "S"],
    &["run", "--limit", "3", "A", "S"],
    &["run", "--", "A", "S"],
    &["run", "--help", "3", "A", "S"],
    &["run", "--help", "S"],
    &["Run", "A", "S"],
    &["drill"],
    &["drill", "7"],
    &["drill", "7", "2000", "1"],
    &["drill", "4294967296", "1"],
    &["drill", "-1", "1"],
    &["drill", "1", "0"],
    &["drill", "1", "100001"],
    &["drill", "1", ""],
    &["--help"],
];

#[test]
fn refused(rt: HostRuntime) -> Result<(), Fail> {
    for words in REFUSED {
        check_files(&rt, rt.alloc(), &HELD, words, NONE_FAILS, USAGE)?;
    }
    Ok(())
}

//! Whole calls of the program over files and sinks in memory: words and bytes in, status and bytes out.
use crate::{Status, run};
use cubit_io::{MemoryFiles, MemorySink};
use std::alloc::{AllocError, Global};
use std::process::Abort;

mod drills;
mod failing_calls;
mod faults;
mod rows;
mod run_words;
mod script_faults;
mod scripts;
mod words;

const A: &[u8] =
    b"1|155190|7706|1|17|21168.23|0.04|0.02|N|O|1996-03-13|1996-02-12|1996-03-22|DELIVER IN PERSON|TRUCK|\
egular courts above the|\n\
1|67310|7311|2|36|45983.16|0.09|0.06|N|O|1996-04-12|1996-02-28|1996-04-20|TAKE BACK RETURN|MAIL|\
ly final dependencies: slyly bold |\n\
1|63700|3701|3|8|13309.60|0.10|0.02|N|O|1996-01-29|1996-03-05|1996-01-31|TAKE BACK RETURN|REG AIR|\
riously. regular, express dep|\n";

const WORDS: [&str; 5] = ["q6", "A", "1996", "0.05", "24"];

const ROW_1: &str = "front=0 count=1 sum=846.7292\n";

// Which calls of the files, of the output and of standard error are to fail, from 1.
#[derive(Clone, Copy)]
struct Failing<'a> {
    files: &'a [u32],
    out: &'a [u32],
    err: &'a [u32],
}

const NONE_FAILS: Failing<'static> = Failing {
    files: &[],
    out: &[],
    err: &[],
};

// What a call leaves.
#[derive(Clone, Copy)]
struct Left<'a> {
    status: Status,
    out: &'a str,
    err: &'a str,
}

fn words_of(alloc: Global, words: &[&str]) -> Result<Vec<String>, AllocError> {
    let mut all = Vec::new(alloc);
    for word in words {
        all.push(String::from_str(alloc, word)?)?;
    }
    Ok(all)
}

// Calls with these words, where these files are held.
fn check_files(
    rt: &impl Abort,
    alloc: Global,
    held: &[(&str, &[u8])],
    words: &[&str],
    failing: Failing<'_>,
    left: Left<'_>,
) -> Result<(), AllocError> {
    let words = words_of(alloc, words)?;
    let mut files = MemoryFiles::make(alloc, failing.files.to_vec(alloc)?);
    for (name, bytes) in held {
        files.keep(alloc, *name, *bytes)?;
    }
    let mut out = MemorySink::make(alloc, failing.out.to_vec(alloc)?);
    let mut err = MemorySink::make(alloc, failing.err.to_vec(alloc)?);
    let status = run(alloc, &words, &mut files, &mut out, &mut err);
    assert_eq!(rt; status, left.status, "with {words:?}");
    assert_eq!(rt; out.bytes(), left.out.as_bytes(), "with {words:?}");
    assert_eq!(rt; err.bytes(), left.err.as_bytes(), "with {words:?}");
    Ok(())
}

// The same, where the file A is held.
fn check(
    rt: &impl Abort,
    alloc: Global,
    base: &[u8],
    words: &[&str],
    failing: Failing<'_>,
    left: Left<'_>,
) -> Result<(), AllocError> {
    check_files(rt, alloc, &[("A", base)], words, failing, left)
}

// What is written, where these files are held and nothing fails.
fn writes(
    rt: &impl Abort,
    alloc: Global,
    held: &[(&str, &[u8])],
    words: &[&str],
    out: &str,
) -> Result<(), AllocError> {
    let left = Left {
        status: Status::Done,
        out,
        err: "",
    };
    check_files(rt, alloc, held, words, NONE_FAILS, left)
}

// The query writes this line.
fn answers(
    rt: &impl Abort,
    alloc: Global,
    base: &[u8],
    words: &[&str],
    out: &str,
) -> Result<(), AllocError> {
    writes(rt, alloc, &[("A", base)], words, out)
}

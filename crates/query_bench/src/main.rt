//! A program that measures queries over the index of a `lineitem` file: how long `Base::build` takes, and the sum and
//! the count of each of a few queries, over the base, beside 10,000 updates that are not merged, and after they are. It
//! prints what each query answered, which `bench/index` compares with what a scan of columns finds, and on demand the
//! times.
//!
//! # Proved
//!
//! - That each call it makes may be made; and what the queries answer, by their contracts.
//!
//! # Not said
//!
//! - What lies between two readings of a clock, and that words of a command are read as numbers.
//!
//! # Example
//!
//! ```
//! let bytes = read_all(rt.alloc(), &mut files, "lineitem.tbl").map_err(|_| "no file")?;
//! let report = measured(&rt, &bytes, 40, &cases())?;
//! ```
#![tactic(auto)]

ghost use Rattle.std.specs.Prelude.{◌≤◌, length};

mod cases;
mod session;
mod telling;
mod times;
mod words;

use cases::{Case, cases};
use cubit_io::{DiskFiles, read_all};
use session::measured;
use std::process::ExitCode;
use std::rt::{Clock, Env};
use std::{env, io};
use telling::tell;
use words::{Asked, read};

fn main(rt: HostRuntime) -> io::Result<ExitCode> {
    let words = arguments(&rt)?;
    let mut files = DiskFiles::make(&rt);
    let Some(asked) = read(words.as_slice()) else {
        eprintln!(rt; "usage: query_bench FILE ROUNDS [YEAR DISCOUNT QUANTITY] [--times]")?;
        return Ok(ExitCode::from(2));
    };
    let Ok(bytes) = read_all(rt.alloc(), &mut files, asked.file) else {
        eprintln!(rt; "no file {}", asked.file)?;
        return Ok(ExitCode::from(3));
    };
    match asked.query {
        Some(query) => measure(&rt, &bytes, &asked, &[query])?,
        None => measure(&rt, &bytes, &asked, &cases())?,
    }
    Ok(ExitCode::SUCCESS)
}

fn arguments<R: Env + AllocGlobal>(rt: &R) -> io::Result<Vec<String>> {
    let mut words = Vec::new(rt.alloc());
    for word in env::args(rt)?.skip(1) {
        words.push(word)?;
    }
    Ok(words)
}

fn measure<R: Clock + Print + Eprint + AllocGlobal>(
    rt: &R,
    bytes: &[u8],
    asked: &Asked<'_>,
    cases: &[Case],
) -> io::Result<()>
    requires { length bytes.now ≤ u32.MAX }
{
    let mut report = measured(rt, bytes, asked.rounds, cases)?;
    tell(rt, cases, &mut report, asked.tells_times)
}

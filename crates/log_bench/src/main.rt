//! A program that measures the log of one caller: how long a delta takes to append, to walk over, and to pass by in the
//! search for a key. It prints a checksum of what the walk and the search gave, which `bench/log` compares with that of
//! its twin, and on demand how long the fastest of its rounds took.
//!
//! # Proved
//!
//! - That each call it makes may be made: above all that each delta is lawful where it is appended.
//!
//! # Only tested
//!
//! - The checksum, by that of its twin.
//!
//! # Not said
//!
//! - What lies between two readings of a clock, and that words of a command are read as numbers.
//!
//! # Example
//!
//! ```
//! let report = measured(&rt, 100_000, 30)?;
//! println!(rt; "sum={}", report.sum)?;
//! ```
#![tactic(auto)]

mod calls;
mod rounds;

use rounds::{MOST_DELTAS, Report, measured};
use std::process::ExitCode;
use std::rt::{Clock, Env};
use std::time::Duration;
use std::{env, io};

fn main(rt: HostRuntime) -> io::Result<ExitCode> {
    let words = arguments(&rt)?;
    let (deltas, rounds, tells_times) = match words.as_slice() {
        [deltas, rounds] => (
            deltas.parse::<u32>().ok(),
            rounds.parse::<u32>().ok(),
            false,
        ),
        [deltas, rounds, option] => (
            deltas.parse::<u32>().ok(),
            rounds.parse::<u32>().ok(),
            option.as_str() == "--times",
        ),
        _ => (None, None, false),
    };
    let (Some(deltas), Some(rounds)) = (deltas, rounds) else {
        eprintln!(rt; "usage: log_bench DELTAS ROUNDS [--times]")?;
        return Ok(ExitCode::from(2));
    };
    let report = measured(&rt, deltas.min(MOST_DELTAS), rounds)?;
    tell(&rt, &report, tells_times)?;
    Ok(ExitCode::SUCCESS)
}

fn arguments<R: Env + AllocGlobal>(rt: &R) -> io::Result<Vec<String>> {
    let mut words = Vec::new(rt.alloc());
    for word in env::args(rt)?.skip(1) {
        words.push(word)?;
    }
    Ok(words)
}

fn tell<R: Print + Eprint>(rt: &R, report: &Report, tells_times: bool) -> io::Result<()> {
    println!(rt; "sum={}", report.sum)?;
    if tells_times {
        tell_time(rt, "append", report.append)?;
        tell_time(rt, "following", report.following)?;
        tell_time(rt, "latest", report.latest)?;
    }
    Ok(())
}

fn tell_time<R: Eprint>(rt: &R, name: &str, time: Duration) -> io::Result<()> {
    eprintln!(rt; "{name}={}.{:09}", time.as_secs(), time.subsec_nanos())?;
    Ok(())
}

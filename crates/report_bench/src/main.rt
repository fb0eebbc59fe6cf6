//! A program that measures reports: how long one takes to be written, and how long to be read again. It prints the
//! length and a checksum of the text, which `bench/report` compares with those of its twin, and on demand how long the
//! fastest of its rounds took.
//!
//! # Proved
//!
//! - That each call it makes may be made.
//!
//! # Only tested
//!
//! - The text, by that of its twin, and that what is read is written as the same text again.
//!
//! # Not said
//!
//! - What lies between two readings of a clock, and that words of a command are read as numbers.
//!
//! # Example
//!
//! ```
//! let times = measured(&rt, 1_000_000, 1_000_000, 5)?;
//! println!(rt; "sum={}", times.sum)?;
//! ```
#![tactic(auto)]

mod draws;
mod rounds;

use draws::MOST;
use rounds::{Times, measured};
use std::process::ExitCode;
use std::rt::{Clock, Env};
use std::time::Duration;
use std::{env, io};

fn main(rt: HostRuntime) -> io::Result<ExitCode> {
    let words = arguments(&rt)?;
    let (numbers, tells_times) = match words.as_slice() {
        [replies, deltas, rounds] => (numbers_of(replies, deltas, rounds), false),
        [replies, deltas, rounds, option] => (
            numbers_of(replies, deltas, rounds),
            option.as_str() == "--times",
        ),
        _ => (None, false),
    };
    let Some((replies, deltas, rounds)) = numbers else {
        eprintln!(rt; "usage: report_bench REPLIES DELTAS ROUNDS [--times]")?;
        return Ok(ExitCode::from(2));
    };
    let times = measured(&rt, replies.min(MOST), deltas.min(MOST), rounds)?;
    tell(&rt, &times, tells_times)?;
    Ok(ExitCode::SUCCESS)
}

fn numbers_of(replies: &String, deltas: &String, rounds: &String) -> Option<(u32, u32, u32)> {
    let replies = replies.parse::<u32>().ok()?;
    let deltas = deltas.parse::<u32>().ok()?;
    let rounds = rounds.parse::<u32>().ok()?;
    Some((replies, deltas, rounds))
}

fn arguments<R: Env + AllocGlobal>(rt: &R) -> io::Result<Vec<String>> {
    let mut words = Vec::new(rt.alloc());
    for word in env::args(rt)?.skip(1) {
        words.push(word)?;
    }
    Ok(words)
}

fn tell<R: Print + Eprint>(rt: &R, times: &Times, tells_times: bool) -> io::Result<()> {
    println!(rt; "bytes={} sum={}", times.bytes, times.sum)?;
    if tells_times {
        tell_time(rt, "write", times.write)?;
        tell_time(rt, "read", times.read)?;
    }
    Ok(())
}

fn tell_time<R: Eprint>(rt: &R, name: &str, time: Duration) -> io::Result<()> {
    eprintln!(rt; "{name}={}.{:09}", time.as_secs(), time.subsec_nanos())?;
    Ok(())
}

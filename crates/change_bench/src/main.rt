//! A program that measures look-ups, changes and merges of all units over the table of a `lineitem` file, for one
//! caller. Each round makes so many updates, then so many look-ups and updates that are timed beside these, and merges
//! all units. It tells the times of each round in nanoseconds, and prints a checksum of all answers and versions, which
//! `bench/change` compares with that of its twin.
//!
//! # Proved
//!
//! - That each call it makes may be made: above all that the log and the store stand to each other and to the base as
//!   each call wants it, before and after each of them.
//!
//! # Only tested
//!
//! - The checksum, by that of its twin.
//!
//! # Not said
//!
//! - What lies between two readings of a clock, and that words of a command are read as numbers.
//!
//! # Example
//!
//! ```
//! let work = Work { deltas: 3_000, beside: 0, rounds: 10, whole: false };
//! println!(rt; "sum={:016x}", measured(&rt, bytes, work)?)?;
//! ```
#![tactic(auto)]

mod calls;
mod checksum;
mod drawn;
mod rounds;
#[cfg(test)]
mod tests;

use cubit_io::{DiskFiles, read_all};
use rounds::{Work, measured};
use std::process::ExitCode;
use std::rt::{Clock, Env};
use std::{env, io};

fn main(rt: HostRuntime) -> io::Result<ExitCode> {
    let words = arguments(&rt)?;
    let (name, work) = match words.as_slice() {
        [name, deltas, beside, rounds] => (name.as_str(), work_of(deltas, beside, rounds, true)),
        [name, deltas, beside, rounds, option] if option.as_str() == "--quantities" => {
            (name.as_str(), work_of(deltas, beside, rounds, false))
        }
        _ => ("", None),
    };
    let Some(work) = work else {
        eprintln!(rt; "usage: change_bench FILE DELTAS BESIDE ROUNDS [--quantities]")?;
        return Ok(ExitCode::from(2));
    };
    let mut files = DiskFiles::make(&rt);
    let Ok(bytes) = read_all(rt.alloc(), &mut files, name) else {
        eprintln!(rt; "no file {name}")?;
        return Ok(ExitCode::from(3));
    };
    println!(rt; "sum={:016x}", measured(&rt, bytes, work)?)?;
    Ok(ExitCode::SUCCESS)
}

fn arguments<R: Env + AllocGlobal>(rt: &R) -> io::Result<Vec<String>> {
    let mut words = Vec::new(rt.alloc());
    for word in env::args(rt)?.skip(1) {
        words.push(word)?;
    }
    Ok(words)
}

fn work_of(deltas: &str, beside: &str, rounds: &str, whole: bool) -> Option<Work> {
    Some(Work {
        deltas: deltas.parse::<u32>().ok()?,
        beside: beside.parse::<u32>().ok()?,
        rounds: rounds.parse::<u32>().ok()?,
        whole,
    })
}

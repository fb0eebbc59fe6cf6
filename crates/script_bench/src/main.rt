//! A program that measures how long a script takes to read, with the files that it names. It prints how many commands
//! there are and a checksum of them, which `bench/script` compares with those of its twin, and on demand how long the
//! fastest of its rounds took.
//!
//! # Proved
//!
//! - That each call it makes may be made.
//!
//! # Only tested
//!
//! - The checksum, by that of its twin.
//!
//! # Not said
//!
//! - What lies between two readings of a clock, and that words of a command are read as numbers.
//!
//! # Example
//!
//! ```
//! let report = measured(&rt, &mut files, "changes.script", 5)?;
//! println!(rt; "commands={}", report.commands)?;
//! ```
#![tactic(auto)]

mod rounds;

use cubit_io::DiskFiles;
use rounds::{Report, measured};
use std::process::ExitCode;
use std::rt::Env;
use std::{env, io};

fn main(rt: HostRuntime) -> io::Result<ExitCode> {
    let words = arguments(&rt)?;
    let (name, rounds, tells_times) = match words.as_slice() {
        [name, rounds] => (name.as_str(), rounds.parse::<u32>().ok(), false),
        [name, rounds, option] => (
            name.as_str(),
            rounds.parse::<u32>().ok(),
            option.as_str() == "--times",
        ),
        _ => ("", None, false),
    };
    let Some(rounds) = rounds else {
        eprintln!(rt; "usage: script_bench SCRIPT ROUNDS [--times]")?;
        return Ok(ExitCode::from(2));
    };
    let mut files = DiskFiles::make(&rt);
    let report = measured(&rt, &mut files, name, rounds)?;
    tell(&rt, &report, tells_times)?;
    Ok(ExitCode::SUCCESS)
}

fn arguments<R: Env + AllocGlobal>(rt: &R) -> io::Result<Vec<String>> {
    let mut words = Vec::new(rt.alloc());
    for word in env::args(rt)?.skip(1) {
        words.push(word)?;
    }
    Ok(words)
}

fn tell<R: Print + Eprint>(rt: &R, report: &Report, tells_times: bool) -> io::Result<()> {
    println!(rt; "commands={} sum={}", report.commands, report.sum)?;
    if tells_times {
        let read = report.read;
        eprintln!(rt; "read={}.{:09}", read.as_secs(), read.subsec_nanos())?;
    }
    Ok(())
}

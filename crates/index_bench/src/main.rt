//! A program that measures the index over the table of a `lineitem` file: how long `Base::build` takes, of it the key
//! pages, and a search for a key. It prints a checksum of all bitvectors, unions and pages, and of the rows that were
//! found, which `bench/index` compares with that of its twin, and on demand how long the fastest of its rounds took.
//! It also tells how long units take to be carried over deltas, and a bin to be taken and read at a front.
//!
//! # Proved
//!
//! - That each call it makes may be made: above all that no two rows of a table that was read have one key.
//!
//! # Only tested
//!
//! - The checksum, by that of its twin.
//!
//! # Not said
//!
//! - What lies between two readings of a clock, and that words of a command are read as numbers.
//!
//! # Example
//!
//! ```
//! let bytes = read_all(rt.alloc(), &mut files, "lineitem.tbl").map_err(|_| "no file")?;
//! let report = measured(&rt, &bytes, 3)?;
//! println!(rt; "words={} mix={:016x}", report.checksum.words, report.checksum.mix)?;
//! ```
#![tactic(auto)]

mod checksum;
mod fronts;
mod patches;
mod rounds;

use cubit_io::{DiskFiles, read_all};
use fronts::{Fronts, front_times};
use patches::{Patches, patched_times};
use rounds::{Report, measured};
use std::process::ExitCode;
use std::rt::{Clock, Env};
use std::{env, io};

fn main(rt: HostRuntime) -> io::Result<ExitCode> {
    let words = arguments(&rt)?;
    let mut files = DiskFiles::make(&rt);
    let (name, rounds, tells_times) = match words.as_slice() {
        [name, rounds] => (name.as_str(), rounds.parse::<u32>().ok(), false),
        [name, rounds, option] => (
            name.as_str(),
            rounds.parse::<u32>().ok(),
            option.as_str() == "--times",
        ),
        _ => ("", None, false),
    };
    let Some(rounds) = rounds else {
        eprintln!(rt; "usage: index_bench FILE ROUNDS [--times]")?;
        return Ok(ExitCode::from(2));
    };
    let Ok(bytes) = read_all(rt.alloc(), &mut files, name) else {
        eprintln!(rt; "no file {name}")?;
        return Ok(ExitCode::from(3));
    };
    if let [_, _, option] = words.as_slice() {
        if option.as_str() == "--patches" {
            tell_patches(&rt, &patched_times(&rt, &bytes, rounds)?)?;
            return Ok(ExitCode::SUCCESS);
        }
        if option.as_str() == "--fronts" {
            tell_fronts(&rt, &front_times(&rt, &bytes, rounds)?)?;
            return Ok(ExitCode::SUCCESS);
        }
    }
    tell(&rt, &measured(&rt, &bytes, rounds)?, tells_times)?;
    Ok(ExitCode::SUCCESS)
}

fn arguments<R: Env + AllocGlobal>(rt: &R) -> io::Result<Vec<String>> {
    let mut words = Vec::new(rt.alloc());
    for word in env::args(rt)?.skip(1) {
        words.push(word)?;
    }
    Ok(words)
}

fn tell<R: Clock + Print + Eprint + AllocGlobal>(
    rt: &R,
    report: &Report,
    tells_times: bool,
) -> io::Result<()> {
    println!(rt;
        "words={} mix={:016x}",
        report.checksum.words, report.checksum.mix
    )?;
    if tells_times {
        eprintln!(rt;
            "build={}.{:09} keys={}.{:09} find={}.{:09}",
            report.build.as_secs(),
            report.build.subsec_nanos(),
            report.keys.as_secs(),
            report.keys.subsec_nanos(),
            report.find.as_secs(),
            report.find.subsec_nanos()
        )?;
    }
    Ok(())
}

// Tells how long it takes to carry units over deltas, in microseconds.
fn tell_patches<R: Print>(rt: &R, times: &[Patches]) -> io::Result<()> {
    for one in times {
        println!(rt;
            "deltas={} copy={} bin={} digest={} bits={} pages={} keys={}",
            one.deltas,
            one.copy.as_micros(),
            one.bin.as_micros(),
            one.digest.as_micros(),
            one.bits.as_micros(),
            one.pages.as_micros(),
            one.keys.as_micros()
        )?;
    }
    Ok(())
}

// Tells how long it takes to see a bin at a front, in nanoseconds.
fn tell_fronts<R: Print>(rt: &R, times: &[Fronts]) -> io::Result<()> {
    for one in times {
        println!(rt;
            "deltas={} take={} stretch={} words={} sum={}",
            one.deltas,
            one.take.as_nanos(),
            one.stretch.as_nanos(),
            one.words,
            one.sum
        )?;
    }
    Ok(())
}

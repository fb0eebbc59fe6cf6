//! The rounds of a measurement.

use cubit_base::{Command, Key};
use cubit_io::Files;
use refresh_streams::{Script, script_of};
use std::io;
use std::rt::Clock;
use std::time::{Duration, Instant};

// What scripts may place at most.
const ROOM: u32 = 4_194_304;

/// What the script holds, and the least time that it took to read.
#[derive(Drop)]
pub(crate) struct Report {
    pub(crate) commands: u32,
    pub(crate) sum: u64,
    pub(crate) read: Duration,
}

/// Reads the script of this name so many times.
pub(crate) fn measured<R: Clock + AllocGlobal, F: Files>(
    rt: &R,
    files: &mut F,
    name: &str,
    rounds: u32,
) -> io::Result<Report> {
    let mut report = Report {
        commands: 0,
        sum: 0,
        read: Duration::MAX,
    };
    for _ in 0..rounds {
        let last = one_round(rt, files, name)?;
        report = Report {
            commands: last.commands,
            sum: last.sum,
            read: report.read.min(last.read),
        };
    }
    Ok(report)
}

fn one_round<R: Clock + AllocGlobal, F: Files>(
    rt: &R,
    files: &mut F,
    name: &str,
) -> io::Result<Report> {
    let began = Instant::now(rt)?;
    let read = script_of(rt.alloc(), files, name, ROOM);
    let time = began.elapsed(rt)?;
    let Ok(script) = read else {
        return Err(io::Error::from(io::ErrorKind::InvalidData));
    };
    Ok(Report {
        commands: script.len(),
        sum: sum_of(&script),
        read: time,
    })
}

// A number that tells most commands from others, and their order.
fn sum_of(script: &Script) -> u64 {
    let mut sum = 0u64;
    for n in 0..script.len() {
        let number = match script.get(n) {
            Some(command) => number_of(command),
            None => 0,
        };
        sum = sum.wrapping_mul(31).wrapping_add(number);
    }
    sum
}

fn number_of(command: &Command) -> u64 {
    match command {
        Command::Insert(key, tuple) => number_of_key(key).wrapping_add(tuple.pack()),
        Command::Update(key, tuple) => number_of_key(key)
            .wrapping_add(tuple.pack())
            .wrapping_add(1),
        Command::Delete(key) => number_of_key(key).wrapping_add(2),
        Command::DropOrder(order) => u64::from(*order),
        Command::Lookup(key) => number_of_key(key).wrapping_add(3),
        _ => 4,
    }
}

fn number_of_key(key: &Key) -> u64 {
    u64::from(key.order) * 8 + u64::from(key.line)
}

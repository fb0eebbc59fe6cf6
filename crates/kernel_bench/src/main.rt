//! A program that measures one kernel of the bitvectors on lists that a seed determines. It prints a checksum of what
//! the rounds made, which `bench/kernels` compares with that of its twin, and on demand how long they took.
//!
//! # Proved
//!
//! - `run_rounds`: the checksum is that of so many rounds, of lists of the length that the command names, and each
//!   round takes the kernel's outcome over the lists that the checksum so far chooses.
//! - `Kernel::outcome`: what each kernel makes, as a list or a number.
//! - `Draws`, `Checksum`: the generator and the mix, number by number. `Kernel::of_name`, `Form::of_name`: the names.
//! - `Times::add`: the number, the sum and the least of the times.
//!
//! # Only tested
//!
//! - How the rows of each form lie, by the checksums that the twin printed, and the texts of times.
//! - That the clock runs while the kernel does, and little longer.
//!
//! # Not said
//!
//! - What lies between two readings of a clock, and that words of a command are read as numbers.
//!
//! # Example
//!
//! ```
//! let command = Command::of_words(&words).ok_or("no command")?;    // or-dense 1 6000000 30 --times
//! let (checksum, times) = run_rounds(&rt, &command)?;
//! println!(rt; "{checksum}")?;
//! eprintln!(rt; "{times}")?;
//! ```
#![tactic(auto)]

mod checksum;
mod command;
mod draws;
mod form;
mod inputs;
mod kernel;
mod pages;
mod rounds;
mod rows;
#[cfg(test)]
mod tests;
mod times;

use crate::command::Command;
use crate::rounds::run_rounds;
use std::process::ExitCode;
use std::rt::{Clock, Env};
use std::{env, io};

fn main(rt: HostRuntime) -> io::Result<ExitCode> {
    let words = arguments(&rt)?;
    let Some(command) = Command::of_words(&words) else {
        eprintln!(rt; "usage: kernel_bench KERNEL-FORM SEED SIZE ROUNDS [--times]")?;
        return Ok(ExitCode::from(2));
    };
    run(&rt, &command)?;
    Ok(ExitCode::SUCCESS)
}

fn arguments<R: Env + AllocGlobal>(rt: &R) -> io::Result<Vec<String>> {
    let mut words = Vec::new(rt.alloc());
    for word in env::args(rt)?.skip(1) {
        words.push(word)?;
    }
    Ok(words)
}

fn run<R: Clock + Print + Eprint + AllocGlobal>(rt: &R, command: &Command) -> io::Result<()> {
    let (checksum, times) = run_rounds(rt, command)?;
    println!(rt; "{checksum}")?;
    if command.tells_times {
        eprintln!(rt; "{times}")?;
    }
    Ok(())
}

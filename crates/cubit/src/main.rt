//! The program: the real files and streams, and the words of the command line.
#![tactic(auto)]

mod exit;

use cubit_io::{DiskFiles, StdSink};
use exit::Exit;
use std::rt::Env;
use std::{env, io};

fn main(rt: HostRuntime) -> Exit {
    // Words that cannot be had as text are wrong words, as none at all are.
    let words = match arguments(&rt) {
        Ok(words) => words,
        Err(_) => Vec::new(rt.alloc()),
    };
    let mut files = DiskFiles::make(&rt);
    let mut out = StdSink::out(&rt);
    let mut err = StdSink::err(&rt);
    Exit::of_call(rt.alloc(), &words, &mut files, &mut out, &mut err)
}

fn arguments<R: Env + AllocGlobal>(rt: &R) -> io::Result<Vec<String>> {
    let mut words = Vec::new(rt.alloc());
    for word in env::args(rt)?.skip(1) {
        words.push(word)?;
    }
    Ok(words)
}

//! Calls over files and sinks that fail.
ghost use Rattle.std.specs.Prelude.{Some, None, []};

use super::{A, Failing, Left, NONE_FAILS, ROW_1, WORDS, check, check_files, words_of};
use crate::{Status, run};
use cubit_io::{Failed, Files, MemorySink};
use std::test::Fail;

const DONE: Left<'static> = Left {
    status: Status::Done,
    out: ROW_1,
    err: "",
};

const UNREAD: Left<'static> = Left {
    status: Status::FileFault,
    out: "",
    err: "cubit: A: cannot be read\n",
};

#[test]
fn a_missing_base(rt: HostRuntime) -> Result<(), Fail> {
    let left = Left {
        status: Status::FileFault,
        out: "",
        err: "cubit: NONE: cannot be read\n",
    };
    check(
        &rt,
        rt.alloc(),
        A,
        &["q6", "NONE", "1996", "0.05", "24"],
        NONE_FAILS,
        left,
    )?;
    Ok(())
}

// It is told that there is no file, and that none of its calls failed.
#[derive(Drop)]
struct NoFiles {
    faults: u64,
}

impl Files for NoFiles {
    ghost held = { λ _. Some (λ _. None) };

    ghost rest = { λ _. Some [] };

    ghost faults = { λ f. f.faults };

    fn begin(&mut self, _name: &str) -> Result<(), Failed> {
        Err(Failed)
    }

    fn read(&mut self, _buffer: &mut [u8]) -> Result<usize, Failed> {
        Ok(0)
    }
}

#[test]
fn a_missing_base_is_no_fault(rt: HostRuntime) -> Result<(), Fail> {
    let alloc = rt.alloc();
    let words = words_of(alloc, &WORDS)?;
    let mut files = NoFiles { faults: 0 };
    let mut out = MemorySink::make(alloc, Vec::new(alloc));
    let mut err = MemorySink::make(alloc, Vec::new(alloc));
    let status = run(alloc, &words, &mut files, &mut out, &mut err);
    assert_eq!(rt; (status, files.faults), (Status::FileFault, 0));
    Ok(())
}

// Reading the base takes one call of `begin`, and two of `read`: the bytes, and the end.
#[test]
fn files(rt: HostRuntime) -> Result<(), Fail> {
    for (files, left) in [([1], UNREAD), ([2], UNREAD), ([3], UNREAD), ([4], DONE)] {
        let failing = Failing {
            files: &files,
            out: &[],
            err: &[],
        };
        check(&rt, rt.alloc(), A, &WORDS, failing, left)?;
    }
    Ok(())
}

#[test]
fn output(rt: HostRuntime) -> Result<(), Fail> {
    let lost = Left {
        status: Status::SinkFault,
        out: "",
        err: "cubit: output failed\n",
    };
    for (out, left) in [([1], lost), ([2], DONE)] {
        let failing = Failing {
            files: &[],
            out: &out,
            err: &[],
        };
        check(&rt, rt.alloc(), A, &WORDS, failing, left)?;
    }
    Ok(())
}

// A fault of standard error changes no status, and ends its text.
#[test]
fn standard_error(rt: HostRuntime) -> Result<(), Fail> {
    for (err, told) in [([1], ""), ([2], "cubit: "), ([3], "cubit: A")] {
        let failing = Failing {
            files: &[1],
            out: &[],
            err: &err,
        };
        check(
            &rt,
            rt.alloc(),
            A,
            &WORDS,
            failing,
            Left {
                err: told,
                ..UNREAD
            },
        )?;
    }
    Ok(())
}

// The base takes three calls of the files, the script three more, and the report one call of the output.
#[test]
fn of_a_run(rt: HostRuntime) -> Result<(), Fail> {
    let no_script = Left {
        err: "cubit: S: cannot be read\n",
        ..UNREAD
    };
    let lost = Left {
        status: Status::SinkFault,
        out: "",
        err: "cubit: output failed\n",
    };
    for (files, out, left) in [
        ([3], [2], UNREAD),
        ([4], [2], no_script),
        ([5], [2], no_script),
        ([6], [2], no_script),
        ([7], [1], lost),
    ] {
        let failing = Failing {
            files: &files,
            out: &out,
            err: &[],
        };
        let held: [(&str, &[u8]); 2] = [("A", A), ("S", b"count qty=17\n")];
        check_files(&rt, rt.alloc(), &held, &["run", "A", "S"], failing, left)?;
    }
    Ok(())
}

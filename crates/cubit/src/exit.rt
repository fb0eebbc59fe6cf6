//! How the process ends: with the status of its one call.
ghost use Rattle.std.specs.Prelude.{◌≡◌, None, map, string_bytes};
ghost use Rattle.std.specs.Process.{exit_status};
ghost use Rattle.cubit_cli.specs.Call.{IsCall};
ghost use Rattle.cubit_cli.specs.Status.{exit_code};
ghost use Rattle.cubit_cli.specs.World.{files_state, sink_state};
ghost use Rattle.cubit_cli.specs.declared.status.Status.{Status};

use cubit_cli::run;
use cubit_io::{Files, StdSink};
use std::alloc::Global;
use std::io::{Stderr, Stdout};
use std::marker::Model;
use std::process::{ExitCode, Termination};

/// The exit status that a call came to. It can neither be made otherwise nor let go, so `main` has to end with it.
pub(crate) struct Exit {
    code: u8,
}

impl Model for Exit {
    ghost use Rattle.std.specs.Prelude.{ℕ};

    ghost Value = { ℕ };

    ghost view = { λ exit. exit.code };
}

impl Exit {
    /// Does what the words ask for. The types tell standard output and standard error apart.
    pub(crate) fn of_call<F: Files>(
        alloc: Global,
        words: &Vec<String>,
        files: &mut F,
        out: &mut StdSink<Stdout>,
        err: &mut StdSink<Stderr>,
    ) -> Exit
        ensures { (status : Status) × (result ≡ exit_code status) × IsCall (map string_bytes words.now.items)
            (record {
              files = files_state (F.held files.old) (F.faults files.old);
              out = sink_state None out.old.faults;
              err = sink_state None err.old.faults;
            })
            (record {
              files = files_state (F.held files.new) (F.faults files.new);
              out = sink_state None out.new.faults;
              err = sink_state None err.new.faults;
            })
            status }
    {
        let status = run(alloc, words, files, out, err);
        Exit {
            code: status.code(),
        }
    }
}

impl Termination for Exit {
    fn report<R: Eprint>(self, _rt: &R) -> ExitCode
        ensures { exit_status result ≡ self }
    {
        let Exit { code } = self;
        ExitCode::from(code)
    }
}

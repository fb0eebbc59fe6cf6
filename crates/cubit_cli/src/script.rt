//! The script: read with the files that it names.
ghost use Rattle.std.specs.Prelude.{◌≡◌, ◌≤◌, All, IfOk};
ghost use Rattle.refresh_streams.specs.Script.{DropsSomeOrder, weights};
ghost use Rattle.cubit_cli.specs.Trouble.{ReadsScript, script_refusal};
ghost use Rattle.cubit_cli.specs.World.{files_state};

use crate::halt::{Halt, Name};
use cubit_io::Files;
use query_report::{Detail, Refusal};
use refresh_streams::{Script, ScriptStop, script_of};
use std::alloc::Global;

// How many deltas a script may place at most.
const SCRIPT_ROOM: u32 = 4_194_304;

/// The commands of the script of this name.
pub(crate) fn script<'a, F: Files>(
    alloc: Global,
    files: &mut F,
    name: &str,
) -> Result<Script, Halt<'a>>
    ensures read { ReadsScript (files_state (F.held files.old) (F.faults files.old))
        (files_state (F.held files.new) (F.faults files.new)) name.now result }
    ensures weights { IfOk result (λ script. weights script ≤ 4_194_304) }
    ensures orders { IfOk result (λ script. All DropsSomeOrder script) }
    ensures held { F.held files.new ≡ F.held files.old }
    ensures counted { F.faults files.old ≤ F.faults files.new }
{
    match script_of(alloc, files, name, SCRIPT_ROOM) {
        Ok(script) => Ok(script),
        Err(ScriptStop::Fault(file)) => Err(Halt::FileFault(Name::Given(file))),
        Err(ScriptStop::Bad(file, line, fault, fields)) => Err(Halt::Refused(
            Name::Given(file),
            script_refusal(line, fault, fields),
        )),
        Err(ScriptStop::Memory) => Err(Halt::Memory),
    }
}

fn script_refusal(line: u32, fault: u8, fields: u32) -> Refusal
    ensures { result ≡ script_refusal line fault fields }
{
    let detail = if fault == 1 {
        Detail::Fields(fields)
    } else {
        Detail::Nothing
    };
    Refusal {
        line,
        fault,
        detail,
    }
}

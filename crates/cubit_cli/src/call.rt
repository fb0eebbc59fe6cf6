//! The top call.
ghost use Rattle.std.specs.Prelude.{◌≡◌, ◌≤◌, map, string_bytes};
ghost use Rattle.cubit_cli.specs.Call.{Ends, IsCall};
ghost use Rattle.cubit_cli.specs.Words.{command_of};
ghost use Rattle.cubit_cli.specs.World.{files_state, sink_state};

use crate::Status;
use crate::halt::Halt;
use crate::text::text_of;
use crate::words::read;
use cubit_io::{Files, Sink, write_all};
use std::alloc::Global;

/// Does what the words ask for, which are those after the program's name: `q6`, `run` and `drill` write their whole
/// text to `out`. Where there is none, `err` takes one text that says why. Faults of `err` change no status.
pub fn run<F: Files, O: Sink, E: Sink>(
    alloc: Global,
    words: &Vec<String>,
    files: &mut F,
    out: &mut O,
    err: &mut E,
) -> Status
    ensures { IsCall (map string_bytes words.now.items)
        (record {
          files = files_state (F.held files.old) (F.faults files.old);
          out = sink_state (O.taken out.old) (O.faults out.old);
          err = sink_state (E.taken err.old) (E.faults err.old);
        })
        (record {
          files = files_state (F.held files.new) (F.faults files.new);
          out = sink_state (O.taken out.new) (O.faults out.new);
          err = sink_state (E.taken err.new) (E.faults err.new);
        })
        result }
{
    match answer(alloc, words, files, out) {
        Ok(()) => Status::Done,
        Err(halt) => {
            halt.tell(err);
            Status::of(&halt)
        }
    }
}

// Writes the text of what the words ask for to `out`, once it is whole.
fn answer<'a, F: Files, O: Sink>(
    alloc: Global,
    words: &'a Vec<String>,
    files: &mut F,
    out: &mut O,
) -> Result<(), Halt<'a>>
    ensures ends { Ends (command_of (map string_bytes words.now.items))
        (files_state (F.held files.old) (F.faults files.old))
        (files_state (F.held files.new) (F.faults files.new))
        (sink_state (O.taken out.old) (O.faults out.old))
        (sink_state (O.taken out.new) (O.faults out.new))
        result }
    ensures held { F.held files.new ≡ F.held files.old }
    ensures files_counted { F.faults files.old ≤ F.faults files.new }
    ensures out_counted { O.faults out.old ≤ O.faults out.new }
{
    let Some(asked) = read(words) else {
        return Err(Halt::Usage);
    };
    let text = text_of(alloc, files, &asked)?;
    match write_all(out, &text) {
        Ok(()) => Ok(()),
        Err(_) => Err(Halt::SinkFault),
    }
}

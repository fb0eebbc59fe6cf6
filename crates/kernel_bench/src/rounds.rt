//! The rounds of a command.
ghost use Rattle.std.specs.Prelude.{Bool, List, ◌≡◌, ◌+◌, IfOk, OnOk, length};
ghost use Rattle.kernel_bench.specs.Kernel.{AreOfLength, input_count};
ghost use Rattle.kernel_bench.specs.Rounds.{IsAfterRounds, IsRound};

use crate::checksum::Checksum;
use crate::command::Command;
use crate::inputs::{chosen, drawn};
use crate::times::Times;
use fence_window::Fenced;
use std::io;
use std::rt::Clock;

/// Runs the kernel as often as the command says. Only the kernel's own time is taken.
pub(crate) fn run_rounds<R: Clock + AllocGlobal>(
    rt: &R,
    command: &Command,
) -> io::Result<(Checksum, Times)>
    ensures { IfOk result (λ made. (lists : List (List Bool))
        × (length lists ≡ input_count command.now.kernel + 1) × AreOfLength command.now.size lists
        × IsAfterRounds command.now.rounds command.now.kernel lists made.0) }
{
    let count = command.kernel.input_count() + 1;
    let inputs = drawn(rt.alloc(), command.form, command.seed, command.size, count)?;
    let mut checksum = Checksum::new();
    let mut times = Times::new();
    for _ in 0..command.rounds {
        run_round(rt, command, &inputs, &mut checksum, &mut times)?;
    }
    Ok((checksum, times))
}

fn run_round<R: Clock + AllocGlobal>(
    rt: &R,
    command: &Command,
    inputs: &[Fenced],
    checksum: &mut Checksum,
    times: &mut Times,
) -> io::Result<()>
    requires count { length inputs.now ≡ input_count command.now.kernel + 1 }
    requires size { AreOfLength command.now.size inputs.now }
    ensures { OnOk result (IsRound command.now.kernel inputs.now checksum.old checksum.new) }
{
    // The checksum chooses the inputs, so that no round can be foretold from the one before.
    let inputs = chosen(inputs, checksum.mix);
    let outcome = command.kernel.outcome(rt, inputs, times)?;
    checksum.add(&outcome);
    Ok(())
}

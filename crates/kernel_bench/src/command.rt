//! The words of the command line.
ghost use Rattle.std.specs.Prelude.{◌≤◌, IfSome};

use crate::form::Form;
use crate::kernel::Kernel;

/// The words `KERNEL-FORM SEED SIZE ROUNDS`, read, and whether `--times` follows.
#[derive(Drop)]
pub(crate) struct Command {
    pub(crate) kernel: Kernel,
    pub(crate) form: Form,
    pub(crate) seed: u64,
    /// The rows of each input.
    pub(crate) size: u32,
    pub(crate) rounds: u32,
    pub(crate) tells_times: bool,
}

impl Command {
    /// Reads the words, or none where they are no command.
    pub(crate) fn of_words(words: &[String]) -> Option<Command>
        ensures { IfSome result (λ command. 1 ≤ command.rounds) }
    {
        match words {
            [task, seed, size, rounds] => Command::of_parts(task, seed, size, rounds, false),
            [task, seed, size, rounds, option] if option.as_str() == "--times" => {
                Command::of_parts(task, seed, size, rounds, true)
            }
            _ => None,
        }
    }

    fn of_parts(
        task: &str,
        seed: &str,
        size: &str,
        rounds: &str,
        tells_times: bool,
    ) -> Option<Command>
        ensures { IfSome result (λ command. 1 ≤ command.rounds) }
    {
        let (kernel, form) = task.split_once('-')?;
        Some(Command {
            kernel: Kernel::of_name(kernel)?,
            form: Form::of_name(form)?,
            seed: seed.parse::<u64>().ok()?,
            size: size.parse::<u32>().ok()?,
            rounds: rounds.parse::<u32>().ok().filter(|rounds| *rounds > 0)?,
            tells_times,
        })
    }
}

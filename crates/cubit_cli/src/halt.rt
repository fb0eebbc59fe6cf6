//! Why a call wrote no answer.
ghost use Rattle.std.specs.Prelude.{◌≡◌, ◌≤◌};
ghost use Rattle.cubit_io.specs.Pieces.{Tells};
ghost use Rattle.cubit_cli.specs.Halt.{halt_text, name_of};

use cubit_io::Sink;
use query_report::{Memory, Refusal, Stop};
use refresh_streams::FileName;

/// The name of a file.
#[derive(Drop)]
pub enum Name<'a> {
    /// One of the words.
    Word(&'a str),
    /// One that a script names.
    Given(FileName),
}

/// Why a call stopped before its answer was written.
#[derive(Drop)]
pub enum Halt<'a> {
    /// The words are no command.
    Usage,
    /// The file is missing, or cannot be read.
    FileFault(Name<'a>),
    /// The file has this fault.
    Refused(Name<'a>, Refusal),
    /// The output cannot be written.
    SinkFault,
    /// Memory ran out.
    Memory,
}

impl Name<'_> {
    fn as_bytes(&self) -> &[u8]
        ensures { result.now ≡ name_of self.now }
    {
        match self {
            Name::Word(word) => word.as_bytes(),
            Name::Given(name) => name.as_bytes(),
        }
    }
}

impl Halt<'_> {
    /// Tells a sink why, as far as it goes. It takes no memory, which may be what is missing.
    pub(crate) fn tell<E: Sink>(&self, err: &mut E)
        ensures text { Tells (E.taken err.old) (E.taken err.new) (E.faults err.old) (E.faults err.new)
            (halt_text self.now) }
        ensures counted { E.faults err.old ≤ E.faults err.new }
    {
        match self {
            Halt::Usage => Stop::Usage.tell(err),
            Halt::FileFault(name) => Stop::FileFault(name.as_bytes()).tell(err),
            Halt::Refused(name, refusal) => Stop::Refused(name.as_bytes(), *refusal).tell(err),
            Halt::SinkFault => Stop::SinkFault.tell(err),
            Halt::Memory => Stop::Memory.tell(err),
        }
    }
}

impl From<Memory> for Halt<'_> {
    ghost use Rattle.std.specs.Prelude.{◌≡◌};
    ghost use Rattle.cubit_cli.specs.declared.halt.Halt.TheVariants as halt;

    ghost from_gives = { λ _ given. given ≡ halt.Memory };

    fn from(_: Memory) -> Self {
        Halt::Memory
    }
}

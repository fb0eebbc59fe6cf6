//! Why a call wrote no answer, and what standard error is told of it.
ghost use Rattle.std.specs.Prelude.{◌≡◌, ◌≤◌, ◌∷◌, [], codes};
ghost use Rattle.std.specs.List.{concat};
ghost use Rattle.cubit_io.specs.Pieces.{Tells};
ghost use Rattle.query_report.specs.Stop.{refused_text, stop_text, usage_text};

use crate::Refusal;
use cubit_io::{Sink, tell};
use itoa::Buffer;

/// Why a call stopped before its answer was written; names are those of files.
#[derive(Clone, Copy, Debug, PartialEq, Eq)]
pub enum Stop<'a> {
    /// The words are no command.
    Usage,
    /// The file is missing, or cannot be read.
    FileFault(&'a [u8]),
    /// The file has this fault.
    Refused(&'a [u8], Refusal),
    /// The output cannot be written.
    SinkFault,
    /// Memory ran out.
    Memory,
}

impl Stop<'_> {
    /// Tells a sink in one line, as far as it goes. It takes no memory, which may be what is missing.
    pub fn tell<E: Sink>(&self, err: &mut E)
        ensures text { Tells (E.taken err.old) (E.taken err.new) (E.faults err.old) (E.faults err.new)
            (stop_text self.now) }
        ensures counted { E.faults err.old ≤ E.faults err.new }
    {
        match self {
            Stop::Usage => tell_usage(err),
            Stop::FileFault(name) => tell(err, &[b"cubit: ", *name, b": cannot be read\n"]),
            Stop::Refused(name, refusal) => tell_refusal(err, *name, refusal),
            Stop::SinkFault => tell(err, &[b"cubit: output failed\n"]),
            Stop::Memory => tell(err, &[b"cubit: out of memory\n"]),
        }
    }
}

fn tell_usage<E: Sink>(err: &mut E)
    ensures text { Tells (E.taken err.old) (E.taken err.new) (E.faults err.old) (E.faults err.new) usage_text }
    ensures counted { E.faults err.old ≤ E.faults err.new }
{
    let lines = [
        b"usage: cubit q6 BASE YEAR DISCOUNT QUANTITY\n".as_slice(),
        b"       cubit run [--row-limit N] [--log-limit N] [--tries N] BASE SCRIPT..\n",
        b"       cubit drill SEED ORDERS\n",
    ];
    tell(err, &lines);
}

fn tell_refusal<E: Sink>(err: &mut E, name: &[u8], refusal: &Refusal)
    ensures text { Tells (E.taken err.old) (E.taken err.new) (E.faults err.old) (E.faults err.new)
        (refused_text name.now refusal.now) }
    ensures counted { E.faults err.old ≤ E.faults err.new }
{
    let mut line = Buffer::new();
    let mut fault = Buffer::new();
    let mut detail = Buffer::new();
    tell_fault(
        err,
        name,
        line.format(refusal.line),
        fault.format(refusal.fault),
        refusal.detail.label(),
        refusal.detail.number(&mut detail),
    );
}

// One lifetime for all, since the pieces lie in one array.
fn tell_fault<'a, E: Sink>(
    err: &mut E,
    name: &'a [u8],
    line: &'a str,
    fault: &'a str,
    label: &'a str,
    number: &'a str,
)
    ensures text { Tells (E.taken err.old) (E.taken err.new) (E.faults err.old) (E.faults err.new)
        (concat (codes "cubit: " ∷ name.now ∷ codes ": line " ∷ line.now ∷ codes ": fault " ∷ fault.now
        ∷ label.now ∷ number.now ∷ codes "\n" ∷ [])) }
    ensures counted { E.faults err.old ≤ E.faults err.new }
{
    let pieces = [
        b"cubit: ".as_slice(),
        name,
        b": line ",
        line.as_bytes(),
        b": fault ",
        fault.as_bytes(),
        label.as_bytes(),
        number.as_bytes(),
        b"\n",
    ];
    tell(err, &pieces);
}

#[cfg(test)]
mod tests {
    use super::*;
    use crate::Detail;
    use cubit_io::MemorySink;
    use std::test::Fail;

    fn refusal(line: u32, fault: u8, detail: Detail) -> Refusal {
        Refusal {
            line,
            fault,
            detail,
        }
    }

    #[test]
    fn texts(rt: HostRuntime) -> Result<(), Fail> {
        let alloc = rt.alloc();
        for (stop, text) in [
            (
                Stop::Usage,
                concat!(
                    "usage: cubit q6 BASE YEAR DISCOUNT QUANTITY\n",
                    "       cubit run [--row-limit N] [--log-limit N] [--tries N] BASE SCRIPT..\n",
                    "       cubit drill SEED ORDERS\n",
                ),
            ),
            (Stop::FileFault(b"A"), "cubit: A: cannot be read\n"),
            (
                Stop::Refused(b"A", refusal(0, 16, Detail::Nothing)),
                "cubit: A: line 0: fault 16\n",
            ),
            (
                Stop::Refused(b"A", refusal(4, 1, Detail::Fields(17))),
                "cubit: A: line 4: fault 1 fields=17\n",
            ),
            (
                Stop::Refused(b"A", refusal(9, 12, Detail::First(1))),
                "cubit: A: line 9: fault 12 first=1\n",
            ),
            (Stop::SinkFault, "cubit: output failed\n"),
            (Stop::Memory, "cubit: out of memory\n"),
        ] {
            let mut sink = MemorySink::make(alloc, Vec::new(alloc));
            stop.tell(&mut sink);
            assert_eq!(rt; sink.bytes(), text.as_bytes());
        }
        Ok(())
    }
}

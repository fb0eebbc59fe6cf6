//! Streams as sinks, first of all standard output and standard error. Each piece goes out before the call returns, so
//! that its count sees a failure.
ghost use Rattle.std.specs.Prelude.{◌≡◌, [], None, take, IfOk, OnErr, is_ok, if◌then◌else◌};
ghost use Rattle.std.specs.Io.KnownBytes.{Appends};
ghost use Rattle.cubit_io.specs.Count.{raised};
ghost use Rattle.cubit_io.specs.Sink.{IsWrite};
ghost use Rattle.cubit_io.specs.StdSink.{nothing_told, fault_count};

use crate::count::raised;
use crate::{Failed, Sink};
use std::io::{Stderr, Stdout, Write};
use std::marker::Model;

/// A stream as a sink. The type says which: standard output, standard error, or another. What a standard stream took is
/// not told; contracts see how often it failed.
#[derive(Drop)]
pub struct StdSink<W: Write + Drop> {
    stream: W,
    faults: u64,
}

impl<W: Write + Drop> Model for StdSink<W> {
    ghost use Rattle.cubit_io.specs.StdSink.{StdSinkValue};

    ghost Value = { StdSinkValue };

    ghost view = { λ s. record { contents = W.contents s.stream; faults = s.faults } };
}

impl StdSink<Stdout> {
    /// Standard output.
    pub fn out(rt: &HostRuntime) -> StdSink<Stdout>
        ensures { result ≡ record { contents = None; faults = 0 } }
    {
        StdSink {
            stream: rt.stdout(),
            faults: 0,
        }
    }
}

impl StdSink<Stderr> {
    /// Standard error.
    pub fn err(rt: &HostRuntime) -> StdSink<Stderr>
        ensures { result ≡ record { contents = None; faults = 0 } }
    {
        StdSink {
            stream: rt.stderr(),
            faults: 0,
        }
    }
}

impl<W: Write + Drop> Sink for StdSink<W> {
    ghost taken = { nothing_told };

    ghost faults = { fault_count };

    /// Writes without a buffer. It fails too where the outside took nothing of bytes that are there.
    fn write(&mut self, bytes: &[u8]) -> Result<usize, Failed>
        ensures is_write { IsWrite nothing_told fault_count bytes.now self.old self.new result }
        ensures faults { self.new.faults ≡ (if is_ok result then self.old.faults else raised self.old.faults) }

        // A stream that tells what it holds holds what was taken.
        ensures appended { IfOk result (λ n. Appends self.old.contents self.new.contents (take n bytes.now)) }
        ensures kept { OnErr result (Appends self.old.contents self.new.contents []) }
    {
        match self.stream.write(bytes) {
            Ok(count) if count > 0 || bytes.is_empty() => Ok(count),
            _ => {
                self.faults = raised(self.faults);
                Err(Failed)
            }
        }
    }
}

#[cfg(test)]
mod tests {
    use super::*;
    use crate::write_all;
    use std::test::Fail;

    #[test]
    fn the_standard_streams(rt: HostRuntime) {
        let mut out = StdSink::out(&rt);
        assert_eq!(rt; write_all(&mut out, b"to standard output\n"), Ok(()));
        let mut err = StdSink::err(&rt);
        assert_eq!(rt; write_all(&mut err, b"to standard error\n"), Ok(()));
        assert_eq!(rt; (out.faults, err.faults), (0, 0));
    }

    #[test]
    fn other_streams(rt: HostRuntime) -> Result<(), Fail> {
        let mut kept = StdSink {
            stream: Vec::new(rt.alloc()),
            faults: 0,
        };
        write_all(&mut kept, b"a line\n")?;
        assert_eq!(rt; kept.stream.as_slice(), b"a line\n".as_slice());
        let no_room: &mut [u8] = &mut [];
        let mut full = StdSink {
            stream: no_room,
            faults: 0,
        };
        assert_eq!(rt; write_all(&mut full, b"one more"), Err(Failed));
        assert_eq!(rt; full.faults, 1);
        Ok(())
    }
}

//! A sink in memory, for tests and for callers that want the bytes.
ghost use Rattle.std.specs.Prelude.{◌≡◌, [], length, Contains, IfOk, IsErr, is_ok, if◌then◌else◌};
ghost use Rattle.cubit_io.specs.Count.{raised};
ghost use Rattle.cubit_io.specs.MemorySink.{taken_of, fault_count};
ghost use Rattle.cubit_io.specs.Sink.{IsWrite};

use crate::count::raised;
use crate::failing_calls::FailingCalls;
use crate::{Failed, Sink};
use std::alloc::Global;
use std::marker::Model;

/// Keeps all that it takes. Calls that are listed fail.
#[derive(Drop)]
pub struct MemorySink {
    taken: Vec<u8>,
    failing: FailingCalls,
    faults: u64,
}

impl Model for MemorySink {
    ghost use Rattle.cubit_io.specs.MemorySink.{MemorySinkValue};

    ghost Value = { MemorySinkValue };

    ghost view = { λ s. record {
      taken = s.taken.items;
      fails = s.failing.numbers.items;
      calls = s.failing.calls;
      faults = s.faults;
    } };
}

impl MemorySink {
    /// A sink that took nothing. `fails` has the numbers of the calls of `write` that are to fail, from 1.
    pub fn make(alloc: Global, fails: Vec<u32>) -> MemorySink
        ensures { result ≡ record { taken = []; fails = fails.items; calls = 0; faults = 0 } }
    {
        MemorySink {
            taken: Vec::new(alloc),
            failing: FailingCalls::new(fails),
            faults: 0,
        }
    }

    /// All that was taken.
    pub fn bytes(&self) -> &[u8]
        ensures { result.now ≡ self.now.taken }
    {
        &self.taken
    }
}

impl Sink for MemorySink {
    ghost taken = { taken_of };

    ghost faults = { fault_count };

    /// Takes all the bytes. It fails where the call is listed, and where there is no memory for them.
    fn write(&mut self, bytes: &[u8]) -> Result<usize, Failed>
        ensures is_write { IsWrite taken_of fault_count bytes.now self.old self.new result }
        ensures whole { IfOk result (λ n. n ≡ length bytes.now) }
        ensures listed { Contains self.new.fails self.new.calls → IsErr result }
        ensures number { self.new.calls ≡ raised self.old.calls }
        ensures fails { self.new.fails ≡ self.old.fails }
        ensures faults { self.new.faults ≡ (if is_ok result then self.old.faults else raised self.old.faults) }
    {
        if self.failing.next_fails() || self.taken.extend_from_slice(bytes).is_err() {
            self.faults = raised(self.faults);
            return Err(Failed);
        }
        Ok(bytes.len())
    }
}

#[cfg(test)]
mod tests {
    use super::*;
    use crate::write_all;
    use std::test::Fail;

    #[test]
    fn a_listed_call_fails(rt: HostRuntime) -> Result<(), Fail> {
        let alloc = rt.alloc();
        let mut sink = MemorySink::make(alloc, [1].to_vec(alloc)?);
        assert_eq!(rt; write_all(&mut sink, b"lost"), Err(Failed));
        assert_eq!(rt; sink.faults, 1);
        write_all(&mut sink, b"a line\n")?;
        assert_eq!(rt; sink.bytes(), b"a line\n".as_slice());
        Ok(())
    }
}

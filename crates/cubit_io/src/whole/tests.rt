//! Whole files and texts: in several pieces, up to a failure, and past the limit.
ghost use Rattle.std.specs.Prelude.{None};

use super::*;
use crate::count::raised;
use crate::failing_calls::FailingCalls;
use crate::{MemoryFiles, MemorySink};
use std::test::Fail;

// Bytes that come and go at most so many at a call. Calls of `read` and `write` that are listed fail.
#[derive(Drop)]
struct InPieces {
    bytes: Vec<u8>,
    read: usize,
    most: usize,
    failing: FailingCalls,
    faults: u64,
}

impl Files for InPieces {
    ghost held = { λ _. None };

    ghost rest = { λ _. None };

    ghost faults = { λ b. b.faults };

    fn begin(&mut self, _name: &str) -> Result<(), Failed> {
        self.read = 0;
        Ok(())
    }

    fn read(&mut self, buffer: &mut [u8]) -> Result<usize, Failed> {
        if self.failing.next_fails() {
            self.faults = raised(self.faults);
            return Err(Failed);
        }
        if self.read > self.bytes.len() {
            return Ok(0);
        }
        let left = &self.bytes[self.read..];
        let count = left.len().min(buffer.len()).min(self.most);
        buffer[..count].copy_from_slice(&left[..count]);
        self.read += count;
        Ok(count)
    }
}

impl Sink for InPieces {
    ghost taken = { λ _. None };

    ghost faults = { λ b. b.faults };

    fn write(&mut self, bytes: &[u8]) -> Result<usize, Failed> {
        let count = bytes.len().min(self.most.max(1));
        let is_listed = self.failing.next_fails();
        if is_listed || self.bytes.extend_from_slice(&bytes[..count]).is_err() {
            self.faults = raised(self.faults);
            return Err(Failed);
        }
        Ok(count)
    }
}

// Five bytes at a time, and the call of this number fails.
fn in_fives(alloc: Global, bytes: &[u8], fails: u32) -> Result<InPieces, AllocError> {
    Ok(InPieces {
        bytes: bytes.to_vec(alloc)?,
        read: 0,
        most: 5,
        failing: FailingCalls::new([fails].to_vec(alloc)?),
        faults: 0,
    })
}

// So many bytes, of which no two pieces are alike.
fn long_text(alloc: Global, length: usize) -> Result<Vec<u8>, AllocError> {
    let mut bytes = Vec::new(alloc);
    for at in 0..length {
        bytes.push((at % 251) as u8)?;
    }
    Ok(bytes)
}

#[test]
fn several_pieces(rt: HostRuntime) -> Result<(), Fail> {
    let alloc = rt.alloc();
    for length in [4 * PIECE, 4 * PIECE + 1] {
        let bytes = long_text(alloc, length)?;
        let mut files = MemoryFiles::make(alloc, Vec::new(alloc));
        files.keep(alloc, "kept", &bytes)?;
        let read = read_all(alloc, &mut files, "kept")?;
        assert!(rt;
            read.as_slice() == bytes.as_slice(),
            "{length} bytes are read"
        );
        let mut whole = MemorySink::make(alloc, Vec::new(alloc));
        write_all(&mut whole, &bytes)?;
        assert!(rt;
            whole.bytes() == bytes.as_slice(),
            "{length} bytes are written"
        );
        let mut fives = in_fives(alloc, b"", 0)?;
        write_all(&mut fives, &bytes)?;
        assert!(rt;
            fives.bytes.as_slice() == bytes.as_slice(),
            "{length} bytes are written by fives"
        );
    }
    Ok(())
}

#[test]
fn a_call_fails(rt: HostRuntime) -> Result<(), Fail> {
    let alloc = rt.alloc();
    let text = b"piece by piece";
    for (fails, taken) in [
        (1, ""),
        (2, "piece"),
        (3, "piece by p"),
        (4, "piece by piece"),
    ] {
        let mut form = in_fives(alloc, text, fails)?;
        let stop = read_all(alloc, &mut form, "any").err();
        assert_eq!(rt; stop, Some(ReadStop::Fault), "call {fails} fails");
        let again = read_all(alloc, &mut form, "any")?;
        assert_eq!(rt;
            again.as_slice(),
            text.as_slice(),
            "call {fails} has failed"
        );
        let mut form = in_fives(alloc, b"", fails)?;
        let written = write_all(&mut form, text);
        assert_eq!(rt; written.is_ok(), fails > 3, "call {fails} fails");
        assert_eq!(rt;
            form.bytes.as_slice(),
            taken.as_bytes(),
            "call {fails} fails"
        );
    }
    Ok(())
}

#[test]
fn the_limit(rt: HostRuntime) -> Result<(), Fail> {
    let alloc = rt.alloc();
    let text = b"piece by piece";
    for (limit, stop) in [
        (0, Some(ReadStop::TooLong)),
        (13, Some(ReadStop::TooLong)),
        (14, None),
        (15, None),
    ] {
        let mut form = in_fives(alloc, text, 0)?;
        let read = read_up_to(alloc, &mut form, "any", limit);
        assert_eq!(rt; read.err(), stop, "at most {limit} bytes");
    }
    Ok(())
}

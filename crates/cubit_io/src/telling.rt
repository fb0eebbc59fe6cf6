//! Texts in pieces, for what is said where memory may be what is missing.
ghost use Rattle.std.specs.Prelude.{◌≤◌, flat_map};
ghost use Rattle.cubit_io.specs.Pieces.{Tells};

use crate::{Sink, write_all};

/// Writes the pieces one after another, as far as the sink goes: a sink that fails gets no further piece. It takes no
/// memory.
pub fn tell<S: Sink>(sink: &mut S, pieces: &[&[u8]])
    ensures text { Tells (S.taken sink.old) (S.taken sink.new) (S.faults sink.old) (S.faults sink.new)
        (flat_map (λ piece. piece.now) pieces.now) }
    ensures counted { S.faults sink.old ≤ S.faults sink.new }
{
    for piece in pieces {
        match write_all(sink, *piece) {
            Ok(()) => {}
            Err(_) => return,
        }
    }
}

#[cfg(test)]
mod tests {
    use super::*;
    use crate::MemorySink;
    use std::test::Fail;

    #[test]
    fn pieces_up_to_a_failure(rt: HostRuntime) -> Result<(), Fail> {
        let alloc = rt.alloc();
        let none: [u32; 0] = [];
        for (fails, taken) in [(none.as_slice(), "one, two"), ([2].as_slice(), "one, ")] {
            let mut sink = MemorySink::make(alloc, fails.to_vec(alloc)?);
            tell(&mut sink, &[b"one, ", b"two"]);
            assert_eq!(rt; sink.bytes(), taken.as_bytes(), "with {fails:?}");
        }
        Ok(())
    }
}

//! Names of files.
ghost use Rattle.std.specs.Prelude.{◌≡◌, ◌<◌, [], ◌∷◌, ◌++◌, length, slice_get, IsTrue, ◌↔◌, IfOk, OnOk, OnErr};
ghost use Rattle.std.specs.Option.{option_copied};

use crate::Memory;
use std::alloc::Global;
use std::marker::Model;

/// The name of a file; contracts see it as a list of bytes.
#[derive(Drop)]
pub struct FileName {
    bytes: Vec<u8>,
}

impl Model for FileName {
    ghost use Rattle.std.specs.Prelude.{ℕ, List, length, ◌<◌, ◌^◌};

    ghost Value = { List ℕ };

    ghost view = { λ name. name.bytes.items };

    ghost invariant = { λ name. length name.bytes.items < 2 ^ 32 };
}

impl FileName {
    /// No bytes. It takes no memory.
    pub fn new(alloc: Global) -> FileName
        ensures { result ≡ [] }
    {
        FileName {
            bytes: Vec::new(alloc),
        }
    }

    /// This name. One of more than 4,294,967,295 bytes is not kept: that is a want of memory too.
    pub fn of(alloc: Global, name: &str) -> Result<FileName, Memory>
        ensures { IfOk result (λ kept. kept ≡ name.now) }
    {
        if name.len() > u32::MAX as usize {
            return Err(Memory);
        }
        Ok(FileName {
            bytes: name.as_bytes().to_vec(alloc)?,
        })
    }

    /// How many bytes there are.
    pub fn len(&self) -> u32
        ensures { result ≡ length self.now }
    {
        self.bytes.len() as u32
    }

    /// Whether there is none.
    pub fn is_empty(&self) -> bool
        ensures { IsTrue result ↔ (self.now ≡ []) }
    {
        self.bytes.is_empty()
    }

    /// Puts a byte at the end.
    pub fn push(&mut self, byte: u8) -> Result<(), Memory>
        requires { length self.old < 4_294_967_295 }
        ensures ok { OnOk result (self.new ≡ self.old ++ byte ∷ []) }
        ensures err { OnErr result (self.new ≡ self.old) }
    {
        self.bytes.push(byte)?;
        Ok(())
    }

    /// The byte with this number from 0, or none past the end.
    pub fn get(&self, n: u32) -> Option<&u8>
        ensures { option_copied result ≡ slice_get self.now n }
    {
        self.bytes.get(n as usize)
    }

    /// All bytes.
    pub fn as_bytes(&self) -> &[u8]
        ensures { result.now ≡ self.now }
    {
        &self.bytes
    }
}

#[cfg(test)]
mod tests {
    use super::*;
    use std::test::Fail;

    #[test]
    fn bytes_come_back(rt: HostRuntime) -> Result<(), Fail> {
        let mut name = FileName::new(rt.alloc());
        assert!(rt; name.is_empty());
        name.push(b'a')?;
        name.push(255)?;
        assert_eq!(rt; name.as_bytes(), [97, 255].as_slice());
        assert_eq!(rt;
            (name.len(), name.get(1).copied(), name.get(2).copied()),
            (2, Some(255), None)
        );
        let kept = FileName::of(rt.alloc(), "a name")?;
        assert_eq!(rt; kept.as_bytes(), b"a name".as_slice());
        Ok(())
    }
}

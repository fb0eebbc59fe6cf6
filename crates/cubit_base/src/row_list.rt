//! Lists of numbers of rows, or of orders.
ghost use Rattle.std.specs.Prelude.{◌≡◌, ◌<◌, ◌≤◌, ◌^◌, [], ◌∷◌, ◌++◌, length, slice_get, IsTrue, ◌↔◌, OnOk, OnErr};
ghost use Rattle.std.specs.Option.{option_copied};

use crate::Memory;
use std::alloc::Global;
use std::marker::Model;

/// Numbers in order, themselves numbered from 0; contracts see them as a list.
#[derive(Drop)]
pub struct RowList {
    rows: Vec<u32>,
}

impl Model for RowList {
    ghost use Rattle.std.specs.Prelude.{ℕ, List, length, ◌<◌, ◌^◌};

    ghost Value = { List ℕ };

    ghost view = { λ l. l.rows.items };

    ghost invariant = { λ l. length l.rows.items < 2 ^ 32 };
}

impl RowList {
    /// The empty list. It takes no memory.
    pub fn new(alloc: Global) -> RowList
        ensures { result ≡ [] }
    {
        RowList {
            rows: Vec::new(alloc),
        }
    }

    /// How many there are.
    pub fn len(&self) -> u32
        ensures { result ≡ length self.now }
    {
        self.rows.len() as u32
    }

    /// Whether there is none.
    pub fn is_empty(&self) -> bool
        ensures { IsTrue result ↔ (self.now ≡ []) }
    {
        self.rows.is_empty()
    }

    /// Puts a number at the end.
    pub fn push(&mut self, row: u32) -> Result<(), Memory>
        requires { length self.old < 4_294_967_295 }
        ensures ok { OnOk result (self.new ≡ self.old ++ row ∷ []) }
        ensures err { OnErr result (self.new ≡ self.old) }
    {
        self.rows.push(row)?;
        Ok(())
    }

    /// The one with this number, or none past the end.
    pub fn get(&self, n: u32) -> Option<&u32>
        ensures { option_copied result ≡ slice_get self.now n }
    {
        self.rows.get(n as usize)
    }

    /// All in order, without memory.
    pub fn as_slice(&self) -> &[u32]
        ensures { result.now ≡ self.now }
    {
        self.rows.as_slice()
    }
}

#[cfg(test)]
mod tests {
    use super::*;
    use std::test::Fail;

    #[test]
    fn rows_come_back(rt: HostRuntime) -> Result<(), Fail> {
        let mut list = RowList::new(rt.alloc());
        assert!(rt; list.is_empty());
        list.push(16_777_215)?;
        list.push(0)?;
        assert_eq!(rt; list.len(), 2);
        assert_eq!(rt; list.get(0).copied(), Some(16_777_215));
        assert_eq!(rt; list.get(2).copied(), None);
        assert_eq!(rt; list.as_slice(), [16_777_215, 0].as_slice());
        Ok(())
    }
}

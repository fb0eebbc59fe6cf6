//! Changes of single rows, and lists of them.
ghost use Rattle.std.specs.Prelude.{◌≡◌, ◌<◌, ◌≤◌, ◌^◌, [], ◌∷◌, ◌++◌, length, slice_get, IsTrue, ◌↔◌, OnOk, OnErr};
ghost use Rattle.std.specs.Option.{option_copied};

use crate::{Key, Memory, Tuple};
use std::alloc::Global;
use std::marker::Model;

/// A change of one row: what it held before, and what it holds after. `IsInsert`, `IsUpdate` and `IsDelete` say which
/// deltas may come next over a table; one with neither tuple may come nowhere.
#[derive(Clone, Copy, Debug, PartialEq, Eq)]
pub struct Delta {
    /// The worker who made it.
    pub author: u8,
    /// The row's number.
    pub row: u32,
    /// The row's key.
    pub key: Key,
    /// The tuple before, or none.
    pub before: Option<Tuple>,
    /// The tuple after, or none.
    pub after: Option<Tuple>,
}

const _: () = prove!(size_of::<Delta>() == 48);

/// Deltas in order, numbered from 0; contracts see them as a list.
#[derive(Drop)]
pub struct DeltaList {
    deltas: Vec<Delta>,
}

impl Model for DeltaList {
    ghost use Rattle.std.specs.Prelude.{List, length, ◌<◌, ◌^◌};
    ghost use Rattle.cubit_base.specs.declared.delta.Delta.{Delta};

    ghost Value = { List Delta };

    ghost view = { λ l. l.deltas.items };

    ghost invariant = { λ l. length l.deltas.items < 2 ^ 32 };
}

impl DeltaList {
    /// The empty list. It takes no memory.
    pub fn new(alloc: Global) -> DeltaList
        ensures { result ≡ [] }
    {
        DeltaList {
            deltas: Vec::new(alloc),
        }
    }

    /// The number of deltas.
    pub fn len(&self) -> u32
        ensures { result ≡ length self.now }
    {
        self.deltas.len() as u32
    }

    /// Whether there is no delta.
    pub fn is_empty(&self) -> bool
        ensures { IsTrue result ↔ (self.now ≡ []) }
    {
        self.deltas.is_empty()
    }

    /// Puts a delta at the end.
    pub fn push(&mut self, delta: Delta) -> Result<(), Memory>
        requires { length self.old < 4_294_967_295 }
        ensures ok { OnOk result (self.new ≡ self.old ++ delta ∷ []) }
        ensures err { OnErr result (self.new ≡ self.old) }
    {
        // The check has to be shown the fields here: a move of the whole delta gets no proof.
        self.deltas.push(Delta { ..delta })?;
        Ok(())
    }

    /// The delta with this number, or none past the end.
    pub fn get(&self, n: u32) -> Option<&Delta>
        ensures { option_copied result ≡ slice_get self.now n }
    {
        self.deltas.get(n as usize)
    }

    /// All deltas in order, without memory.
    pub fn as_slice(&self) -> &[Delta]
        ensures { result.now ≡ self.now }
    {
        self.deltas.as_slice()
    }
}

#[cfg(test)]
mod tests {
    use super::*;
    use crate::{Flag, LineStatus};
    use std::test::Fail;

    fn delta(author: u8, inserts: bool) -> Delta {
        let key = Key { order: 1, line: 7 };
        let (price, day, flag, status) = (2_116_823, 1533, Flag::N, LineStatus::O);
        let tuple = Tuple {
            price,
            day,
            qty: 17,
            disc: 4,
            tax: 2,
            flag,
            status,
        };
        let (before, after) = if inserts {
            (None, Some(tuple))
        } else {
            (Some(tuple), None)
        };
        Delta {
            author,
            row: 3,
            key,
            before,
            after,
        }
    }

    #[test]
    fn deltas_come_back(rt: HostRuntime) -> Result<(), Fail> {
        let mut list = DeltaList::new(rt.alloc());
        assert!(rt; list.is_empty());
        list.push(delta(63, true))?;
        list.push(delta(0, false))?;
        assert_eq!(rt; list.len(), 2);
        assert_eq!(rt; list.get(0).copied(), Some(delta(63, true)));
        assert_eq!(rt; list.get(1).copied(), Some(delta(0, false)));
        assert_eq!(rt; list.get(2).copied(), None);
        assert_eq!(rt; list.as_slice().len(), 2);
        Ok(())
    }
}

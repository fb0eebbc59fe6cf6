//! Commands: what a client asks for, one after another.
ghost use Rattle.std.specs.Prelude.{◌≡◌};
ghost use Rattle.cubit_base.specs.Command.{weight_of};

use crate::{Key, Predicate, Tuple};

/// What a client asks for.
#[derive(Clone, Copy, Debug, PartialEq, Eq)]
pub enum Command {
    /// A new row with this key and tuple.
    Insert(Key, Tuple),
    /// Another tuple for the key's live row.
    Update(Key, Tuple),
    /// No tuple for the key's live row.
    Delete(Key),
    /// Deletes of lines 1 to 7 of this order, 1 to 4,294,967,295, each by itself.
    DropOrder(u32),
    /// The key's live row.
    Lookup(Key),
    /// The numbers of the rows that match.
    Rows(Predicate),
    /// How many rows match.
    Count(Predicate),
    /// The sum of price times discount over the rows that match.
    Sum(Predicate),
    /// The same sum for the predicate of TPC-H's query 6.
    Q6(Predicate),
    /// A merge of all units.
    Merge,
}

impl Command {
    /// How many deltas the command may place at most, 0 to 7.
    pub fn weight(&self) -> u32
        ensures value { result ≡ weight_of self.now }
    {
        match self {
            Command::Insert(..) | Command::Update(..) | Command::Delete(_) => 1,
            Command::DropOrder(_) => 7,
            _ => 0,
        }
    }
}

#[cfg(test)]
mod tests {
    use super::*;

    #[test]
    fn commands_weigh_what_they_may_place(rt: HostRuntime) {
        let key = Key { order: 1, line: 1 };
        let all = Predicate {
            ship: None,
            disc: None,
            qty: None,
            flag: None,
            status: None,
        };
        assert_eq!(rt; Command::Delete(key).weight(), 1);
        assert_eq!(rt; Command::DropOrder(1).weight(), 7);
        assert_eq!(rt; Command::Lookup(key).weight(), 0);
        assert_eq!(rt; Command::Rows(all).weight(), 0);
        assert_eq!(rt; Command::Q6(all).weight(), 0);
        assert_eq!(rt; Command::Merge.weight(), 0);
    }
}

//! Lists of commands.
ghost use Rattle.std.specs.Prelude.{◌≡◌, ◌<◌, [], ◌∷◌, ◌++◌, length, slice_get, IsTrue, ◌↔◌, OnOk, OnErr};
ghost use Rattle.std.specs.Option.{option_copied};

use crate::Memory;
use cubit_base::Command;
use std::alloc::Global;
use std::marker::Model;

/// A client's commands in order, numbered from 0; contracts see them as a list.
#[derive(Drop)]
pub struct Script {
    commands: Vec<Command>,
}

impl Model for Script {
    ghost use Rattle.std.specs.Prelude.{List, length, ◌<◌, ◌^◌};
    ghost use Rattle.cubit_base.specs.declared.command.Command.{Command};

    ghost Value = { List Command };

    ghost view = { λ s. s.commands.items };

    ghost invariant = { λ s. length s.commands.items < 2 ^ 32 };
}

impl Script {
    /// No commands. It takes no memory.
    pub fn new(alloc: Global) -> Script
        ensures { result ≡ [] }
    {
        Script {
            commands: Vec::new(alloc),
        }
    }

    /// How many there are.
    pub fn len(&self) -> u32
        ensures { result ≡ length self.now }
    {
        self.commands.len() as u32
    }

    /// Whether there is none.
    pub fn is_empty(&self) -> bool
        ensures { IsTrue result ↔ (self.now ≡ []) }
    {
        self.commands.is_empty()
    }

    /// Puts a command at the end.
    pub fn push(&mut self, command: Command) -> Result<(), Memory>
        requires { length self.old < 4_294_967_295 }
        ensures ok { OnOk result (self.new ≡ self.old ++ command ∷ []) }
        ensures err { OnErr result (self.new ≡ self.old) }
    {
        self.commands.push(command)?;
        Ok(())
    }

    /// The one with this number, or none past the end.
    pub fn get(&self, n: u32) -> Option<&Command>
        ensures { option_copied result ≡ slice_get self.now n }
    {
        self.commands.get(n as usize)
    }
}

#[cfg(test)]
mod tests {
    use super::*;
    use std::test::Fail;

    #[test]
    fn commands_come_back(rt: HostRuntime) -> Result<(), Fail> {
        let mut script = Script::new(rt.alloc());
        assert!(rt; script.is_empty());
        script.push(Command::DropOrder(4_294_967_295))?;
        script.push(Command::Merge)?;
        assert_eq!(rt; script.len(), 2);
        assert_eq!(rt;
            script.get(0).copied(),
            Some(Command::DropOrder(4_294_967_295))
        );
        assert_eq!(rt; script.get(2).copied(), None);
        Ok(())
    }
}

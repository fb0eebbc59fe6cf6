//! A table and a script made from a seed.
ghost use Rattle.std.specs.Prelude.{◌≡◌, ◌+◌, ◌*◌, ◌≤◌, ◌∷◌, ◌++◌, All, length, IfOk, OnOk, IsSome};
ghost use Rattle.cubit_base.specs.Table.{HasDistinctKeys};
ghost use Rattle.cubit_base.specs.declared.table.TheConstants.{ROW_LIMIT};
ghost use Rattle.refresh_streams.specs.Generator.{lines_made, orders_made, commands_made, merge_after, everything, made};
ghost use Rattle.refresh_streams.specs.Script.{weights, DropsSomeOrder};

use crate::generator::Generator;
use crate::{Memory, Script};
use cubit_base::{Command, Key, Predicate, Table};
use std::alloc::Global;

/// The base table of so many orders, 1 to 100,000, and a script over it, all drawn from the seed.
#[tactic(auto, using(crate::proofs::MadeInput::orders_made_distinct, crate::proofs::MadeInput::orders_made_live, crate::proofs::MadeInput::commands_made_orders, crate::proofs::MadeInput::commands_made_weights))]
pub fn make(alloc: Global, seed: u32, orders: u32) -> Result<(Table, Script), Memory>
    requires { (1 ≤ orders) × (orders ≤ 100_000) }

    ensures value { IfOk result (λ m. (m.0, m.1) ≡ (made orders seed).0) }

    // Of the table: no key stands twice, and each row is live.
    ensures distinct { IfOk result (λ m. HasDistinctKeys m.0) }
    ensures live { IfOk result (λ m. All (λ row. IsSome row.1) m.0) }

    // Of the script.
    ensures orders { IfOk result (λ m. All DropsSomeOrder m.1) }
    ensures weights { IfOk result (λ m. weights m.1 ≤ 700_000) }
{
    let mut generator = Generator {
        state: u64::from(seed),
    };
    let table = make_orders(alloc, &mut generator, orders)?;
    let mut script = make_commands(alloc, &mut generator, orders)?;
    script.push(Command::Sum(everything()))?;
    Ok((table, script))
}

// The lines of all orders.
#[tactic(auto, using(crate::proofs::Made::orders_made_next))]
fn make_orders(alloc: Global, generator: &mut Generator, orders: u32) -> Result<Table, Memory>
    requires { orders ≤ 100_000 }
    ensures rows { IfOk result (λ table. table ≡ (orders_made orders generator.old.state).0) }
    ensures state { OnOk result (generator.new.state ≡ (orders_made orders generator.old.state).1) }
{
    let mut table = Table::new(alloc);
    for before in 0..orders {
        let lines = 1 + generator.draw(7) as u8;
        push_lines(&mut table, generator, before + 1, lines)?;
    }
    Ok(table)
}

// So many lines of an order.
fn push_lines(
    table: &mut Table,
    generator: &mut Generator,
    order: u32,
    lines: u8,
) -> Result<(), Memory>
    requires order { 1 ≤ order }
    requires lines { lines ≤ 7 }
    requires room { length table.old + 7 ≤ ROW_LIMIT }
    ensures rows { OnOk result (table.new ≡ table.old ++ (lines_made order lines generator.old.state).0) }
    ensures state { OnOk result (generator.new.state ≡ (lines_made order lines generator.old.state).1) }
    ensures count { OnOk result (length table.new ≡ length table.old + lines) }
{
    for before in 0..lines {
        let line = before + 1;
        let tuple = generator.tuple();
        table.push(Key { order, line }, Some(tuple))?;
    }
    Ok(())
}

// The commands for all orders.
#[tactic(auto, using(crate::proofs::Made::commands_made_next))]
fn make_commands(alloc: Global, generator: &mut Generator, orders: u32) -> Result<Script, Memory>
    requires { orders ≤ 100_000 }
    ensures commands { IfOk result (λ script. script ≡ (commands_made orders orders generator.old.state).0) }
    ensures state { OnOk result (generator.new.state ≡ (commands_made orders orders generator.old.state).1) }
    ensures count { IfOk result (λ script. length script ≤ 2 * orders) }
{
    let mut script = Script::new(alloc);
    for before in 0..orders {
        let order = before + 1;
        let command = generator.command(orders, order);
        push_command(&mut script, command, order)?;
    }
    Ok(script)
}

// The command for an order, and what follows it.
fn push_command(script: &mut Script, command: Command, order: u32) -> Result<(), Memory>
    requires { length script.old ≤ 1_000_000 }
    ensures commands { OnOk result (script.new ≡ script.old ++ command ∷ merge_after order) }
    ensures count { OnOk result (length script.new ≤ length script.old + 2) }
{
    script.push(command)?;
    if order % 1000 == 0 {
        script.push(Command::Merge)?;
    }
    Ok(())
}

/// All rows match.
pub(crate) fn everything() -> Predicate
    ensures { result ≡ everything }
{
    Predicate {
        ship: None,
        disc: None,
        qty: None,
        flag: None,
        status: None,
    }
}

#[cfg(test)]
mod tests;

//! Files of deletes: in each line the key of an order.
ghost use Rattle.std.specs.Prelude.{◌≡◌, ◌≢◌, ◌<◌, ◌≤◌, [], length, IfSome};
ghost use Rattle.tbl_text.specs.DeleteFile.{without_bar, order_of_number, order_of_line, IsOrdersResult, IsFirstOrder};

use crate::{Memory, first_line, integer_of};
use cubit_base::RowList;
use std::alloc::Global;

/// Why a file is no file of deletes. Lines count from 1.
#[derive(Clone, Copy, Debug, PartialEq, Eq)]
pub enum KeyFault {
    /// This line is no integer from 1 to 4,294,967,295, with a bar behind it or none.
    Line(u32),
    /// Memory ran out.
    Memory,
}

impl From<Memory> for KeyFault {
    ghost use Rattle.std.specs.Prelude.{◌≡◌};
    ghost use Rattle.tbl_text.specs.declared.deletes.KeyFault.TheVariants as fault;

    ghost from_gives = { λ _ given. given ≡ fault.Memory };

    fn from(_: Memory) -> KeyFault {
        KeyFault::Memory
    }
}

/// The keys of the orders in the lines, in their order, or the first bad line.
pub fn delete_keys_of(alloc: Global, bytes: &[u8]) -> Result<RowList, KeyFault>
    requires { length bytes.now ≤ u32.MAX }
    ensures { IsOrdersResult bytes.now result }
{
    let mut keys = RowList::new(alloc);
    let mut rest = bytes;
    while !rest.is_empty() {
        let number = keys.len() + 1;
        let (order, others) = first_order(rest);
        match order {
            Some(order) => keys.push(order)?,
            None => return Err(KeyFault::Line(number)),
        }
        rest = others;
    }
    Ok(keys)
}

/// The order of the first line, at least 1, if the line has one, and what follows the line. It takes no memory.
pub fn first_order(bytes: &[u8]) -> (Option<u32>, &[u8])
    requires { bytes.now ≢ [] }
    ensures value { IsFirstOrder bytes.now result.1.now result.0 }
    ensures range { IfSome result.0 (λ order. 1 ≤ order) }
    ensures shorter { length result.1.now < length bytes.now }
{
    let Some(line) = first_line(bytes) else {
        unreachable!()
    };
    (order_of_line(&bytes[..line.len]), &bytes[line.next..])
}

// The order of a line of deletes without its line end: an integer, then a bar or nothing.
fn order_of_line(line: &[u8]) -> Option<u32>
    ensures value { result ≡ order_of_line line.now }
    ensures range { IfSome result (λ order. 1 ≤ order) }
{
    order_of_number(integer_of(without_bar(line)))
}

fn order_of_number(number: Option<u64>) -> Option<u32>
    ensures value { result ≡ order_of_number number }
    ensures range { IfSome result (λ order. 1 ≤ order) }
{
    match number {
        Some(n) if 1 <= n && n <= 4_294_967_295 => Some(n as u32),
        _ => None,
    }
}

// The line without the one bar that may end it.
fn without_bar(line: &[u8]) -> &[u8]
    ensures { result.now ≡ without_bar line.now }
{
    match line.last() {
        Some(b'|') => &line[..line.len() - 1],
        _ => line,
    }
}

#[cfg(test)]
mod tests;

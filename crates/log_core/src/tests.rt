ghost use Rattle.std.specs.Prelude.{◌≡◌, ◌≤◌, ◌<◌, length, sum, IfOk};

use crate::{Core, Memory, Step};
use cubit_base::{Flag, Key, Limits, LineStatus, Table, Tuple};
use std::alloc::Global;

mod drawn;
mod plain;
mod worked;

fn tuple(price: u32, day: u16, qty: u8, disc: u8, tax: u8) -> Tuple
    requires price { price ≤ 99_999_999 }
    requires day { day ≤ 2556 }
    requires qty { (1 ≤ qty) × (qty ≤ 50) }
    requires disc { disc ≤ 10 }
    requires tax { tax ≤ 8 }
{
    let (flag, status) = (Flag::N, LineStatus::O);
    Tuple {
        price,
        day,
        qty,
        disc,
        tax,
        flag,
        status,
    }
}

// The keys 1.1, 1.2 and 1.3.
fn base(alloc: Global) -> Result<Table, Memory>
    ensures { IfOk result (λ table. length table ≡ 3) }
{
    let mut table = Table::new(alloc);
    table.push(
        Key { order: 1, line: 1 },
        Some(tuple(2_116_823, 1533, 17, 4, 2)),
    )?;
    table.push(
        Key { order: 1, line: 2 },
        Some(tuple(4_598_316, 1563, 36, 9, 6)),
    )?;
    table.push(
        Key { order: 1, line: 3 },
        Some(tuple(1_330_960, 1489, 8, 10, 2)),
    )?;
    Ok(table)
}

fn core(alloc: Global, shares: &[u32], row_limit: u32, log_limit: u32) -> Result<Core, Memory>
    requires parties { (1 ≤ length shares.now) × (length shares.now ≤ 64) }
    requires nodes { sum shares.now ≤ 4_194_304 }
    requires rows { (3 ≤ row_limit) × (row_limit ≤ 16_777_216) }
    requires deltas { log_limit ≤ 4_194_304 }
{
    let base = base(alloc)?;
    let limits = Limits {
        row_limit,
        log_limit,
        tries: 1,
    };
    Core::make(alloc, &base, shares, &limits)
}

// The stores of a node's four words.
fn stores(node: u32, words: [u64; 4]) -> [Step; 4] {
    let [a, b, c, d] = words;
    let store = |word, value| Step::Store { node, word, value };
    [store(0, a), store(1, b), store(2, c), store(3, d)]
}

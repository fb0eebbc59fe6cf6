// A worked base of three lines, whose row room leaves no room for more: a quantity that changes and changes back.
ghost use Rattle.std.specs.Prelude.{◌≡◌, ◌+◌, ◌<◌, ◌≤◌, IfOk, IfSome, length};
ghost use Rattle.cubit_base.specs.LiveRow.{HasDistinctLiveKeys};
ghost use Rattle.cubit_base.specs.Delta.{IsLawful};
ghost use Rattle.cubit_base.specs.History.{after, IsHistory};

use super::histories::{Rows, change, follow, rows_of, table_from};
use super::story::all_follow;
use super::{bit, has_key};
use crate::{Base, Memory, Unit};
use column_bins::Column;
use cubit_base::{Delta, DeltaList, Flag, Key, LineStatus, Steps, Table, Tuple, laws};
use std::alloc::Global;
use std::marker::Brand;
use std::process::Abort;
use std::sync::ledger::{Blank, Ledger};
use std::test::Fail;

// Price, day, quantity, discount and tax of lines 1 to 3 of order 1.
const LINES: [(u32, u16, u8, u8, u8); 3] = [
    (2_116_823, 1_533, 17, 4, 2),
    (4_598_316, 1_563, 36, 9, 6),
    (1_330_960, 1_489, 8, 10, 2),
];

// The table of these lines.
fn three_lines(alloc: Global) -> Result<Table, Memory>
    ensures distinct { IfOk result HasDistinctLiveKeys }
    ensures few { IfOk result (λ table. length table ≤ 3) }
{
    laws::live_rows();
    let mut table = Table::new(alloc);
    for n in 0..3 {
        let (price, day, qty, disc, tax) = LINES[n];
        let key = Key {
            order: 1,
            line: n as u8 + 1,
        };
        if !has_key(&table, &key) {
            let tuple = Tuple {
                price,
                day,
                qty,
                disc,
                tax,
                flag: Flag::N,
                status: LineStatus::O,
            };
            table.push(key, Some(tuple))?;
        }
    }
    Ok(table)
}

// Another quantity for row 0, or none where it is not live or no quantity is so great.
fn quantity(rows: &Rows, qty: u8) -> Option<Delta>
    ensures { IfSome result (λ d. IsLawful 16_777_216 rows.now.items d) }
{
    let (_, tuple) = *rows.get(0)?;
    let tuple = tuple?;
    if qty < 1 || qty > 50 {
        return None;
    }
    change(rows, 0, Some(Tuple { qty, ..tuple }))
}

// Row 0 gets the first quantities of these, one after another.
fn quantities(alloc: Global, rows: &mut Rows, count: u32) -> Result<DeltaList, Memory>
    requires rows { length rows.old.items ≤ 3 }
    requires count { count ≤ 2 }
    ensures lawful { IfOk result (λ deltas. IsHistory 16_777_216 rows.old.items deltas) }
    ensures then { IfOk result (λ deltas. rows.new.items ≡ after rows.old.items deltas) }
{
    let mut deltas = DeltaList::new(alloc);
    for n in 0..count {
        let delta = quantity(rows, if n == 0 { 7 } else { 17 });
        follow(rows, &mut deltas, delta)?;
    }
    Ok(deltas)
}

// All units follow so many of the changes; where row 0 has this quantity then.
fn follow_quantities<N: Ledger, R: Abort + AllocGlobal>(
    rt: &R,
    count: u32,
    qty: u8,
    blank: Blank,
) -> Result<(), Memory>
    requires qty { (0 < qty) × (qty ≤ 50) }
    requires count { count ≤ 2 }
    requires name { blank.name ≡ N.name }
    requires parts { blank.parts ≡ N.parts }
    requires some { 0 < N.parts }
{
    laws::live_rows();
    laws::histories();
    let alloc = rt.alloc();
    let reads = &mut Steps::<N>::make(blank);
    let table = three_lines(alloc)?;
    let mut rows = rows_of(alloc, &table)?;
    let deltas = quantities(alloc, &mut rows, count)?;
    assert_eq!(rt; deltas.len(), count);
    if rows.len() != 3 {
        panic!(rt; "{} rows", rows.len());
    }
    let base = Base::build(alloc, table, 3)?;
    let then = Base::build(alloc, table_from(alloc, &rows)?, 3)?;
    assert_eq!(rt; (base.units(), then.units()), (216, 216));
    all_follow(rt, &base, &deltas, &then, &rows, reads)?;
    for other in [7, 17] {
        let bin = then.content(Unit::Bin(Column::Qty, other - 1));
        assert_eq!(rt; bit(bin, 0), other == qty, "{other} of {qty}");
    }
    if qty == 17 {
        let before = rows_of(alloc, &three_lines(alloc)?)?;
        for n in 0..3 {
            assert_eq!(rt; rows.get(n), before.get(n), "row {n} is as it was");
        }
    }
    Ok(())
}

#[test]
fn a_quantity_changes_and_changes_back(rt: HostRuntime) -> Result<(), Fail> {
    for (count, qty) in [(0, 17), (1, 7), (2, 17)] {
        follow_quantities::<Brand, _>(&rt, count, qty, Blank::new(1))?;
    }
    Ok(())
}

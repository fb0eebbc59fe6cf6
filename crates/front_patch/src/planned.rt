//! The units of a plan.
ghost use Rattle.std.specs.Prelude.{◌≡◌, ◌-◌, ◌<◌, ◌++◌, List, Contains, Some, slice_get, IfOk, OnOk};
ghost use Rattle.cubit_base.specs.Table.{Row};
ghost use Rattle.unit_version.specs.Unit.{IsUnit};
ghost use Rattle.unit_version.specs.declared.unit.Unit.TheVariants as unit;
ghost use Rattle.front_patch.specs.Bits.{IsBits, bits_of, bits_by};
ghost use Rattle.front_patch.specs.Planned.{bins_of, run_of, units_of, is_open};

use crate::row_test::RowTest;
use column_bins::{Column, Plan, Stretch};
use commit_log::Memory;
use std::alloc::Global;
use unit_version::Unit;

/// The units of a plan with so many pages, in order.
pub(crate) fn planned_units(alloc: Global, plan: &Plan, pages: u32) -> Result<Vec<Unit>, Memory>
    ensures { IfOk result (λ units. units.items ≡ units_of plan.now pages) }
{
    let mut units = Vec::new(alloc);
    if is_open(plan) {
        units.push(Unit::Live)?;
    }
    push_bins(&mut units, Column::Ship, plan.ship)?;
    push_bins(&mut units, Column::Disc, plan.disc)?;
    push_bins(&mut units, Column::Qty, plan.qty)?;
    push_bins(&mut units, Column::Flag, plan.flag)?;
    push_bins(&mut units, Column::Status, plan.status)?;
    push_pages(&mut units, pages)?;
    Ok(units)
}

// Puts so many pages behind the units.
fn push_pages(units: &mut Vec<Unit>, pages: u32) -> Result<(), Memory>
    ensures { OnOk result (units.new.items ≡ units.old.items ++ run_of unit.Page 0 pages) }
{
    for page in 0..pages {
        units.push(Unit::Page(page))?;
    }
    Ok(())
}

// Whether no column is restricted.
pub(crate) fn is_open(plan: &Plan) -> bool
    ensures { result ≡ is_open plan.now }
{
    plan.ship.is_none()
        && plan.disc.is_none()
        && plan.qty.is_none()
        && plan.flag.is_none()
        && plan.status.is_none()
}

// Puts the bins of a stretch, where there is one, behind the units.
fn push_bins(units: &mut Vec<Unit>, column: Column, stretch: Option<Stretch>) -> Result<(), Memory>
    ensures { OnOk result (units.new.items ≡ units.old.items ++ bins_of column stretch) }
{
    match stretch {
        Some(stretch) => push_run(units, column, stretch.first, stretch.after),
        None => Ok(()),
    }
}

// Puts the bins from one on, up to another, behind the units.
fn push_run(units: &mut Vec<Unit>, column: Column, first: u8, after: u8) -> Result<(), Memory>
    ensures { OnOk result (units.new.items ≡ units.old.items ++ run_of (unit.Bin column) first (after - first)) }
{
    for bin in first..after {
        units.push(Unit::Bin(column, bin))?;
    }
    Ok(())
}

/// The place of a bitvector's unit among those of a plan.
pub(crate) fn place_in(units: &[Unit], unit: Unit) -> usize
    requires { Contains units.now unit }
    ensures { slice_get units.now result ≡ Some unit }
{
    units.iter().position(|other| *other == unit).unwrap()
}

/// The place of a page among the units of a plan with so many pages.
pub(crate) fn page_place(plan: &Plan, units: &[Unit], pages: u32, page: u32) -> usize
    requires units { units.now ≡ units_of plan.now pages }
    requires page { page < pages }
    ensures { slice_get (units_of plan.now pages) result ≡ Some (unit.Page page) }
{
    let _ = plan;
    units.len() - pages as usize + page as usize
}

/// The test of a bitvector's rows.
pub(crate) fn test_of(unit: Unit) -> RowTest
    requires unit { IsUnit 0 unit }
    requires bits { IsBits unit }
    ensures { (table : List Row) → bits_by result table ≡ bits_of unit table }
{
    match unit {
        Unit::Live => RowTest::IsLive,
        Unit::Bin(column, bin) => RowTest::IsInBins(
            column,
            Stretch {
                first: bin,
                after: bin + 1,
            },
        ),
        Unit::Page(_) | Unit::Keys(_) => unreachable!(),
    }
}

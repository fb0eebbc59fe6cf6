//! The units of an index in order.
ghost use Rattle.std.specs.Prelude.{◌≡◌, ℕ, ◌<◌, ◌≤◌};
ghost use Rattle.unit_version.specs.Unit.{IsUnit, unit_count};
ghost use Rattle.unit_version.specs.declared.unit.Unit.{Unit as IndexUnit};
ghost use Rattle.merger.specs.Order.{order_of, unit_at};

use column_bins::Column;
use unit_version::Unit;

/// The unit in a place, of an index with so many pages.
pub(crate) fn unit_at(place: u32, pages: u32) -> Unit
    requires pages { pages ≤ 4_229 }
    requires place { place < unit_count pages }
    ensures value { result ≡ unit_at pages place }
    ensures is_unit { IsUnit pages result }
{
    match place {
        0 => Unit::Live,
        1..=84 => Unit::Bin(Column::Ship, (place - 1) as u8),
        85..=95 => Unit::Bin(Column::Disc, (place - 85) as u8),
        96..=145 => Unit::Bin(Column::Qty, (place - 96) as u8),
        146..=148 => Unit::Bin(Column::Flag, (place - 146) as u8),
        149..=150 => Unit::Bin(Column::Status, (place - 149) as u8),
        _ if place < 151 + pages => Unit::Page(place - 151),
        _ => Unit::Keys((place - 151 - pages) as u8),
    }
}

/// Each unit has its place.
pub(crate) fn order()
    ensures place { (pages place : ℕ) → place < unit_count pages → order_of pages (unit_at pages place) ≡ place }
    ensures within { (pages : ℕ) (unit : IndexUnit) → IsUnit pages unit → order_of pages unit < unit_count pages }
    ensures unit { (pages : ℕ) (unit : IndexUnit) → IsUnit pages unit → unit_at pages (order_of pages unit) ≡ unit }
{}

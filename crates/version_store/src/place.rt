//! The numbering of units, so that a list can have something for each.
ghost use Rattle.std.specs.Prelude.{◌≡◌, ◌<◌, ℕ};
ghost use Rattle.unit_version.specs.Unit.{IsUnit, unit_count};
ghost use Rattle.version_store.specs.Place.{first_bin, place_of};

use column_bins::Column;
use unit_version::Unit;

// Where the key pages begin, and where the pages do.
const FIRST_KEYS: usize = 151;

const FIRST_PAGE: usize = 215;

const _: () = prove!(FIRST_KEYS == 1 + 84 + 11 + 50 + 3 + 2);

const _: () = prove!(FIRST_PAGE == FIRST_KEYS + 64);

/// The place of a unit of an index with so many pages.
pub(crate) fn place(unit: Unit, pages: u32) -> usize
    requires { IsUnit pages unit }
    ensures value { result ≡ place_of unit }
    ensures within { result < unit_count pages }
{
    match unit {
        Unit::Live => 0,
        Unit::Bin(column, bin) => column_place(column) + usize::from(bin),
        Unit::Keys(rest) => FIRST_KEYS + usize::from(rest),
        Unit::Page(page) => FIRST_PAGE + page as usize,
    }
}

// The place of a column's first bin.
fn column_place(column: Column) -> usize
    ensures { result ≡ first_bin column }
{
    match column {
        Column::Ship => 1,
        Column::Disc => 85,
        Column::Qty => 96,
        Column::Flag => 146,
        Column::Status => 149,
    }
}

//! The values of a column by which a row's bin is told without its month.
ghost use Rattle.std.specs.Prelude.{◌≡◌, ◌<◌, ◌≤◌, ℕ};
ghost use Rattle.column_bins.specs.Column.{bin_at, least_value, past_values, value_of};
ghost use Rattle.column_bins.specs.Month.{month_of};
ghost use Rattle.front_patch.specs.Values.{AreValues};

use column_bins::{Column, Stretch};
use cubit_base::{Tuple, day_of};

// The number behind the last day.
const DAYS: u16 = 2_557;

/// The values from `first` up to and without `after`.
#[derive(Clone, Copy, Debug)]
pub(crate) struct Values {
    pub(crate) first: u16,
    pub(crate) after: u16,
}

/// Those of a column whose bins lie in a stretch.
pub(crate) fn values_of(column: Column, stretch: Stretch) -> Values
    ensures { AreValues column stretch result }
{
    Values {
        first: first_value(column, stretch.first),
        after: first_value(column, stretch.after),
    }
}

// The first value of a bin; behind the last bin a number behind all values.
fn first_value(column: Column, bin: u8) -> u16
    ensures from { (value : ℕ) → least_value column ≤ value → value < past_values column → result ≤ value →
        bin ≤ bin_at column value }
    ensures before { (value : ℕ) → least_value column ≤ value → value < past_values column → value < result →
        bin_at column value < bin }
{
    match column {
        Column::Ship => first_day(bin),
        Column::Qty => u16::from(bin) + 1,
        Column::Disc | Column::Flag | Column::Status => u16::from(bin),
    }
}

// The first day of a month; behind the last month the number behind all days.
fn first_day(month: u8) -> u16
    ensures from { (day : ℕ) → day < 2_557 → result ≤ day → month ≤ month_of day }
    ensures before { (day : ℕ) → day < 2_557 → day < result → month_of day < month }
{
    day_of(1992 + u16::from(month / 12), month % 12 + 1, 1).unwrap_or(DAYS)
}

/// The tuple's value in a column.
#[inline(always)]
pub(crate) fn value_of(column: Column, tuple: &Tuple) -> u16
    ensures value { result ≡ value_of column tuple.now }
    ensures least { least_value column ≤ result }
    ensures past { result < past_values column }
{
    match column {
        Column::Ship => tuple.day,
        Column::Disc => u16::from(tuple.disc),
        Column::Qty => u16::from(tuple.qty),
        Column::Flag => u16::from(tuple.flag.number()),
        Column::Status => u16::from(tuple.status.number()),
    }
}

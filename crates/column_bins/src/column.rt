//! The columns that the index has bins for, and the bin of a tuple.
ghost use Rattle.std.specs.Prelude.{◌≡◌, ◌+◌, ◌<◌, ◌≤◌};
ghost use Rattle.column_bins.specs.Month.{month_of, month_start};
ghost use Rattle.column_bins.specs.Column.{bin_count, least_value, past_values, bin_at, tuple_bin};

use cubit_base::{Tuple, date_of};

/// A column with bins: 84 months of shipping, 11 discounts, 50 quantities, 3 return flags and 2 line statuses.
#[derive(Clone, Copy, Debug, PartialEq, Eq)]
pub enum Column {
    Ship,
    Disc,
    Qty,
    Flag,
    Status,
}

/// The bin of the tuple's value in the column.
pub fn bin_of(column: Column, tuple: &Tuple) -> u8
    ensures value { result ≡ tuple_bin column tuple.now }
    ensures within { result < bin_count column }
{
    match column {
        Column::Ship => month_and_day(tuple.day).0,
        Column::Disc => tuple.disc,
        Column::Qty => tuple.qty - 1,
        Column::Flag => tuple.flag.number(),
        Column::Status => tuple.status.number(),
    }
}

// The bin of a value of the column.
pub(crate) fn bin_at(column: Column, value: u16) -> u8
    requires least { least_value column ≤ value }
    requires past { value < past_values column }
    ensures value { result ≡ bin_at column value }
    ensures within { result < bin_count column }
{
    match column {
        Column::Ship => month_and_day(value).0,
        Column::Qty => value as u8 - 1,
        Column::Disc | Column::Flag | Column::Status => value as u8,
    }
}

/// The month of a day, counted from January 1992, and the day's place in it, from 1.
pub(crate) fn month_and_day(day: u16) -> (u8, u8)
    requires { day ≤ 2556 }
    ensures month { result.0 ≡ month_of day }
    ensures within { result.0 < 84 }
    ensures place { month_start result.0 + result.1 ≡ day + 1 }
    ensures first { 1 ≤ result.1 }
{
    let (year, month, place) = date_of(day);
    ((year - 1992) as u8 * 12 + month - 1, place)
}

#[cfg(test)]
mod tests {
    use super::*;
    use cubit_base::{Flag, LineStatus};

    #[test]
    fn bins(rt: HostRuntime) {
        let (price, tax, flag, status) = (2_116_823, 2, Flag::N, LineStatus::O);
        let columns = [
            Column::Ship,
            Column::Disc,
            Column::Qty,
            Column::Flag,
            Column::Status,
        ];
        for (tuple, bins) in [
            (
                Tuple {
                    price,
                    day: 1533,
                    qty: 17,
                    disc: 4,
                    tax,
                    flag,
                    status,
                },
                [50, 4, 16, 1, 1],
            ),
            (
                Tuple {
                    price,
                    day: 1563,
                    qty: 36,
                    disc: 9,
                    tax,
                    flag,
                    status,
                },
                [51, 9, 35, 1, 1],
            ),
            (
                Tuple {
                    price,
                    day: 1489,
                    qty: 8,
                    disc: 10,
                    tax,
                    flag,
                    status,
                },
                [48, 10, 7, 1, 1],
            ),
        ] {
            for i in 0..5 {
                assert_eq!(rt; bin_of(columns[i], &tuple), bins[i]);
            }
        }
    }
}

//! The months of days.
ghost use Rattle.std.specs.Prelude.{◌≡◌, ◌<◌};
ghost use Rattle.column_bins.specs.Month.{month_of};
ghost use Rattle.unit_version.specs.RowBins.{AreMonths};

use column_bins::{Column, bin_of};
use cubit_base::{Flag, LineStatus, Tuple};

// The days of the years 1992 to 1998.
const DAYS: usize = 2_557;

const _: () = prove!(DAYS == 2_557);

/// The month of each day, counted from January 1992.
pub(crate) type Months = [u8; DAYS];

/// The month of each day, since to find a date takes long for each row.
pub(crate) fn months_of_days() -> Months
    ensures { AreMonths result }
{
    let mut months = [0; DAYS];
    for day in 0..DAYS {
        months[day] = month_of(day as u16);
    }
    months
}

// The month of a day.
fn month_of(day: u16) -> u8
    requires { day < 2557 }
    ensures { result ≡ month_of day }
{
    let tuple = Tuple {
        price: 0,
        day,
        qty: 1,
        disc: 0,
        tax: 0,
        flag: Flag::A,
        status: LineStatus::F,
    };
    bin_of(Column::Ship, &tuple)
}

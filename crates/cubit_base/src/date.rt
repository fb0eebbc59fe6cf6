//! Days of the calendar as numbers from 1992-01-01.
ghost use Rattle.std.specs.Prelude.{◌≡◌, ◌⊎◌, ◌+◌, ◌<◌, ◌≤◌, IfSome, Some, pos};
ghost use Rattle.jiff_core.specs.Calendar.{day_count, days_in_year};
ghost use Rattle.cubit_base.specs.Day.{day_value};

use jiff_core::civil::Date;

/// The number of a day from 1992-01-01 (0) to 1998-12-31 (2556), or none where these are no such date.
pub fn day_of(year: u16, month: u8, day: u8) -> Option<u16>
    ensures value { result ≡ day_value year month day }
    ensures within { IfSome result (λ n. n ≤ 2556) }
{
    if year < 1992 || year > 1998 || month > 12 || day > 31 {
        return None;
    }
    match Date::new(year as i16, month as i8, day as i8) {
        Ok(date) => Some(first_day_of(year) + date.day_of_year() - 1),
        Err(_) => None,
    }
}

// The number of 1 January of a year from 1992 to 1998.
#[tactic(auto, using(crate::proofs::Years::year_starts))]
fn first_day_of(year: u16) -> u16
    requires { (1992 ≤ year) × (year ≤ 1998) }
    ensures start { result + day_count (pos 1992) 1 1 ≡ day_count (pos year) 1 1 }
    ensures within { (result ≤ 1827) ⊎ ((year ≡ 1998) × (result ≤ 2192)) }
{
    match year {
        1992 => 0,
        1993 => 366,
        1994 => 731,
        1995 => 1096,
        1996 => 1461,
        1997 => 1827,
        1998 => 2192,
        _ => unreachable!(),
    }
}

/// The year, month and day with this number, from 1992-01-01 (0) to 1998-12-31 (2556).
pub fn date_of(day: u16) -> (u16, u8, u8)
    requires { day ≤ 2556 }
    ensures { day_value result.0 result.1 result.2 ≡ Some day }
{
    let (year, first) = year_of(day);
    let place = day - first + 1;
    match Date::from_day_of_year(year as i16, place as i16) {
        Ok(date) => (year, date.month, date.day),
        Err(_) => unreachable!(),
    }
}

// The year of a day, and the number of its 1 January.
#[tactic(auto, using(crate::proofs::Years::year_starts))]
fn year_of(day: u16) -> (u16, u16)
    requires { day ≤ 2556 }
    ensures within { (1992 ≤ result.0) × (result.0 ≤ 1998) }
    ensures start { result.1 + day_count (pos 1992) 1 1 ≡ day_count (pos result.0) 1 1 }
    ensures first { result.1 ≤ day }
    ensures last { day < result.1 + days_in_year (pos result.0) }
{
    match day {
        0..366 => (1992, 0),
        366..731 => (1993, 366),
        731..1096 => (1994, 731),
        1096..1461 => (1995, 1096),
        1461..1827 => (1996, 1461),
        1827..2192 => (1997, 1827),
        _ => (1998, 2192),
    }
}

#[cfg(test)]
mod tests {
    use super::*;

    #[test]
    fn dates(rt: HostRuntime) {
        for (number, date) in [
            (0, (1992, 1, 1)),
            (30, (1992, 1, 31)),
            (31, (1992, 2, 1)),
            (59, (1992, 2, 29)),
            (60, (1992, 3, 1)),
            (365, (1992, 12, 31)),
            (366, (1993, 1, 1)),
            (424, (1993, 2, 28)),
            (1461, (1996, 1, 1)),
            (1520, (1996, 2, 29)),
            (1521, (1996, 3, 1)),
            (1533, (1996, 3, 13)),
            (2556, (1998, 12, 31)),
        ] {
            let (year, month, day) = date;
            assert_eq!(rt; day_of(year, month, day), Some(number));
            if number <= 2556 {
                assert_eq!(rt; date_of(number), date);
            }
        }
    }

    #[test]
    fn days(rt: HostRuntime) {
        for (year, month, day, number) in [
            (1992, 1, 1, Some(0)),
            (1992, 2, 29, Some(59)),
            (1996, 2, 29, Some(1520)),
            (1996, 3, 13, Some(1533)),
            (1998, 12, 31, Some(2556)),
            (1995, 2, 29, None),
            (1991, 12, 31, None),
            (1999, 1, 1, None),
            (1996, 0, 10, None),
            (1996, 13, 1, None),
        ] {
            assert_eq!(rt; day_of(year, month, day), number, "of {year}-{month}-{day}");
        }
    }
}

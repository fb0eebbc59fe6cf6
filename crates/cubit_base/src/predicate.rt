//! Predicates: a closed range for each column that a query restricts.
ghost use Rattle.std.specs.Prelude.{◌≡◌, ◌≤◌};
ghost use Rattle.cubit_base.specs.Day.{day_number};
ghost use Rattle.cubit_base.specs.Predicate.{in_range, selects, matches, q6_predicate};

use crate::{Tuple, day_of};

/// The numbers from `lo` to `hi`, both included; none where `lo` is above `hi`.
#[derive(Clone, Copy, Debug, PartialEq, Eq)]
pub struct Range {
    /// The least number.
    pub lo: u16,
    /// The greatest number.
    pub hi: u16,
}

/// A tuple matches where each range that is given has its column's number.
#[derive(Clone, Copy, Debug, PartialEq, Eq)]
pub struct Predicate {
    /// L_SHIPDATE, in days since 1992-01-01.
    pub ship: Option<Range>,
    /// L_DISCOUNT, in hundredths.
    pub disc: Option<Range>,
    /// L_QUANTITY.
    pub qty: Option<Range>,
    /// L_RETURNFLAG: A 0, N 1, R 2.
    pub flag: Option<Range>,
    /// L_LINESTATUS: F 0, O 1.
    pub status: Option<Range>,
}

impl Range {
    /// Whether the range has the number.
    pub fn contains(&self, n: u16) -> bool
        ensures { result ≡ in_range self.now n }
    {
        self.lo <= n && n <= self.hi
    }
}

fn has(range: &Option<Range>, n: u16) -> bool
    ensures { result ≡ selects range.now n }
{
    match range {
        Some(range) => range.contains(n),
        None => true,
    }
}

// From 1 January to 31 December.
fn days_of(year: u16) -> Range
    requires { (1992 ≤ year) × (year ≤ 1998) }
    ensures { result ≡ record { lo = day_number year 1 1; hi = day_number year 12 31 } }
{
    Range {
        lo: day_of(year, 1, 1).unwrap(),
        hi: day_of(year, 12, 31).unwrap(),
    }
}

impl Predicate {
    /// The predicate of TPC-H's query 6 (clause 2.4.6): shipped within the year, a discount of at most a hundredth
    /// from `disc`, and fewer than `qty` pieces.
    pub fn q6(year: u16, disc: u8, qty: u8) -> Predicate
        requires year { (1992 ≤ year) × (year ≤ 1998) }
        requires disc { disc ≤ 10 }
        requires qty { (1 ≤ qty) × (qty ≤ 51) }
        ensures { result ≡ q6_predicate year disc qty }
    {
        Predicate {
            ship: Some(days_of(year)),
            disc: Some(Range {
                lo: u16::from(disc.saturating_sub(1)),
                hi: u16::from((disc + 1).min(10)),
            }),
            qty: Some(Range {
                lo: 1,
                hi: u16::from(qty - 1),
            }),
            flag: None,
            status: None,
        }
    }

    /// Whether each range that is given has its column's number.
    pub fn matches(&self, tuple: &Tuple) -> bool
        ensures { result ≡ matches self.now tuple.now }
    {
        has(&self.ship, tuple.day)
            && has(&self.disc, u16::from(tuple.disc))
            && has(&self.qty, u16::from(tuple.qty))
            && has(&self.flag, u16::from(tuple.flag.number()))
            && has(&self.status, u16::from(tuple.status.number()))
    }
}

//! From a predicate to the bins that can match.
ghost use Rattle.std.specs.Prelude.{◌≡◌, ◌+◌, ℕ, true, false, None};
ghost use Rattle.column_bins.specs.Column.{bin_count, least_value, past_values, any_below};
ghost use Rattle.column_bins.specs.declared.column.Column.TheVariants.{Ship, Disc, Qty, Flag, Status};
ghost use Rattle.column_bins.specs.Plan.{IsStretch, is_met, is_met_in_part, has_part, in_stretch, needs_pages, unit_count};

use crate::column::{bin_at, month_and_day};
use crate::{Column, Plan, Stretch};
use cubit_base::{Predicate, Range};

/// The bins of each restricted column that some value of its range has, and whether tuples have to be read.
pub fn plan(predicate: &Predicate, sum: bool) -> Plan
    ensures ship { IsStretch Ship predicate.now.ship result.ship }
    ensures disc { IsStretch Disc predicate.now.disc result.disc }
    ensures qty { IsStretch Qty predicate.now.qty result.qty }
    ensures flag { IsStretch Flag predicate.now.flag result.flag }
    ensures status { IsStretch Status predicate.now.status result.status }
    ensures pages { result.pages ≡ needs_pages predicate.now sum }
{
    Plan {
        ship: stretch(Column::Ship, &predicate.ship),
        disc: stretch(Column::Disc, &predicate.disc),
        qty: stretch(Column::Qty, &predicate.qty),
        flag: stretch(Column::Flag, &predicate.flag),
        status: stretch(Column::Status, &predicate.status),
        pages: sum || has_part(&predicate.ship),
    }
}

fn stretch(column: Column, range: &Option<Range>) -> Option<Stretch>
    ensures { IsStretch column range.now result }
{
    match range {
        Some(range) => Some(stretch_of(column, range)),
        None => None,
    }
}

// The least and the greatest value of a column.
fn bounds_of(column: Column) -> (u16, u16)
    ensures least { result.0 ≡ least_value column }
    ensures greatest { result.1 + 1 ≡ past_values column }
{
    match column {
        Column::Ship => (0, 2556),
        Column::Disc => (0, 10),
        Column::Qty => (1, 50),
        Column::Flag => (0, 2),
        Column::Status => (0, 1),
    }
}

fn stretch_of(column: Column, range: &Range) -> Stretch
    ensures { (b : ℕ) → in_stretch result b ≡ is_met column range.now b }
{
    let (least, greatest) = bounds_of(column);
    let lo = range.lo.max(least);
    let hi = range.hi.min(greatest);
    if lo > hi {
        return Stretch { first: 0, after: 0 };
    }
    Stretch {
        first: bin_at(column, lo),
        after: bin_at(column, hi) + 1,
    }
}

// Whether some month is met in part.
fn has_part(range: &Option<Range>) -> bool
    ensures { result ≡ has_part range.now }
{
    match range {
        Some(range) => cuts_a_month(range),
        None => false,
    }
}

// Whether the range begins after a month's first day, or ends before its last.
fn cuts_a_month(range: &Range) -> bool
    ensures { result ≡ any_below (bin_count Ship) (is_met_in_part range.now) }
{
    let lo = range.lo;
    let hi = range.hi.min(2556);
    if lo > hi {
        return false;
    }
    month_and_day(lo).1 != 1 || (hi < 2556 && month_and_day(hi + 1).1 != 1)
}

#[cfg(test)]
mod tests {
    use super::*;

    // The predicate that restricts one column.
    fn only(column: Column, lo: u16, hi: u16) -> Predicate {
        let none = Predicate {
            ship: None,
            disc: None,
            qty: None,
            flag: None,
            status: None,
        };
        let range = Some(Range { lo, hi });
        match column {
            Column::Ship => Predicate {
                ship: range,
                ..none
            },
            Column::Disc => Predicate {
                disc: range,
                ..none
            },
            Column::Qty => Predicate { qty: range, ..none },
            Column::Flag => Predicate {
                flag: range,
                ..none
            },
            Column::Status => Predicate {
                status: range,
                ..none
            },
        }
    }

    fn of(column: Column, plan: &Plan) -> Option<Stretch> {
        match column {
            Column::Ship => plan.ship,
            Column::Disc => plan.disc,
            Column::Qty => plan.qty,
            Column::Flag => plan.flag,
            Column::Status => plan.status,
        }
    }

    #[test]
    fn stretches(rt: HostRuntime) {
        for (column, lo, hi, first, after, pages) in [
            (Column::Ship, 1521, 1551, 50, 51, false),
            (Column::Ship, 1534, 1581, 50, 52, true),
            (Column::Ship, 0, 30, 0, 1, false),
            (Column::Ship, 0, 29, 0, 1, true),
            (Column::Ship, 1, 30, 0, 1, true),
            (Column::Ship, 31, 59, 1, 2, false),
            (Column::Ship, 31, 58, 1, 2, true),
            (Column::Ship, 2526, 60_000, 83, 84, false),
            (Column::Ship, 2557, 60_000, 0, 0, false),
            (Column::Ship, 10, 9, 0, 0, false),
            (Column::Ship, 0, 65_535, 0, 84, false),
            (Column::Qty, 0, 0, 0, 0, false),
            (Column::Qty, 51, 200, 0, 0, false),
            (Column::Qty, 0, 1, 0, 1, false),
            (Column::Qty, 50, 200, 49, 50, false),
            (Column::Qty, 1, 65_535, 0, 50, false),
            (Column::Disc, 9, 300, 9, 11, false),
            (Column::Disc, 11, 300, 0, 0, false),
            (Column::Flag, 2, 2, 2, 3, false),
            (Column::Flag, 0, 9, 0, 3, false),
            (Column::Status, 1, 1, 1, 2, false),
            (Column::Status, 1, 0, 0, 0, false),
        ] {
            let plan = plan(&only(column, lo, hi), false);
            let stretch = of(column, &plan).expect(&rt, "restricted");
            // An empty stretch has many spellings.
            if first < after {
                assert_eq!(rt; stretch, Stretch { first, after }, "at {lo}..{hi}");
            } else {
                assert!(rt; stretch.first >= stretch.after, "at {lo}..{hi}");
            }
            assert_eq!(rt; plan.pages, pages, "at {lo}..{hi}");
        }
    }

    #[test]
    fn query_6(rt: HostRuntime) {
        let plain = plan(&Predicate::q6(1996, 5, 24), false);
        assert_eq!(rt;
            plain.ship,
            Some(Stretch {
                first: 48,
                after: 60
            })
        );
        assert_eq!(rt; plain.disc, Some(Stretch { first: 4, after: 7 }));
        assert_eq!(rt;
            plain.qty,
            Some(Stretch {
                first: 0,
                after: 23
            })
        );
        assert_eq!(rt;
            (plain.flag, plain.status, plain.pages),
            (None, None, false)
        );
        assert!(rt; plan(&Predicate::q6(1996, 5, 24), true).pages);
        let none = plan(&Predicate::q6(1996, 10, 1), false);
        assert_eq!(rt;
            none.disc,
            Some(Stretch {
                first: 9,
                after: 11
            })
        );
        assert!(rt;
            none.qty
                .is_some_and(|stretch| stretch.first >= stretch.after)
        );
        assert!(rt; !none.pages);
    }

    // How many units a query needs that restricts nothing.
    fn open_units()
        ensures sum { unit_count (record { ship = None; disc = None; qty = None; flag = None; status = None })
            true 3969 ≡ 3 }
        ensures count { unit_count (record { ship = None; disc = None; qty = None; flag = None; status = None })
            false 3969 ≡ 1 }
    {}

    #[test]
    fn no_restriction(rt: HostRuntime) {
        open_units();
        let open = Predicate {
            ship: None,
            disc: None,
            qty: None,
            flag: None,
            status: None,
        };
        let plan_of_count = plan(&open, false);
        assert_eq!(rt;
            (plan_of_count.ship, plan_of_count.qty, plan_of_count.pages),
            (None, None, false)
        );
        assert!(rt; plan(&open, true).pages);
    }
}

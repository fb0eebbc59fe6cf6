//! The months of a range that it has in part.
ghost use Rattle.std.specs.Prelude.{◌≡◌, ◌&&◌, ℕ, nat_lt};
ghost use Rattle.column_bins.specs.Plan.{in_stretch, is_met};
ghost use Rattle.column_bins.specs.declared.column.Column.TheVariants.{Ship};
ghost use Rattle.selection.specs.Months.{has_day, AreCut};

use column_bins::{Stretch, plan};
use cubit_base::{Predicate, Range};

/// Of the months that a range meets, those with a day before it, and those with a day behind it.
pub(crate) fn cut_months(range: &Range, met: Stretch) -> (Stretch, Stretch)
    requires { (b : ℕ) → in_stretch met b ≡ is_met Ship range.now b }
    ensures { AreCut range.now met result.0 result.1 }
{
    (
        common(met, months_before(range)),
        common(met, months_behind(range)),
    )
}

// The months with a day before a range.
fn months_before(range: &Range) -> Stretch
    ensures { (month : ℕ) → in_stretch result month ≡ has_day (λ day. nat_lt day range.now.lo) month }
{
    match range.lo.checked_sub(1) {
        Some(hi) => months_of(Range { lo: 0, hi }),
        None => Stretch { first: 0, after: 0 },
    }
}

// The months with a day behind a range.
fn months_behind(range: &Range) -> Stretch
    ensures { (month : ℕ) → in_stretch result month ≡ has_day (λ day. nat_lt range.now.hi day) month }
{
    match range.hi.checked_add(1) {
        Some(lo) => months_of(Range { lo, hi: u16::MAX }),
        None => Stretch { first: 0, after: 0 },
    }
}

// The months with a day in a range.
fn months_of(range: Range) -> Stretch
    ensures { (b : ℕ) → in_stretch result b ≡ is_met Ship range b }
{
    let predicate = Predicate {
        ship: Some(range),
        disc: None,
        qty: None,
        flag: None,
        status: None,
    };
    plan(&predicate, false).ship.unwrap()
}

// The bins that lie in both stretches.
fn common(a: Stretch, b: Stretch) -> Stretch
    ensures { (bin : ℕ) → in_stretch result bin ≡ (in_stretch a bin && in_stretch b bin) }
{
    Stretch {
        first: a.first.max(b.first),
        after: a.after.min(b.after),
    }
}

//! How seats of a shared log are split and joined.

use super::views::SeatView;
use atomic_table::{Join, Split};

/// The opening gives the next author's pass.
pub struct GivesPass;

impl Split<SeatView> for GivesPass {
    ghost use Rattle.std.specs.Prelude.{◌+◌};
    ghost use Rattle.shared_log.specs.declared.views.SeatView.TheVariants.{Pass, Opening};
    ghost use Rattle.shared_log.specs.Shown.{given_of, new_view};

    ghost left = { λ v. Opening (given_of v + 1) };

    ghost right = { λ v. Pass (new_view (given_of v)) };
}

/// A pass names all that it has seen.
pub struct NamesDate;

impl Split<SeatView> for NamesDate {
    ghost use Rattle.shared_log.specs.declared.views.SeatView.TheVariants.{Pass, Date};
    ghost use Rattle.shared_log.specs.Shown.{pass_of, noting};

    ghost left = { λ v. Pass (noting (pass_of v)) };

    ghost right = { λ v. Date (pass_of v).seen };
}

/// A date is copied.
pub struct CopiesDate;

impl Split<SeatView> for CopiesDate {
    ghost left = { λ v. v };

    ghost right = { λ v. v };
}

/// A pass meets a date.
pub struct MeetsDate;

impl Join<SeatView> for MeetsDate {
    ghost use Rattle.shared_log.specs.declared.views.SeatView.TheVariants.{Pass, Spent};
    ghost use Rattle.shared_log.specs.Shown.{pass_of, prefix_of, meeting};

    ghost both = { λ v w. Pass (meeting (pass_of v) (prefix_of w)) };

    ghost spent = { Spent };
}

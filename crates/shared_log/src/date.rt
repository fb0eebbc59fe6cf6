//! Dates of a shared log.

use super::rule::WhichLog;
use super::views::SeatView;
use atomic_table::Seat;
use cubit_base::Delta;
use std::marker::{Model, PhantomData};

/// It names a prefix of the log, and may be met by any pass of it. Contracts see it as that prefix.
#[derive(Drop)]
pub struct Date<W: WhichLog> {
    pub(super) seat: Seat<Delta, SeatView>,
    pub(super) which: PhantomData<W>,
}

impl<W: WhichLog> Model for Date<W> {
    ghost use Rattle.std.specs.Prelude.{◌≡◌, List, []};
    ghost use Rattle.cubit_base.specs.declared.delta.Delta.{Delta as DeltaValue};
    ghost use Rattle.shared_log.specs.Shown.{prefix_of};
    ghost use Rattle.shared_log.specs.declared.views.SeatView.TheVariants.{Date};

    ghost Value = { List DeltaValue };

    ghost view = { λ d. prefix_of d.seat.me.0 };

    ghost invariant = { λ d. (d.seat.table_id ≡ W.table) × (d.seat.me.0 ≡ Date (prefix_of d.seat.me.0))
        × (d.seat.me.1 ≡ []) };
}

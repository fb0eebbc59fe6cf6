//! What each step on the table of a shared log tells the pass that takes it.

use super::rule::LogTerms;
use super::views::SeatView;
use atomic_table::Play;
use cubit_base::Delta;
use std::marker::PhantomData;

/// A load of the tail.
pub struct LoadsTail<T> {
    terms: PhantomData<T>,
}

impl<T: LogTerms> Play<Delta, SeatView> for LoadsTail<T> {
    ghost use Rattle.shared_log.specs.Told.{tells_tail};

    ghost then = { tells_tail T.terms };
}

/// A load of a link.
pub struct LoadsLink<T> {
    terms: PhantomData<T>,
}

impl<T: LogTerms> Play<Delta, SeatView> for LoadsLink<T> {
    ghost use Rattle.shared_log.specs.Told.{tells_link};

    ghost then = { tells_link T.terms };
}

/// A load of a payload word.
pub struct LoadsPayload<T> {
    terms: PhantomData<T>,
}

impl<T: LogTerms> Play<Delta, SeatView> for LoadsPayload<T> {
    ghost use Rattle.shared_log.specs.Told.{tells_payload};

    ghost then = { tells_payload T.terms };
}

/// A store of a payload word.
pub struct StoresWord<T> {
    terms: PhantomData<T>,
}

impl<T: LogTerms> Play<Delta, SeatView> for StoresWord<T> {
    ghost use Rattle.shared_log.specs.Told.{tells_store};

    ghost then = { tells_store T.terms };
}

/// An exchange of a link.
pub struct SwapsLink<T> {
    terms: PhantomData<T>,
}

impl<T: LogTerms> Play<Delta, SeatView> for SwapsLink<T> {
    ghost use Rattle.shared_log.specs.Told.{tells_swap_link};

    ghost then = { tells_swap_link T.terms };
}

/// An exchange of the tail.
pub struct SwapsTail<T> {
    terms: PhantomData<T>,
}

impl<T: LogTerms> Play<Delta, SeatView> for SwapsTail<T> {
    ghost use Rattle.shared_log.specs.Told.{tells_swap_tail};

    ghost then = { tells_swap_tail T.terms };
}

//! The rule of the table of a shared log.
ghost use Rattle.atomic_table.specs.Seated.{TableId};
ghost use Rattle.log_core.specs.Terms.{CoreTerms};

use super::views::SeatView;
use atomic_table::TableRule;
use cubit_base::Delta;
use std::marker::{Brand, PhantomData};

/// The base table, the shares and the limits of a log, for contracts alone. The function round a whole session picks
/// them.
pub trait LogTerms {
    ghost terms: { CoreTerms };
}

impl LogTerms for Brand {
    ghost use Rattle.std.specs.Prelude.{[]};

    ghost terms = { record {
      base = [];
      shares = [];
      limits = record { row_limit = 0; log_limit = 0; tries = 0 };
    } };
}

/// Which table a log lies in, for contracts alone. It is picked once the log is made.
pub trait WhichLog {
    ghost table: { TableId };
}

impl WhichLog for Brand {
    ghost use Rattle.std.specs.Prelude.{[]};

    ghost table = { record {
      words = 0;
      slots = 0;
      views_name = 0;
      atom = 0;
      block = 0;
      offset = 0;
      slot_names = [];
    } };
}

/// The words and the views show a sound core on the terms of the log.
pub struct LogRule<T> {
    terms: PhantomData<T>,
}

impl<T: LogTerms> TableRule<Delta, SeatView, ()> for LogRule<T> {
    ghost use Rattle.shared_log.specs.declared.views.SeatView.TheVariants.{Opening};
    ghost use Rattle.shared_log.specs.Shown.{IsRuled};

    ghost holds = { λ _ state. IsRuled T.terms state };

    ghost first = { λ _. Opening 0 };
}

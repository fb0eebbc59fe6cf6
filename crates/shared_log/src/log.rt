//! A shared log, and the opening that gives its passes.
ghost use Rattle.std.specs.Prelude.{◌≡◌, ◌+◌, ◌*◌, ◌<◌, ◌≤◌, length, sum, IfOk};
ghost use Rattle.log_core.specs.Terms.{share, first_node, AreTerms};
ghost use Rattle.shared_log.specs.Shown.{new_view};

use super::rule::{LogRule, LogTerms, WhichLog};
use super::seat::PassSeat;
use super::splits::GivesPass;
use super::views::SeatView;
use atomic_table::{Seat, Table};
use cubit_base::{Delta, Limits, Memory};
use std::alloc::Global;
use std::marker::{Model, PhantomData};

/// A log that several callers append to at once, at 40 bytes a node.
#[derive(Drop)]
pub struct SharedLog<T: LogTerms> {
    pub(super) table: Table<Delta, SeatView, (), LogRule<T>, Global>,
    pub(super) shares: Vec<u32>,
    pub(super) base_rows: u32,
    pub(super) limits: Limits,
}

impl<T: LogTerms> Model for SharedLog<T> {
    ghost use Rattle.std.specs.Prelude.{◌≡◌, length};
    ghost use Rattle.atomic_table.specs.Seated.{TableId};
    ghost use Rattle.shared_log.specs.Made.{IsMade};

    ghost Value = { TableId };

    ghost view = { λ log. log.table.shared.table_id };

    ghost invariant = { λ log.
        IsMade T.terms log.table.shared.table_id log.shares.items log.base_rows log.limits };
}

/// It gives the passes of a log, one for each share.
#[derive(Drop)]
pub struct Opening {
    pub(super) seat: Seat<Delta, SeatView>,
    pub(super) given: u8,
}

impl Model for Opening {
    ghost use Rattle.std.specs.Prelude.{◌≡◌};
    ghost use Rattle.shared_log.specs.Made.{OpeningValue};
    ghost use Rattle.shared_log.specs.declared.views.SeatView.TheVariants.{Opening};

    ghost Value = { OpeningValue };

    ghost view = { λ o. record { table = o.seat.table_id; given = o.given } };

    ghost invariant = { λ o. o.seat.me.0 ≡ Opening o.given };
}

impl<T: LogTerms> SharedLog<T> {
    /// An empty log over a base table with so many rows, in which each author has its share of deltas: 0 is none. Later
    /// calls take no memory.
    pub fn make(
        alloc: Global,
        base_rows: u32,
        shares: &[u32],
        limits: Limits,
    ) -> Result<(SharedLog<T>, Opening), Memory>
        requires base { base_rows ≡ length T.terms.base }
        requires shares { shares.now ≡ T.terms.shares }
        requires limits { limits ≡ T.terms.limits }
        requires terms { AreTerms T.terms }
        ensures { IfOk result (λ made. made.1 ≡ record { table = made.0; given = 0 }) }
    {
        log_core::laws::nodes();
        let words = vec![in alloc; 0; word_count(shares)]?;
        let shares = shares.to_vec(alloc)?;
        let (table, seat) = Table::of_words(alloc, words.as_slice(), &())?;
        let log = SharedLog {
            table,
            shares,
            base_rows,
            limits,
        };
        Ok((log, Opening { seat, given: 0 }))
    }

    /// The seat of the next author's pass.
    pub(super) fn seat<'a, W: WhichLog>(&'a self, opening: &mut Opening) -> PassSeat<'a, T, W>
        requires log { opening.old.table ≡ self.now }
        requires which { self.now ≡ W.table }
        requires share { opening.old.given < length T.terms.shares }
        ensures opening { opening.new ≡ record opening.old { given = opening.old.given + 1 } }
        ensures seat { result ≡ new_view opening.old.given }
    {
        let seat = self.table.shared.split_seat::<GivesPass>(&mut opening.seat);
        opening.given += 1;
        PassSeat {
            log: self,
            seat,
            which: PhantomData,
        }
    }
}

impl Opening {
    /// How many passes it gave.
    pub fn given(&self) -> u8
        ensures { result ≡ self.now.given }
    {
        self.given
    }
}

impl<T: LogTerms> SharedLog<T> {
    /// The first node of an author.
    pub(super) fn first_node(&self, author: u8) -> u32
        requires { author < length T.terms.shares }
        ensures value { result ≡ first_node T.terms author }
        ensures small { result ≤ 4_194_305 }
    {
        let mut first = 1;
        for i in 0..usize::from(author) {
            first += self.shares[i];
        }
        first
    }

    /// How many deltas an author may append.
    pub(super) fn share(&self, author: u8) -> u32
        requires { author < length T.terms.shares }
        ensures { result ≡ share T.terms author }
    {
        self.shares[usize::from(author)]
    }
}

// How many words there are: the tail, and five for each node.
fn word_count(shares: &[u32]) -> usize
    requires { sum shares.now ≤ 4_194_304 }
    ensures { result ≡ 5 * (1 + sum shares.now) + 1 }
{
    let mut count = 6;
    for share in shares {
        count += 5 * *share as usize;
    }
    count
}

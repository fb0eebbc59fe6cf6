//! The seat of a pass, and its steps: one function for each kind, which says what the step tells.
ghost use Rattle.std.specs.Prelude.{◌≡◌, ℕ, ◌+◌, ◌*◌, ◌<◌, length};
ghost use Rattle.cubit_base.specs.declared.entry.Entry.{Entry as EntryValue};
ghost use Rattle.log_core.specs.Terms.{node_count};
ghost use Rattle.shared_log.specs.Shown.{noting, meeting};
ghost use Rattle.shared_log.specs.Calls.{TakesFront, MeetsDate as DateMet};
ghost use Rattle.shared_log.specs.Steps.{Knows, IsNext, MayPut, MayTurn};
ghost use Rattle.shared_log.specs.Told.{LoadsTail as TailLoaded, LoadsLink as LinkLoaded, LoadsPayload as PayloadLoaded, StoresWord as WordStored, SwapsLink as LinkSwapped, SwapsTail as TailSwapped};

use super::date::Date;
use super::fronts::{behind, front_at};
use super::laws::core;
use super::log::SharedLog;
use super::plays::{LoadsLink, LoadsPayload, LoadsTail, StoresWord, SwapsLink, SwapsTail};
use super::rule::{LogTerms, WhichLog};
use super::splits::{CopiesDate, MeetsDate, NamesDate};
use super::views::SeatView;
use atomic_table::Seat;
use commit_log::Front;
use cubit_base::{Delta, Limits};
use std::marker::{Model, PhantomData};

/// The seat of a pass at the table of its log. Contracts see it as what the pass knows.
#[derive(Drop)]
pub struct PassSeat<'a, T: LogTerms, W: WhichLog> {
    pub(super) log: &'a SharedLog<T>,
    pub(super) seat: Seat<Delta, SeatView>,
    pub(super) which: PhantomData<W>,
}

impl<'a, T: LogTerms, W: WhichLog> Model for PassSeat<'a, T, W> {
    ghost use Rattle.std.specs.Prelude.{◌≡◌};
    ghost use Rattle.log_core.specs.Terms.{AreTerms};
    ghost use Rattle.shared_log.specs.Shown.{pass_of};
    ghost use Rattle.shared_log.specs.declared.views.PassView.{PassView};
    ghost use Rattle.shared_log.specs.declared.views.SeatView.TheVariants.{Pass};

    ghost Value = { PassView };

    ghost view = { λ s. pass_of s.seat.me.0 };

    ghost invariant = { λ s. (s.seat.table_id ≡ s.log.now) × (s.log.now ≡ W.table)
        × (s.seat.me.0 ≡ Pass (pass_of s.seat.me.0)) × AreTerms T.terms };
}

impl<'a, T: LogTerms, W: WhichLog> PassSeat<'a, T, W> {
    /// Loads the tail.
    pub(super) fn load_tail(&mut self) -> u64
        ensures { TailLoaded T.terms self.old result self.new }
    {
        core();
        let log = self.log;
        log.table.shared.load::<LoadsTail<T>>(&mut self.seat, 0)
    }

    /// Loads the link of a node that the pass knows.
    pub(super) fn load_link(&mut self, node: u64) -> u64
        requires known { (place : ℕ) × Knows T.terms self.old node place }
        requires inside { node < node_count T.terms }
        ensures { (place : ℕ) → Knows T.terms self.old node place →
            LinkLoaded T.terms self.old node place result self.new }
    {
        core();
        let log = self.log;
        log.table
            .shared
            .load::<LoadsLink<T>>(&mut self.seat, 5 * node as usize + 5)
    }

    /// Loads a word of the payload of a node that the pass knows.
    pub(super) fn load_payload(&mut self, node: u64, word: u64) -> u64
        requires known { (place : ℕ) × Knows T.terms self.old node place }
        requires inside { node < node_count T.terms }
        requires word { word < 4 }
        ensures { (place : ℕ) → Knows T.terms self.old node place →
            PayloadLoaded T.terms self.old node place word result self.new }
    {
        core();
        let log = self.log;
        log.table
            .shared
            .load::<LoadsPayload<T>>(&mut self.seat, 5 * node as usize + word as usize + 1)
    }

    /// Stores a word of the pass's next node.
    pub(super) fn store(&mut self, node: u64, word: u64, value: u64)
        requires next { IsNext T.terms self.old node }
        requires inside { node < node_count T.terms }
        requires word { word < 4 }
        ensures { WordStored T.terms self.old node word value self.new }
    {
        core();
        let log = self.log;
        log.table.shared.store::<StoresWord<T>>(
            &mut self.seat,
            5 * node as usize + word as usize + 1,
            value,
        );
    }

    /// Exchanges an empty link for the pass's next node, in which it stored an entry with this delta.
    pub(super) fn swap_link(&mut self, node: u64, to: u64, delta: &Delta) -> u64
        requires may { (place : ℕ) × (e : EntryValue) × MayPut T.terms self.old node to place e
            × (e.delta ≡ delta.now) }
        requires inside { node < node_count T.terms }
        ensures { (place : ℕ) (e : EntryValue) → MayPut T.terms self.old node to place e → e.delta ≡ delta.now →
            LinkSwapped T.terms self.old node to place delta.now result self.new }
    {
        core();
        let log = self.log;
        log.table
            .shared
            .compare_exchange_with::<SwapsLink<T>>(
                &mut self.seat,
                5 * node as usize + 5,
                0,
                to,
                delta,
            )
    }

    /// Exchanges the tail, where it is at a node, for the node behind that.
    pub(super) fn swap_tail(&mut self, from: u64, to: u64) -> u64
        requires { (place : ℕ) × MayTurn T.terms self.old from to place }
        ensures { (place : ℕ) → Knows T.terms self.old from place →
            TailSwapped T.terms self.old from to place result self.new }
    {
        core();
        let log = self.log;
        log.table
            .shared
            .compare_exchange::<SwapsTail<T>>(&mut self.seat, 0, from, to)
    }

    /// A date of all that the pass has seen.
    pub(super) fn date(&mut self) -> Date<W>
        ensures date { result ≡ self.old.seen }
        ensures pass { self.new ≡ noting self.old }
    {
        core();
        let log = self.log;
        let seat = log.table.shared.split_seat::<NamesDate>(&mut self.seat);
        Date {
            seat,
            which: PhantomData,
        }
    }

    /// Another date of the same prefix.
    pub(super) fn copy(&self, date: &mut Date<W>) -> Date<W>
        ensures copy { result ≡ date.old }
        ensures date { date.new ≡ date.old }
    {
        let log = self.log;
        let seat = log.table.shared.split_seat::<CopiesDate>(&mut date.seat);
        Date {
            seat,
            which: PhantomData,
        }
    }

    /// Joins what a date names. The next step tells that it belongs to the log that the pass has seen.
    pub(super) fn join(&mut self, date: Date<W>)
        ensures { self.new ≡ meeting self.old date }
    {
        core();
        let log = self.log;
        let Date { seat, which: _ } = date;
        log.table
            .shared
            .join_seat::<MeetsDate>(&mut self.seat, seat);
    }

    /// The front of all that the log holds, by three steps.
    pub(super) fn look(&mut self) -> Front
        ensures { TakesFront T.terms self.old result self.new }
    {
        let log = self.log;
        let tail = self.load_tail();
        let link = self.load_link(tail);
        let last = behind(tail, link);
        let counts = self.load_payload(last, 1);
        front_at(last, counts, log.base_rows)
    }

    /// Sees what a date names, by two steps.
    pub(super) fn meet(&mut self, date: Date<W>)
        ensures { DateMet T.terms self.old date self.new }
    {
        let _ = &self.log;
        self.join(date);
        self.load_payload(0, 0);
    }

    pub(super) fn base_rows(&self) -> u32
        ensures { result ≡ length T.terms.base }
    {
        let log = self.log;
        log.base_rows
    }

    pub(super) fn limits(&self) -> Limits
        ensures { result ≡ T.terms.limits }
    {
        let log = self.log;
        log.limits
    }
}

//! What the seats at the table of a shared log know. No value of these types is made: they stand in proofs alone.

use cubit_base::Delta;
use log_core::{Seen, Step};
use std::collections::LinkedList;

/// A step, and what it gave.
pub struct TakenStep {
    pub step: Step,
    pub gave: Seen,
}

/// What a pass knows.
pub struct PassView {
    /// The author of its deltas.
    pub author: u8,
    /// The prefix of the log that it has seen.
    pub seen: LinkedList<Delta>,
    /// The greatest end at which it has seen the tail.
    pub reached: u32,
    /// The tail that it loaded last.
    pub last: u32,
    /// How many of its nodes are linked.
    pub used: u32,
    /// All its steps, in order.
    pub trace: LinkedList<TakenStep>,
    /// What it had seen before it met a date, and the date's prefix, until its next step.
    pub had: LinkedList<Delta>,
    pub met: LinkedList<Delta>,
}

/// What a seat knows.
pub enum SeatView {
    /// A pass.
    Pass(PassView),
    /// A date: the prefix that it names.
    Date(LinkedList<Delta>),
    /// The opening: how many passes it gave.
    Opening(u8),
    /// A date that was met.
    Spent,
}

//! Look-ups and changes of single rows, each decided at one front of the log.
//!
//! A call holds the key page of its key once, asks the log for the key's last delta behind that page's version, and so
//! knows the key's live row at a front. A change is decided there and appended once; where another caller's delta came
//! first it reads on from its front and is decided again. All is written over the traits of the log and the store, and
//! proved once for all their forms.
//!
//! # Proved
//!
//! No call takes memory. Each gives its claim back, and keeps what a store has to be to its log and the base
//! (`IsStanding`). It asks for the key's page exactly once and for no other unit, and leaves each version as it was.
//!
//! - `lookup`: the key's live row, or none exactly where it has none, at the front of all that was seen (`IsFound`). Of
//!   the log's handle only what it has seen changes, and that it looked once.
//! - `insert`, `update`, `delete` (`IsChanged`): the handle reads on, past deltas of others alone, to a place where the
//!   change comes to a delta, and this delta is appended there, once; or to one where the change comes to the stop that
//!   is answered, with the front of all that was seen, and nothing is appended. What a change comes to is one function
//!   of the table there (`outcome`).
//! - Steps: a look-up takes at most a hold's, a front's and 5 for each delta behind the page's version, or behind the
//!   base where a turn was lost or versions are not told. A change takes at most 12 more, and 12 more for each delta of
//!   another author that it met, so it tries at most once more than there are such deltas.
//! - `laws`: what follows for the handle and for a change that begins later.
//!
//! # Not said
//!
//! Time, and how many entries a change walks over after others came first.
//!
//! # Example
//!
//! ```
//! match update(log, store, base, &key, &tuple, tries, steps) {
//!     Ok(placed) => println!(rt; "row {} at {}", placed.row, placed.place)?,
//!     Err(OpStop::Missing(front)) => println!(rt; "no such key at {}", front.len)?,
//!     Err(stop) => return Err(stop.into()),
//! }
//! ```
#![tactic(auto)]

mod change;
pub mod laws;
mod live;
mod outcome;
mod point;
mod settle;

pub use outcome::{OpStop, Placed};
pub use point::{delete, insert, lookup, update};

#[cfg(test)]
mod tests;

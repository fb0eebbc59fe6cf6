//! One log of changes, as each of its callers sees it, and its form for one caller.
//!
//! A log is a history of deltas over a base table, within limits. A `Front` names a prefix of it, an `Entry` is a delta
//! in its place. Each caller has a handle, which has seen a prefix, and sees more where it takes a front, meets a date
//! of another caller, or tries to append. The layers above are written over `CommitLog`, and proved once for all forms.
//!
//! # Proved
//!
//! Contracts see a handle as a `Handle`, and what never changes as `Terms`. No call takes memory but `make`.
//!
//! - `CommitLog`, of every form: what was seen stays a prefix and is a lawful history within the limits (`IsLog`), and
//!   each call says what it changes and how many steps it takes. `following` gives the entries up to a front in order,
//!   `latest` the last one with a key, and `try_append` appends, or says that the log is full or a delta came before.
//! - `SerialLog` meets it. Each delta in it has author 0, so each place is one of its author's, `front` and `meet` see
//!   nothing new, and `try_append` answers Late exactly where the front is not all of it.
//! - `laws`: what follows for prefixes, handles, appended deltas, and the deltas between two fronts.
//!
//! # Only tested
//!
//! That `SerialLog::make` finds memory where there is some.
//!
//! # Not said
//!
//! How long a call takes. That a front has all that other callers appended: it has all that this one has seen.
//!
//! # Example
//!
//! What a caller of any log walks is the history between two fronts, proved by the trait's clauses (`tests::walk`):
//!
//! ```
//! let to = log.front(steps);
//! let mut deltas = DeltaList::new(alloc);
//! let mut cursor = log.cursor(&from);
//! while let Some(entry) = log.following(&mut cursor, &to, steps) {
//!     deltas.push(entry.delta)?;
//! }
//! ```
#![tactic(auto)]

mod front;
mod handle;
pub mod laws;
mod orders;
mod serial;
mod stored;

pub use cubit_base::Memory;
pub use front::{AppendStop, Cursor, Front};
pub use handle::CommitLog;
pub use serial::{SerialDate, SerialLog, Setup};

#[cfg(test)]
mod tests;

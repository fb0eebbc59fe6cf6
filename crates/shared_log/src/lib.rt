//! A log that up to 64 callers append to at once, without a lock, over a table of atomic words.
//!
//! `SharedLog::make` makes the words and an `Opening`, which gives each author its `Pass`: a handle of the log as
//! `commit_log` has it, which may go to another thread. The log grows where one exchange of an empty link succeeds, and
//! whoever finds the tail late helps it on.
//!
//! # Proved
//!
//! - `laws::steps`: words and views always show a sound core (`log_core`). After a lawful step of a pass, of any of the
//!   eight kinds, they show the core that the step leaves, whichever core was shown; and what a pass may do by what it
//!   knows is lawful in each. `laws::seats`: the same of dates that are named, copied and met, and of new passes.
//!   `laws::cores`: a new log shows the core before any step, and all cores that can be shown have one chain.
//! - How a pass's trace of steps grows: by `front`'s three loads, and it is then all that is seen (`TakesFront`); by at
//!   most as many steps as `try_append` counts, of which exactly one linked a node where the delta was appended, and
//!   else none (`AppendTrace`); by five loads an entry of a walk, a note for a date, a join and one load to meet it.
//! - `Pass` meets `CommitLog`, clause for clause.
//!
//! # Only tested
//!
//! That `SharedLog::make` finds memory where there is some, and that passes on threads of their own get on.
//!
//! # Not said
//!
//! - That the steps made so far are a run of the core: it follows by induction over the laws, and is no clause.
//! - An order in time between callers that never met, progress, fairness, and that two callers ran at once.
//! - How long a call takes. `latest` walks over all entries between its fronts.
//!
//! # Example
//!
//! ```
//! let (log, mut opening) = SharedLog::<T>::make(alloc, base.len(), &[1, 1], limits)?;
//! let mut pass = log.pass::<W>(&mut opening);
//! let at = pass.front(steps);
//! let appended = pass.try_append(&at, &delta, steps); // or Full, or Late with a longer front
//! ```
#![tactic(auto)]

mod append;
mod date;
mod fronts;
mod handle;
pub mod laws;
mod log;
mod pass;
mod plays;
mod rule;
mod seat;
mod splits;
mod views;
mod walk;

pub use cubit_base::Memory;
pub use date::Date;
pub use log::{Opening, SharedLog};
pub use pass::Pass;
pub use rule::{LogRule, LogTerms, WhichLog};
pub use views::{PassView, SeatView, TakenStep};

#[cfg(test)]
mod tests;

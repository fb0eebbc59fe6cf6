//! Workers, which run commands one after another over a log and versions of units, and what their replies come to.
//!
//! # Proved
//!
//! - `Worker::step` (`IsStep`): each command is answered by the calls of the layers below, and the reply tells what
//!   they came to: a change or a drop of an order, line by line, a look-up, a query, or a merge of all units. Queries
//!   and merges alone can run out of memory; they append nothing then. The worker stays what it has to be to its log
//!   and the base (`standing`).
//! - `laws::steps`: each reply answers its command over all deltas that the worker has seen then (`answers`). Nothing
//!   that it knew is forgotten, its marks do not fall, and its own deltas are more by exactly those that the reply
//!   tells (`adds`). A command places no more deltas than it weighs (`spare`).
//! - `run_script`: one script's replies and journal are a run (`IsRun`). The journal is a history over the base within
//!   the limits. Each command has its reply, in order. A change is answered by what it comes to behind some of the
//!   journal's deltas, and where that is a delta, it stands there; a query and a look-up by the plain table behind
//!   some of them. The worker's changes are the journal's entries, each once and in order, and there are no others.
//! - `run_script` (`alone`, `IsAlone`): the worker has its log and its store to itself, so a query's units are brought
//!   on by as many deltas as were placed since the last merge, and by none where it needs no unit. A merge finds all
//!   units fresh where none were placed since the last one, and else merges all; none is busy.
//! - `laws::parts` and `laws::alone` carry the two on, from one command to the next.
//!
//! # Only tested
//!
//! That a script finds memory where there is some, and a worked report with every form of command, byte for byte;
//! `cubit_cli` has more of them.
//!
//! # Not said
//!
//! How long a script takes.
//!
//! # Example
//!
//! ```
//! let outcome = run_script(alloc, &base, &script, &limits)?;
//! let report = report_text(alloc, &outcome.replies, &outcome.journal)?;
//! ```
#![tactic(auto)]

pub mod laws;
mod replies;
mod script;
#[cfg(test)]
mod tests;
mod worker;

pub use cubit_base::Memory;
pub use script::{Outcome, run_script};
pub use worker::Worker;

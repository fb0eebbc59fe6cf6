//! Merges: versions of units that follow the log.
//!
//! A merge holds a unit's version, walks from it to a front, patches what it holds, gives the claim back and puts the
//! new version in its place. All is written over the traits of the log and the store, and proved once for all forms.
//!
//! # Proved
//!
//! Each call gives its claims back, appends nothing, takes one front, and keeps what a store has to be to its log and
//! the base (`IsStanding`).
//!
//! - `merge` (`MergesNow`): the unit is asked for once. Merged: its version, which was shorter, is now that of all that
//!   was seen. Fresh: it is as long as all that was seen when the front was taken, or longer. Busy: a turn was lost. No
//!   other version changes, and without memory none does.
//! - `merge_all` (`IsAllMerged`): each unit is asked for once and counted once, as busy only where a turn was lost.
//!   Where nothing more was seen meanwhile and no turn was lost, each version, as far as versions are told, stands at
//!   the front of all that was seen; those that stood there already are counted as fresh, and the others as merged.
//!
//! # Only tested
//!
//! That merges find memory where there is some.
//!
//! # Not said
//!
//! - How many steps a merge takes, and time.
//! - Which versions were carried on before memory ran out in `merge_all`: those that were stay.
//!
//! # Example
//!
//! ```
//! let count = merge_all(alloc, log, store, base, tries, steps)?;
//! println!(rt; "{} carried on, {} busy", count.merged, count.busy)?;
//! ```
#![tactic(auto)]

mod all;
mod digest;
mod one;
mod order;
mod outcome;

pub use all::merge_all;
pub use cubit_base::Memory;
pub use one::merge;
pub use outcome::{Merge, MergeCount};

#[cfg(test)]
mod tests;

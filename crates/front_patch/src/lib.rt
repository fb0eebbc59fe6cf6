//! Versions of units that one caller holds, of whatever ages, seen at one front.
//!
//! A query holds the versions of its plan's units as they stand, takes one front, walks the deltas once from the
//! shortest version on, and keeps the last state of each row that they changed. What a unit shows at the front is then
//! what its version holds, but for these rows: so versions of different ages are patched by one list. A unit whose
//! hold was given up is served by the base's content, which is a version of length 0.
//!
//! # Proved
//!
//! Contracts see a `Taken` as a `TakenValue`: what had been seen, the front, the least length, and the claims of the
//! plan's units (`units_of`). All calls but `take` take no memory.
//!
//! - `take`: the front is that of all that was seen in the end, and what was seen before is a prefix of it; how many
//!   deltas it walks, how many steps it takes at most, how many claims are out, how many holds were given up and how
//!   many turns that cost; each unit of the plan was held once, and no other (`Takes`). Without memory no claim stays
//!   out. Whatever it answers, versions stay, and of the log's handle only what it has seen and counted changes.
//! - `Taken::window`, `stretch`, `page`, `tuple`, `PageAtFront::get`: the groups and the tuples of the base's table
//!   after all deltas up to the front, for versions of any ages; each tuple that is read counts one read.
//! - `Taken::front`, `patched`, `fallbacks`: what these words say. `close`: each claim was given back.
//! - `laws`: which units a plan has, and how many.
//!
//! # Only tested
//!
//! That `take` finds memory where there is some.
//!
//! # Not said
//!
//! How long a call takes, and how much memory `take` needs: at most 20 bytes for each delta that it walks, twice, and 8
//! for its place, twice.
//!
//! # Example
//!
//! ```
//! let taken = take(alloc, log, store, base, &plan, tries, steps)?;
//! let mut rows = [0; BLOCK_GROUPS];
//! taken.stretch(store, base, Column::Qty, Stretch { first: 0, after: 23 }, 0, &mut rows);
//! taken.close(store);
//! ```
#![tactic(auto)]

mod bits;
mod changed;
mod claims;
mod digits;
pub mod laws;
mod page;
mod patches;
mod planned;
mod row_state;
mod row_test;
mod serving;
mod taken;
mod taking;
mod values;
mod walk;

pub use commit_log::Memory;
pub use page::PageAtFront;
pub use taken::Taken;
pub use taking::take;

#[cfg(test)]
mod tests;

//! A store of a version for each unit of the index, as each of its callers sees it, and its forms for one caller.
//!
//! A version is a front and the content that its unit has after it; at first it is the base's, at the empty front. A
//! caller holds a version to read it, gives the claim back, and may replace the version by a newer one. The layers
//! above are written over `VersionStore`, and proved once for all forms.
//!
//! # Proved
//!
//! Contracts see what a handle tells as a `Store`. No call takes memory but `make`.
//!
//! - `VersionStore`, of every form: `hold` gives a claim of a version that fits (`Fits`), or gives up after as many
//!   lost turns as there are tries; `replace` puts a version in the place of one that is not newer, or says why not
//!   (`Replaces`). What a claim shows stays. Of the log's handle only what it has seen changes. `IsStanding` is what
//!   the layers above ask of a store, its log and the base.
//! - `MemoryStore` meets it, tells everything and loses no turn, so it never answers Again or Busy.
//! - `LosingStore`, for tests, meets it and loses exactly the calls that it is told to lose: a hold all its tries, and
//!   a replacement one turn.
//! - `laws`: what a version that fits shows, that it fits on when more is seen, that losses add up, and that where no
//!   turn is lost no hold is given up and no version is busy.
//!
//! # Only tested
//!
//! That `make` finds memory where there is some.
//!
//! # Not said
//!
//! How many steps `replace` takes. That a hold of a shared store ever wins.
//!
//! # Example
//!
//! What it walks is the log's history from the version on, proved by the clauses of both traits (`tests::held`):
//!
//! ```
//! let claim = store.hold(log, unit, tries, steps)?;
//! let from = store.front(&claim);
//! let walked = deltas_since(alloc, log, &from, steps);
//! store.leave(claim);
//! ```
#![tactic(auto)]

pub mod laws;
mod losing;
mod memory;
mod place;
mod store;

pub use commit_log::Memory;
pub use losing::LosingStore;
pub use memory::{MemoryClaim, MemoryStore};
pub use store::{Again, ReplaceStop, VersionStore};

#[cfg(test)]
mod tests;

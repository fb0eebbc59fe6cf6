//! The core of a log that several parties share: its words, as a value without threads, and what one atomic step of
//! one party may do to them. It is a queue after Michael and Scott, a chain of nodes whose tail may be late by one.
//!
//! Node 0 is the head, and each party has a share of the nodes behind it. A node has four payload words, which hold an
//! entry, and a link. A party stores an entry in its next node, links that behind the last node, and moves the tail on.
//!
//! # Proved
//!
//! Contracts see a `Core` as a `CoreValue`: its words, the chain that they hold, what each party has seen and made, and
//! how many deltas were noted for others.
//!
//! - `Core::make`: the core before any step. `Core::step`: where the step is lawful its answer and the core that it
//!   leaves, by one relation with an equation for each of the eight kinds; else `Unlawful`, and nothing changes
//!   (`ComesTo`). It takes no memory. `Core::is_sound`: a core is sound wherever it is lent or given back (`IsSound`).
//!   So each schedule of any number of parties, stopped anywhere, leaves a sound log.
//! - `laws`: each lawful step leaves a sound core, has one answer, and lets the chain grow at its end alone; the words
//!   decide the chain; the tail is late by one node at most.
//! - One party alone, whatever the others left half done: `laws::front_alone` takes the front of all that is there in
//!   three steps (`TakesFront`); `laws::commit_alone` appends a delta in four stores and at most five steps after them
//!   (`TakesCommit`), wherever `laws::may_commit_alone` says so.
//!
//! # Only tested
//!
//! That `make` finds memory where there is some.
//!
//! # Not said
//!
//! Anything of threads: this is a model of one log. How long a step takes: an exchange of a link that inserts a key
//! looks at each row, and for each at all deltas before it.
//!
//! # Example
//!
//! ```
//! let mut core = Core::make(alloc, &base, &[1, 1], &limits)?;
//! core.step(0, &Step::Store { node: 1, word: 0, value })?;
//! let Seen::Value(tail) = core.step(0, &Step::LoadTail)? else { return };
//! ```
#![tactic(auto)]

pub mod laws;
mod machine;
mod party;
mod step;

pub use cubit_base::Memory;
pub use machine::Core;
pub use party::Party;
pub use step::{Seen, Step, Unlawful};

#[cfg(test)]
mod tests;

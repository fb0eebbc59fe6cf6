//! Units: the parts of the index that are kept and changed each as a whole; what each of them holds over a table, and
//! after changes of it. docs/DEFINITIONS.md says the words of the contracts in plain language.
//!
//! A bitvector has a truth value for each row, in the words of `wah_words`. A page has the tuples of 3,968 rows, in a
//! word each. A key page has the live rows of the keys whose order leaves one rest by 64, in 16 bytes each and in the
//! order of keys; contracts see them in the order of rows. Beside these units a base keeps 27 unions of neighbouring
//! bins in plain groups.
//!
//! # Proved
//!
//! - `Base::build`: the base is of the table and the row room that were given. `Base::content`: what a unit holds is
//!   `content_of` it and the table. `Base::rows`, `row_room`, `pages`, `units`: how many these are. `key_pages`: the
//!   key pages alone. `Base::coarse`: there is a union exactly where `is_kept` says so, and it is that of those bins.
//! - `Page::get`: the tuple at the place, or none where the row is not live and past the last row, and one read more
//!   whatever it answers. No other public call gives a page's tuples. `Keys::find`: the row and the tuple of the live
//!   row with the key, or none exactly where no live row of the page has it.
//! - `patched`, `patched_by` (`IsPatched`): over each table that has the given content of the unit, and over which the
//!   deltas may come, the answer is the content after them. `Changes::of`: the digest is of these deltas. Without
//!   memory nothing that was lent has changed.
//! - `laws`: what a key page finds is the table's live row; the tuples of a page, one by one; the units of an index.
//!
//! # Only tested
//!
//! That `build`, `Changes::of` and `patched` find memory where there is some.
//!
//! # Not said
//!
//! - Time: no clause says how many places a find looks at. Room: how few words a bin keeps of its room.
//!
//! # Example
//!
//! ```
//! let changes = Changes::of(alloc, &deltas)?;
//! let content = patched_by(alloc, unit, base.content(unit), base.rows(), &changes, front.rows)?;
//! ```
#![tactic(auto)]

mod base;
mod changes;
mod content;
mod keys;
pub mod laws;
mod packed;
mod page;
mod patch;
#[cfg(test)]
mod tests;
mod unit;

pub use base::Base;
pub use changes::Changes;
pub use content::Content;
pub use cubit_base::Memory;
pub use keys::{Keys, key_pages};
pub use page::Page;
pub use patch::{patched, patched_by};
pub use unit::Unit;

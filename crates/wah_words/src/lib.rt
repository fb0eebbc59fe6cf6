//! Bitvectors in the word-aligned hybrid code: a list of truth values takes 32-bit words, of which each holds 31 rows
//! as they are or counts equal groups of them. A list has at most one spelling, and operations go over the words of
//! both lists run by run, so that no list is ever expanded to its rows. Callers see a [`Wah`] as the list it spells.
//!
//! # Proved
//!
//! - `Wah::from_rows`, `from_places`: the list of these truth values, or the one that is true at these places alone.
//! - `Wah::from_words`: a bitvector exactly where the words are canonical for that many rows (`canonical`), and then
//!   the list that they spell (`list`), of that length (`rows`).
//! - `Wah::and`, `or`, `xor`, `not`: the operation on each row. `extended`: the list, and false after it. `toggled`:
//!   the same, with the rows at some places turned. `count`, `len`: how many rows are true, and how many there are.
//! - `Wah::words`: the words spell the list (`spelling`), and group k of the words is that of the list (`each_group`).
//! - `PageWriter`: a list pushed page by page, 128 groups each, or without memory none; `push_pages`: pages of other
//!   words as they lie; `finish`: the list of the first rows, and where each page starts. `front_within`: how many
//!   words have at most so many groups.
//! - `turn_rows`: a page with the rows at some places turned. `true_places`: the numbers of its true rows, rising.
//!   `true_rows_of`: how many rows of groups are true.
//! - `one_spelling`, `pages_of_list`, `laws`: lists, their words, pages and groups; operations, counts and turned rows
//!   group by group; exactly which lists have a spelling. `Run::of_word`, `is_literal`: what one word stands for.
//! - Lists that a call is lent stay as they are, and every call returns.
//!
//! # Only tested
//!
//! - That each call that may answer `Memory` succeeds, on lists of up to 130,000 rows (those of `PageWriter` by the
//!   crate `fence_window`, up to 1,000,000), and the words of the form's own examples.
//!
//! # Not said
//!
//! - When there is no memory: `Memory` is free. A call that answers it has let go of what it took.
//! - Time and room, and how few words a list takes. An operation takes a step for each run of either list, and
//!   `toggled` one for each place and the time of a copy of the words.
//!
//! # Example
//!
//! ```
//! let a = Wah::from_rows(alloc, &[true, false, true])?;
//! let either = a.or(alloc, &Wah::from_places(alloc, &[1, 2], 3)?)?;
//! let longer = a.toggled(alloc, &[0, 3], 5)?;    // false, false, true, true, false
//! ```
#![tactic(auto)]

mod block;
mod builder;
mod complement;
mod count;
mod cursor;
mod front;
pub mod laws;
mod operation;
mod page_rows;
mod pages;
mod place;
mod places;
mod run;
mod source;
mod stretch;
mod toggle;
mod turn;
mod wah;
mod walk;

pub use front::{Front, front_within};
pub use page_rows::{true_places, true_rows_of};
pub use pages::{PageWriter, pages_of_list};
pub use place::{PAGE_GROUPS, PAGE_ROWS, Place};
pub use run::{GROUP_ROWS, Run, TRUE_FILL, is_literal};
pub use std::alloc::AllocError as Memory;
pub use turn::turn_rows;
pub use wah::{Wah, one_spelling};

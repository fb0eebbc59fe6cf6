//! Pages of a bitvector: for each 3,968 rows a fence says where in the words they begin, so that a reader of one page
//! walks the words of that page alone. Callers see a [`Fenced`] as the list of its bitvector.
//!
//! # Proved
//!
//! - `Fenced::make`, `wah`: the list is that of the bitvector that was given, and so are its words.
//! - `Fenced::from_pages`: the list of so many rows whose pages were written.
//! - `Fenced::toggled`: the list, with false after it up to a length, and then with the rows at some places turned.
//! - `Fenced::window`: the 128 groups of a page, and 0 where the list has none, at every page number.
//! - `Fenced::or_into`: 4,096 numbers become the or with the groups of 32 pages, and stay where the list has none.
//! - `Fenced::get`: the truth value of a row.
//! - `Plain::from_groups`: the list of so many rows whose groups these are. `or_into`: the same as that of `Fenced`.
//! - No call but `make`, `from_pages` and `toggled` takes memory, and every call returns.
//!
//! # Only tested
//!
//! - That `make` succeeds, on lists of up to 130,000 rows, and on the longest list there is; that `from_pages` does, on
//!   lists of up to 1,000,000 rows.
//!
//! # Not said
//!
//! - Time: no clause says that a window walks only the words of its page.
//! - When there is no memory: `make` lets the bitvector go then, and `from_pages` the pages.
//!
//! # Example
//!
//! ```
//! let fenced = Fenced::make(alloc, Wah::from_places(alloc, &[0, 3_968], 4_000)?)?;
//! let mut page = [0; 128];
//! fenced.window(1, &mut page);
//! assert!(rt; page[0] == 1 && fenced.get(0));
//! ```
#![tactic(auto)]

mod fenced;
mod place;
mod plain;

pub use fenced::{BLOCK_GROUPS, Fenced};
pub use plain::Plain;
pub use wah_words::{Memory, PAGE_GROUPS, PAGE_ROWS, PageWriter};

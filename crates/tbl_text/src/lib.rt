//! The text form of TPC-H's `lineitem` table: lines of sixteen fields between bars, by the grammar of docs/FORMATS.md,
//! each byte judged. A fast reader takes nearly all lines in one pass over the file. A careful reader, which is the
//! definition's own program, reads every line that the fast one gives up on, and finds the first fault.
//!
//! # Proved
//!
//! Each call is safe and returns.
//!
//! - `base_of`: the table of all lines in their order, or the first fault of the file and its line (`value`). A want of
//!   memory says nothing of the file. At most `row_limit` rows (`within`), and no key twice (`distinct`).
//! - `line_of`: the key and the tuple of a line, or its first fault: the number of fields, and then from left to right.
//!   `first_row`: the same of the first line, and what follows it. `LineFault::number`: its number in docs/FORMATS.md.
//! - `delete_keys_of`: the keys of all lines in their order, or the first bad line. A want of memory says nothing of
//!   the file. `first_order`: the key of the first line, if it has one, and what follows it.
//! - `tuple_fields`: the tuple of seven values, or the first fault from left to right (`value`), which is one of theirs
//!   (`fault`). `first_word` cuts off the first word of a line (`cut`, `words`), `space_count` counts its spaces.
//! - `first_line`: none exactly where there are no bytes (`none`); the length of the line (`len`), where the next one
//!   begins (`next`), both within the bytes (`within`); the lines are this one and those from there on (`lines`).
//! - `integer_of`, `money_of`, `quantity_of`, `date_field`, `flag_of`, `status_of`: what the field says, and nothing
//!   where it is spelled in any other way. A date is at most 2556 days after 1992-01-01 (`within`).
//!
//! # Only tested
//!
//! That `delete_keys_of` and `base_of` find memory where there is some, and that the fast reader takes the spellings of
//! TPC-H's generator; what it takes is proved to be the line's value.
//!
//! # Not said
//!
//! How much memory a table takes, that memory is found, how long a call takes, and what `Debug` prints.
//!
//! # Example
//!
//! ```
//! match base_of(alloc, &file, ROW_LIMIT) {
//!     Ok(table) => println!(rt; "{} rows", table.len())?,
//!     Err(fault) => println!(rt; "{fault:?}")?,
//! }
//! ```
#![tactic(auto)]

mod base;
mod careful;
mod deletes;
mod fast;
mod field;
mod line;
mod lines;
mod values;

pub use base::{BaseFault, base_of, first_row};
pub use careful::line_of;
pub use deletes::{KeyFault, delete_keys_of, first_order};
pub use field::{date_field, flag_of, integer_of, money_of, quantity_of, status_of};
pub use line::LineFault;
pub use lines::{Line, first_line};
pub use std::alloc::AllocError as Memory;
pub use values::{first_word, space_count, tuple_fields};

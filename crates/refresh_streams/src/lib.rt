//! A client's commands as a list, a `Script`: read from a file and from the refresh files that it names, by the grammar
//! of docs/FORMATS.md; or made from a seed, with a base table under it.
//!
//! # Proved
//!
//! Contracts see a `Script` as a list of commands, and a `FileName` as a list of bytes.
//!
//! - `script_of`: where it is told what the files hold, the commands of the script and of the files that it names, or
//!   the first trouble in the order of reading: a missing file, or a file, its line, the fault and for fault 1 the number
//!   of fields. `Fault` comes only for a file that reading meets, which is missing or at which the outside failed; a want
//!   of memory says nothing (`value`). Always: the weights are at most the room (`weights`), each order that is dropped
//!   is at least 1 (`orders`), and what is held stays (`held`).
//! - `Script` and `FileName`: `new` is the empty list; `push` puts an item at the end (`ok`), or the list is as before
//!   (`err`); `get`, `len`, `is_empty`, `as_bytes`, `of`: what each says.
//! - `make`: exactly the table and the script of the definition `made`, for each seed and number of orders (`value`).
//!   No key stands twice in the table (`distinct`), and each row is live (`live`). Each order that is dropped is at
//!   least 1 (`orders`), and the script may place at most 700,000 deltas (`weights`).
//!
//! # Only tested
//!
//! That `push`, `make` and `script_of` find memory where there is some.
//!
//! # Not said
//!
//! How random the drawn values are, how much memory a script takes, and how long a call takes.
//!
//! # Example
//!
//! ```
//! let script = script_of(alloc, &mut files, "changes.script", 4_194_304)?;
//! println!(rt; "{} commands", script.len())?;
//! ```
#![tactic(auto)]

mod file_name;
mod generator;
mod reader;
mod script;
mod script_line;
mod seeded;
mod stop;
mod term;

pub use file_name::FileName;
pub use reader::script_of;
pub use script::Script;
pub use seeded::make;
pub use std::alloc::AllocError as Memory;
pub use stop::ScriptStop;

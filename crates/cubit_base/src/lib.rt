//! The rows of TPC-H's `lineitem` table as this product keeps them, what a query over them means, and how they change.
//! A `Table` is a list of rows, each a `Key` and a `Tuple` or none. A `Predicate` selects tuples by a closed range for
//! each column. A `Delta` changes one row, and a history is a list of them. A `Command` is what a client asks for.
//!
//! # Proved
//!
//! Contracts see a `Table`, a `DeltaList` and a `RowList` as lists, and a `Key` or a `Tuple` as a record of numbers
//! that is always within its ranges (`IsKey`, `IsTuple`).
//!
//! - `new` and `with_capacity` of the lists: the empty one. `push`: the item stands at the end (`ok`), or the list is
//!   as before (`err`). `row`, `get`, `len`, `is_empty`, `as_slice`: what it says. A row takes 16 bytes, a delta 48.
//! - `Table::totals`: how many rows match (`count`), and the sum of price times discount over them (`sum`), as in the
//!   definition `answer`. `Predicate::matches`, `Range::contains`, `Tuple::amount`, `number` of flags and statuses:
//!   the definitions. `Predicate::q6`: the ranges of TPC-H's query 6. `Key` compares by order and then by line.
//! - `day_of`: the number of a day from 1992-01-01 to 1998-12-31 on the calendar of `jiff_core`, and none of any other
//!   three numbers. `date_of`: the day with a number. `Tuple::pack`, `Tuple::unpack`: a tuple's word, both ways.
//! - `Command::weight`: how many deltas the command may place at most, by the definition.
//! - `Steps` counts exactly what `tick` says, takes no bytes, and no program reads it.
//! - `laws`: what follows for deltas, histories, rows, live rows, outcomes of changes, and words of tuples.
//!
//! # Only tested
//!
//! That `push` and `with_capacity` find memory where there is some.
//!
//! # Not said
//!
//! That no two rows have one key: a table takes any rows, and `HasDistinctKeys` is the word for those that differ. How
//! much memory a list takes beyond its items, and how long a call takes.
//!
//! # Example
//!
//! ```
//! let mut table = Table::new(alloc);
//! let (price, day, flag, status) = (2_116_823, 1533, Flag::N, LineStatus::O);
//! let tuple = Tuple { price, day, qty: 17, disc: 4, tax: 2, flag, status };
//! table.push(Key { order: 1, line: 1 }, Some(tuple))?;
//! let totals = table.totals(&Predicate::q6(1996, 5, 24));
//! ```
#![tactic(auto)]

mod command;
mod date;
mod delta;
mod entry;
mod key;
pub mod laws;
mod predicate;
mod row_list;
mod steps;
mod table;
mod tuple;

pub use command::Command;
pub use date::{date_of, day_of};
pub use delta::{Delta, DeltaList};
pub use entry::{Entry, Limits};
pub use key::Key;
pub use predicate::{Predicate, Range};
pub use row_list::RowList;
pub use std::alloc::AllocError as Memory;
pub use steps::Steps;
pub use table::{ROW_LIMIT, Table, Totals};
pub use tuple::{Flag, LineStatus, Tuple};

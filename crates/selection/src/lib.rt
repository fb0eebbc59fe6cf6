//! Queries over the index: the rows that match a predicate, how many they are, and what they add up to.
//!
//! A query takes the versions of its plan's units at one front and goes over the rows 32 pages at a time. It begins
//! with every row, or with the live ones where no column is restricted, and keeps, column by column, those whose bin
//! the range meets: the candidates. Where every month that the range meets is met whole, these are the rows that
//! match. Else the day decides in the months that are met in part, and there the tuples are read.
//!
//! # Proved
//!
//! Over any log and store, and for versions of whatever ages:
//!
//! - `rows`, `count`, `sum` answer what `answer` says of the base's table after all deltas that the log's handle has
//!   seen in the end (`Lists`, `Counts`, `Sums`). The front is that of these deltas, and what was seen before is a
//!   prefix of them. Each unit of the plan was held once, and no other; `patched` is how many deltas lie between the
//!   oldest of these versions and the front, and as many entries were walked over (`IsAnswered`).
//! - Steps: at most two fronts', 5 for each of these deltas, and a hold's for each unit that the query needs
//!   (`query_steps`).
//! - Reads: `sum` reads the tuple of each candidate, once. `rows` and `count` read those of the candidates alone whose
//!   month is met in part, so none where no month is.
//! - Whatever they answer, no claim stays out, versions stay as they were, of the log's handle only what it has seen
//!   and counted changes, and the store stays what it has to be to the log and the base (`IsStanding`).
//!
//! # Only tested
//!
//! That they find memory where there is some.
//!
//! # Not said
//!
//! How long a query takes, and that its memory beside that of `take` is the list that it answers.
//!
//! # Example
//!
//! ```
//! let answer = sum(alloc, log, store, base, &Predicate::q6(1994, 6, 24), tries, steps, reads)?;
//! println!(rt; "count={} at front {}", answer.count, answer.front.len)?;
//! ```
#![tactic(auto)]

mod adding;
mod answer;
mod asked;
mod block;
mod groups;
pub mod laws;
mod matching;
mod months;
mod page_rows;
mod query;
mod scan;

pub use answer::{CountAnswer, RowsAnswer, SumAnswer};
pub use commit_log::Memory;
pub use query::{count, rows, sum};

#[cfg(test)]
mod tests;

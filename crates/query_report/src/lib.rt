//! The texts of the program: replies and the journal of a run, which together are its report and are read again from
//! it, the line of an answer, the lines of a drill, and what standard error is told. Each is fixed byte for byte:
//! docs/FORMATS.md. `ReplyTable` keeps the replies of all workers.
//!
//! # Proved
//!
//! - `reply_text`: the line of a worker's reply to a command (`reply_line`), one form for each kind of reply.
//! - `journal_text`: the number of the deltas, and the line of each in order (`journal_bytes`). A date is the day so
//!   many days after 1 January 1992 on the calendar (`date_at`).
//! - `report_text`: all lines of replies, worker by worker, and then the journal (`report_bytes`). `report_of`: the
//!   report that has these bytes (`some`), which no other has (`one`), or none exactly where no report has (`none`).
//! - `ReplyTable`: contracts see it as a list of replies for each worker. `add`: the reply stands at the end of the
//!   worker's list, and lists that were missing before it are empty (`ok`), or nothing changed (`err`). `get`, `len`,
//!   `workers`: what that list has.
//! - `decimal4`, `answer_line`: a sum with four digits behind its point; the line of a count and a sum (`answer_text`).
//! - `drill_text`: the two lines of what a drill came to (`drill_text`).
//! - `Stop::tell`: a sink takes the text of why a call stopped (`stop_text`), in order and as far as it goes, and all
//!   of it unless it fails (clause `text`). It takes no memory, so it can say that memory ran out.
//!
//! # Only tested
//!
//! That the texts are the ones meant: a row for each of them, with the least and the greatest numbers.
//!
//! # Not said
//!
//! - That memory is found for a text, a reply or a report.
//! - What a sink does with what it took.
//! - That a reply is true of anything: a table takes any replies.
//!
//! # Example
//!
//! ```
//! replies.add(alloc, 0, Reply::Missing { front: log_len })?;
//! let text = report_text(alloc, &replies, &deltas)?;
//! let same = report_of(alloc, &text)?;
//! ```
#![tactic(auto)]

mod answer;
mod decimal;
mod drill;
mod journal;
mod piece;
mod reader;
mod refusal;
mod reply;
mod reply_table;
mod report;
mod stop;

pub use answer::answer_line;
pub use decimal::decimal4;
pub use drill::{Drill, drill_text};
pub use journal::journal_text;
pub use refusal::{Detail, Refusal};
pub use reply::{DropLine, Reply, reply_text};
pub use reply_table::ReplyTable;
pub use report::{Report, report_of, report_text};
pub use std::alloc::AllocError as Memory;
pub use stop::Stop;

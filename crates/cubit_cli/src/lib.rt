//! The program's top call: words, files and two sinks in; a command's text, or why there is none, and a status, out.
//! `q6` answers one query over a base file, `run` the commands of a script, `drill` those of a made script.
//!
//! # Proved
//!
//! - `run` has one contract, `IsCall`. A call ends in one of six ways, and for each it says what was the cause, what
//!   the output and standard error took, and the status (`Ends`, `IsTold`, `status_of`): the table of docs/FORMATS.md.
//!   What the files hold stays, and no count of faults falls (`GoesOn`).
//! - What a command may write is `IsReply`. A query's text is the line of its answer over the table of its base. A
//!   run's is the report of replies and a journal that are a run (`IsRun` of `cubit_session`) of the script's commands
//!   over the table of the base, within the limits of the words, by a worker that is alone (`IsAlone`); no more rows
//!   are made room for than there may be (`row_room`). A drill's is the two lines of such a run of the made script over
//!   the made table, with the last reply; it reads no file, so this is said whatever the files tell.
//! - `laws::statuses`, for every call: where Usage comes (`usage`), that there is no answer where a file is in the way
//!   (`trouble`), that the files decide where nothing failed and memory lasts (`complete`), what was written on Done
//!   (`written`, and `drilled` of a drill), and that a drill is never refused (`drill`). `Status::code`: the exit
//!   status.
//!
//! # Only tested
//!
//! - Worked queries, runs and drills byte for byte; bases of no line, of three and of 10,000; tables of words, of
//!   spellings and of damaged lines, scripts and refresh files; each call of files and sinks failing in turn.
//! - That a call which can answer Memory does answer where there is memory.
//!
//! # Not said
//!
//! - Where files do not tell what they hold, as the real ones do not, which answer or report is written: the clauses
//!   then say the causes of each ending, the names of files and the form of what is told.
//! - How long a call takes, and how much memory.
//!
//! # Example
//!
//! ```
//! let mut files = DiskFiles::make(&rt);
//! let mut out = StdSink::out(&rt);
//! let mut err = StdSink::err(&rt);
//! let status = run(rt.alloc(), &words, &mut files, &mut out, &mut err);
//! ExitCode::from(status.code())
//! ```
#![tactic(auto)]

mod asked;
mod base;
mod call;
mod drill;
mod halt;
mod index;
pub mod laws;
mod script;
mod session;
mod status;
#[cfg(test)]
mod tests;
mod text;
mod words;

pub use call::run;
pub use query_report::{Detail, Refusal};
pub use status::Status;

//! Files and sinks whose contracts say what was read, what was taken, and when a call may fail.
//!
//! Code that reads or writes is generic over `Files` and `Sink`. `MemoryFiles` and `MemorySink` tell all that they hold
//! and took; they are for tests. `DiskFiles` and `StdSink` stand for the real outside, and tell only how often it
//! failed. What is said of bytes holds where they are told; what is said of failures holds for all.
//!
//! # Proved
//!
//! - `Files` (`IsBegin`, `IsRead` in `specs/Files.antt`): which file is chosen, that each read gives its next bytes,
//!   and 0 only at its end, and that a call fails only where the name is missing or the count of faults rose.
//! - `Sink` (`IsWrite` in `specs/Sink.antt`): a front of the bytes is taken, of at least one; it fails only where
//!   the count of faults rose, and then took nothing.
//! - `read_all` (`IsWholeRead` in `specs/Whole.antt`): all bytes of the file, at most `FILE_LIMIT`. `Fault` comes only
//!   where the name is missing or the files failed, and always at a missing name; `TooLong` only for a longer file, and
//!   no longer file is read.
//! - `write_all`: the bytes were taken (`whole`), or a front of them and the sink failed (`part`, `cause`). `tell`: the
//!   same for a text in pieces (`text`).
//! - `MemoryFiles`, `MemorySink`: the calls that are listed fail (`listed`). `MemoryFiles::keep` changes what is under
//!   one name alone (`kept`, `others`).
//! - `DiskFiles::read` gives what the runtime's file gives (`passed_on`). `StdSink::write` hands its stream exactly
//!   what it says was taken (`appended`, `kept`); the type of a `StdSink` says which stream that is.
//!
//! # Only tested
//!
//! That a file of the system is read, and that both standard streams take a line. That calls succeed where there is
//! memory, for several pieces too, and that a file past the limit gives `TooLong`.
//!
//! # Not said
//!
//! That memory is found: `Memory` may come at any time. How long a call takes, and in how many pieces. That the system
//! hands over a file's bytes, and keeps what a stream took.
//!
//! # Example
//!
//! ```
//! let bytes = read_all(alloc, &mut files, "orders.tbl")?;
//! write_all(&mut sink, &bytes)?;
//! tell(&mut sink, &[b"copied ", b"orders.tbl", b"\n"]);
//! ```
#![tactic(auto)]

mod count;
mod disk_files;
mod failing_calls;
mod files;
mod memory_files;
mod memory_sink;
mod sink;
mod std_sink;
mod telling;
mod whole;

pub use disk_files::DiskFiles;
pub use files::{Failed, Files};
pub use memory_files::MemoryFiles;
pub use memory_sink::MemorySink;
pub use sink::Sink;
pub use std::alloc::AllocError as Memory;
pub use std_sink::StdSink;
pub use telling::tell;
pub use whole::{FILE_LIMIT, ReadStop, read_all, write_all};

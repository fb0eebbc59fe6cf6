//! Callers of any log, and the log of one caller.

mod serial;
mod update;
mod walk;

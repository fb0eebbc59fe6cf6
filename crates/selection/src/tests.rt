//! Queries against the plain table's answers.

mod ages;
mod compared;
mod moves;
mod plain;
mod worked;

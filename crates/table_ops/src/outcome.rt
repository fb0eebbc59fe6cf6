//! What changes come to.
use commit_log::Front;

/// A change that was made.
#[derive(Clone, Copy, Debug, PartialEq, Eq)]
pub struct Placed {
    /// The place of its delta in the log, counted from 0.
    pub place: u32,
    /// The row that it changed.
    pub row: u32,
    /// The front behind it.
    pub front: Front,
}

/// Why a change was not made, with the front at which this is so.
#[derive(Clone, Copy, Debug, PartialEq, Eq)]
pub enum OpStop {
    /// The key to be inserted is live, at this row.
    Duplicate(Front, u32),
    /// The key to be updated or deleted is not live.
    Missing(Front),
    /// There are as many rows as there may ever be.
    TableFull(Front),
    /// There are as many deltas as there may be.
    LogFull(Front),
}

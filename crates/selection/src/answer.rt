//! What queries answer.
use commit_log::Front;
use cubit_base::RowList;

/// The rows that match.
#[derive(Drop)]
pub struct RowsAnswer {
    /// Their numbers, rising.
    pub list: RowList,
    /// The front at which they are these.
    pub front: Front,
    /// How many deltas the versions were patched by.
    pub patched: u32,
}

/// How many rows match.
#[derive(Clone, Copy, Debug, PartialEq, Eq)]
pub struct CountAnswer {
    /// Their number.
    pub count: u32,
    /// The front at which it is this.
    pub front: Front,
    /// How many deltas the versions were patched by.
    pub patched: u32,
}

/// What the rows that match add up to.
#[derive(Clone, Copy, Debug, PartialEq, Eq)]
pub struct SumAnswer {
    /// The sum of price times discount, in units of 0.0001.
    pub sum: u64,
    /// How many rows match.
    pub count: u32,
    /// The front at which it is this.
    pub front: Front,
    /// How many deltas the versions were patched by.
    pub patched: u32,
}

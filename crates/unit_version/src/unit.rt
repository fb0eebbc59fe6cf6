//! The units of the index.
use column_bins::Column;

/// A part of the index that is kept, and changed, as a whole.
#[derive(Clone, Copy, Debug, PartialEq, Eq)]
pub enum Unit {
    /// Which rows are live.
    Live,
    /// Which live rows have this bin of the column.
    Bin(Column, u8),
    /// The tuples of 3,968 rows, from this many times 3,968 on.
    Page(u32),
    /// The live keys whose order leaves this rest by 64.
    Keys(u8),
}

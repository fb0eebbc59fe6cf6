//! The bins that a query needs.

/// The bins from `first` up to and without `after`; none where `first` is not below `after`.
#[derive(Clone, Copy, Debug, PartialEq, Eq)]
pub struct Stretch {
    pub first: u8,
    pub after: u8,
}

/// Which bins of each restricted column a query needs, and whether it has to read tuples.
#[derive(Clone, Copy, Debug, PartialEq, Eq)]
pub struct Plan {
    pub ship: Option<Stretch>,
    pub disc: Option<Stretch>,
    pub qty: Option<Stretch>,
    pub flag: Option<Stretch>,
    pub status: Option<Stretch>,
    /// Whether every page of tuples is needed.
    pub pages: bool,
}

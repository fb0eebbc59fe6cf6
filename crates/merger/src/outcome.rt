//! What merges come to.

/// What the merge of a unit comes to.
#[derive(Clone, Copy, Debug, PartialEq, Eq)]
pub enum Merge {
    /// Its version was carried on.
    Merged {
        /// How many deltas the version had.
        from: u32,
        /// How many it has now.
        to: u32,
    },
    /// Its version, which has so many deltas, is as new as what was to be made.
    Fresh(u32),
    /// Another caller has it.
    Busy,
}

/// How many units came to what.
#[derive(Clone, Copy, Debug, PartialEq, Eq)]
pub struct MergeCount {
    /// Versions that were carried on.
    pub merged: u32,
    /// Versions that were new enough.
    pub fresh: u32,
    /// Versions that other callers have.
    pub busy: u32,
}

//! Places in words, and pages of groups.

/// The groups of a page.
pub const PAGE_GROUPS: usize = 128;
/// The rows of a page.
pub const PAGE_ROWS: u32 = 3_968;

// The numbers of the definition of a page.
const _: () = prove!(PAGE_GROUPS == 128);

const _: () = prove!(PAGE_ROWS == 3_968);

/// A word, and how many groups of its run lie before the place.
#[derive(Clone, Copy)]
pub struct Place {
    pub word: usize,
    pub skipped: u32,
}

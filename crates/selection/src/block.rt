//! The rows of 32 pages that a query looks at.
ghost use Rattle.std.specs.Prelude.{◌≡◌};

use fence_window::{BLOCK_GROUPS, PAGE_ROWS};

/// How many pages a block has.
pub(crate) const BLOCK_PAGES: u32 = 32;

/// How many rows these have.
pub(crate) const BLOCK_ROWS: u32 = BLOCK_PAGES * PAGE_ROWS;

/// The rows of a page, as a length.
pub(crate) const PAGE_LENGTH: usize = PAGE_ROWS as usize;

const _: () = prove!(BLOCK_PAGES == 32);

const _: () = prove!(BLOCK_ROWS == 126_976);

const _: () = prove!(PAGE_LENGTH == 3_968);

/// The rows of 32 pages from the first on: which are candidates, and which have a month that is met in part. Where no
/// month is, the latter is left over.
#[derive(Drop)]
pub(crate) struct Block {
    pub(crate) first: u32,
    pub(crate) candidates: [u32; BLOCK_GROUPS],
    pub(crate) cut: [u32; BLOCK_GROUPS],
}

impl Block {
    /// Of no rows yet.
    pub(crate) fn new() -> Block
        ensures { result.first ≡ 0 }
    {
        Block {
            first: 0,
            candidates: [0; BLOCK_GROUPS],
            cut: [0; BLOCK_GROUPS],
        }
    }
}

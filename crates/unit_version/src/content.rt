//! What a unit holds.
use crate::{Keys, Page};
use fence_window::Fenced;

/// What a unit holds: truth values by row, the tuples of a page, or keys with their rows and tuples.
#[derive(Drop)]
pub enum Content {
    Bits(Fenced),
    Page(Page),
    Keys(Keys),
}

//! Rows of one page that are turned.
ghost use Rattle.std.specs.Prelude.{ℕ, ◌≡◌, ◌<◌, ◌≤◌, ◌+◌, ◌-◌, ◌*◌, ◌/◌, ◌%◌, ◌^◌, All, slice_index};
ghost use Rattle.std.specs.List.Sorted.{IsStrictlyIncreasing};
ghost use Rattle.wah_words.specs.Group.{group_row};
ghost use Rattle.wah_words.specs.Rows.{differs, has};

use crate::place::{PAGE_GROUPS, PAGE_ROWS};
use crate::run::GROUP_ROWS;

/// Turns the rows at these places, of which each lies in the page.
pub fn turn_rows(page: &mut [u32; PAGE_GROUPS], first: u32, places: &[u32])
    requires rising { IsStrictlyIncreasing places.now }
    requires from { All (λ place. first ≤ place) places.now }
    requires to { All (λ place. place < first + PAGE_ROWS) places.now }
    requires within { All (λ group. group < 2 ^ 31) page.old }
    ensures within { All (λ group. group < 2 ^ 31) page.new }
    ensures rows { (row : ℕ) → row < PAGE_ROWS → group_row (slice_index page.new (row / 31)) (row % 31)
        ≡ differs (group_row (slice_index page.old (row / 31)) (row % 31)) (has places.now (first + row)) }
{
    for place in places {
        let row = *place - first;
        page[(row / GROUP_ROWS) as usize] ^= 1u32 << (row % GROUP_ROWS);
    }
}

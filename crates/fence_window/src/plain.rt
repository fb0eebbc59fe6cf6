//! Bitvectors as plain groups.
ghost use Rattle.std.specs.Prelude.{◌≡◌, ◌<◌, ◌^◌, All, take};
ghost use Rattle.wah_words.specs.Group.{unpacked};
ghost use Rattle.wah_words.specs.Place.{ArePagesOf};
ghost use Rattle.fence_window.specs.Ors.{IsOrInto, OrsFrom};

use crate::fenced::BLOCK_GROUPS;
use std::marker::Model;
use wah_words::{PAGE_GROUPS, pages_of_list};

/// A bitvector whose groups stand side by side, four bytes to 31 rows, so that a page is read with no walk; contracts
/// see its list.
#[derive(Drop)]
pub struct Plain {
    groups: Vec<u32>,
    rows: u32,
}

impl Model for Plain {
    ghost use Rattle.std.specs.Prelude.{List, Bool, take};

    ghost Value = { List Bool };

    ghost use Rattle.wah_words.specs.Group.{unpacked};
    ghost use Rattle.fence_window.specs.Plain.{IsPlain};

    ghost view = { λ p. take p.rows (unpacked p.groups.items) };

    ghost invariant = { λ p. IsPlain p.groups.items p.rows };
}

impl Plain {
    /// The bitvector of so many rows, of which these are the groups of all pages. It takes no memory.
    pub fn from_groups(groups: Vec<u32>, rows: u32) -> Plain
        requires within { All (λ group. group < 2 ^ 31) groups.items }
        requires pages { ArePagesOf groups.items rows }
        ensures { result ≡ take rows (unpacked groups.items) }
    {
        Plain { groups, rows }
    }

    /// As [`Fenced::or_into`](crate::Fenced::or_into).
    pub fn or_into(&self, first: u32, out: &mut [u32; BLOCK_GROUPS])
        ensures { IsOrInto self.now first out.old out.new }
    {
        pages_of_list();
        let groups = &self.groups[..];
        let from = PAGE_GROUPS * first as usize;
        or_plain(&groups[from.min(groups.len())..], out)
    }
}

// Puts groups into numbers, by or, as far as there is room; behind the last group nothing changes.
#[inline(always)]
fn or_plain(groups: &[u32], out: &mut [u32])
    ensures { OrsFrom out.old out.new groups.now }
{
    for i in 0..groups.len().min(out.len()) {
        out[i] |= groups[i];
    }
}

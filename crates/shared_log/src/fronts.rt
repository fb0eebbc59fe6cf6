//! The front that a node tells.
ghost use Rattle.std.specs.Prelude.{◌≡◌, ◌≢◌, ◌<◌, ◌^◌, slice_index};
ghost use Rattle.cubit_base.specs.EntryWords.{FitsWords, entry_words};
ghost use Rattle.cubit_base.specs.declared.entry.Entry.{Entry as EntryValue};
ghost use Rattle.log_core.specs.Growing.{behind as behind_tail};

use commit_log::Front;

/// The node that a link names, or the tail where it is empty.
pub(super) fn behind(tail: u64, link: u64) -> u64
    ensures { result ≡ behind_tail tail link }
{
    if link == 0 { tail } else { link }
}

/// The front whose last node this is, by the second word of its payload. At the head it has the base's rows.
#[tactic(auto, unfolding(cubit_base::specs::EntryWords::entry_words))]
pub(super) fn front_at(node: u64, counts: u64, base_rows: u32) -> Front
    requires { node < 2 ^ 32 }
    ensures head { node ≡ 0 → result ≡ record { len = 0; rows = base_rows; node = 0 } }
    ensures entry { (e : EntryValue) → node ≢ 0 → FitsWords e → counts ≡ slice_index (entry_words e) 1 →
        result ≡ record { len = e.seq; rows = e.rows; node = node } }
{
    if node == 0 {
        return Front {
            len: 0,
            rows: base_rows,
            node: 0,
        };
    }
    Front {
        len: (counts & 0x7f_ffff) as u32,
        rows: ((counts >> 23) & 0x1ff_ffff) as u32,
        node: node as u32,
    }
}

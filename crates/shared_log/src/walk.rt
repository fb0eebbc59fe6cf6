//! How a pass reads the entries that it has seen.
ghost use Rattle.std.specs.Prelude.{◌≡◌, ℕ, ◌+◌, ◌<◌, ◌≤◌, List, length};
ghost use Rattle.cubit_base.specs.EntryWords.{FitsWords, entry_words};
ghost use Rattle.cubit_base.specs.declared.delta.Delta.{Delta as DeltaValue};
ghost use Rattle.cubit_base.specs.declared.entry.Entry.{Entry as EntryValue};
ghost use Rattle.log_core.specs.Chain.{entry_count};
ghost use Rattle.commit_log.specs.Log.{Terms, IsPlace, IsEntry, IsLatest};
ghost use Rattle.shared_log.specs.Steps.{Knows};
ghost use Rattle.shared_log.specs.Told.{shared_terms, KnowsLog};
ghost use Rattle.shared_log.specs.Walks.{ReadsWords, ReadsEntry};

use super::rule::{LogTerms, WhichLog};
use super::seat::PassSeat;
use commit_log::Cursor;
use cubit_base::{Entry, Key, laws};

impl<'a, T: LogTerms, W: WhichLog> PassSeat<'a, T, W> {
    /// The four words of a node that has an entry, by four steps.
    pub(super) fn read_words(&mut self, node: u64) -> [u64; 4]
        requires knows { KnowsLog T.terms self.old }
        requires known { (place : ℕ) × (place < entry_count self.old.seen) × Knows T.terms self.old node (place + 1) }
        ensures { (place : ℕ) → place < entry_count self.old.seen → Knows T.terms self.old node (place + 1) →
            ReadsWords T.terms self.old node place result self.new }
    {
        let _ = &self.log;
        let place = self.load_payload(node, 0);
        let counts = self.load_payload(node, 1);
        let before = self.load_payload(node, 2);
        let after = self.load_payload(node, 3);
        [place, counts, before, after]
    }

    /// The entry at a cursor, which is moved on, by five steps.
    pub(super) fn read_entry(&mut self, cursor: &mut Cursor) -> Entry
        requires knows { KnowsLog T.terms self.old }
        requires place { IsPlace (shared_terms T.terms) self.old.seen cursor.old }
        requires before { cursor.old.len < length self.old.seen }
        ensures { ReadsEntry T.terms self.old cursor.old self.new cursor.new result }
    {
        let _ = &self.log;
        let next = self.load_link(u64::from(cursor.node));
        let words = self.read_words(next);
        *cursor = Cursor {
            len: cursor.len + 1,
            node: next as u32,
        };
        entry_of(&words)
    }
}

// The entry that has these words.
fn entry_of(words: &[u64; 4]) -> Entry
    requires { (e : EntryValue) × FitsWords e × (words.now ≡ entry_words e) }
    ensures { (e : EntryValue) → FitsWords e → words.now ≡ entry_words e → result ≡ e }
{
    laws::words();
    let Some(entry) = Entry::from_words(words) else {
        unreachable!();
    };
    entry
}

/// The last entry with a key, after one more entry.
pub(super) fn last_with(key: &Key, latest: Option<Entry>, entry: Entry) -> Option<Entry>
    ensures { (terms : Terms) (log : List DeltaValue) (from place : ℕ) → from ≤ place → IsEntry terms log place entry →
        IsLatest terms log key.now from place latest → IsLatest terms log key.now from (place + 1) result }
{
    if entry.delta.key == *key {
        Some(entry)
    } else {
        latest
    }
}

//! Deltas in their places of a log, and the limits of one.
ghost use Rattle.std.specs.Prelude.{◌≡◌, ◌≢◌, ◌||◌, is_some, Option, IfSome, IfNone};
ghost use Rattle.cubit_base.specs.Tuple.{TupleValue, IsTuple};
ghost use Rattle.cubit_base.specs.Word.{word_of};
ghost use Rattle.cubit_base.specs.EntryWords.{FitsWords, entry_words};
ghost use Rattle.cubit_base.specs.declared.entry.Entry.{Entry as EntryValue};

use crate::{Delta, Key, Tuple};

/// A delta in its place of a log.
#[derive(Clone, Copy, Debug, PartialEq, Eq)]
pub struct Entry {
    /// How many deltas the log has up to this one: its place plus 1.
    pub seq: u32,
    /// How many rows there ever were, live or not, after it.
    pub rows: u32,
    /// The delta.
    pub delta: Delta,
}

impl Entry {
    /// The four words of an entry.
    #[tactic(auto, unfolding(crate::specs::EntryWords::entry_words))]
    pub fn to_words(&self) -> [u64; 4]
        requires { FitsWords self.now }
        ensures { result ≡ entry_words self.now }
    {
        let delta = &self.delta;
        let place = u64::from(delta.key.order) + u64::from(delta.row) * 0x1_0000_0000;
        let counts = u64::from(self.seq)
            + u64::from(self.rows) * 0x80_0000
            + u64::from(delta.key.line) * 0x1_0000_0000_0000
            + u64::from(delta.author) * 0x8_0000_0000_0000;
        [
            place,
            counts,
            tuple_word(&delta.before),
            tuple_word(&delta.after),
        ]
    }

    /// The entry that has these words, or none where no entry has them.
    #[tactic(auto, unfolding(crate::specs::EntryWords::entry_words))]
    pub fn from_words(words: &[u64; 4]) -> Option<Entry>
        ensures some { IfSome result (λ e. FitsWords e × (words.now ≡ entry_words e)) }
        ensures none { IfNone result ((e : EntryValue) → FitsWords e → words.now ≢ entry_words e) }
    {
        let [place, counts, before, after] = *words;
        if !is_told(before, after) {
            return None;
        }
        let before = word_tuple(before)?;
        let after = word_tuple(after)?;
        let order = (place & 0xffff_ffff) as u32;
        let row = (place >> 32) as u32;
        let seq = (counts & 0x7f_ffff) as u32;
        let rows = ((counts >> 23) & 0x1ff_ffff) as u32;
        let line = ((counts >> 48) & 0x7) as u8;
        let author = ((counts >> 51) & 0x3f) as u8;
        if counts >> 57 != 0 || order == 0 || line == 0 || seq == 0 {
            return None;
        }
        if seq > 4_194_304 || rows > 16_777_216 || row >= rows {
            return None;
        }
        let key = Key { order, line };
        let delta = Delta {
            author,
            row,
            key,
            before,
            after,
        };
        Some(Entry { seq, rows, delta })
    }
}

/// How much a session may hold, and how often it tries. `LimitsFit` says which limits fit a base table.
#[derive(Clone, Copy, Debug, PartialEq, Eq)]
pub struct Limits {
    /// The most rows that there may ever be, live or not.
    pub row_limit: u32,
    /// The most deltas.
    pub log_limit: u32,
    /// How often something that others may hinder is tried at once, at least 1.
    pub tries: u32,
}

// Whether one of two words is that of a tuple.
fn is_told(before: u64, after: u64) -> bool
    ensures { (b a : Option TupleValue) → before ≡ word_of b → after ≡ word_of a →
        result ≡ (is_some b || is_some a) }
{
    before != 0 || after != 0
}

fn tuple_word(tuple: &Option<Tuple>) -> u64
    ensures { result ≡ word_of tuple.now }
{
    match tuple {
        Some(tuple) => tuple.pack(),
        None => 0,
    }
}

// The tuple or none that has this word; nothing where neither has it.
fn word_tuple(word: u64) -> Option<Option<Tuple>>
    ensures some { IfSome result (λ t. IfSome t IsTuple × (word ≡ word_of t)) }
    ensures none { IfNone result ((t : Option TupleValue) → IfSome t IsTuple → word ≢ word_of t) }
{
    if word == 0 {
        return Some(None);
    }
    match Tuple::unpack(word) {
        Some(tuple) => Some(Some(tuple)),
        None => None,
    }
}

#[cfg(test)]
mod tests {
    use super::*;

    const FIRST: [u64; 4] = [
        1,
        281_475_001_876_481,
        92_624_370_551_265_711,
        92_625_470_062_893_487,
    ];

    #[test]
    fn words_come_back(rt: HostRuntime) {
        let [place, counts, before, after] = FIRST;
        for (at, words) in [
            FIRST,
            [place, 2_533_274_815_561_729, before, after],
            [
                4_294_967_297,
                562_949_978_587_137,
                97_500_712_678_478_937,
                97_462_229_771_506_777,
            ],
            [place, counts, before, 0],
            [12_884_901_897, 2_533_274_823_950_338, 0, 1_099_511_627_779],
            [place, 0x0001_0000_01c0_0000, before, after],
            [0x00ff_ffff_ffff_ffff, 0x01ff_8000_0040_0000, before, after],
        ]
        .into_iter()
        .enumerate()
        {
            let Some(entry) = Entry::from_words(&words) else {
                assert!(rt; false, "at {at}");
                continue;
            };
            assert_eq!(rt; entry.to_words(), words, "at {at}");
        }
    }

    #[test]
    fn an_entry_is_told(rt: HostRuntime) {
        let Some(entry) = Entry::from_words(&[
            0x00ff_ffff_ffff_ffff,
            0x01ff_8000_0040_0000,
            0,
            FIRST[2],
        ]) else {
            assert!(rt; false);
            return;
        };
        assert_eq!(rt; (entry.seq, entry.rows), (4_194_304, 16_777_216));
        assert_eq!(rt; (entry.delta.author, entry.delta.row), (63, 16_777_215));
        assert_eq!(rt;
            (entry.delta.key.order, entry.delta.key.line),
            (4_294_967_295, 7)
        );
        assert_eq!(rt; entry.delta.before, None);
        assert_eq!(rt; entry.delta.after, Tuple::unpack(FIRST[2]));
    }

    #[test]
    fn no_entries(rt: HostRuntime) {
        let [place, counts, before, after] = FIRST;
        for (at, words) in [
            [0, counts, before, after],
            [0x0100_0000_0000_0001, counts, before, after],
            [place, 0x0001_0000_0180_0000, before, after],
            [place, 0x0001_0000_01c0_0001, before, after],
            [place, 0x0001_0000_0000_0001, before, after],
            [place, 0x0001_8000_0080_0001, before, after],
            [place, 0x0000_0000_0180_0001, before, after],
            [place, 0x0201_0000_0180_0001, before, after],
            [place, 0x8001_0000_0180_0001, before, after],
            [0x0000_0003_0000_0001, counts, before, after],
            [place, counts, 0, 0],
            [place, counts, 2, after],
            [place, counts, before, 1],
            [place, counts, 0x0349_115f_d040_99af, after],
        ]
        .into_iter()
        .enumerate()
        {
            assert!(rt; Entry::from_words(&words).is_none(), "at {at}");
        }
    }
}

//! Words read as runs.
ghost use Rattle.std.specs.Prelude.{◌≡◌, ◌≤◌, [], All, drop};
ghost use Rattle.wah_words.specs.Word.{groups as groups_of};
ghost use Rattle.wah_words.specs.Canonical.{IsCountedFill};

use crate::run::Run;

/// The groups that are left of words: the rest of a run, and the words after it.
#[derive(Drop)]
pub(crate) struct Cursor<'a> {
    pub(crate) run: Run,
    pub(crate) words: &'a [u32],
    ghost fills: { All IsCountedFill words.now },
}

impl<'a> Cursor<'a> {
    ghost use Rattle.wah_words.specs.Cursor.{groups_left};

    /// All groups of the words.
    pub(crate) fn new(words: &'a [u32]) -> Cursor<'a>
        requires { All IsCountedFill words.now }
        ensures { groups_left result ≡ groups_of words.now }
    {
        Cursor {
            run: Run { group: 0, count: 0 },
            words,
        }
    }

    /// Goes on to the next word where the run has ended.
    pub(crate) fn refill(&mut self)
        ensures same { groups_left self.new ≡ groups_left self.old }
        ensures end { self.new.run.count ≡ 0 → groups_left self.new ≡ [] }
    {
        if self.run.count != 0 {
            return;
        }
        if let Some((word, words)) = self.words.split_first() {
            self.run = Run::of_word(*word);
            self.words = words;
        }
    }

    /// Leaves out so many groups of the run.
    pub(crate) fn skip(&mut self, count: u32)
        requires { count ≤ self.old.run.count }
        ensures { groups_left self.new ≡ drop count (groups_left self.old) }
    {
        self.run.count -= count;
    }
}

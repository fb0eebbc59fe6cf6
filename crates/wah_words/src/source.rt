//! Groups of words that go over into other words, with no more than a few of them changed.
ghost use Rattle.std.specs.Prelude.{◌≡◌, ◌<◌, ◌≤◌, ◌+◌, ◌-◌, ◌^◌, ◌++◌, [], IfOk, OnOk, drop, length, replicate};
ghost use Rattle.wah_words.specs.Word.{groups as groups_of};
ghost use Rattle.wah_words.specs.Canonical.{AreRuns};
ghost use Rattle.wah_words.specs.Moves.{Moves, first_toggled};

use crate::Memory;
use crate::builder::Builder;
use crate::front::front_within;
use crate::run::Run;

// Fewer groups are sooner written run by run than measured.
const MEASURED_GROUPS: u32 = 8;

/// Groups that are left to read: the rest of a run, the words after it, and groups of false rows after these.
#[derive(Drop)]
pub(crate) struct Source<'a> {
    run: Run,
    words: &'a [u32],
    false_groups: u32,
    ghost runs: { AreRuns words.now },
}

impl<'a> Source<'a> {
    ghost use Rattle.wah_words.specs.Source.{source_left};

    /// All groups of the words, and so many groups of false rows after them.
    pub(crate) fn new(words: &'a [u32], false_groups: u32) -> Source<'a>
        requires { AreRuns words.now }
        ensures { source_left result ≡ groups_of words.now ++ replicate false_groups 0 }
    {
        Source {
            run: Run { group: 0, count: 0 },
            words,
            false_groups,
        }
    }

    // Goes on to the next run where the run has ended.
    #[inline(always)]
    fn refill(&mut self)
        ensures same { source_left self.new ≡ source_left self.old }
        ensures end { self.new.run.count ≡ 0 → source_left self.new ≡ [] }
    {
        if self.run.count != 0 {
            return;
        }
        if let Some((word, words)) = self.words.split_first() {
            self.run = Run::of_word(*word);
            self.words = words;
            return;
        }
        self.run = Run {
            group: 0,
            count: self.false_groups,
        };
        self.false_groups = 0;
    }

    // Leaves out so many groups of the run.
    fn skip(&mut self, count: u32)
        requires { count ≤ self.old.run.count }
        ensures { source_left self.new ≡ drop count (source_left self.old) }
    {
        self.run.count -= count;
    }

    /// Writes the next group with the rows turned that the mask has.
    pub(crate) fn move_toggled(&mut self, out: &mut Builder, mask: u32) -> Result<(), Memory>
        requires within { mask < 2 ^ 31 }
        requires some { 1 ≤ length (source_left self.old) }
        requires room { length out.old + length (source_left self.old) < 2 ^ 30 }
        ensures { OnOk result (Moves out.old (first_toggled mask (source_left self.old))
            out.new (source_left self.new) 1) }
    {
        self.refill();
        out.push_group(self.run.group ^ mask)?;
        self.skip(1);
        Ok(())
    }

    /// Writes the next groups as they are, so many of them.
    pub(crate) fn move_groups(&mut self, out: &mut Builder, count: u32) -> Result<(), Memory>
        requires enough { count ≤ length (source_left self.old) }
        requires room { length out.old + length (source_left self.old) < 2 ^ 30 }
        ensures { OnOk result (Moves out.old (source_left self.old) out.new (source_left self.new) count) }
    {
        let mut wanted = count;
        while wanted != 0 {
            wanted -= self.move_run(out, wanted)?;
            wanted -= self.move_words(out, wanted)?;
        }
        Ok(())
    }

    // Where the run has ended, writes whole words as they are that have at most so many groups, and gives how many
    // groups they have.
    fn move_words(&mut self, out: &mut Builder, most: u32) -> Result<u32, Memory>
        requires { length out.old + length (source_left self.old) < 2 ^ 30 }
        ensures most { IfOk result (λ count. count ≤ most) }
        ensures moved { IfOk result (λ count. Moves out.old (source_left self.old)
            out.new (source_left self.new) count) }
    {
        if self.run.count != 0 || most < MEASURED_GROUPS {
            return Ok(0);
        }
        let front = front_within(self.words, most);
        let (words, rest) = self.words.split_at(front.words);
        out.push_words(words)?;
        self.words = rest;
        Ok(front.groups)
    }

    // Writes groups of one run, as many as it has and at most so many, and gives how many they are.
    #[inline(always)]
    fn move_run(&mut self, out: &mut Builder, most: u32) -> Result<u32, Memory>
        requires some { 1 ≤ most }
        requires enough { most ≤ length (source_left self.old) }
        requires room { length out.old + length (source_left self.old) < 2 ^ 30 }
        ensures most { IfOk result (λ count. count ≤ most) }
        ensures some { IfOk result (λ count. 1 ≤ count) }
        ensures moved { IfOk result (λ count. Moves out.old (source_left self.old)
            out.new (source_left self.new) count) }
    {
        self.refill();
        let count = self.run.count.min(most);
        out.push_run(Run {
            group: self.run.group,
            count,
        })?;
        self.skip(count);
        Ok(count)
    }
}

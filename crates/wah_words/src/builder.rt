//! The one writer of words.
//!
//! Runs are joined as they are pushed. To turn each row, no run has to be pushed anew: a turned literal is
//! neither all false nor all true where the literal was neither, a turned fill counts what the fill did, and
//! two fills side by side that had different values have different values then. So no fewer words could stand
//! for the turned rows.
ghost use Rattle.std.specs.Prelude.{ℕ, ◌≡◌, ◌<◌, ◌≤◌, ◌+◌, ◌-◌, ◌^◌, [], ◌∷◌, ◌++◌, length, map, not, replicate, IfOk, OnOk, OnErr};
ghost use Rattle.wah_words.specs.Group.{filled, unpacked};
ghost use Rattle.wah_words.specs.Word.{groups, turned_word};
ghost use Rattle.wah_words.specs.Canonical.{AreRuns};
ghost use Rattle.wah_words.specs.Walk.{AreMixed};

use crate::Memory;
use crate::block::BLOCK_WORDS;
use crate::run::{ALL_TRUE, Run, fill_word, joins, word_complement};
use std::alloc::Global;
use std::marker::Model;

/// Words in the making; contracts see the groups that they stand for.
#[derive(Drop)]
pub(crate) struct Builder {
    words: Vec<u32>,
}

impl Model for Builder {
    ghost use Rattle.std.specs.Prelude.{List, ℕ};

    ghost Value = { List ℕ };

    ghost use Rattle.wah_words.specs.Word.{groups};
    ghost use Rattle.wah_words.specs.Canonical.{AreRuns};

    ghost view = { λ b. groups b.words.items };

    ghost invariant = { λ b. AreRuns b.words.items };
}

impl Builder {
    /// No groups yet, with room for that many words.
    pub(crate) fn with_capacity(alloc: Global, words: usize) -> Result<Builder, Memory>
        ensures { IfOk result (λ builder. builder ≡ []) }
    {
        Ok(Builder {
            words: Vec::with_capacity(alloc, words)?,
        })
    }

    /// The groups of words, with room for two words more.
    pub(crate) fn from_slice(alloc: Global, words: &[u32]) -> Result<Builder, Memory>
        requires { AreRuns words.now }
        ensures { IfOk result (λ builder. builder ≡ groups words.now) }
    {
        let mut copy = Vec::with_capacity(alloc, words.len() + 2)?;
        copy.extend_from_slice(words)?;
        Ok(Builder { words: copy })
    }

    /// The groups of words with each row turned.
    pub(crate) fn turned(alloc: Global, words: &[u32]) -> Result<Builder, Memory>
        requires { AreRuns words.now }
        ensures { IfOk result (λ builder. unpacked builder ≡ map not (unpacked (groups words.now))) }
    {
        Ok(Builder {
            words: turned_words(alloc, words)?,
        })
    }

    // Puts a group at the end whose rows differ.
    fn push_literal(&mut self, group: u32) -> Result<(), Memory>
        requires some_true { 0 < group }
        requires some_false { group < 2 ^ 31 - 1 }
        ensures ok { OnOk result (self.new ≡ self.old ++ group ∷ []) }
        ensures err { OnErr result (self.new ≡ self.old) }
    {
        self.words.push(group)?;
        Ok(())
    }

    /// Puts a block of groups at the end of which each has rows that differ.
    #[inline(always)]
    pub(crate) fn push_literals(&mut self, block: &[u32; BLOCK_WORDS]) -> Result<(), Memory>
        requires { AreMixed block.now }
        ensures { OnOk result (self.new ≡ self.old ++ block.now) }
    {
        self.words.extend_from_slice(block)?;
        Ok(())
    }

    /// Puts so many groups at the end whose rows all have the value.
    #[inline(always)]
    pub(crate) fn push_fill(&mut self, value: bool, count: u32) -> Result<(), Memory>
        requires some { 1 ≤ count }
        requires room { length self.old + count < 2 ^ 30 }
        ensures ok { OnOk result (self.new ≡ self.old ++ replicate count (filled value)) }
        ensures err { OnErr result (self.new ≡ self.old) }
    {
        let word = fill_word(value, count);
        // A fill of the same value grows in its place.
        if let Some(last) = self.words.last_mut() {
            if joins(*last, word) {
                *last += count;
                return Ok(());
            }
        }
        self.words.push(word)?;
        Ok(())
    }

    /// Puts so many groups of false rows at the end, or none.
    pub(crate) fn push_false(&mut self, count: u32) -> Result<(), Memory>
        requires { length self.old + count < 2 ^ 30 }
        ensures ok { OnOk result (self.new ≡ self.old ++ replicate count 0) }
        ensures err { OnErr result (self.new ≡ self.old) }
    {
        if count == 0 {
            return Ok(());
        }
        self.push_fill(false, count)
    }

    /// Puts a run at the end.
    // Inlined, as push_fill is: a call for each run takes a third of the time of a walk over two lists.
    #[inline(always)]
    pub(crate) fn push_run(&mut self, run: Run) -> Result<(), Memory>
        requires some { 1 ≤ run.count }
        requires room { length self.old + run.count < 2 ^ 30 }
        ensures ok { OnOk result (self.new ≡ self.old ++ replicate run.count run.group) }
        ensures err { OnErr result (self.new ≡ self.old) }
    {
        match run.group {
            0 => self.push_fill(false, run.count),
            ALL_TRUE => self.push_fill(true, run.count),
            group => self.push_literal(group),
        }
    }

    /// Puts one group at the end.
    pub(crate) fn push_group(&mut self, group: u32) -> Result<(), Memory>
        requires within { group < 2 ^ 31 }
        requires room { length self.old + 1 < 2 ^ 30 }
        ensures ok { OnOk result (self.new ≡ self.old ++ group ∷ []) }
        ensures err { OnErr result (self.new ≡ self.old) }
    {
        self.push_run(Run { group, count: 1 })
    }

    /// Puts the groups of words at the end. Of the words the first alone may join the run before it.
    pub(crate) fn push_words(&mut self, words: &[u32]) -> Result<(), Memory>
        requires runs { AreRuns words.now }
        requires room { length self.old + length (groups words.now) < 2 ^ 30 }
        ensures { OnOk result (self.new ≡ self.old ++ groups words.now) }
    {
        let Some((first, rest)) = words.split_first() else {
            return Ok(());
        };
        self.push_run(Run::of_word(*first))?;
        self.words.extend_from_slice(rest)?;
        Ok(())
    }

    /// The words.
    pub(crate) fn into_words(self) -> Vec<u32>
        ensures runs { AreRuns result.items }
        ensures groups { groups result.items ≡ self }
    {
        self.words
    }
}

// The words whose rows are the others.
fn turned_words(alloc: Global, words: &[u32]) -> Result<Vec<u32>, Memory>
    ensures { IfOk result (λ turned. turned.items ≡ map turned_word words.now) }
{
    words
        .iter()
        .map(|word| word_complement(*word))
        .collect(alloc)
}

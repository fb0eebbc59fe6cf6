//! The checksum.
ghost use Rattle.std.specs.Prelude.{◌≡◌, [], ◌∷◌};
ghost use Rattle.kernel_bench.specs.Checksum.{Adds, AddsWords};
ghost use Rattle.kernel_bench.specs.Mix.{stirred};

use crate::kernel::Outcome;
use crate::pages::xor_of;
use std::fmt;

/// How many words went in, and a mix of them in their order.
#[derive(Drop)]
pub(crate) struct Checksum {
    pub(crate) words: u64,
    pub(crate) mix: u64,
}

impl Checksum {
    pub(crate) fn new() -> Checksum
        ensures words { result.words ≡ 0 }
        ensures mix { result.mix ≡ 0 }
    {
        Checksum { words: 0, mix: 0 }
    }

    /// Puts in the words of an outcome; a number is one word. Behind the words of a list with fences goes the exclusive
    /// or of its pages.
    pub(crate) fn add(&mut self, outcome: &Outcome)
        ensures { Adds self.old self.new outcome.now }
    {
        match outcome {
            Outcome::List(list) => self.add_words(list.words()),
            Outcome::Pages(list) => {
                self.add_words(list.wah().words());
                self.add_number(u64::from(xor_of(list)));
            }
            Outcome::Number(number) => self.add_number(*number),
        }
    }

    fn add_number(&mut self, number: u64)
        ensures { AddsWords self.old self.new (number ∷ []) }
    {
        self.words = self.words.wrapping_add(1);
        self.mix = stir(self.mix, number);
    }

    fn add_words(&mut self, words: &[u32])
        ensures { AddsWords self.old self.new words.now }
    {
        self.words = self.words.wrapping_add(words.len() as u64);
        let mut mix = self.mix;
        for word in words {
            mix = stir(mix, u64::from(*word));
        }
        self.mix = mix;
    }
}

impl fmt::Display for Checksum {
    fn fmt<W: fmt::Write>(&self, f: &mut fmt::Formatter<W>) -> fmt::Result {
        write!(f, "words={} mix={:016x}", self.words, self.mix)
    }
}

// The mix with one word more.
fn stir(mix: u64, word: u64) -> u64
    ensures { result ≡ stirred mix word }
{
    let product = (mix ^ word).wrapping_mul(0x9e37_79b9_7f4a_7c15);
    product ^ (product >> 32)
}

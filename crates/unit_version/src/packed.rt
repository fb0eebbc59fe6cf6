//! Tuples in words of 64 bits, as pages and key pages keep them.
ghost use Rattle.std.specs.Prelude.{◌≡◌};
ghost use Rattle.unit_version.specs.Packed.{unpacked, IsPacked};

use cubit_base::{Flag, LineStatus, Tuple};
use std::marker::Model;

/// A tuple in one word; contracts see the tuple.
#[derive(Clone, Copy)]
pub(crate) struct PackedTuple {
    word: u64,
}

const _: () = prove!(size_of::<PackedTuple>() == 8);

impl Model for PackedTuple {
    ghost use Rattle.cubit_base.specs.Tuple.{TupleValue};

    ghost Value = { TupleValue };

    ghost use Rattle.unit_version.specs.Packed.{unpacked, IsPacked};
    ghost use Rattle.cubit_base.specs.Word.{tuple_word};
    ghost use Rattle.unit_version.specs.Inverse.{packed_again};

    ghost view = { λ p. unpacked p.word };

    ghost invariant = { λ p. IsPacked p.word };

    ghost inverse = { λ t. record { word = tuple_word t } };

    ghost inverse_ok = { λ p is. packed_again p is };
}

impl PackedTuple {
    /// The tuple in a word.
    pub(crate) fn new(tuple: &Tuple) -> PackedTuple
        ensures { result ≡ tuple.now }
    {
        // A field is read, so that its ranges are known.
        let _price = tuple.price;
        PackedTuple { word: tuple.pack() }
    }

    /// The tuple.
    #[inline(always)]
    pub(crate) fn tuple(&self) -> Tuple
        ensures { result ≡ self.now }
    {
        unpacked(self.word)
    }
}

/// A tuple or none in one word, which is 0 for none; contracts see the tuple or none.
#[derive(Clone, Copy)]
pub(crate) struct Slot {
    word: u64,
}

const _: () = prove!(size_of::<Slot>() == 8);

impl Model for Slot {
    ghost use Rattle.std.specs.Prelude.{Option};
    ghost use Rattle.cubit_base.specs.Tuple.{TupleValue};

    ghost Value = { Option TupleValue };

    ghost use Rattle.unit_version.specs.Packed.{held, IsHeld};
    ghost use Rattle.cubit_base.specs.Word.{word_of};
    ghost use Rattle.unit_version.specs.Inverse.{held_again};

    ghost view = { λ s. held s.word };

    ghost invariant = { λ s. IsHeld s.word };

    ghost inverse = { λ t. record { word = word_of t } };

    ghost inverse_ok = { λ s is. held_again s is };
}

impl Slot {
    /// The tuple, or none, in a word.
    pub(crate) fn new(tuple: &Option<Tuple>) -> Slot
        ensures { result ≡ tuple.now }
    {
        match tuple {
            Some(tuple) => Slot {
                word: PackedTuple::new(tuple).word,
            },
            None => Slot { word: 0 },
        }
    }

    /// The tuple, or none.
    #[inline(always)]
    pub(crate) fn tuple(&self) -> Option<Tuple>
        ensures { result ≡ self.now }
    {
        if self.word == 0 {
            return None;
        }
        Some(unpacked(self.word))
    }
}

// The tuple that a word is of.
#[inline(always)]
fn unpacked(word: u64) -> Tuple
    requires { IsPacked word }
    ensures { result ≡ unpacked word }
{
    Tuple {
        price: ((word >> 1) & 0x7ff_ffff) as u32,
        day: ((word >> 28) & 0xfff) as u16,
        qty: ((word >> 40) & 0x3f) as u8,
        disc: ((word >> 46) & 0xf) as u8,
        tax: ((word >> 50) & 0xf) as u8,
        flag: match (word >> 54) & 0x3 {
            0 => Flag::A,
            1 => Flag::N,
            _ => Flag::R,
        },
        status: match (word >> 56) & 0x1 {
            0 => LineStatus::F,
            _ => LineStatus::O,
        },
    }
}

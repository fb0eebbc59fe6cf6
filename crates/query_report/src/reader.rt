//! A reader of a text from its front, in one pass and without memory. Once something is asked for that does not stand
//! there the reader has failed, and stays so: nothing is left to read, and what it answers from then on means nothing.
ghost use Rattle.std.specs.Prelude.{◌≡◌, ◌<◌, ◌≤◌, ◌^◌, ◌↔◌, [], ◌∷◌, codes, decimal, length, Some, None, IsTrue, if◌then◌else◌};
ghost use Rattle.std.specs.List.{AllPass, prefix_len};
ghost use Rattle.query_report.specs.Field.{field, two_digits};
ghost use Rattle.query_report.specs.Reading.{Reads, Passes, Anything, EndsNumber, IsNumber, IsNumeral, begins, is_digit, spelled};

mod line;
mod reply;
mod tuple;

use std::marker::Model;

/// What is left of a text.
#[derive(Drop)]
pub(crate) struct Reader<'a> {
    rest: &'a [u8],
    is_fine: bool,
}

impl<'a> Model for Reader<'a> {
    ghost use Rattle.std.specs.Prelude.{Some, None, if◌then◌else◌};
    ghost use Rattle.query_report.specs.Reading.{Left};

    ghost Value = { Left };

    ghost view = { λ r. if r.is_fine then Some r.rest.now else None };
}

impl<'a> Reader<'a> {
    /// All of the text is left.
    pub(crate) fn new(bytes: &'a [u8]) -> Reader<'a>
        ensures { result ≡ Some bytes.now }
    {
        Reader {
            rest: bytes,
            is_fine: true,
        }
    }

    /// Whether all was read and nothing failed.
    pub(crate) fn is_done(&self) -> bool
        ensures { IsTrue result ↔ (self.now ≡ Some []) }
    {
        self.is_fine && self.rest.is_empty()
    }

    /// Whether it has failed.
    #[inline(always)]
    fn has_failed(&self) -> bool
        ensures { IsTrue result ↔ (self.now ≡ None) }
    {
        !self.is_fine
    }

    /// Another reader of the same.
    #[inline(always)]
    fn ahead(&self) -> Reader<'a>
        ensures { result ≡ self.now }
    {
        Reader {
            rest: self.rest,
            is_fine: self.is_fine,
        }
    }

    /// Fails unless this holds.
    #[inline(always)]
    fn expect(&mut self, holds: bool)
        ensures { self.new ≡ (if holds then self.old else None) }
    {
        self.is_fine &= holds;
    }

    /// Whether this byte stands at the front.
    #[inline(always)]
    fn is_at(&self, byte: u8) -> bool
        ensures { result ≡ begins byte self.now }
    {
        match self.rest {
            [b, ..] => *b == byte && self.is_fine,
            [] => false,
        }
    }

    /// Passes over a label.
    #[inline(always)]
    fn label(&mut self, label: &[u8])
        ensures { Passes label.now Anything self.old self.new }
    {
        match self.rest.strip_prefix(label) {
            Some(rest) => self.rest = rest,
            None => self.is_fine = false,
        }
    }

    /// Passes over the end of a line.
    #[inline(always)]
    fn end_line(&mut self)
        ensures { Passes (codes "\n") Anything self.old self.new }
    {
        self.label(b"\n");
    }

    /// A byte of any value.
    #[inline(always)]
    fn byte(&mut self) -> u8
        ensures { Reads (λ b. b ∷ []) (λ b. Unit {0}) Anything self.old result self.new }
    {
        match self.rest {
            [b, rest @ ..] => {
                self.rest = rest;
                *b
            }
            [] => {
                self.is_fine = false;
                0
            }
        }
    }

    /// The number of two digits.
    #[inline(always)]
    fn pair(&mut self) -> u8
        ensures reads { Reads two_digits (λ n. n < 100) Anything self.old result self.new }
        ensures within { result < 100 }
    {
        match self.rest {
            [tens @ b'0'..=b'9', ones @ b'0'..=b'9', rest @ ..] => {
                self.rest = rest;
                (*tens - b'0') * 10 + (*ones - b'0')
            }
            _ => {
                self.is_fine = false;
                0
            }
        }
    }

    /// A number of at most 16 digits, none of them a leading zero.
    #[inline(always)]
    fn number(&mut self) -> u64
        ensures reads { Reads decimal (λ n. n < 10 ^ 16) EndsNumber self.old result self.new }
        ensures within { result < 10 ^ 16 }
    {
        let (digits, rest) = self.rest.split_at(digit_count(self.rest));
        if !is_numeral(digits) {
            self.is_fine = false;
            return 0;
        }
        self.rest = rest;
        spelled(digits)
    }

    /// A label, and a number from the least to the most of these.
    #[inline(always)]
    fn field_within(&mut self, label: &[u8], least: u32, most: u32) -> u32
        requires { least ≤ most }
        ensures reads { Reads (field label.now) (λ n. (least ≤ n) × (n ≤ most)) EndsNumber self.old result self.new }
        ensures within { (least ≤ result) × (result ≤ most) }
    {
        self.label(label);
        let number = self.number();
        if number < u64::from(least) || number > u64::from(most) {
            self.expect(false);
            return least;
        }
        number as u32
    }

    /// A label, and a number of 32 bits.
    #[inline(always)]
    fn field(&mut self, label: &[u8]) -> u32
        ensures { Reads (field label.now) IsNumber EndsNumber self.old result self.new }
    {
        self.field_within(label, 0, u32::MAX)
    }

    /// A label and this number.
    #[inline(always)]
    fn exactly(&mut self, label: &[u8], number: u32)
        ensures { Passes (field label.now number) EndsNumber self.old self.new }
    {
        let found = self.field(label);
        self.expect(found == number);
    }
}

// How many digits stand at the front.
#[inline(always)]
fn digit_count(bytes: &[u8]) -> usize
    ensures { result ≡ prefix_len is_digit bytes.now }
{
    for (at, b) in bytes.iter().enumerate() {
        if !b.is_ascii_digit() {
            return at;
        }
    }
    bytes.len()
}

#[inline(always)]
fn is_numeral(digits: &[u8]) -> bool
    ensures { IsTrue result ↔ IsNumeral digits.now }
{
    match digits {
        [] => false,
        [_] => true,
        [first, ..] => *first != b'0' && digits.len() <= 16,
    }
}

#[inline(always)]
fn spelled(digits: &[u8]) -> u64
    requires digits { AllPass is_digit digits.now }
    requires few { length digits.now ≤ 16 }
    ensures value { result ≡ spelled digits.now }
    ensures within { result < 10 ^ 16 }
{
    let mut number = 0;
    for b in digits {
        number = number * 10 + u64::from(*b - b'0');
    }
    number
}

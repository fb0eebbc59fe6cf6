//! Readers of tuples.
ghost use Rattle.std.specs.Prelude.{◌≡◌, ◌≤◌, [], ◌∷◌, Some, IfSome};
ghost use Rattle.cubit_base.specs.declared.tuple.Flag.{Flag as AFlag};
ghost use Rattle.cubit_base.specs.declared.tuple.LineStatus.{LineStatus as AStatus};
ghost use Rattle.cubit_base.specs.Tuple.{IsTuple};
ghost use Rattle.query_report.specs.Date.{date_text};
ghost use Rattle.query_report.specs.Field.{flag_letter, status_letter};
ghost use Rattle.query_report.specs.Reading.{Reads, Anything};
ghost use Rattle.query_report.specs.Report.{IsHeld};
ghost use Rattle.query_report.specs.TupleText.{hundredths_text, held_text, tuple_text};

use super::Reader;
use cubit_base::{Flag, LineStatus, Tuple, day_of};

impl<'a> Reader<'a> {
    /// A tuple, or the hyphen that stands for none.
    #[inline(always)]
    pub(super) fn held(&mut self) -> Option<Tuple>
        ensures { Reads held_text IsHeld Anything self.old result self.new }
    {
        if self.is_at(b'-') {
            self.byte();
            return None;
        }
        Some(self.tuple())
    }

    /// The values of a row between bars.
    pub(super) fn tuple(&mut self) -> Tuple
        ensures { Reads tuple_text IsTuple Anything self.old result self.new }
    {
        let qty = self.field_within(b"", 1, 50);
        let price = self.hundredths(99_999_999);
        let disc = self.hundredths(10);
        let tax = self.hundredths(8);
        self.label(b"|");
        let flag = self.flag();
        self.label(b"|");
        let status = self.status();
        self.label(b"|");
        let day = self.day();
        Tuple {
            price,
            day,
            qty: qty as u8,
            disc: disc as u8,
            tax: tax as u8,
            flag,
            status,
        }
    }

    // Hundredths behind a bar, at most so many.
    #[inline(always)]
    fn hundredths(&mut self, most: u32) -> u32
        ensures reads { Reads hundredths_text (λ n. n ≤ most) Anything self.old result self.new }
        ensures within { result ≤ most }
    {
        let whole = self.field(b"|");
        self.label(b".");
        let part = self.pair();
        let number = u64::from(whole) * 100 + u64::from(part);
        if number > u64::from(most) {
            self.expect(false);
            return 0;
        }
        number as u32
    }

    #[inline(always)]
    fn flag(&mut self) -> Flag
        ensures { Reads (λ flag. flag_letter flag ∷ []) (λ flag. Unit {0}) Anything self.old result self.new }
    {
        match flag_of(self.byte()) {
            Some(flag) => flag,
            None => {
                self.expect(false);
                Flag::A
            }
        }
    }

    #[inline(always)]
    fn status(&mut self) -> LineStatus
        ensures { Reads (λ status. status_letter status ∷ []) (λ status. Unit {0}) Anything self.old result self.new }
    {
        match status_of(self.byte()) {
            Some(status) => status,
            None => {
                self.expect(false);
                LineStatus::F
            }
        }
    }

    // The day of a date.
    #[inline(always)]
    fn day(&mut self) -> u16
        ensures reads { Reads date_text (λ n. n ≤ 2556) Anything self.old result self.new }
        ensures within { result ≤ 2556 }
    {
        let century = self.pair();
        let year = self.pair();
        self.label(b"-");
        let month = self.pair();
        self.label(b"-");
        let day = self.pair();
        match day_of(u16::from(century) * 100 + u16::from(year), month, day) {
            Some(number) => number,
            None => {
                self.expect(false);
                0
            }
        }
    }
}

#[inline(always)]
fn flag_of(letter: u8) -> Option<Flag>
    ensures some { IfSome result (λ flag. flag_letter flag ≡ letter) }
    ensures only { (flag : AFlag) → flag_letter flag ≡ letter → result ≡ Some flag }
{
    match letter {
        b'A' => Some(Flag::A),
        b'N' => Some(Flag::N),
        b'R' => Some(Flag::R),
        _ => None,
    }
}

#[inline(always)]
fn status_of(letter: u8) -> Option<LineStatus>
    ensures some { IfSome result (λ status. status_letter status ≡ letter) }
    ensures only { (status : AStatus) → status_letter status ≡ letter → result ≡ Some status }
{
    match letter {
        b'F' => Some(LineStatus::F),
        b'O' => Some(LineStatus::O),
        _ => None,
    }
}

//! The fast reader: it takes a file's first line where that is in the common spelling, in one pass over the file with
//! no search for the line's end first. What it takes is the line's value. It gives up at the first thing that is odd,
//! also at spellings that are accepted and rare, and close to the end of the file.
ghost use Rattle.std.specs.Prelude.{◌≡◌, ◌≤◌, ◌∷◌, ◌++◌, true, take, count_by, Ok, IfSome};
ghost use Rattle.std.specs.Bool.{OnTrue};
ghost use Rattle.tbl_text.specs.Field.{integer_value, money_value, quantity_value, date_value, flag_value, status_value, is_text};
ghost use Rattle.tbl_text.specs.FirstRow.{Begins};
ghost use Rattle.tbl_text.specs.LineCursor.{Takes, Finds, IsTail, EndsLine};
ghost use Rattle.tbl_text.specs.Lines.{is_bar};

mod front;
mod wide;

use crate::field::{date_field, ends_in_bar, flag_of, status_of};
use cubit_base::{Flag, Key, LineStatus, Tuple};
use front::{below_one, front_number, past_bar, past_end, past_zeros, two_decimals};
use wide::{few_digits, text_and_bars};

/// The key and the tuple of the first line and what follows the line; none where this reader gives up.
#[inline(always)]
pub(crate) fn first_row(bytes: &[u8]) -> Option<(Key, Tuple, &[u8])>
    ensures { IfSome result (λ r. Begins bytes.now r.2.now (Ok (r.0, r.1))) }
{
    let mut cursor = LineCursor { rest: bytes };
    let order = cursor.order()?;
    cursor.digits()?;
    cursor.digits()?;
    let line = cursor.line()?;
    let qty = cursor.quantity()?;
    let price = cursor.price()?;
    let disc = cursor.discount()?;
    let tax = cursor.tax()?;
    let flag = cursor.flag()?;
    let status = cursor.status()?;
    let day = cursor.date()?;
    cursor.tail()?;
    let key = Key { order, line };
    let tuple = Tuple {
        price,
        day,
        qty,
        disc,
        tax,
        flag,
        status,
    };
    Some((key, tuple, cursor.rest))
}

// What is left of a file whose first line is read.
#[derive(Drop)]
struct LineCursor<'a> {
    rest: &'a [u8],
}

impl<'a> LineCursor<'a> {
    // L_ORDERKEY.
    #[inline(always)]
    fn order(&mut self) -> Option<u32>
        ensures value { Finds integer_value self.old self.new result }
        ensures range { IfSome result (λ n. 1 ≤ n) }
    {
        match self.integer()? {
            n @ 1..=4_294_967_295 => Some(n as u32),
            _ => None,
        }
    }

    // L_LINENUMBER.
    #[inline(always)]
    fn line(&mut self) -> Option<u8>
        ensures value { Finds integer_value self.old self.new result }
        ensures range { IfSome result (λ n. (1 ≤ n) × (n ≤ 7)) }
    {
        match self.rest {
            [digit @ b'1'..=b'7', b'|', rest @ ..] => {
                self.rest = rest;
                Some(*digit - b'0')
            }
            _ => None,
        }
    }

    // L_QUANTITY.
    #[inline(always)]
    fn quantity(&mut self) -> Option<u8>
        ensures value { Finds quantity_value self.old self.new result }
        ensures range { IfSome result (λ n. (1 ≤ n) × (n ≤ 50)) }
    {
        match self.whole_number()? {
            n @ 1..=50 => Some(n as u8),
            _ => None,
        }
    }

    // L_EXTENDEDPRICE.
    #[inline(always)]
    fn price(&mut self) -> Option<u32>
        ensures value { Finds money_value self.old self.new result }
        ensures range { IfSome result (λ n. n ≤ 99_999_999) }
    {
        match self.money()? {
            n @ 0..=99_999_999 => Some(n as u32),
            _ => None,
        }
    }

    // L_DISCOUNT.
    #[inline(always)]
    fn discount(&mut self) -> Option<u8>
        ensures value { Finds money_value self.old self.new result }
        ensures range { IfSome result (λ n. n ≤ 10) }
    {
        match self.hundredths()? {
            n @ 0..=10 => Some(n),
            _ => None,
        }
    }

    // L_TAX.
    #[inline(always)]
    fn tax(&mut self) -> Option<u8>
        ensures value { Finds money_value self.old self.new result }
        ensures range { IfSome result (λ n. n ≤ 8) }
    {
        match self.hundredths()? {
            n @ 0..=8 => Some(n),
            _ => None,
        }
    }

    // L_RETURNFLAG.
    #[inline(always)]
    fn flag(&mut self) -> Option<Flag>
        ensures { Finds flag_value self.old self.new result }
    {
        flag_of(self.field_of_len(1)?)
    }

    // L_LINESTATUS.
    #[inline(always)]
    fn status(&mut self) -> Option<LineStatus>
        ensures { Finds status_value self.old self.new result }
    {
        status_of(self.field_of_len(1)?)
    }

    // L_SHIPDATE.
    #[inline(always)]
    fn date(&mut self) -> Option<u16>
        ensures value { Finds date_value self.old self.new result }
        ensures range { IfSome result (λ n. n ≤ 2556) }
    {
        date_field(self.field_of_len(10)?)
    }

    // The five last fields and the line's end.
    #[inline(always)]
    fn tail(&mut self) -> Option<()>
        ensures { IfSome result (λ _. EndsLine self.old.rest.now self.new.rest.now) }
    {
        let (len, bars) = text_and_bars(self.rest)?;
        let (tail, end) = self.rest.split_at(len);
        if !is_five_fields(tail, bars) {
            return None;
        }
        self.rest = past_end(end)?;
        Some(())
    }

    // An integer.
    #[inline(always)]
    fn integer(&mut self) -> Option<u64>
        ensures { Finds integer_value self.old self.new result }
    {
        let (number, rest) = front_number(self.rest)?;
        self.rest = past_bar(rest)?;
        Some(number)
    }

    // An integer with no decimals, or with `.00`.
    #[inline(always)]
    fn whole_number(&mut self) -> Option<u64>
        ensures { Finds quantity_value self.old self.new result }
    {
        let (number, rest) = front_number(self.rest)?;
        self.rest = past_bar(past_zeros(rest))?;
        Some(number)
    }

    // Money with two decimals.
    #[inline(always)]
    fn money(&mut self) -> Option<u64>
        ensures { Finds money_value self.old self.new result }
    {
        let (whole, rest) = front_number(self.rest)?;
        let (hundredths, rest) = two_decimals(rest)?;
        self.rest = past_bar(rest)?;
        Some(whole * 100 + u64::from(hundredths))
    }

    // Money below 1 with one digit and two decimals.
    #[inline(always)]
    fn hundredths(&mut self) -> Option<u8>
        ensures { Finds money_value self.old self.new result }
    {
        let (hundredths, rest) = below_one(self.rest)?;
        self.rest = rest;
        Some(hundredths)
    }

    // Text that is a few digits.
    #[inline(always)]
    fn digits(&mut self) -> Option<()>
        ensures { IfSome result (λ _. Takes is_text self.old.rest.now self.new.rest.now true) }
    {
        let count = few_digits(self.rest)?;
        self.field_of_len(count)?;
        Some(())
    }

    // So many bytes before a bar.
    #[inline(always)]
    fn field_of_len(&mut self, len: usize) -> Option<&'a [u8]>
        ensures cut { IfSome result (λ field. self.old.rest.now ≡ field.now ++ 124 ∷ self.new.rest.now) }
        ensures field { IfSome result (λ field. field.now ≡ take len self.old.rest.now) }
    {
        if self.rest.len() <= len {
            return None;
        }
        let (field, rest) = self.rest.split_at(len);
        self.rest = past_bar(rest)?;
        Some(field)
    }
}

// Whether some text with so many bars is five fields.
#[inline(always)]
fn is_five_fields(tail: &[u8], bars: usize) -> bool
    requires text { is_text tail.now ≡ true }
    requires bars { bars ≡ count_by is_bar tail.now }
    ensures { OnTrue result (IsTail tail.now) }
{
    bars == if ends_in_bar(tail) { 5 } else { 4 }
}

#[cfg(test)]
mod tests;

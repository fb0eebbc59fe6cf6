//! Readers of single fields.
ghost use Rattle.std.specs.Prelude.{◌≡◌, ◌<◌, ◌≤◌, ◌^◌, ◌&&◌, ◌↔◌, false, length, IfSome, IsTrue, MatchOption};
ghost use Rattle.std.specs.List.{AllPass, prefix_len};
ghost use Rattle.tbl_text.specs.Field.{is_digit, IsPair, spelled, leading_digits, IsFrontInteger, integer_value, hundredths_value, money_value, quantity_value, date_value, is_text, flag_value, status_value};
ghost use Rattle.tbl_text.specs.Lines.{EndsInBar};

use cubit_base::{Flag, LineStatus, day_of};

/// The most digits that an integer may have.
pub(crate) const MOST_DIGITS: usize = 10;

const _: () = prove!(MOST_DIGITS == 10);

/// An integer: 1 to 10 decimal digits, leading zeros among them.
pub fn integer_of(field: &[u8]) -> Option<u64>
    ensures { result ≡ integer_value field.now }
{
    match leading_integer(field)? {
        (number, []) => Some(number),
        _ => None,
    }
}

/// Money in hundredths: 1 to 10 digits, then optionally a point and one or two digits.
pub fn money_of(field: &[u8]) -> Option<u64>
    ensures { result ≡ money_value field.now }
{
    let (whole, rest) = leading_integer(field)?;
    let hundredths = hundredths_of(rest)?;
    Some(whole * 100 + u64::from(hundredths))
}

/// The day number of a date from 1992-01-01 to 1998-12-31, spelled YYYY-MM-DD.
#[inline(always)]
pub fn date_field(field: &[u8]) -> Option<u16>
    ensures value { result ≡ date_value field.now }
    ensures within { IfSome result (λ n. n ≤ 2556) }
{
    match field {
        [a, b, c, d, b'-', e, f, b'-', g, h] => {
            let century = pair_of(*a, *b)?;
            let year = pair_of(*c, *d)?;
            let month = pair_of(*e, *f)?;
            let day = pair_of(*g, *h)?;
            day_of(u16::from(century) * 100 + u16::from(year), month, day)
        }
        _ => None,
    }
}

/// A quantity: an integer, then optionally `.0` or `.00`.
pub fn quantity_of(field: &[u8]) -> Option<u64>
    ensures { result ≡ quantity_value field.now }
{
    match leading_integer(field)? {
        (number, [] | [b'.', b'0'] | [b'.', b'0', b'0']) => Some(number),
        _ => None,
    }
}

/// Whether all bytes are text.
pub(crate) fn is_text(field: &[u8]) -> bool
    ensures { result ≡ is_text field.now }
{
    field.iter().all(|b| (b' '..=b'~').contains(b))
}

/// The flag that a letter stands for.
#[inline(always)]
pub fn flag_of(field: &[u8]) -> Option<Flag>
    ensures { result ≡ flag_value field.now }
{
    // No branch depends on which of the letters it is, since that cannot be foretold.
    match field {
        [letter] => {
            let number = u8::from(*letter == b'N') + 2 * u8::from(*letter == b'R');
            let is_flag = (number != 0) | (*letter == b'A');
            if !is_flag {
                return None;
            }
            match number {
                0 => Some(Flag::A),
                1 => Some(Flag::N),
                _ => Some(Flag::R),
            }
        }
        _ => None,
    }
}

/// The status that a letter stands for.
#[inline(always)]
pub fn status_of(field: &[u8]) -> Option<LineStatus>
    ensures { result ≡ status_value field.now }
{
    match field {
        b"F" => Some(LineStatus::F),
        b"O" => Some(LineStatus::O),
        _ => None,
    }
}

// The integer at the front, and what follows its digits.
#[inline(always)]
fn leading_integer(bytes: &[u8]) -> Option<(u64, &[u8])>
    ensures value { MatchOption result
        (integer_value (leading_digits bytes.now) ≡ None)
        (λ r. IsFrontInteger bytes.now r.1.now r.0) }
    ensures within { IfSome result (λ r. r.0 < 10 ^ MOST_DIGITS) }
{
    let (digits, rest) = bytes.split_at(digit_count(bytes));
    match digits.len() {
        1..=MOST_DIGITS => Some((spelled(digits), rest)),
        _ => None,
    }
}

// How many digits stand at the front.
#[inline(always)]
fn digit_count(bytes: &[u8]) -> usize
    ensures { result ≡ prefix_len is_digit bytes.now }
{
    for (at, b) in bytes.iter().enumerate() {
        if !b.is_ascii_digit() {
            return at;
        }
    }
    bytes.len()
}

#[inline(always)]
fn spelled(digits: &[u8]) -> u64
    requires digits { AllPass is_digit digits.now }
    requires few { length digits.now ≤ MOST_DIGITS }
    ensures value { result ≡ spelled digits.now }
    ensures within { result < 10 ^ length digits.now }
{
    let mut number = 0;
    for b in digits {
        number = number * 10 + u64::from(*b - b'0');
    }
    number
}

// The hundredths that follow the whole part of money.
fn hundredths_of(bytes: &[u8]) -> Option<u8>
    ensures value { result ≡ hundredths_value bytes.now }
    ensures within { IfSome result (λ n. n < 100) }
{
    match bytes {
        [] => Some(0),
        [b'.', tenths] => pair_of(*tenths, b'0'),
        [b'.', tenths, ones] => pair_of(*tenths, *ones),
        _ => None,
    }
}

/// The number that two digits spell.
#[inline(always)]
pub(crate) fn pair_of(tens: u8, ones: u8) -> Option<u8>
    ensures value { MatchOption result ((is_digit tens && is_digit ones) ≡ false) (IsPair tens ones) }
    ensures within { IfSome result (λ n. n < 100) }
{
    match (tens, ones) {
        (b'0'..=b'9', b'0'..=b'9') => Some((tens - b'0') * 10 + (ones - b'0')),
        _ => None,
    }
}

/// Whether a bar ends the last field of a line.
#[inline(always)]
pub(crate) fn ends_in_bar(line: &[u8]) -> bool
    ensures { IsTrue result ↔ EndsInBar line.now }
{
    matches!(line, [.., b'|'])
}

#[cfg(test)]
mod tests;

//! The pieces of a report's lines, written at the end of a text.
ghost use Rattle.std.specs.Prelude.{◌≡◌, ◌+◌, ◌<◌, ◌≤◌, ◌∷◌, ◌++◌, decimal, OnOk};
ghost use Rattle.query_report.specs.Date.{date_text, ymd_text};
ghost use Rattle.query_report.specs.Decimal.{decimal4_text, four_digits};
ghost use Rattle.query_report.specs.Field.{field, flag_letter, status_letter};
ghost use Rattle.query_report.specs.TupleText.{amounts_text, hundredths_text, letters_text, held_text, tuple_text};

use crate::Memory;
use crate::decimal::{digit, fraction};
use cubit_base::{Flag, LineStatus, Tuple, date_of};
use itoa::Buffer;

/// A label and a number.
#[inline(always)]
#[tactic(auto, unfolding(crate::specs::Field::field))]
pub(crate) fn put_field(text: &mut Vec<u8>, label: &[u8], number: u32) -> Result<(), Memory>
    ensures { OnOk result (text.new.items ≡ text.old.items ++ field label.now number) }
{
    text.extend_from_slice(label)?;
    let mut buffer = Buffer::new();
    text.extend_from_slice(buffer.format(number).as_bytes())
}

/// A sum of units of 0.0001, with four decimals.
pub(crate) fn put_decimal4(text: &mut Vec<u8>, units: u64) -> Result<(), Memory>
    ensures { OnOk result (text.new.items ≡ text.old.items ++ decimal4_text units) }
{
    let mut buffer = Buffer::new();
    text.extend_from_slice(buffer.format(units / 10_000).as_bytes())?;
    text.extend_from_slice(&fraction((units % 10_000) as u16))
}

/// A tuple, or the hyphen that stands for none.
pub(crate) fn put_held(text: &mut Vec<u8>, held: Option<Tuple>) -> Result<(), Memory>
    ensures { OnOk result (text.new.items ≡ text.old.items ++ held_text held) }
{
    match held {
        Some(tuple) => put_tuple(text, &tuple),
        None => text.extend_from_slice(b"-"),
    }
}

/// The values of a row between bars.
#[tactic(auto, unfolding(crate::specs::TupleText::tuple_text))]
pub(crate) fn put_tuple(text: &mut Vec<u8>, tuple: &Tuple) -> Result<(), Memory>
    ensures { OnOk result (text.new.items ≡ text.old.items ++ tuple_text tuple.now) }
{
    put_amounts(text, tuple)?;
    text.extend_from_slice(&letters(tuple))?;
    text.extend_from_slice(&date_digits(tuple.day))?;
    Ok(())
}

#[tactic(auto, unfolding(crate::specs::TupleText::amounts_text))]
fn put_amounts(text: &mut Vec<u8>, tuple: &Tuple) -> Result<(), Memory>
    ensures { OnOk result (text.new.items ≡ text.old.items ++ amounts_text tuple.now) }
{
    put_number(text, u32::from(tuple.qty))?;
    put_hundredths(text, tuple.price)?;
    put_hundredths(text, u32::from(tuple.disc))?;
    put_hundredths(text, u32::from(tuple.tax))?;
    Ok(())
}

/// A number.
#[inline(always)]
pub(crate) fn put_number(text: &mut Vec<u8>, number: u32) -> Result<(), Memory>
    ensures { OnOk result (text.new.items ≡ text.old.items ++ decimal number) }
{
    let mut buffer = Buffer::new();
    text.extend_from_slice(buffer.format(number).as_bytes())
}

// A bar, and hundredths with two decimals.
#[inline(always)]
#[tactic(auto, unfolding(crate::specs::Field::field))]
fn put_hundredths(text: &mut Vec<u8>, number: u32) -> Result<(), Memory>
    ensures { OnOk result (text.new.items ≡ text.old.items ++ hundredths_text number) }
{
    put_field(text, b"|", number / 100)?;
    let part = (number % 100) as u16;
    text.extend_from_slice(&[b'.', digit(part / 10), digit(part % 10)])
}

// The flag and the status between bars.
#[tactic(auto, unfolding(crate::specs::TupleText::letters_text))]
fn letters(tuple: &Tuple) -> [u8; 5]
    ensures { result ≡ letters_text tuple.now }
{
    let flag = flag_letter(tuple.flag);
    let status = status_letter(tuple.status);
    [b'|', flag, b'|', status, b'|']
}

fn flag_letter(flag: Flag) -> u8
    ensures { result ≡ flag_letter flag }
{
    match flag {
        Flag::A => b'A',
        Flag::N => b'N',
        Flag::R => b'R',
    }
}

fn status_letter(status: LineStatus) -> u8
    ensures { result ≡ status_letter status }
{
    match status {
        LineStatus::F => b'F',
        LineStatus::O => b'O',
    }
}

// YYYY-MM-DD, of a day since 1992-01-01.
fn date_digits(day: u16) -> [u8; 10]
    requires { day ≤ 2556 }
    ensures { result ≡ date_text day }
{
    let (year, month, place) = date_of(day);
    ymd_digits(year, u16::from(month), u16::from(place))
}

fn ymd_digits(year: u16, month: u16, day: u16) -> [u8; 10]
    ensures { result ≡ ymd_text (record { year = year; month = month; day = day }) }
{
    [
        digit(year / 1000 % 10),
        digit(year / 100 % 10),
        digit(year / 10 % 10),
        digit(year % 10),
        b'-',
        digit(month / 10 % 10),
        digit(month % 10),
        b'-',
        digit(day / 10 % 10),
        digit(day % 10),
    ]
}

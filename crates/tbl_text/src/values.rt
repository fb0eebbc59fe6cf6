//! The values of a tuple in a command, with one space between each two.
ghost use Rattle.std.specs.Prelude.{◌≡◌, ◌+◌, ◌<◌, ◌≤◌, ◌∷◌, ◌++◌, length, count_by, IfErr};
ghost use Rattle.std.specs.List.{position_or_len};
ghost use Rattle.tbl_text.specs.Line.{fault_number};
ghost use Rattle.tbl_text.specs.Values.{is_space, words_of, tuple_value, listed_values};

use crate::LineFault;
use crate::careful::within;
use crate::field::{date_field, flag_of, money_of, quantity_of, status_of};
use cubit_base::Tuple;

/// The tuple of the seven values, each of the spelling of its field in a line, or the first fault from left to right.
/// It takes no memory.
pub fn tuple_fields(bytes: &[u8]) -> Result<Tuple, LineFault>
    requires { count_by is_space bytes.now ≡ 6 }
    ensures value { result ≡ tuple_value (words_of bytes.now) }
    ensures fault { IfErr result (λ f. (4 ≤ fault_number f) × (fault_number f ≤ 10)) }
{
    tuple_value(split(bytes))
}

// The seven values, in their order.
#[derive(Clone, Copy)]
struct Values<'a> {
    quantity: &'a [u8],
    extendedprice: &'a [u8],
    discount: &'a [u8],
    tax: &'a [u8],
    returnflag: &'a [u8],
    linestatus: &'a [u8],
    shipdate: &'a [u8],
}

fn split(bytes: &[u8]) -> Values<'_>
    requires { count_by is_space bytes.now ≡ 6 }
    ensures { listed_values result ≡ words_of bytes.now }
{
    let (quantity, rest) = first_word(bytes);
    let (extendedprice, rest) = first_word(rest);
    let (discount, rest) = first_word(rest);
    let (tax, rest) = first_word(rest);
    let (returnflag, rest) = first_word(rest);
    let (linestatus, shipdate) = first_word(rest);
    Values {
        quantity,
        extendedprice,
        discount,
        tax,
        returnflag,
        linestatus,
        shipdate,
    }
}

/// How many spaces there are: one fewer than words.
pub fn space_count(bytes: &[u8]) -> u32
    requires { length bytes.now ≤ u32.MAX }
    ensures { result ≡ count_by is_space bytes.now }
{
    let mut spaces = 0u32;
    for b in bytes {
        spaces += u32::from(*b == b' ');
    }
    spaces
}

/// The first of two words or more, and what follows its space.
pub fn first_word(bytes: &[u8]) -> (&[u8], &[u8])
    requires { 1 ≤ count_by is_space bytes.now }
    ensures cut { bytes.now ≡ result.0.now ++ 32 ∷ result.1.now }
    ensures words { words_of bytes.now ≡ result.0.now ∷ words_of result.1.now }
    ensures spaces { count_by is_space bytes.now ≡ 1 + count_by is_space result.1.now }
{
    let at = space_at(bytes);
    (&bytes[..at], &bytes[at + 1..])
}

// The place of the first space.
fn space_at(bytes: &[u8]) -> usize
    requires { 1 ≤ count_by is_space bytes.now }
    ensures place { result ≡ position_or_len is_space bytes.now }
    ensures below { result < length bytes.now }
{
    for (at, b) in bytes.iter().enumerate() {
        if *b == b' ' {
            return at;
        }
    }
    unreachable!()
}

// What seven values say, from left to right.
fn tuple_value(values: Values<'_>) -> Result<Tuple, LineFault>
    ensures value { result ≡ tuple_value (listed_values values.entry) }
    ensures fault { IfErr result (λ f. (4 ≤ fault_number f) × (fault_number f ≤ 10)) }
{
    let qty = within(1, 50, quantity_of(values.quantity), LineFault::Quantity)?;
    let extendedprice = money_of(values.extendedprice);
    let price = within(0, 99_999_999, extendedprice, LineFault::Price)?;
    let disc = within(0, 10, money_of(values.discount), LineFault::Discount)?;
    let tax = within(0, 8, money_of(values.tax), LineFault::Tax)?;
    let flag = flag_of(values.returnflag).ok_or(LineFault::Flag)?;
    let status = status_of(values.linestatus).ok_or(LineFault::Status)?;
    let day = date_field(values.shipdate).ok_or(LineFault::Date)?;
    Ok(Tuple {
        price: price as u32,
        day,
        qty: qty as u8,
        disc: disc as u8,
        tax: tax as u8,
        flag,
        status,
    })
}

#[cfg(test)]
mod tests;

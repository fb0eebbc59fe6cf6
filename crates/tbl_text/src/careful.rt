//! The careful reader: it cuts a line into its fields and judges them one after another, as the definition of a line
//! does. It reads every spelling that is accepted, and finds the first fault of any line.
ghost use Rattle.std.specs.Prelude.{◌≡◌, ◌≢◌, ◌≤◌, [], count_by, length, IfOk};
ghost use Rattle.std.specs.List.{position_or_len};
ghost use Rattle.tbl_text.specs.Fields.{IsCut, listed};
ghost use Rattle.tbl_text.specs.FirstRow.{IsFirstRow};
ghost use Rattle.tbl_text.specs.Line.{fields_value, within, text, line_value};
ghost use Rattle.tbl_text.specs.Lines.{is_bar, fields_of};

use crate::field::{
    date_field, ends_in_bar, flag_of, integer_of, is_text, money_of, quantity_of, status_of,
};
use crate::{LineFault, first_line};
use cubit_base::{Key, Tuple};

/// The key and the tuple of a line without its line end, or the first fault: the number of fields, and then the
/// fields from left to right. It takes no memory.
pub fn line_of(line: &[u8]) -> Result<(Key, Tuple), LineFault>
    requires { length line.now ≤ u32.MAX }
    ensures { result ≡ line_value line.now }
{
    match field_count(line) {
        16 => fields_value(split(line)),
        count => Err(LineFault::FieldCount(count)),
    }
}

/// The key and the tuple of the first line and what follows the line, or the line's first fault. The fast reader takes
/// nearly all lines, so this is kept out of its way.
#[cold]
#[inline(never)]
pub(crate) fn first_row(bytes: &[u8]) -> Result<(Key, Tuple, &[u8]), LineFault>
    requires some { bytes.now ≢ [] }
    requires few { length bytes.now ≤ u32.MAX }
    ensures { IsFirstRow bytes.now result }
{
    let Some(line) = first_line(bytes) else {
        unreachable!()
    };
    let (key, tuple) = line_of(&bytes[..line.len])?;
    Ok((key, tuple, &bytes[line.next..]))
}

// The sixteen fields of a line, in their order.
#[derive(Clone, Copy)]
struct Fields<'a> {
    orderkey: &'a [u8],
    partkey: &'a [u8],
    suppkey: &'a [u8],
    linenumber: &'a [u8],
    quantity: &'a [u8],
    extendedprice: &'a [u8],
    discount: &'a [u8],
    tax: &'a [u8],
    returnflag: &'a [u8],
    linestatus: &'a [u8],
    shipdate: &'a [u8],
    commitdate: &'a [u8],
    receiptdate: &'a [u8],
    shipinstruct: &'a [u8],
    shipmode: &'a [u8],
    comment: &'a [u8],
}

// How many fields a line has: as many as bars, and one more where no bar ends it.
fn field_count(line: &[u8]) -> u32
    requires { length line.now ≤ u32.MAX }
    ensures { result ≡ length (fields_of line.now) }
{
    let bars = bar_count(line);
    if ends_in_bar(line) { bars } else { bars + 1 }
}

fn bar_count(bytes: &[u8]) -> u32
    requires { length bytes.now ≤ u32.MAX }
    ensures { result ≡ count_by is_bar bytes.now }
{
    let mut bars = 0u32;
    for b in bytes {
        bars += u32::from(*b == b'|');
    }
    bars
}

fn split(line: &[u8]) -> Fields<'_>
    requires { length (fields_of line.now) ≡ 16 }
    ensures { listed result ≡ fields_of line.now }
{
    let (orderkey, rest) = next_field(line);
    let (partkey, rest) = next_field(rest);
    let (suppkey, rest) = next_field(rest);
    let (linenumber, rest) = next_field(rest);
    let (quantity, rest) = next_field(rest);
    let (extendedprice, rest) = next_field(rest);
    let (discount, rest) = next_field(rest);
    let (tax, rest) = next_field(rest);
    let (returnflag, rest) = next_field(rest);
    let (linestatus, rest) = next_field(rest);
    let (shipdate, rest) = next_field(rest);
    let (commitdate, rest) = next_field(rest);
    let (receiptdate, rest) = next_field(rest);
    let (shipinstruct, rest) = next_field(rest);
    let (shipmode, rest) = next_field(rest);
    let (comment, _) = next_field(rest);
    Fields {
        orderkey,
        partkey,
        suppkey,
        linenumber,
        quantity,
        extendedprice,
        discount,
        tax,
        returnflag,
        linestatus,
        shipdate,
        commitdate,
        receiptdate,
        shipinstruct,
        shipmode,
        comment,
    }
}

// The first field of some bytes, and what follows its bar.
fn next_field(bytes: &[u8]) -> (&[u8], &[u8])
    ensures { IsCut bytes.now result.0.now result.1.now }
{
    let (field, rest) = bytes.split_at(bar_at(bytes));
    match rest {
        [_, rest @ ..] => (field, rest),
        [] => (field, rest),
    }
}

// The place of the first bar, or the number of bytes.
fn bar_at(bytes: &[u8]) -> usize
    ensures { result ≡ position_or_len is_bar bytes.now }
{
    for (at, b) in bytes.iter().enumerate() {
        if *b == b'|' {
            return at;
        }
    }
    bytes.len()
}

// What sixteen fields say, from left to right.
fn fields_value(fields: Fields<'_>) -> Result<(Key, Tuple), LineFault>
    ensures { result ≡ fields_value (listed fields.entry) }
{
    let orderkey = integer_of(fields.orderkey);
    let order = within(1, 4_294_967_295, orderkey, LineFault::Order)?;
    text(fields.partkey)?;
    text(fields.suppkey)?;
    let line = within(1, 7, integer_of(fields.linenumber), LineFault::Line)?;
    let qty = within(1, 50, quantity_of(fields.quantity), LineFault::Quantity)?;
    let extendedprice = money_of(fields.extendedprice);
    let price = within(0, 99_999_999, extendedprice, LineFault::Price)?;
    let disc = within(0, 10, money_of(fields.discount), LineFault::Discount)?;
    let tax = within(0, 8, money_of(fields.tax), LineFault::Tax)?;
    let flag = flag_of(fields.returnflag).ok_or(LineFault::Flag)?;
    let status = status_of(fields.linestatus).ok_or(LineFault::Status)?;
    let day = date_field(fields.shipdate).ok_or(LineFault::Date)?;
    text(fields.commitdate)?;
    text(fields.receiptdate)?;
    text(fields.shipinstruct)?;
    text(fields.shipmode)?;
    text(fields.comment)?;
    let key = Key {
        order: order as u32,
        line: line as u8,
    };
    let tuple = Tuple {
        price: price as u32,
        day,
        qty: qty as u8,
        disc: disc as u8,
        tax: tax as u8,
        flag,
        status,
    };
    Ok((key, tuple))
}

/// The number, where there is one and it lies from `low` to `high`; else the fault.
pub(crate) fn within(
    low: u64,
    high: u64,
    number: Option<u64>,
    fault: LineFault,
) -> Result<u64, LineFault>
    ensures value { result ≡ within low high number fault }
    ensures range { IfOk result (λ n. (low ≤ n) × (n ≤ high)) }
{
    match number {
        Some(n) if low <= n && n <= high => Ok(n),
        _ => Err(fault),
    }
}

fn text(field: &[u8]) -> Result<(), LineFault>
    ensures { result ≡ text field.now }
{
    if is_text(field) {
        Ok(())
    } else {
        Err(LineFault::Text)
    }
}

#[cfg(test)]
mod tests;

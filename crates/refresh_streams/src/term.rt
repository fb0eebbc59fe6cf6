//! The terms of a query.
ghost use Rattle.std.specs.Prelude.{◌≡◌, ◌≤◌, length, option_map, position, bytes_eq, IfSome};
ghost use Rattle.std.specs.Bool.{OnTrue};
ghost use Rattle.tbl_text.specs.Values.{words_of};
ghost use Rattle.refresh_streams.specs.Generator.{everything};
ghost use Rattle.refresh_streams.specs.Term.{column_named, number_within, number_of, begins_with_points, cut_at_points, ends_of, range_of, range_at, restricted, is_equals, with_term, predicate_of};

use crate::seeded::everything;
use cubit_base::{Predicate, Range};
use tbl_text::{date_field, first_word, flag_of, money_of, quantity_of, space_count, status_of};

/// What a term restricts.
#[derive(Clone, Copy)]
pub(crate) enum Column {
    /// `ship`, by days since 1992-01-01.
    Ship,
    /// `disc`, in hundredths.
    Disc,
    /// `qty`.
    Qty,
    /// `flag`: A 0, N 1, R 2.
    Flag,
    /// `status`: F 0, O 1.
    Status,
}

/// The predicate of some terms, with one space between each two; none where one of them is bad.
pub(crate) fn predicate_of(terms: &[u8]) -> Option<Predicate>
    requires { length terms.now ≤ u32.MAX }
    ensures { result ≡ predicate_of (words_of terms.now) }
{
    let mut predicate = everything();
    let mut rest = terms;
    for taken in 0..space_count(terms) {
        let (term, others) = first_word(rest);
        match with_term(predicate, term) {
            Some(narrower) => predicate = narrower,
            None => return None,
        }
        rest = others;
    }
    with_term(predicate, rest)
}

// The predicate with one more term; none where the term is bad, or its column stands already.
fn with_term(predicate: Predicate, term: &[u8]) -> Option<Predicate>
    ensures { result ≡ with_term predicate term.now }
{
    let at = equals_at(term)?;
    let column = column_named(&term[..at])?;
    let range = range_of(column, &term[at + 1..])?;
    match range_at(&predicate, column) {
        Some(_) => None,
        None => Some(restricted(predicate, column, range)),
    }
}

// The place of the first equals sign.
fn equals_at(term: &[u8]) -> Option<usize>
    ensures { result ≡ position is_equals term.now }
{
    term.iter().position(|b| *b == b'=')
}

fn column_named(name: &[u8]) -> Option<Column>
    ensures { result ≡ column_named name.now }
{
    if is_word(name, "ship") {
        Some(Column::Ship)
    } else if is_word(name, "disc") {
        Some(Column::Disc)
    } else if is_word(name, "qty") {
        Some(Column::Qty)
    } else if is_word(name, "flag") {
        Some(Column::Flag)
    } else if is_word(name, "status") {
        Some(Column::Status)
    } else {
        None
    }
}

/// Whether the bytes spell the word.
#[inline(always)]
pub(crate) fn is_word(bytes: &[u8], word: &str) -> bool
    ensures { result ≡ bytes_eq bytes.now word.now }
{
    bytes == word.as_bytes()
}

fn range_at(predicate: &Predicate, column: Column) -> Option<Range>
    ensures { result ≡ range_at predicate.now column }
{
    match column {
        Column::Ship => predicate.ship,
        Column::Disc => predicate.disc,
        Column::Qty => predicate.qty,
        Column::Flag => predicate.flag,
        Column::Status => predicate.status,
    }
}

fn restricted(predicate: Predicate, column: Column, range: Range) -> Predicate
    ensures { result ≡ restricted predicate column range }
{
    let mut narrower = predicate;
    match column {
        Column::Ship => narrower.ship = Some(range),
        Column::Disc => narrower.disc = Some(range),
        Column::Qty => narrower.qty = Some(range),
        Column::Flag => narrower.flag = Some(range),
        Column::Status => narrower.status = Some(range),
    }
    narrower
}

// The range of a value, or of a low and a high end.
fn range_of(column: Column, text: &[u8]) -> Option<Range>
    ensures { result ≡ range_of column text.now }
{
    let (low, high) = ends_of(column, text);
    let lo = number_of(column, low)?;
    let hi = match high {
        Some(high) => number_of(column, high)?,
        None => lo,
    };
    Some(Range { lo, hi })
}

fn ends_of(column: Column, text: &[u8]) -> (&[u8], Option<&[u8]>)
    ensures { (result.0.now, option_map (λ high. high.now) result.1) ≡ ends_of column text.now }
{
    match column {
        Column::Flag | Column::Status => (text, None),
        _ => cut_at_points(text),
    }
}

// What stands before the first two points, and what stands behind them, where they come.
fn cut_at_points(text: &[u8]) -> (&[u8], Option<&[u8]>)
    ensures { (result.0.now, option_map (λ high. high.now) result.1) ≡ cut_at_points text.now }
{
    for at in 0..text.len() {
        if begins_with_points(&text[at..]) {
            return (&text[..at], Some(&text[at + 2..]));
        }
    }
    (text, None)
}

fn begins_with_points(text: &[u8]) -> bool
    ensures value { result ≡ begins_with_points text.now }
    ensures two { OnTrue result (2 ≤ length text.now) }
{
    match text {
        [b'.', b'.', ..] => true,
        _ => false,
    }
}

// The number by which a range selects a column's value.
fn number_of(column: Column, value: &[u8]) -> Option<u16>
    ensures { result ≡ number_of column value.now }
{
    match column {
        Column::Ship => date_field(value),
        Column::Disc => within(0, 10, money_of(value)),
        Column::Qty => within(1, 50, quantity_of(value)),
        Column::Flag => match flag_of(value) {
            Some(flag) => Some(u16::from(flag.number())),
            None => None,
        },
        Column::Status => match status_of(value) {
            Some(status) => Some(u16::from(status.number())),
            None => None,
        },
    }
}

/// The number, where there is one and it lies from `low` to `high`.
pub(crate) fn within(low: u16, high: u16, number: Option<u64>) -> Option<u16>
    ensures value { result ≡ number_within low high number }
    ensures range { IfSome result (λ n. (low ≤ n) × (n ≤ high)) }
{
    match number {
        Some(n) if u64::from(low) <= n && n <= u64::from(high) => Some(n as u16),
        _ => None,
    }
}

//! Lines of a script.
ghost use Rattle.std.specs.Prelude.{◌≡◌, ◌≤◌, ◌<◌, ◌+◌, ◌∷◌, length, count_by, [], Ok, Err, IfOk, IfSome, MatchResult};
ghost use Rattle.tbl_text.specs.Values.{is_space, words_of};
ghost use Rattle.refresh_streams.specs.Script.{DropsSomeOrder};
ghost use Rattle.refresh_streams.specs.ScriptLine.{verb_named, order_value, key_value, row_value, row_of, key_of, order_of, query_of, q6_of, q6_of_numbers, name_of, asks, verb_asks, word_asks, words_ask, line_asks, request_of, AsksSomeOrder};

use crate::seeded::everything;
use crate::term::{is_word, predicate_of, within};
use cubit_base::{Command, Key, Predicate, Tuple};
use std::str;
use tbl_text::{
    LineFault, first_word, integer_of, money_of, quantity_of, space_count, tuple_fields,
};

/// What a line asks for.
#[derive(Clone, Copy)]
pub(crate) enum Asked<'a> {
    /// Nothing: the line is empty, or a comment.
    Nothing,
    /// This command.
    One(Command),
    /// An insert for each line of the `lineitem` file of this name.
    Inserts(&'a str),
    /// The drop of an order for each line of the delete file of this name.
    Deletes(&'a str),
}

/// The first word of a line.
#[derive(Clone, Copy)]
pub(crate) enum Verb {
    /// `insert`.
    Insert,
    /// `update`.
    Update,
    /// `delete`.
    Delete,
    /// `drop`.
    Drop,
    /// `lookup`.
    Lookup,
    /// `rows`.
    Rows,
    /// `count`.
    Count,
    /// `sum`.
    Sum,
    /// `q6`.
    Q6,
    /// `merge`.
    Merge,
    /// `insert-file`.
    InsertFile,
    /// `delete-file`.
    DeleteFile,
}

// A line that is no line of a script, and a bad term.
const MALFORMED: u8 = 14;

const BAD_TERM: u8 = 18;

/// What a line asks for, without its line end, or the number of its fault.
pub(crate) fn line_asks(line: &[u8]) -> Result<Asked<'_>, u8>
    requires { length line.now ≤ u32.MAX }
    ensures value { asks request_of result ≡ line_asks line.now }
    ensures order { IfOk result AsksSomeOrder }
{
    match line {
        [] | [b'#', ..] => Ok(Asked::Nothing),
        _ => words_ask(line),
    }
}

fn words_ask(line: &[u8]) -> Result<Asked<'_>, u8>
    requires { length line.now ≤ u32.MAX }
    ensures value { asks request_of result ≡ words_ask (words_of line.now) line.now }
    ensures order { IfOk result AsksSomeOrder }
{
    let spaces = space_count(line);
    if spaces == 0 {
        return word_asks(line);
    }
    let (word, rest) = first_word(line);
    match verb_named(word) {
        Some(verb) => verb_asks(verb, spaces, rest),
        None => Err(MALFORMED),
    }
}

// A word alone: a query of all rows, or a merge.
fn word_asks<'a>(word: &[u8]) -> Result<Asked<'a>, u8>
    ensures value { asks request_of result ≡ word_asks (verb_named word.now) [] [] }
    ensures order { IfOk result AsksSomeOrder }
{
    match verb_named(word) {
        Some(Verb::Rows) => Ok(Asked::One(Command::Rows(everything()))),
        Some(Verb::Count) => Ok(Asked::One(Command::Count(everything()))),
        Some(Verb::Sum) => Ok(Asked::One(Command::Sum(everything()))),
        Some(Verb::Merge) => Ok(Asked::One(Command::Merge)),
        _ => Err(MALFORMED),
    }
}

fn verb_named(word: &[u8]) -> Option<Verb>
    ensures { result ≡ verb_named word.now }
{
    if is_word(word, "insert") {
        Some(Verb::Insert)
    } else if is_word(word, "update") {
        Some(Verb::Update)
    } else if is_word(word, "delete") {
        Some(Verb::Delete)
    } else if is_word(word, "drop") {
        Some(Verb::Drop)
    } else if is_word(word, "lookup") {
        Some(Verb::Lookup)
    } else if is_word(word, "rows") {
        Some(Verb::Rows)
    } else if is_word(word, "count") {
        Some(Verb::Count)
    } else if is_word(word, "sum") {
        Some(Verb::Sum)
    } else if is_word(word, "q6") {
        Some(Verb::Q6)
    } else if is_word(word, "merge") {
        Some(Verb::Merge)
    } else if is_word(word, "insert-file") {
        Some(Verb::InsertFile)
    } else if is_word(word, "delete-file") {
        Some(Verb::DeleteFile)
    } else {
        None
    }
}

// A first word with so many words behind it.
fn verb_asks(verb: Verb, fields: u32, rest: &[u8]) -> Result<Asked<'_>, u8>
    requires few { length rest.now ≤ u32.MAX }
    requires fields { fields ≡ count_by is_space rest.now + 1 }
    ensures value { asks request_of result ≡ verb_asks verb (words_of rest.now) rest.now }
    ensures order { IfOk result AsksSomeOrder }
{
    match verb {
        Verb::Insert => {
            let (key, tuple) = row_of(fields, rest)?;
            Ok(Asked::One(Command::Insert(key, tuple)))
        }
        Verb::Update => {
            let (key, tuple) = row_of(fields, rest)?;
            Ok(Asked::One(Command::Update(key, tuple)))
        }
        Verb::Delete => Ok(Asked::One(Command::Delete(key_of(fields, rest)?))),
        Verb::Drop => Ok(Asked::One(Command::DropOrder(order_of(fields, rest)?))),
        Verb::Lookup => Ok(Asked::One(Command::Lookup(key_of(fields, rest)?))),
        Verb::Rows => Ok(Asked::One(Command::Rows(query_of(fields, rest)?))),
        Verb::Count => Ok(Asked::One(Command::Count(query_of(fields, rest)?))),
        Verb::Sum => Ok(Asked::One(Command::Sum(query_of(fields, rest)?))),
        Verb::Q6 => Ok(Asked::One(Command::Q6(q6_of(fields, rest)?))),
        Verb::Merge => Err(MALFORMED),
        Verb::InsertFile => Ok(Asked::Inserts(name_of(rest)?)),
        Verb::DeleteFile => Ok(Asked::Deletes(name_of(rest)?)),
    }
}

fn row_of(fields: u32, rest: &[u8]) -> Result<(Key, Tuple), u8>
    requires { fields ≡ count_by is_space rest.now + 1 }
    ensures { result ≡ row_of (words_of rest.now) }
{
    if fields != 9 {
        return Err(MALFORMED);
    }
    let (order, rest) = first_word(rest);
    let (line, values) = first_word(rest);
    match row_value(order, line, values) {
        Ok(row) => Ok(row),
        Err(fault) => Err(fault.number()),
    }
}

fn row_value(order: &[u8], line: &[u8], values: &[u8]) -> Result<(Key, Tuple), LineFault>
    requires { count_by is_space values.now ≡ 6 }
    ensures { result ≡ row_value order.now line.now (words_of values.now) }
{
    let key = key_value(order, line)?;
    let tuple = tuple_fields(values)?;
    Ok((key, tuple))
}

fn key_of(fields: u32, rest: &[u8]) -> Result<Key, u8>
    requires { fields ≡ count_by is_space rest.now + 1 }
    ensures { result ≡ key_of (words_of rest.now) }
{
    if fields != 2 {
        return Err(MALFORMED);
    }
    let (order, line) = first_word(rest);
    match key_value(order, line) {
        Ok(key) => Ok(key),
        Err(fault) => Err(fault.number()),
    }
}

fn key_value(order: &[u8], line: &[u8]) -> Result<Key, LineFault>
    ensures { result ≡ key_value order.now line.now }
{
    let order = order_value(order)?;
    match integer_of(line) {
        Some(n) if 1 <= n && n <= 7 => Ok(Key {
            order,
            line: n as u8,
        }),
        _ => Err(LineFault::Line),
    }
}

fn order_of(fields: u32, rest: &[u8]) -> Result<u32, u8>
    requires { fields ≡ count_by is_space rest.now + 1 }
    ensures value { result ≡ order_of (words_of rest.now) }
    ensures range { IfOk result (λ order. 1 ≤ order) }
{
    if fields != 1 {
        return Err(MALFORMED);
    }
    match order_value(rest) {
        Ok(order) => Ok(order),
        Err(fault) => Err(fault.number()),
    }
}

fn order_value(order: &[u8]) -> Result<u32, LineFault>
    ensures value { result ≡ order_value order.now }
    ensures range { IfOk result (λ order. 1 ≤ order) }
{
    match integer_of(order) {
        Some(n) if 1 <= n && n <= 4_294_967_295 => Ok(n as u32),
        _ => Err(LineFault::Order),
    }
}

fn query_of(fields: u32, rest: &[u8]) -> Result<Predicate, u8>
    requires few { length rest.now ≤ u32.MAX }
    requires fields { fields ≡ count_by is_space rest.now + 1 }
    ensures { result ≡ query_of (words_of rest.now) }
{
    if fields > 5 {
        return Err(MALFORMED);
    }
    match predicate_of(rest) {
        Some(predicate) => Ok(predicate),
        None => Err(BAD_TERM),
    }
}

fn q6_of(fields: u32, rest: &[u8]) -> Result<Predicate, u8>
    requires { fields ≡ count_by is_space rest.now + 1 }
    ensures { result ≡ q6_of (words_of rest.now) }
{
    if fields != 3 {
        return Err(MALFORMED);
    }
    let (year, rest) = first_word(rest);
    let (disc, qty) = first_word(rest);
    let year = within(1992, 1998, integer_of(year));
    let disc = within(0, 10, money_of(disc));
    let qty = within(1, 51, quantity_of(qty));
    q6_of_numbers(year, disc, qty)
}

fn q6_of_numbers(year: Option<u16>, disc: Option<u16>, qty: Option<u16>) -> Result<Predicate, u8>
    requires year { IfSome year (λ n. (1992 ≤ n) × (n ≤ 1998)) }
    requires disc { IfSome disc (λ n. n ≤ 10) }
    requires qty { IfSome qty (λ n. (1 ≤ n) × (n ≤ 51)) }
    ensures { result ≡ q6_of_numbers year disc qty }
{
    match (year, disc, qty) {
        (Some(year), Some(disc), Some(qty)) => Ok(Predicate::q6(year, disc as u8, qty as u8)),
        _ => Err(MALFORMED),
    }
}

// The name of a file: at least one byte, and text.
fn name_of(rest: &[u8]) -> Result<&str, u8>
    ensures { MatchResult result (λ name. name_of rest.now ≡ Ok name.now) (λ number. name_of rest.now ≡ Err number) }
{
    if rest.is_empty() {
        return Err(MALFORMED);
    }
    match str::from_utf8(rest) {
        Ok(name) => Ok(name),
        Err(_) => Err(MALFORMED),
    }
}

//! The words of the command line.
use crate::cases::Case;
use cubit_base::Predicate;
use tbl_text::{integer_of, money_of, quantity_of};

/// What the words ask for.
#[derive(Clone, Copy)]
pub(crate) struct Asked<'w> {
    pub(crate) file: &'w str,
    pub(crate) rounds: u32,
    /// The one query, where the words name it.
    pub(crate) query: Option<Case>,
    pub(crate) tells_times: bool,
}

/// Reads `FILE ROUNDS [YEAR DISCOUNT QUANTITY] [--times]`.
pub(crate) fn read(words: &[String]) -> Option<Asked<'_>> {
    let (words, tells_times) = match words {
        [words @ .., last] if last.as_str() == "--times" => (words, true),
        _ => (words, false),
    };
    let (file, rounds, query) = match words {
        [file, rounds] => (file, rounds, None),
        [file, rounds, year, disc, qty] => (file, rounds, Some(q6(year, disc, qty)?)),
        _ => return None,
    };
    Some(Asked {
        file: file.as_str(),
        rounds: rounds.parse::<u32>().ok()?,
        query,
        tells_times,
    })
}

// Query 6 with these numbers.
fn q6(year: &str, disc: &str, qty: &str) -> Option<Case> {
    let year = integer_of(year.as_bytes())?;
    let disc = money_of(disc.as_bytes())?;
    let qty = quantity_of(qty.as_bytes())?;
    if !(1992..=1998).contains(&year) || disc > 10 || !(1..=51).contains(&qty) {
        return None;
    }
    Some(Case {
        name: "q6",
        predicate: Predicate::q6(year as u16, disc as u8, qty as u8),
    })
}

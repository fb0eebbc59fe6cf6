//! What the words of the command line ask for.
ghost use Rattle.std.specs.Prelude.{◌≡◌, ◌≤◌, unwrap_or};

use cubit_base::{Limits, Predicate};

/// The words behind `q6`, read.
#[derive(Clone, Copy)]
pub struct Query<'a> {
    /// The name of the base file.
    pub base: &'a str,
    /// 1992 to 1998.
    pub year: u16,
    /// In hundredths, 0 to 10.
    pub disc: u8,
    /// 1 to 51.
    pub qty: u8,
    ghost year_in: { (1992 ≤ year) × (year ≤ 1998) },
    ghost disc_in: { disc ≤ 10 },
    ghost qty_in: { (1 ≤ qty) × (qty ≤ 51) },
}

/// The words behind `run`, read.
#[derive(Clone, Copy)]
pub struct Run<'a> {
    /// The most rows, 0 to 16,777,216, the most deltas, 0 to 4,194,304, and the tries, 1 to 1,000.
    pub limits: Limits,
    /// The name of the base file.
    pub base: &'a str,
    /// The name of the script.
    pub script: &'a str,
    ghost rows_in: { limits.row_limit ≤ 16_777_216 },
    ghost deltas_in: { limits.log_limit ≤ 4_194_304 },
    ghost tries_in: { 1 ≤ limits.tries },
}

/// The words behind `drill`, read.
#[derive(Clone, Copy)]
pub struct Drill {
    /// What the base table and the script are made from.
    pub seed: u32,
    /// How many orders these have, 1 to 100,000.
    pub orders: u32,
    ghost orders_in: { (1 ≤ orders) × (orders ≤ 100_000) },
}

/// The options of a run, where they are given.
#[derive(Clone, Copy)]
pub struct Options {
    /// The most rows, 0 to 16,777,216.
    pub row_limit: Option<u32>,
    /// The most deltas, 0 to 4,194,304.
    pub log_limit: Option<u32>,
    /// How often something is tried, 1 to 1,000.
    pub tries: Option<u32>,
    ghost rows_in: { unwrap_or row_limit 0 ≤ 16_777_216 },
    ghost deltas_in: { unwrap_or log_limit 0 ≤ 4_194_304 },
    ghost tries_in: { 1 ≤ unwrap_or tries 1 },
}

/// What the words ask for.
#[derive(Clone, Copy)]
pub enum Asked<'a> {
    /// One query over a base file.
    Query(Query<'a>),
    /// The commands of a script over a base file.
    Run(Run<'a>),
    /// The commands of a made script over a made base table.
    Drill(Drill),
}

impl Query<'_> {
    ghost use Rattle.cubit_base.specs.Predicate.{q6_predicate};

    /// The predicate that the query selects by.
    pub fn predicate(&self) -> Predicate
        ensures { result ≡ q6_predicate self.now.year self.now.disc self.now.qty }
    {
        Predicate::q6(self.year, self.disc, self.qty)
    }
}

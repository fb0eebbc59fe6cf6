//! The words of the command line.
ghost use Rattle.std.specs.Prelude.{◌≡◌, ◌≤◌, ◌∷◌, [], option_map, map, string_bytes, IfSome};
ghost use Rattle.refresh_streams.specs.Term.{number_within};
ghost use Rattle.cubit_cli.specs.Words.{asked_by, asked_value, command_of, drill_of, drill_value, is_base, is_name, limits_of, no_options, once, options_value, query_of, query_value, run_of, run_value, with_option};

use crate::asked::{Asked, Drill, Options, Query, Run};
use cubit_base::Limits;
use tbl_text::{integer_of, money_of, quantity_of};

/// Reads the words, or none where they are no command.
pub(crate) fn read(words: &Vec<String>) -> Option<Asked<'_>>
    ensures { command_of (map string_bytes words.now.items) ≡ option_map asked_value result }
{
    match words.as_slice() {
        [] => None,
        [name, words @ ..] => read_command(name.as_str(), words),
    }
}

// The words behind the name of a command.
fn read_command<'a>(name: &str, words: &'a [String]) -> Option<Asked<'a>>
    ensures { asked_by name.now (map string_bytes words.now) ≡ option_map asked_value result }
{
    if name == "q6" {
        Some(Asked::Query(read_query(words)?))
    } else if name == "run" {
        Some(Asked::Run(read_run(words, NO_OPTIONS)?))
    } else if name == "drill" {
        Some(Asked::Drill(read_drill(words)?))
    } else {
        None
    }
}

fn read_query(words: &[String]) -> Option<Query<'_>>
    ensures { query_of (map string_bytes words.now) ≡ option_map query_value result }
{
    if words.len() != 4 {
        return None;
    }
    let base = words[0].as_str();
    if !is_base_name(base) {
        return None;
    }
    let year = within(integer_of(words[1].as_bytes()), 1992, 1998)?;
    let disc = within(money_of(words[2].as_bytes()), 0, 10)?;
    let qty = within(quantity_of(words[3].as_bytes()), 1, 51)?;
    Some(Query {
        base,
        year: year as u16,
        disc: disc as u8,
        qty: qty as u8,
    })
}

const NO_OPTIONS: Options = Options {
    row_limit: None,
    log_limit: None,
    tries: None,
};

impl Options {
    // One option more.
    fn with(self, name: &str, number: Option<u64>) -> Option<Options>
        ensures { with_option name.now number (options_value self) ≡ option_map options_value result }
    {
        let mut options = self;
        if name == "--row-limit" {
            options.row_limit = Some(once(self.row_limit, within(number, 0, 16_777_216))?);
        } else if name == "--log-limit" {
            options.log_limit = Some(once(self.log_limit, within(number, 0, 4_194_304))?);
        } else if name == "--tries" {
            options.tries = Some(once(self.tries, within(number, 1, 1_000))?);
        } else {
            return None;
        }
        Some(options)
    }

    // What is not given has its default.
    fn limits(&self) -> Limits
        ensures { result ≡ limits_of (options_value self.now) }
    {
        Limits {
            row_limit: self.row_limit.unwrap_or(16_777_216),
            log_limit: self.log_limit.unwrap_or(4_194_304),
            tries: self.tries.unwrap_or(8),
        }
    }
}

/// What a run that is given no option has for its limits.
pub(crate) fn default_limits() -> Limits
    ensures { result ≡ limits_of no_options }
{
    NO_OPTIONS.limits()
}

// A number for an option, which may be given once.
fn once(before: Option<u32>, number: Option<u64>) -> Option<u32>
    requires { IfSome number (λ n. n ≤ u32.MAX) }
    ensures { result ≡ once before number }
{
    match (before, number) {
        (None, Some(n)) => Some(n as u32),
        _ => None,
    }
}

// The options that are left, the base file and the script.
fn read_run(words: &[String], options: Options) -> Option<Run<'_>>
    ensures { run_of (map string_bytes words.now) (options_value options) ≡ option_map run_value result }
{
    match words {
        [base, script] => read_names(base.as_str(), script.as_str(), options),
        [name, number, words @ ..] => {
            let options = options.with(name.as_str(), integer_of(number.as_bytes()))?;
            read_run(words, options)
        }
        _ => None,
    }
}

fn read_names<'a>(base: &'a str, script: &'a str, options: Options) -> Option<Run<'a>>
    ensures { run_of (base.now ∷ script.now ∷ []) (options_value options) ≡ option_map run_value result }
{
    if !is_base_name(base) || script.is_empty() {
        return None;
    }
    Some(Run {
        limits: options.limits(),
        base,
        script,
    })
}

fn read_drill(words: &[String]) -> Option<Drill>
    ensures { drill_of (map string_bytes words.now) ≡ option_map drill_value result }
{
    match words {
        [seed, orders] => {
            let seed = within(integer_of(seed.as_bytes()), 0, 4_294_967_295)?;
            let orders = within(integer_of(orders.as_bytes()), 1, 100_000)?;
            Some(Drill {
                seed: seed as u32,
                orders: orders as u32,
            })
        }
        _ => None,
    }
}

// A base file's name is not empty, and does not look like an option.
fn is_base_name(word: &str) -> bool
    ensures { result ≡ is_base word.now }
{
    match word.as_bytes() {
        [] => false,
        [b'-', ..] => false,
        _ => true,
    }
}

fn within(number: Option<u64>, low: u64, high: u64) -> Option<u64>
    ensures value { result ≡ number_within low high number }
    ensures range { IfSome result (λ n. (low ≤ n) × (n ≤ high)) }
{
    match number {
        Some(n) if low <= n && n <= high => Some(n),
        _ => None,
    }
}

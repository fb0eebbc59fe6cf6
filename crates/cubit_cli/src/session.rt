//! The commands of a script, run over a base table.
ghost use Rattle.std.specs.Prelude.{◌≡◌, ◌≤◌, sum_by, IfOk};
ghost use Rattle.cubit_base.specs.Table.{HasDistinctKeys};
ghost use Rattle.cubit_session.specs.Through.{CanRun};
ghost use Rattle.cubit_cli.specs.Reply.{IsReported, IsSession, row_room, rows_added};

use cubit_base::{Command, Limits, Table, laws};
use cubit_session::{Outcome, run_script};
use query_report::{Memory, report_text};
use refresh_streams::Script;
use std::alloc::Global;
use unit_version::Base;

/// The report of the commands of a script over a base table.
pub(crate) fn reported(
    alloc: Global,
    table: Table,
    script: &Script,
    limits: &Limits,
) -> Result<Vec<u8>, Memory>
    requires keys { HasDistinctKeys table }
    requires can_run { CanRun limits.now table script.now }
    ensures { IfOk result (λ text. IsReported limits.now table script.now text.items) }
{
    let outcome = session(alloc, table, script, limits)?;
    report_text(alloc, &outcome.replies, &outcome.journal)
}

/// The replies to the commands, and the journal.
pub(crate) fn session(
    alloc: Global,
    table: Table,
    script: &Script,
    limits: &Limits,
) -> Result<Outcome, Memory>
    requires keys { HasDistinctKeys table }
    requires can_run { CanRun limits.now table script.now }
    ensures { IfOk result (λ o. IsSession limits.now table script.now o.replies o.journal) }
{
    laws::live_rows();
    let row_limit = row_room(limits.row_limit, &table, script);
    let base = Base::build(alloc, table, row_limit)?;
    let limits = Limits {
        row_limit,
        log_limit: limits.log_limit,
        tries: limits.tries,
    };
    run_script(alloc, &base, script, &limits)
}

// The most rows that there may ever be. The index makes room for no more.
fn row_room(row_limit: u32, table: &Table, script: &Script) -> u32
    ensures { result ≡ row_room row_limit table.now script.now }
{
    let most = u64::from(table.len()) + u64::from(insert_count(script));
    if most < u64::from(row_limit) {
        most as u32
    } else {
        row_limit
    }
}

// How many rows the commands may add.
fn insert_count(script: &Script) -> u32
    ensures { result ≡ sum_by rows_added script.now }
{
    let mut count = 0;
    for n in 0..script.len() {
        count += rows_added(script.get(n).unwrap());
    }
    count
}

fn rows_added(command: &Command) -> u32
    ensures value { result ≡ rows_added command.now }
    ensures one { result ≤ 1 }
{
    match command {
        Command::Insert(_, _) => 1,
        _ => 0,
    }
}

//! The text of a command.
ghost use Rattle.std.specs.Prelude.{◌≡◌, ◌≤◌, IfOk};
ghost use Rattle.cubit_base.specs.Answer.{answer};
ghost use Rattle.cubit_base.specs.Table.{HasDistinctKeys};
ghost use Rattle.query_report.specs.Answer.{answer_text};
ghost use Rattle.cubit_cli.specs.Call.{Comes};
ghost use Rattle.cubit_cli.specs.Words.{Query as AQuery, Run as ARun, asked_value, query_value, run_value};
ghost use Rattle.cubit_cli.specs.World.{files_state};

use crate::asked::{Asked, Query, Run};
use crate::base::base_table;
use crate::drill::drilled;
use crate::halt::Halt;
use crate::index::totals;
use crate::script::script;
use crate::session::reported;
use cubit_base::{Predicate, ROW_LIMIT, Table};
use cubit_io::Files;
use query_report::{Memory, answer_line};
use std::alloc::Global;

/// The whole text that a command writes.
pub(crate) fn text_of<'a, F: Files>(
    alloc: Global,
    files: &mut F,
    asked: &Asked<'a>,
) -> Result<Vec<u8>, Halt<'a>>
    ensures comes { Comes (asked_value asked.now) (files_state (F.held files.old) (F.faults files.old))
        (files_state (F.held files.new) (F.faults files.new)) result }
    ensures held { F.held files.new ≡ F.held files.old }
    ensures counted { F.faults files.old ≤ F.faults files.new }
{
    match asked {
        Asked::Query(query) => query_text(alloc, files, query),
        Asked::Run(run) => run_text(alloc, files, run),
        Asked::Drill(drill) => Ok(drilled(alloc, drill)?),
    }
}

// The line of the answer to a query.
fn query_text<'a, F: Files>(
    alloc: Global,
    files: &mut F,
    query: &Query<'a>,
) -> Result<Vec<u8>, Halt<'a>>
    ensures comes { Comes (AQuery (query_value query.now)) (files_state (F.held files.old) (F.faults files.old))
        (files_state (F.held files.new) (F.faults files.new)) result }
    ensures held { F.held files.new ≡ F.held files.old }
    ensures counted { F.faults files.old ≤ F.faults files.new }
{
    let table = base_table(alloc, files, query.base, ROW_LIMIT)?;
    Ok(reply(alloc, table, &query.predicate())?)
}

// The line of the answer to a predicate over a table.
fn reply(alloc: Global, table: Table, predicate: &Predicate) -> Result<Vec<u8>, Memory>
    requires { HasDistinctKeys table }
    ensures { IfOk result (λ line. line.items ≡ answer_text (answer table predicate.now).count
        (answer table predicate.now).sum) }
{
    answer_line(alloc, &totals(alloc, table, predicate)?)
}

// The report of a run.
fn run_text<'a, F: Files>(alloc: Global, files: &mut F, run: &Run<'a>) -> Result<Vec<u8>, Halt<'a>>
    ensures comes { Comes (ARun (run_value run.now)) (files_state (F.held files.old) (F.faults files.old))
        (files_state (F.held files.new) (F.faults files.new)) result }
    ensures held { F.held files.new ≡ F.held files.old }
    ensures counted { F.faults files.old ≤ F.faults files.new }
{
    let table = base_table(alloc, files, run.base, run.limits.row_limit)?;
    let script = script(alloc, files, run.script)?;
    Ok(reported(alloc, table, &script, &run.limits)?)
}

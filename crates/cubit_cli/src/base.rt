//! The base file: read whole, and judged.
ghost use Rattle.std.specs.Prelude.{◌≡◌, ◌≤◌, length, IfOk};
ghost use Rattle.cubit_base.specs.Table.{HasDistinctKeys};
ghost use Rattle.cubit_base.specs.declared.table.TheConstants.{ROW_LIMIT};
ghost use Rattle.cubit_cli.specs.Base.{line_detail, lines_refusal, too_long, base_table, Judges};
ghost use Rattle.cubit_cli.specs.World.{files_state};
ghost use Rattle.tbl_text.specs.Base.{TooMany, Line, Twice};

use crate::halt::{Halt, Name};
use cubit_base::Table;
use cubit_io::{Files, ReadStop, read_all};
use query_report::{Detail, Refusal};
use std::alloc::Global;
use tbl_text::{BaseFault, LineFault, base_of};

/// The table of the file of this name, which may have so many lines.
pub(crate) fn base_table<'a, F: Files>(
    alloc: Global,
    files: &mut F,
    name: &'a str,
    row_limit: u32,
) -> Result<Table, Halt<'a>>
    requires { row_limit ≤ ROW_LIMIT }
    ensures judged { Judges (base_table row_limit) (files_state (F.held files.old) (F.faults files.old))
        (files_state (F.held files.new) (F.faults files.new)) name.now result }
    ensures within { IfOk result (λ table. length table ≤ row_limit) }
    ensures distinct { IfOk result HasDistinctKeys }
    ensures held { F.held files.new ≡ F.held files.old }
    ensures counted { F.faults files.old ≤ F.faults files.new }
{
    let bytes = match read_all(alloc, files, name) {
        Ok(bytes) => bytes,
        Err(ReadStop::Fault) => return Err(Halt::FileFault(Name::Word(name))),
        Err(ReadStop::TooLong) => return Err(Halt::Refused(
            Name::Word(name),
            longer_than_the_limit(),
        )),
        Err(ReadStop::Memory) => return Err(Halt::Memory),
    };
    match base_of(alloc, &bytes, row_limit) {
        Ok(table) => Ok(table),
        Err(BaseFault::TooMany(line)) => Err(Halt::Refused(Name::Word(name), line_too_many(line))),
        Err(BaseFault::Line(line, fault)) => Err(Halt::Refused(
            Name::Word(name),
            bad_line(line, fault),
        )),
        Err(BaseFault::Twice(line, first)) => Err(Halt::Refused(
            Name::Word(name),
            repeated_key(line, first),
        )),
        Err(BaseFault::Memory) => Err(Halt::Memory),
    }
}

fn longer_than_the_limit() -> Refusal
    ensures { result ≡ too_long }
{
    Refusal {
        line: 0,
        fault: 16,
        detail: Detail::Nothing,
    }
}

fn line_too_many(line: u32) -> Refusal
    ensures { result ≡ lines_refusal (TooMany line) }
{
    Refusal {
        line,
        fault: 13,
        detail: Detail::Nothing,
    }
}

fn bad_line(line: u32, fault: LineFault) -> Refusal
    ensures { result ≡ lines_refusal (Line line fault) }
{
    Refusal {
        line,
        fault: fault.number(),
        detail: detail_of(fault),
    }
}

fn repeated_key(line: u32, first: u32) -> Refusal
    ensures { result ≡ lines_refusal (Twice line first) }
{
    Refusal {
        line,
        fault: 12,
        detail: Detail::First(first),
    }
}

fn detail_of(fault: LineFault) -> Detail
    ensures { result ≡ line_detail fault }
{
    match fault {
        LineFault::FieldCount(count) => Detail::Fields(count),
        _ => Detail::Nothing,
    }
}

// A worked script over three lines, with its report byte for byte; the crate of the top call has the others.
use super::*;
use cubit_base::{Limits, laws};
use cubit_io::MemoryFiles;
use query_report::report_text;
use refresh_streams::script_of;
use std::alloc::Global;
use std::test::Fail;
use tbl_text::base_of;
use unit_version::Base;

const LINES: &str = concat!(
    "1|155190|7706|1|17|21168.23|0.04|0.02|N|O|1996-03-13|1996-02-12|1996-03-22|DELIVER IN PERSON|TRUCK|a|\n",
    "1|67310|7311|2|36|45983.16|0.09|0.06|N|O|1996-04-12|1996-02-28|1996-04-20|TAKE BACK RETURN|MAIL|b|\n",
    "1|63700|3701|3|8|13309.60|0.10|0.02|N|O|1996-01-29|1996-03-05|1996-01-31|TAKE BACK RETURN|REG AIR|c|\n",
);

// Each form of command, and each line that a dropped order can have, within five rows and five deltas.
const SCRIPT: &str = concat!(
    "insert 2 1 5 10.00 0.01 0.00 R F 1995-01-01\n",
    "update 1 1 18 21168.23 0.04 0.02 N O 1996-03-13\n",
    "delete 2 1\n",
    "merge\n",
    "drop 1\n",
    "lookup 1 1\n",
    "lookup 1 3\n",
    "rows\n",
    "count\n",
    "sum\n",
    "q6 1996 0.10 24\n",
);

const REPORT: &str = concat!(
    "w0 1 placed at=0 row=3\n",
    "w0 2 placed at=1 row=0\n",
    "w0 3 placed at=2 row=3\n",
    "w0 4 merge merged=216 fresh=0 busy=0\n",
    "w0 5 drop deleted=2 1=p3 2=p4 3=f5 4=m5 5=m5 6=m5 7=m5\n",
    "w0 6 absent front=5\n",
    "w0 7 found front=5 row=2 tuple=8|13309.60|0.10|0.02|N|O|1996-01-29\n",
    "w0 8 rows front=5 count=1 list=2 patched=2\n",
    "w0 9 count front=5 count=1 patched=2\n",
    "w0 10 sum front=5 count=1 sum=1330.9600 patched=2\n",
    "w0 11 q6 front=5 count=1 sum=1330.9600 patched=2\n",
    "journal 5\n",
    "0 w0 2.1 row=3 old=- new=5|10.00|0.01|0.00|R|F|1995-01-01\n",
    "1 w0 1.1 row=0 old=17|21168.23|0.04|0.02|N|O|1996-03-13 new=18|21168.23|0.04|0.02|N|O|1996-03-13\n",
    "2 w0 2.1 row=3 old=5|10.00|0.01|0.00|R|F|1995-01-01 new=-\n",
    "3 w0 1.1 row=0 old=18|21168.23|0.04|0.02|N|O|1996-03-13 new=-\n",
    "4 w0 1.2 row=1 old=36|45983.16|0.09|0.06|N|O|1996-04-12 new=-\n",
);

// Its report, or nothing where there is none.
fn report(alloc: Global) -> Result<Vec<u8>, Memory> {
    laws::live_rows();
    let Ok(table) = base_of(alloc, LINES.as_bytes(), 5) else {
        return Ok(Vec::new(alloc));
    };
    let mut files = MemoryFiles::make(alloc, Vec::new(alloc));
    files.keep(alloc, "S", SCRIPT.as_bytes())?;
    let Ok(script) = script_of(alloc, &mut files, "S", 4_194_304) else {
        return Ok(Vec::new(alloc));
    };
    let base = Base::build(alloc, table, 5)?;
    let limits = Limits {
        row_limit: 5,
        log_limit: 5,
        tries: 8,
    };
    let outcome = run_script(alloc, &base, &script, &limits)?;
    report_text(alloc, &outcome.replies, &outcome.journal)
}

#[test]
fn every_form_of_command(rt: HostRuntime) -> Result<(), Fail> {
    let text = report(rt.alloc())?;
    assert_eq!(rt; text.as_slice(), REPORT.as_bytes());
    Ok(())
}

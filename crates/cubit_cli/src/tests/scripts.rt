//! Worked runs, with their reports byte for byte.
use super::{A, writes};
use std::test::Fail;

// Scripts over the three lines of A, and their reports.
const OVER_THREE_LINES: [(&str, &str); 7] = [
    ("", "journal 0\n"),
    (
        concat!(
            "update 1 1 7 21168.23 0.04 0.02 N O 1996-03-13\n",
            "count qty=7\n",
            "update 1 1 17 21168.23 0.04 0.02 N O 1996-03-13\n",
            "count qty=17\n",
        ),
        concat!(
            "w0 1 placed at=0 row=0\n",
            "w0 2 count front=1 count=1 patched=1\n",
            "w0 3 placed at=1 row=0\n",
            "w0 4 count front=2 count=1 patched=2\n",
            "journal 2\n",
            "0 w0 1.1 row=0 old=17|21168.23|0.04|0.02|N|O|1996-03-13 new=7|21168.23|0.04|0.02|N|O|1996-03-13\n",
            "1 w0 1.1 row=0 old=7|21168.23|0.04|0.02|N|O|1996-03-13 new=17|21168.23|0.04|0.02|N|O|1996-03-13\n",
        ),
    ),
    (
        concat!(
            "insert 2 1 5 10.00 0.01 0.00 R F 1995-01-01\n",
            "insert 2 1 6 10.00 0.01 0.00 R F 1995-01-01\n",
            "delete 2 1\n",
            "insert 2 1 6 10.00 0.01 0.00 R F 1995-01-01\n",
            "lookup 2 1\n",
            "rows flag=R\n",
        ),
        concat!(
            "w0 1 placed at=0 row=3\n",
            "w0 2 duplicate front=1 row=3\n",
            "w0 3 placed at=1 row=3\n",
            "w0 4 placed at=2 row=4\n",
            "w0 5 found front=3 row=4 tuple=6|10.00|0.01|0.00|R|F|1995-01-01\n",
            "w0 6 rows front=3 count=1 list=4 patched=3\n",
            "journal 3\n",
            "0 w0 2.1 row=3 old=- new=5|10.00|0.01|0.00|R|F|1995-01-01\n",
            "1 w0 2.1 row=3 old=5|10.00|0.01|0.00|R|F|1995-01-01 new=-\n",
            "2 w0 2.1 row=4 old=- new=6|10.00|0.01|0.00|R|F|1995-01-01\n",
        ),
    ),
    (
        "delete 9 1\ndelete 9 1\nlookup 9 1\n",
        "w0 1 missing front=0\nw0 2 missing front=0\nw0 3 absent front=0\njournal 0\n",
    ),
    (
        "update 1 1 18 21168.23 0.04 0.02 N O 1996-03-13\nmerge\nsum\nmerge\n",
        concat!(
            "w0 1 placed at=0 row=0\n",
            "w0 2 merge merged=216 fresh=0 busy=0\n",
            "w0 3 sum front=1 count=3 sum=6316.1736 patched=0\n",
            "w0 4 merge merged=0 fresh=216 busy=0\n",
            "journal 1\n",
            "0 w0 1.1 row=0 old=17|21168.23|0.04|0.02|N|O|1996-03-13 new=18|21168.23|0.04|0.02|N|O|1996-03-13\n",
        ),
    ),
    (
        "count ship=1996-03-01..1996-03-31\nrows ship=1996-03-14..1996-04-30\n",
        concat!(
            "w0 1 count front=0 count=1 patched=0\n",
            "w0 2 rows front=0 count=1 list=1 patched=0\n",
            "journal 0\n",
        ),
    ),
    (
        concat!(
            "rows qty=3..2\n",
            "update 1 1 1 1 0 0 A F 1992-01-01\n",
            "rows qty=3..2\n",
            "sum qty=3..2\n",
            "count ship=1996-03-14..1996-03-20 qty=3..2\n",
            "count\n",
        ),
        concat!(
            "w0 1 rows front=0 count=0 list=- patched=0\n",
            "w0 2 placed at=0 row=0\n",
            "w0 3 rows front=1 count=0 list=- patched=0\n",
            "w0 4 sum front=1 count=0 sum=0.0000 patched=1\n",
            "w0 5 count front=1 count=0 patched=1\n",
            "w0 6 count front=1 count=3 patched=1\n",
            "journal 1\n",
            "0 w0 1.1 row=0 old=17|21168.23|0.04|0.02|N|O|1996-03-13 new=1|1.00|0.00|0.00|A|F|1992-01-01\n",
        ),
    ),
];

#[test]
fn over_three_lines(rt: HostRuntime) -> Result<(), Fail> {
    for (script, out) in OVER_THREE_LINES {
        let held = [("A", A), ("S", script.as_bytes())];
        writes(&rt, rt.alloc(), &held, &["run", "A", "S"], out)?;
    }
    Ok(())
}

#[test]
fn within_limits(rt: HostRuntime) -> Result<(), Fail> {
    let alloc = rt.alloc();
    let script = concat!(
        "insert 1 1 5 10.00 0.01 0.00 R F 1995-01-01\n",
        "insert 2 1 5 10.00 0.01 0.00 R F 1995-01-01\n",
    );
    writes(
        &rt,
        alloc,
        &[("A", A), ("S", script.as_bytes())],
        &["run", "--row-limit", "3", "A", "S"],
        "w0 1 duplicate front=0 row=0\nw0 2 table-full front=0\njournal 0\n",
    )?;
    let script = concat!(
        "update 1 1 1 21168.23 0.04 0.02 N O 1996-03-13\n",
        "update 1 2 2 45983.16 0.09 0.06 N O 1996-04-12\n",
        "update 1 3 3 13309.60 0.10 0.02 N O 1996-01-29\n",
        "count\n",
    );
    let out = concat!(
        "w0 1 placed at=0 row=0\n",
        "w0 2 placed at=1 row=1\n",
        "w0 3 log-full front=2\n",
        "w0 4 count front=2 count=3 patched=2\n",
        "journal 2\n",
        "0 w0 1.1 row=0 old=17|21168.23|0.04|0.02|N|O|1996-03-13 new=1|21168.23|0.04|0.02|N|O|1996-03-13\n",
        "1 w0 1.2 row=1 old=36|45983.16|0.09|0.06|N|O|1996-04-12 new=2|45983.16|0.09|0.06|N|O|1996-04-12\n",
    );
    writes(
        &rt,
        alloc,
        &[("A", A), ("S", script.as_bytes())],
        &["run", "--log-limit", "2", "A", "S"],
        out,
    )?;
    Ok(())
}

#[test]
fn over_no_line(rt: HostRuntime) -> Result<(), Fail> {
    writes(
        &rt,
        rt.alloc(),
        &[("Z", b""), ("S", b"merge\n")],
        &["run", "Z", "S"],
        "w0 1 merge merged=0 fresh=215 busy=0\njournal 0\n",
    )?;
    Ok(())
}

// The inserts bring the rows on to a second page.
#[test]
fn over_a_page_but_one_row(rt: HostRuntime) -> Result<(), Fail> {
    let alloc = rt.alloc();
    let mut base = String::new(alloc);
    for order in 1..3_968u32 {
        writeln!(
            &mut base,
            "{order}|1|1|1|10|100.00|0.05|0.01|A|F|1994-06-15|1994-06-15|1994-06-15|x|AIR|x|"
        )?;
    }
    let script = concat!(
        "update 1 1 12 100.00 0.05 0.01 A F 1994-06-15\n",
        "merge\n",
        "insert 5000 1 11 100.00 0.05 0.01 A F 1994-06-15\n",
        "insert 5001 1 11 100.00 0.05 0.01 A F 1994-06-15\n",
        "rows qty=11\n",
        "sum qty=11\n",
    );
    let out = concat!(
        "w0 1 placed at=0 row=0\n",
        "w0 2 merge merged=217 fresh=0 busy=0\n",
        "w0 3 placed at=1 row=3967\n",
        "w0 4 placed at=2 row=3968\n",
        "w0 5 rows front=3 count=2 list=3967,3968 patched=2\n",
        "w0 6 sum front=3 count=2 sum=10.0000 patched=2\n",
        "journal 3\n",
        "0 w0 1.1 row=0 old=10|100.00|0.05|0.01|A|F|1994-06-15 new=12|100.00|0.05|0.01|A|F|1994-06-15\n",
        "1 w0 5000.1 row=3967 old=- new=11|100.00|0.05|0.01|A|F|1994-06-15\n",
        "2 w0 5001.1 row=3968 old=- new=11|100.00|0.05|0.01|A|F|1994-06-15\n",
    );
    let held = [("G", base.as_bytes()), ("S", script.as_bytes())];
    writes(&rt, alloc, &held, &["run", "G", "S"], out)?;
    Ok(())
}

#[test]
fn with_refresh_files(rt: HostRuntime) -> Result<(), Fail> {
    let alloc = rt.alloc();
    let base = concat!(
        "5|1|1|1|10|100.00|0.05|0.01|A|F|1994-06-15|1994-06-15|1994-06-15|x|AIR|x|\n",
        "5|1|1|2|20|100.00|0.05|0.01|R|O|1994-06-16|1994-06-15|1994-06-15|x|AIR|x|\n",
    );
    let insert = "6|1|1|1|30|100.00|0.05|0.01|N|O|1994-06-17|1994-06-15|1994-06-15|x|AIR|x|\n";
    let held: [(&str, &[u8]); 4] = [
        ("B", base.as_bytes()),
        ("U", insert.as_bytes()),
        ("D", b"5|\n7\n"),
        ("S", b"delete-file D\ninsert-file U\n"),
    ];
    let out = concat!(
        "w0 1 drop deleted=2 1=p0 2=p1 3=m2 4=m2 5=m2 6=m2 7=m2\n",
        "w0 2 drop deleted=0 1=m2 2=m2 3=m2 4=m2 5=m2 6=m2 7=m2\n",
        "w0 3 placed at=2 row=2\n",
        "journal 3\n",
        "0 w0 5.1 row=0 old=10|100.00|0.05|0.01|A|F|1994-06-15 new=-\n",
        "1 w0 5.2 row=1 old=20|100.00|0.05|0.01|R|O|1994-06-16 new=-\n",
        "2 w0 6.1 row=2 old=- new=30|100.00|0.05|0.01|N|O|1994-06-17\n",
    );
    writes(&rt, alloc, &held, &["run", "B", "S"], out)?;
    Ok(())
}

// One reply each.
#[test]
fn spellings(rt: HostRuntime) -> Result<(), Fail> {
    let alloc = rt.alloc();
    for (script, reply) in [
        (
            b"q6 01996 0.1 024.0".as_slice(),
            "q6 front=0 count=1 sum=1330.9600 patched=0",
        ),
        (b"rows qty=3..2", "rows front=0 count=0 list=- patched=0"),
        (
            b"rows disc=0..0.1",
            "rows front=0 count=3 list=0,1,2 patched=0",
        ),
        (
            b"rows ship=1996-03-13",
            "rows front=0 count=1 list=0 patched=0",
        ),
        (b"count status=O flag=N", "count front=0 count=3 patched=0"),
        (
            b"#\xff\n\n\r\n# rows\r\ncount\r\n",
            "count front=0 count=3 patched=0",
        ),
    ] {
        let mut out = String::new(alloc);
        writeln!(&mut out, "w0 1 {reply}\njournal 0")?;
        let held: [(&str, &[u8]); 2] = [("A", A), ("S", script)];
        writes(&rt, alloc, &held, &["run", "A", "S"], &out)?;
    }
    Ok(())
}

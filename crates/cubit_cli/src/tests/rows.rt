//! Worked rows, other line ends and a long base.
use super::{A, ROW_1, WORDS, answers};
use cubit_base::{Predicate, ROW_LIMIT};
use query_report::answer_line;
use std::alloc::{AllocError, Global};
use std::process::Abort;
use std::test::Fail;
use tbl_text::base_of;

// The lines of A without their last bars, each with CR LF.
const A_CR: &[u8] =
    b"1|155190|7706|1|17|21168.23|0.04|0.02|N|O|1996-03-13|1996-02-12|1996-03-22|DELIVER IN PERSON|TRUCK|\
egular courts above the\r\n\
1|67310|7311|2|36|45983.16|0.09|0.06|N|O|1996-04-12|1996-02-28|1996-04-20|TAKE BACK RETURN|MAIL|\
ly final dependencies: slyly bold \r\n\
1|63700|3701|3|8|13309.60|0.10|0.02|N|O|1996-01-29|1996-03-05|1996-01-31|TAKE BACK RETURN|REG AIR|\
riously. regular, express dep\r\n";

#[test]
fn worked_rows(rt: HostRuntime) -> Result<(), Fail> {
    let alloc = rt.alloc();
    for (year, discount, quantity, line) in [
        ("1996", "0.05", "24", ROW_1),
        ("1996", "0.10", "24", "front=0 count=1 sum=1330.9600\n"),
        ("1996", "0.00", "24", "front=0 count=0 sum=0.0000\n"),
        ("1996", "0.10", "1", "front=0 count=0 sum=0.0000\n"),
    ] {
        answers(&rt, alloc, A, &["q6", "A", year, discount, quantity], line)?;
    }
    answers(&rt, alloc, b"", &WORDS, "front=0 count=0 sum=0.0000\n")?;
    Ok(())
}

#[test]
fn other_line_ends(rt: HostRuntime) -> Result<(), Fail> {
    let alloc = rt.alloc();
    for base in [
        A_CR,
        &A_CR[..A_CR.len() - 1],
        &A_CR[..A_CR.len() - 2],
        &A[..A.len() - 1],
    ] {
        answers(&rt, alloc, base, &WORDS, ROW_1)?;
    }
    Ok(())
}

// 10,000 lines, 1.3 MB: each order has the same line, of which each is worth 846.7292.
#[test]
fn a_long_base(rt: HostRuntime) -> Result<(), Fail> {
    let alloc = rt.alloc();
    let mut base = String::new(alloc);
    for order in 1..10_001u32 {
        writeln!(
            &mut base,
            "{order}|155190|7706|1|17|21168.23|0.04|0.02|N|O|1996-03-13|1996-02-12|1996-03-22|NONE|TRUCK|above|"
        )?;
    }
    answers(
        &rt,
        alloc,
        base.as_bytes(),
        &WORDS,
        "front=0 count=10000 sum=8467292.0000\n",
    )?;
    Ok(())
}

// The queries and their words.
const QUERIES: [((u16, u8, u8), [&str; 3]); 12] = [
    ((1992, 0, 1), ["1992", "0.00", "1"]),
    ((1993, 10, 51), ["1993", "0.10", "51"]),
    ((1994, 6, 24), ["1994", "0.06", "24"]),
    ((1994, 5, 10), ["1994", "0.05", "10"]),
    ((1994, 4, 11), ["1994", "0.04", "11"]),
    ((1994, 3, 51), ["1994", "0.03", "51"]),
    ((1995, 5, 51), ["1995", "0.05", "51"]),
    ((1996, 3, 51), ["1996", "0.03", "51"]),
    ((1996, 9, 36), ["1996", "0.09", "36"]),
    ((1996, 9, 37), ["1996", "0.09", "37"]),
    ((1996, 10, 8), ["1996", "0.10", "8"]),
    ((1998, 5, 51), ["1998", "0.05", "51"]),
];

// The line that a pass over all rows of the table gives.
fn line_by_rows(
    rt: &impl Abort,
    alloc: Global,
    base: &[u8],
    year: u16,
    disc: u8,
    qty: u8,
) -> Result<Vec<u8>, AllocError> {
    assert!(rt; base.len() < 1_000_000);
    assert!(rt; 1992 <= year && year <= 1998);
    assert!(rt; disc <= 10);
    assert!(rt; 1 <= qty && qty <= 51);
    let Ok(table) = base_of(alloc, base, ROW_LIMIT) else {
        panic!(rt; "no table");
    };
    answer_line(alloc, &table.totals(&Predicate::q6(year, disc, qty)))
}

// The call answers each query so.
fn answers_as_the_rows(rt: &impl Abort, alloc: Global, base: &[u8]) -> Result<(), AllocError> {
    for ((year, disc, qty), [a, b, c]) in QUERIES {
        let line = line_by_rows(rt, alloc, base, year, disc, qty)?;
        let line = String::from_utf8_lossy(alloc, &line)?;
        answers(rt, alloc, base, &["q6", "A", a, b, c], &line)?;
    }
    Ok(())
}

// One row of each order, over a page's last row but one.
#[test]
fn as_the_rows(rt: HostRuntime) -> Result<(), Fail> {
    let alloc = rt.alloc();
    let mut base = String::new(alloc);
    for order in 1..3_968u32 {
        writeln!(
            &mut base,
            "{order}|1|1|1|10|100.00|0.05|0.01|A|F|1994-06-15|1994-06-15|1994-06-15|x|AIR|x|"
        )?;
    }
    for base in [A, base.as_bytes(), b""] {
        answers_as_the_rows(&rt, alloc, base)?;
    }
    Ok(())
}

use super::*;
use cubit_base::{Flag, Key, LineStatus, Tuple};
use std::alloc::AllocError;
use std::test::Fail;

const FIRST: &[u8] = b"1|155190|7706|1|17|21168.23|0.04|0.02|N|O|1996-03-13|1996-02-12|1996-03-22|\
    DELIVER IN PERSON|TRUCK|egular courts above the|";

const SECOND: &[u8] = b"1|67310|7311|2|36|45983.16|0.09|0.06|N|O|1996-04-12|1996-02-28|1996-04-20|\
    TAKE BACK RETURN|MAIL|ly final dependencies: slyly bold |";

const THIRD: &[u8] = b"1|63700|3701|3|8|13309.60|0.10|0.02|N|O|1996-01-29|1996-03-05|1996-01-31|\
    TAKE BACK RETURN|REG AIR|riously. regular, express dep|";

const FOURTH: &[u8] = b"1|2132|4633|4|28|28955.64|0.09|0.06|N|O|1996-04-21|1996-03-30|1996-05-16|\
    NONE|AIR|lites. fluffily even de|";

// The four lines, each with another end or spelling.
const MIXED: [&[u8]; 4] = [
    b"1|155190|7706|1|17|21168.23|0.04|0.02|N|O|1996-03-13|1996-02-12|1996-03-22|\
      DELIVER IN PERSON|TRUCK|egular courts above the|\r\n",
    b"1|67310|7311|2|36.00|45983.16|0.09|0.06|N|O|1996-04-12|1996-02-28|1996-04-20|\
      TAKE BACK RETURN|MAIL|ly final dependencies: slyly bold \n",
    b"0001|63700|3701|03|08.0|013309.6|0.1|00.02|N|O|1996-01-29|1996-03-05|1996-01-31|\
      TAKE BACK RETURN|REG AIR|riously. regular, express dep|\n",
    b"1|2132|4633|4|28|28955.64|0.09|0.06|N|O|1996-04-21|1996-03-30|1996-05-16|NONE|AIR|lites. fluffily even de",
];

// Each of the lines with this end.
fn file_of(alloc: Global, lines: &[&[u8]], end: &[u8]) -> Result<Vec<u8>, AllocError> {
    let mut file = Vec::new(alloc);
    for line in lines {
        file.extend_from_slice(line)?;
        file.extend_from_slice(end)?;
    }
    Ok(file)
}

#[test]
fn counts_rows_or_finds_first_fault(rt: HostRuntime) -> Result<(), Fail> {
    let short = BaseFault::Line(2, LineFault::FieldCount(1));
    let cases: [(&[&[u8]], u32, Result<u32, BaseFault>); 11] = [
        (&[], 3, Ok(0)),
        (&[FIRST, SECOND, THIRD], 3, Ok(3)),
        (&[FIRST, SECOND, THIRD], 2, Err(BaseFault::TooMany(3))),
        (&[FIRST, SECOND, b""], 2, Err(BaseFault::TooMany(3))),
        (
            &[FIRST, SECOND, THIRD, FIRST],
            9,
            Err(BaseFault::Twice(4, 1)),
        ),
        (&[THIRD, FIRST, SECOND], 9, Ok(3)),
        (
            &[THIRD, SECOND, FIRST, SECOND, THIRD],
            9,
            Err(BaseFault::Twice(4, 2)),
        ),
        (&[b""], 9, Err(BaseFault::Line(1, LineFault::FieldCount(1)))),
        (&[FIRST, b"", SECOND], 9, Err(short)),
        (&[FIRST, b"", FIRST], 9, Err(short)),
        (&[FIRST, FIRST, b""], 9, Err(BaseFault::Twice(2, 1))),
    ];
    for (lines, row_limit, want) in cases {
        for end in [b"\n".as_slice(), b"\r\n"] {
            let file = file_of(rt.alloc(), lines, end)?;
            assert!(rt; file.len() <= 9000);
            let found = base_of(rt.alloc(), &file, row_limit).map(|table| table.len());
            assert_eq!(rt; found, want, "with limit {row_limit}");
        }
    }
    Ok(())
}

// Lines of rising orders from 1 on.
fn rising_lines(alloc: Global, count: u32) -> Result<String, AllocError> {
    let mut file = String::new(alloc);
    for order in 1..=count {
        push_line(alloc, &mut file, order)?;
    }
    Ok(file)
}

// Puts a line of this order at the end.
fn push_line(alloc: Global, file: &mut String, order: u32) -> Result<(), AllocError> {
    let front = "155190|7706|1|17|21168.23|0.04|0.02|N|O|1996-03-13|1996-02-12";
    let line = format!(in alloc;
        "{order}|{front}|1996-03-22|DELIVER IN PERSON|TRUCK|egular courts|\n"
    )?;
    file.push_str(line.as_str())
}

// Memory is found for more than a megabyte.
#[test]
fn reads_long_file(rt: HostRuntime) -> Result<(), Fail> {
    let file = rising_lines(rt.alloc(), 10_000)?;
    assert!(rt; 1_000_000 < file.len() && file.len() < 2_000_000);
    let count = base_of(rt.alloc(), file.as_bytes(), 10_000).map(|table| table.len());
    assert_eq!(rt; count, Ok(10_000));
    Ok(())
}

#[test]
fn finds_repeat_far_behind(rt: HostRuntime) -> Result<(), Fail> {
    let mut file = rising_lines(rt.alloc(), 5000)?;
    for order in [6000, 3000, 4000, 6000] {
        push_line(rt.alloc(), &mut file, order)?;
    }
    assert!(rt; file.len() < 1_000_000);
    let count = base_of(rt.alloc(), file.as_bytes(), ROW_LIMIT).map(|table| table.len());
    assert_eq!(rt; count, Err(BaseFault::Twice(5002, 3000)));
    Ok(())
}

#[test]
fn keeps_values_of_last_line_without_end(rt: HostRuntime) {
    let row = base_of(rt.alloc(), SECOND, 1).map(|table| table.row(0));
    let key = Key { order: 1, line: 2 };
    let tuple = Tuple {
        price: 4_598_316,
        day: 1563,
        qty: 36,
        disc: 9,
        tax: 6,
        flag: Flag::N,
        status: LineStatus::O,
    };
    assert_eq!(rt; row, Ok(Some((key, Some(tuple)))));
}

#[test]
fn mixed_spellings_say_the_same(rt: HostRuntime) -> Result<(), Fail> {
    let file = file_of(rt.alloc(), &MIXED, b"")?;
    let plain_file = file_of(rt.alloc(), &[FIRST, SECOND, THIRD, FOURTH], b"\n")?;
    assert!(rt; file.len() <= 9000 && plain_file.len() <= 9000);
    let table = base_of(rt.alloc(), &file, 4).ok().ok_or("mixed")?;
    let plain_table = base_of(rt.alloc(), &plain_file, 4).ok().ok_or("plain")?;
    assert_eq!(rt; (table.len(), plain_table.len()), (4, 4));
    for n in 0..4 {
        assert_eq!(rt; table.row(n), plain_table.row(n), "at {n}");
    }
    Ok(())
}

//! Scripts as a table of lines: what each says, and the first fault, at each place where it may stand.
use super::*;
use crate::Memory;
use cubit_base::{Flag, Key, LineStatus, Predicate, Range, Tuple};
use cubit_io::MemoryFiles;
use std::process::Abort;
use std::test::Fail;

mod memory;

const ROOM: u32 = 4_194_304;

// Files in memory by name.
fn files_of(alloc: Global, held: &[(&str, &[u8])]) -> Result<MemoryFiles, Memory> {
    let mut files = MemoryFiles::make(alloc, Vec::new(alloc));
    for (name, bytes) in held {
        files.keep(alloc, name, bytes)?;
    }
    Ok(files)
}

// The script `S` of these files, which is good.
fn script(alloc: Global, held: &[(&str, &[u8])], room: u32) -> Result<Script, Fail> {
    let mut files = files_of(alloc, held)?;
    match script_of(alloc, &mut files, "S", room.min(ROOM)) {
        Ok(script) => Ok(script),
        Err(_) => Err(Fail::from("no script")),
    }
}

// The script `S` of these files has this fault first.
fn is_bad(
    rt: &(impl Abort + AllocGlobal),
    held: &[(&str, &[u8])],
    room: u32,
    wanted: (&str, u32, u8, u32),
) -> Result<(), Fail> {
    let alloc = rt.alloc();
    let mut files = files_of(alloc, held)?;
    let read = script_of(alloc, &mut files, "S", room.min(ROOM));
    match &read {
        Err(ScriptStop::Bad(file, line, fault, fields)) => {
            assert_eq!(rt; file.as_bytes(), wanted.0.as_bytes(), "for {wanted:?}");
            assert_eq!(rt;
                (*line, *fault, *fields),
                (wanted.1, wanted.2, wanted.3),
                "for {wanted:?}"
            );
        }
        _ => assert!(rt; false, "no fault for {wanted:?}"),
    }
    Ok(())
}

const ROW: Tuple = Tuple {
    price: 1000,
    day: 1096,
    qty: 5,
    disc: 1,
    tax: 0,
    flag: Flag::R,
    status: LineStatus::F,
};

const ALL: Predicate = Predicate {
    ship: None,
    disc: None,
    qty: None,
    flag: None,
    status: None,
};

// The script asks for this command alone.
fn asks_for(rt: &(impl Abort + AllocGlobal), text: &str, command: &Command) -> Result<(), Fail> {
    let read = script(rt.alloc(), &[("S", text.as_bytes())], ROOM)?;
    assert_eq!(rt; read.len(), 1, "of {text:?}");
    assert_eq!(rt; read.get(0).copied(), Some(*command), "of {text:?}");
    Ok(())
}

#[test]
fn good_lines(rt: HostRuntime) -> Result<(), Fail> {
    let key = Key { order: 2, line: 1 };
    let lines: [(&str, Command); 18] = [
        (
            "insert 2 1 5 10.00 0.01 0.00 R F 1995-01-01",
            Command::Insert(key, ROW),
        ),
        (
            "update 02 1 5.0 10 0.01 0 R F 1995-01-01",
            Command::Update(key, ROW),
        ),
        ("delete 2 1", Command::Delete(key)),
        ("drop 4294967295", Command::DropOrder(4_294_967_295)),
        ("lookup 2 1", Command::Lookup(key)),
        ("rows", Command::Rows(ALL)),
        ("count", Command::Count(ALL)),
        ("sum", Command::Sum(ALL)),
        ("merge", Command::Merge),
        (
            "q6 01996 0.1 024.0",
            Command::Q6(Predicate::q6(1996, 10, 24)),
        ),
        (
            "q6 1998 0.00 51.00",
            Command::Q6(Predicate::q6(1998, 0, 51)),
        ),
        (
            "rows qty=3..2",
            Command::Rows(Predicate {
                qty: Some(Range { lo: 3, hi: 2 }),
                ..ALL
            }),
        ),
        (
            "rows disc=0..0.1",
            Command::Rows(Predicate {
                disc: Some(Range { lo: 0, hi: 10 }),
                ..ALL
            }),
        ),
        (
            "sum disc=0.0..0.05",
            Command::Sum(Predicate {
                disc: Some(Range { lo: 0, hi: 5 }),
                ..ALL
            }),
        ),
        (
            "rows ship=1996-03-13",
            Command::Rows(Predicate {
                ship: Some(Range { lo: 1533, hi: 1533 }),
                ..ALL
            }),
        ),
        (
            "count ship=1992-01-01..1998-12-31",
            Command::Count(Predicate {
                ship: Some(Range { lo: 0, hi: 2556 }),
                ..ALL
            }),
        ),
        (
            "count status=O flag=N",
            Command::Count(Predicate {
                flag: Some(Range { lo: 1, hi: 1 }),
                status: Some(Range { lo: 1, hi: 1 }),
                ..ALL
            }),
        ),
        (
            "sum qty=1..50 status=F flag=R disc=0.10 ship=1992-01-01",
            Command::Sum(Predicate {
                ship: Some(Range { lo: 0, hi: 0 }),
                disc: Some(Range { lo: 10, hi: 10 }),
                qty: Some(Range { lo: 1, hi: 50 }),
                flag: Some(Range { lo: 2, hi: 2 }),
                status: Some(Range { lo: 0, hi: 0 }),
            }),
        ),
    ];
    let alloc = rt.alloc();
    for (line, command) in lines {
        for end in ["", "\n", "\r\n", "\r"] {
            let text = format!(in alloc; "# a comment\n\n{line}{end}")?;
            asks_for(&rt, text.as_str(), &command)?;
        }
    }
    let read = script(alloc, &[("S", b"#\xff\r\n\r\nmerge\r\n#")], ROOM)?;
    assert_eq!(rt; read.len(), 1);
    Ok(())
}

const BAD_LINES: [(&str, u8); 57] = [
    ("insert 0 9 51 1 1 1 X X 1 ", 14),
    ("insert 0 9 51 1000000.00 1 1 X X 1", 2),
    ("insert 1 9 51 1000000.00 1 1 X X 1", 3),
    ("insert 1 7 51 1000000.00 1 1 X X 1", 4),
    ("insert 1 7 50 1000000.00 1 1 X X 1", 5),
    ("insert 1 7 50 999999.99 0.11 1 X X 1", 6),
    ("insert 1 7 50 999999.99 0.10 0.09 X X 1", 7),
    ("insert 1 7 50 999999.99 0.10 0.08 X X 1", 8),
    ("insert 1 7 50 999999.99 0.10 0.08 A X 1", 9),
    ("insert 1 7 50 999999.99 0.10 0.08 A F 1996-02-30", 10),
    ("update 1 7 50 999999.99 0.10 0.08 A F 1996-02-30", 10),
    ("update 1 0 5 10.00 0.01 0.00 R F 1995-01-01", 3),
    ("update 1 1 5 10.00 0.01 0.00 R F", 14),
    ("insert 1 1 5 10.00 0.01 0.00 R F 1995-01-01 ", 14),
    ("insert 1 1 5 10.00 0.01 0.00 R F", 14),
    ("insert", 14),
    ("delete  1", 2),
    ("delete 1", 14),
    ("delete", 14),
    ("delete 1 1 1", 14),
    ("delete 4294967296 1", 2),
    ("delete 0 1", 2),
    ("lookup 1 8", 3),
    ("lookup 1 ", 3),
    ("drop 0", 2),
    ("drop ", 2),
    ("drop", 14),
    ("drop 1 1", 14),
    ("merge ", 14),
    ("Merge", 14),
    (" ", 14),
    (" merge", 14),
    (" #", 14),
    ("merge\t", 14),
    ("\r", 14),
    ("q6 1996 0.05", 14),
    ("q6 1996 0.05 52", 14),
    ("q6 1996 0.11 24", 14),
    ("q6 1999 0.05 24", 14),
    ("q6 01996 0.5 024.0", 14),
    ("q6", 14),
    ("rows qty=0", 18),
    ("rows qty=51", 18),
    ("rows qty=1..50 qty=1", 18),
    ("rows flag=A..R", 18),
    ("rows flag=n", 18),
    ("rows status=A", 18),
    ("rows disc=0...1", 18),
    ("rows disc=0.11", 18),
    ("rows ship=1996-02-30", 18),
    ("rows tax=0", 18),
    ("count  qty=5", 18),
    ("sum qty", 18),
    ("rows a=1 b=2 c=3 d=4 e=5 f=6", 14),
    ("insert-file", 14),
    ("insert-file ", 14),
    ("delete-file ", 14),
];

#[test]
fn bad_lines_at_each_place(rt: HostRuntime) -> Result<(), Fail> {
    let alloc = rt.alloc();
    for (line, fault) in BAD_LINES {
        for place in 0..3u32 {
            let (before, behind) = match place {
                0 => ("", "drop 1\nx\n"),
                1 => ("drop 1\n", "x\n"),
                _ => ("drop 1\n#\n", ""),
            };
            let text = format!(in alloc; "{before}{line}\r\n{behind}")?;
            is_bad(
                &rt,
                &[("S", text.as_bytes())],
                ROOM,
                ("S", place + 1, fault, 0),
            )?;
        }
    }
    is_bad(&rt, &[("S", b"insert-file \xff")], ROOM, ("S", 1, 14, 0))
}

const GOOD_ROW: &str = "7|1|1|2|5|10.00|0.01|0.00|R|F|1995-01-01|x|x|x|x|x|";

// A fault of a refresh file names that file and its line.
#[test]
fn bad_lines_of_refresh_files(rt: HostRuntime) -> Result<(), Fail> {
    let alloc = rt.alloc();
    let rows = [
        ("7|1|1|2|5|10.00|0.01|0.00|R|F|1995-01-01|x|x|x|x|", 1, 15),
        ("", 1, 1),
        ("0|1|1|2|5|10.00|0.01|0.00|R|F|1995-01-01|x|x|x|x|x|", 2, 0),
        ("7|1|1|8|5|10.00|0.01|0.00|R|F|1995-01-01|x|x|x|x|x|", 3, 0),
        ("7|1|1|2||10.00|0.01|0.00|R|F|1995-01-01|x|x|x|x|x|", 4, 0),
        ("7|1|1|2|5|x|0.01|0.00|R|F|1995-01-01|x|x|x|x|x|", 5, 0),
        ("7|1|1|2|5|10.00|0.11|0.00|R|F|1995-01-01|x|x|x|x|x|", 6, 0),
        ("7|1|1|2|5|10.00|0.01|0.09|R|F|1995-01-01|x|x|x|x|x|", 7, 0),
        ("7|1|1|2|5|10.00|0.01|0.00|X|F|1995-01-01|x|x|x|x|x|", 8, 0),
        ("7|1|1|2|5|10.00|0.01|0.00|R|X|1995-01-01|x|x|x|x|x|", 9, 0),
        ("7|1|1|2|5|10.00|0.01|0.00|R|F|1995-02-29|x|x|x|x|x|", 10, 0),
        (
            "7|\t|1|2|5|10.00|0.01|0.00|R|F|1995-01-01|x|x|x|x|x|",
            11,
            0,
        ),
    ];
    for (line, fault, fields) in rows {
        for place in 0..3u32 {
            let (before, behind) = match place {
                0 => ("", "x"),
                1 => (GOOD_ROW, "x"),
                _ => (GOOD_ROW, ""),
            };
            let lines = match place {
                0 => format!(in alloc; "{line}\n{behind}")?,
                1 => format!(in alloc; "{before}\n{line}\r\n{behind}")?,
                _ => format!(in alloc; "{before}\n{before}\n{line}\n")?,
            };
            let held: [(&str, &[u8]); 2] = [
                ("S", b"drop 1\ninsert-file U F1\nx\n"),
                ("U F1", lines.as_bytes()),
            ];
            is_bad(&rt, &held, ROOM, ("U F1", place + 1, fault, fields))?;
        }
    }
    let orders: [(&[u8], u32); 6] = [
        (b"x\n1\n", 1),
        (b"\n", 1),
        (b"1|\nx\n1", 2),
        (b"1|\n2\n0", 3),
        (b"1\n5||", 2),
        (b"1\r\n4294967296\r\n", 2),
    ];
    for (bytes, line) in orders {
        let held: [(&str, &[u8]); 2] = [("S", b"delete-file D\nx\n"), ("D", bytes)];
        is_bad(&rt, &held, ROOM, ("D", line, 15, 0))?;
    }
    Ok(())
}

// The command that passes the room is named, before what stands behind it.
#[test]
fn weights_beyond_the_room(rt: HostRuntime) -> Result<(), Fail> {
    let row = GOOD_ROW.as_bytes();
    let cases: [(&[u8], &[u8], u32, (&str, u32, u8, u32)); 8] = [
        (b"drop 1\ndelete 1 1\ndelete 1 2\n", b"", 8, ("S", 3, 17, 0)),
        (b"drop 1\n", b"", 6, ("S", 1, 17, 0)),
        (b"delete 1 1\ndelete 1 8", b"", 0, ("S", 1, 17, 0)),
        (b"delete 1 8\ndelete 1 1", b"", 0, ("S", 1, 3, 0)),
        (b"delete-file D", b"1\n2\n", 8, ("D", 2, 17, 0)),
        (b"delete-file D", b"1\n2\nx\n", 8, ("D", 2, 17, 0)),
        (b"delete-file D", b"1\nx\n2\n", 8, ("D", 2, 15, 0)),
        (b"delete 1 1\ninsert-file D", row, 1, ("D", 1, 17, 0)),
    ];
    for (text, other, room, wanted) in cases {
        is_bad(&rt, &[("S", text), ("D", other)], room, wanted)?;
    }
    let alloc = rt.alloc();
    let read = script(alloc, &[("S", b"lookup 1 1\nmerge\nq6 1994 0.06 24\n")], 0)?;
    assert_eq!(rt; read.len(), 3);
    let read = script(alloc, &[("S", b"drop 1\ndelete 1 1\nmerge\n")], 8)?;
    assert_eq!(rt; read.len(), 3);
    Ok(())
}

// The commands of refresh files stand where their line is met, also where a file is named twice.
#[test]
fn commands_of_refresh_files(rt: HostRuntime) -> Result<(), Fail> {
    let alloc = rt.alloc();
    let rows = format!(in alloc; "{GOOD_ROW}\r\n{GOOD_ROW}")?;
    let held: [(&str, &[u8]); 4] = [
        (
            "S",
            b"insert-file  U\ndelete-file D\ncount\ninsert-file  U\ninsert-file E\n",
        ),
        (" U", rows.as_bytes()),
        ("D", b"5|\n7\n"),
        ("E", b""),
    ];
    let read = script(alloc, &held, ROOM)?;
    assert_eq!(rt; read.len(), 7);
    for n in [0, 1, 5, 6] {
        let insert = Command::Insert(Key { order: 7, line: 2 }, ROW);
        stands_at(&rt, &read, n, insert);
    }
    stands_at(&rt, &read, 2, Command::DropOrder(5));
    stands_at(&rt, &read, 3, Command::DropOrder(7));
    stands_at(&rt, &read, 4, Command::Count(ALL));
    Ok(())
}

// The script has this command at this number.
fn stands_at(rt: &impl Abort, script: &Script, n: u32, command: Command) {
    assert_eq!(rt; script.get(n).copied(), Some(command), "at {n}");
}

// A missing file comes where its line is met, and a bad line before it first.
#[test]
fn missing_files(rt: HostRuntime) -> Result<(), Fail> {
    let alloc = rt.alloc();
    let held: [(&str, &[u8]); 3] = [
        ("S", b"insert-file U\ninsert-file none\nx\n"),
        ("U", b""),
        ("T", b"x\ninsert-file none\n"),
    ];
    for (name, wanted) in [("S", "none"), ("no script", "no script")] {
        let mut files = files_of(alloc, &held)?;
        let read = script_of(alloc, &mut files, name, ROOM);
        match &read {
            Err(ScriptStop::Fault(file)) => {
                assert_eq!(rt; file.as_bytes(), wanted.as_bytes());
            }
            _ => assert!(rt; false, "{wanted} is missing"),
        }
    }
    let mut files = files_of(alloc, &held)?;
    let read = script_of(alloc, &mut files, "T", ROOM);
    match &read {
        Err(ScriptStop::Bad(_, line, fault, _)) => assert_eq!(rt; (*line, *fault), (1, 14)),
        _ => assert!(rt; false, "the first line is bad"),
    }
    Ok(())
}

// Where a call of the outside fails, the file that is read then is named, and reading again goes well.
#[test]
fn each_call_of_the_outside_fails(rt: HostRuntime) -> Result<(), Fail> {
    let alloc = rt.alloc();
    for call in 1..7u32 {
        let wanted = if call <= 3 { "S" } else { "U" };
        let mut files = MemoryFiles::make(alloc, [call].to_vec(alloc)?);
        files.keep(alloc, "S", b"drop 1\ninsert-file U\n")?;
        files.keep(alloc, "U", GOOD_ROW.as_bytes())?;
        let failed = script_of(alloc, &mut files, "S", ROOM);
        match &failed {
            Err(ScriptStop::Fault(file)) => {
                assert_eq!(rt; file.as_bytes(), wanted.as_bytes(), "call {call} fails");
            }
            _ => assert!(rt; false, "call {call} fails"),
        }
        let again = script_of(alloc, &mut files, "S", ROOM);
        match &again {
            Ok(script) => assert_eq!(rt; script.len(), 2, "call {call} has failed"),
            Err(_) => assert!(rt; false, "call {call} has failed"),
        }
    }
    Ok(())
}

//! Each answer is the right one, or says that memory ran out. Then it did, and reading again gives the right one. This
//! tells most where each allocation fails in turn.
use super::*;

// What the reading of the script `S` has to come to.
#[derive(Clone, Copy)]
enum Answer<'a> {
    // These commands.
    Commands(&'a [Command]),
    // This fault of a line of a file, of so many fields.
    Bad(&'a str, u32, u8, u32),
    // There is no file of this name.
    Missing(&'a str),
}

// Whether the answer came, and not that memory ran out. No other may come.
fn came(rt: &impl Abort, read: &Result<Script, ScriptStop>, wanted: &Answer<'_>) -> bool {
    match (read, wanted) {
        (Err(ScriptStop::Memory), _) => return false,
        (Ok(script), Answer::Commands(commands)) => {
            assert_eq!(rt; script.len() as usize, commands.len());
            for n in 0..script.len() {
                stands_at(rt, script, n, commands[n as usize]);
            }
        }
        (Err(ScriptStop::Bad(file, line, fault, fields)), Answer::Bad(name, n, number, count)) => {
            assert_eq!(rt; file.as_bytes(), name.as_bytes());
            assert_eq!(rt; (*line, *fault, *fields), (*n, *number, *count));
        }
        (Err(ScriptStop::Fault(file)), Answer::Missing(name)) => {
            assert_eq!(rt; file.as_bytes(), name.as_bytes());
        }
        _ => assert!(rt; false, "another answer"),
    }
    true
}

// The script of these files has this answer.
fn answers(rt: &(impl Abort + AllocGlobal), held: &[(&str, &[u8])], wanted: &Answer<'_>) {
    let alloc = rt.alloc();
    let Ok(mut files) = files_of(alloc, held) else {
        return;
    };
    let read = script_of(alloc, &mut files, "S", 8);
    if !came(rt, &read, wanted) {
        let again = script_of(alloc, &mut files, "S", 8);
        assert!(rt; came(rt, &again, wanted), "memory is there again");
    }
}

const ROWS: &[u8] = b"7|1|1|2|5|10.00|0.01|0.00|R|F|1995-01-01|x|x|x|x|x|\n7|1|1|2\n";

#[test]
fn answers_are_right_or_memory_ran_out(rt: HostRuntime) -> Result<(), Fail> {
    let commands = [
        Command::Insert(Key { order: 7, line: 2 }, ROW),
        Command::DropOrder(5),
        Command::Count(ALL),
    ];
    let held: [(&str, &[u8]); 3] = [
        ("S", b"insert-file U\ndelete-file D\ncount\n"),
        ("U", GOOD_ROW.as_bytes()),
        ("D", b"5|\n"),
    ];
    answers(&rt, &held, &Answer::Commands(&commands));
    let held: [(&str, &[u8]); 2] = [("S", b"count\ninsert-file U\n"), ("U", ROWS)];
    answers(&rt, &held, &Answer::Bad("U", 2, 1, 4));
    let held: [(&str, &[u8]); 2] = [("S", b"delete 1 1\ndelete-file D\n"), ("D", b"5\n6\n")];
    answers(&rt, &held, &Answer::Bad("D", 2, 17, 0));
    let held: [(&str, &[u8]); 1] = [("S", b"merge\ninsert-file none\n")];
    answers(&rt, &held, &Answer::Missing("none"));
    Ok(())
}

use super::*;
use cubit_base::{Flag, LineStatus};
use std::alloc::{AllocError, Global};
use std::process::Abort;
use std::test::Fail;

const LINE: &str = "1|155190|7706|1|17|21168.23|0.04|0.02|N|O|1996-03-13|1996-02-12|1996-03-22|\
    DELIVER IN PERSON|TRUCK|egular courts above the|";

// The line with one text in place of another.
fn edited(alloc: Global, from: &str, to: &str) -> Result<String, AllocError> {
    let (before, after) = LINE.split_once(from).unwrap_or(("", ""));
    format!(in alloc; "{before}{to}{after}")
}

fn value_of(rt: &impl Abort, line: &str) -> Result<(Key, Tuple), LineFault> {
    assert!(rt; line.len() < 1000);
    line_of(line.as_bytes())
}

// Spellings that are accepted, each with the price and the discount.
#[test]
fn spellings(rt: HostRuntime) -> Result<(), Fail> {
    let edits = [
        ("1|155190|", "1|155190|", 2_116_823, 4),
        ("1|155190|", "0000000001||", 2_116_823, 4),
        ("7706|1|", "|07|", 2_116_823, 4),
        ("|17|", "|17.0|", 2_116_823, 4),
        ("|17|", "|17.00|", 2_116_823, 4),
        ("|17|", "|017|", 2_116_823, 4),
        ("21168.23", "21168.2", 2_116_820, 4),
        ("21168.23", "21168", 2_116_800, 4),
        ("21168.23", "00021168.23", 2_116_823, 4),
        ("0.04", "0.1", 2_116_823, 10),
        ("TRUCK|egular courts above the|", "||", 2_116_823, 4),
        ("the|", "the", 2_116_823, 4),
    ];
    for (from, to, price, disc) in edits {
        let line = edited(rt.alloc(), from, to)?;
        let (key, tuple) = value_of(&rt, line.as_str()).ok().ok_or(to)?;
        assert_eq!(rt; key.order, 1, "at {to:?}");
        assert_eq!(rt; (tuple.price, tuple.disc), (price, disc), "at {to:?}");
        assert_eq!(rt;
            (tuple.day, tuple.qty, tuple.tax),
            (1533, 17, 2),
            "at {to:?}"
        );
        assert_eq!(rt;
            (tuple.flag, tuple.status),
            (Flag::N, LineStatus::O),
            "at {to:?}"
        );
    }
    Ok(())
}

// What is wrong with each line. Where two things are, the number of fields and then the first field counts.
#[test]
fn faults(rt: HostRuntime) -> Result<(), Fail> {
    let edits = [
        ("1|155190|", "0|155190|", LineFault::Order),
        ("1|155190|", "4294967296|155190|", LineFault::Order),
        ("155190", "155\t190", LineFault::Text),
        ("7706|1|", "7706|8|", LineFault::Line),
        ("|17|", "|51|", LineFault::Quantity),
        ("|17|", "||", LineFault::Quantity),
        ("|17|", "|17.5|", LineFault::Quantity),
        ("21168.23", "1000000.00", LineFault::Price),
        ("0.04", "0.11", LineFault::Discount),
        ("0.02", "0.09", LineFault::Tax),
        ("|N|", "|n|", LineFault::Flag),
        ("|O|", "|P|", LineFault::Status),
        ("1996-03-13", "1996-02-30", LineFault::Date),
        ("TRUCK", "TR\u{7f}CK", LineFault::Text),
        ("TRUCK|", "", LineFault::FieldCount(15)),
        ("TRUCK|", "TRUCK||", LineFault::FieldCount(17)),
        ("1|155190|", "0|", LineFault::FieldCount(15)),
        ("|17|21168.23|0.04|", "|17|x|y|", LineFault::Price),
        ("above the|", "above the|\u{7f}", LineFault::FieldCount(17)),
    ];
    for (from, to, fault) in edits {
        let line = edited(rt.alloc(), from, to)?;
        assert_eq!(rt; value_of(&rt, line.as_str()), Err(fault), "at {to:?}");
    }
    assert_eq!(rt; value_of(&rt, ""), Err(LineFault::FieldCount(1)));
    Ok(())
}

use super::*;
use cubit_base::{Flag, LineStatus};

#[test]
fn seven_values_give_their_tuple(rt: HostRuntime) {
    let tuple = Tuple {
        price: 2_116_823,
        day: 1533,
        qty: 17,
        disc: 4,
        tax: 2,
        flag: Flag::N,
        status: LineStatus::O,
    };
    let texts: [&[u8]; 3] = [
        b"17 21168.23 0.04 0.02 N O 1996-03-13",
        b"17.0 21168.23 0.04 0.02 N O 1996-03-13",
        b"0017 021168.23 00.04 0.02 N O 1996-03-13",
    ];
    for text in texts {
        assert_eq!(rt; tuple_fields(text), Ok(tuple), "of {text:?}");
    }
}

#[test]
fn the_first_bad_value_decides(rt: HostRuntime) {
    let cases: [(&[u8], LineFault); 10] = [
        (
            b"51 1000000.00 0.11 0.09 X X 1991-12-31",
            LineFault::Quantity,
        ),
        (b"50 1000000.00 0.11 0.09 X X 1991-12-31", LineFault::Price),
        (
            b"50 999999.99 0.11 0.09 X X 1991-12-31",
            LineFault::Discount,
        ),
        (b"50 999999.99 0.1 0.09 X X 1991-12-31", LineFault::Tax),
        (b"50 999999.99 0.1 0.08 X X 1991-12-31", LineFault::Flag),
        (b"50 999999.99 0.1 0.08 A X 1991-12-31", LineFault::Status),
        (b"50 999999.99 0.1 0.08 A F 1991-12-31", LineFault::Date),
        (b"50 999999.99 0.1 0.08 A F 1996-02-30", LineFault::Date),
        (b"      ", LineFault::Quantity),
        (b"50  0.1 0.08 A F 1992-01-01", LineFault::Price),
    ];
    for (text, fault) in cases {
        assert_eq!(rt; tuple_fields(text), Err(fault), "of {text:?}");
    }
}

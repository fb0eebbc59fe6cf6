use super::*;
use std::test::Fail;

// A line is taken only where enough bytes follow it.
const NEXT: &str = "2|106170|1191|1|38|44694.46|0.00|0.05|N|O|1997-01-28|1997-01-14|1997-02-02|";

// The spellings that `dbgen` and exports of tables write are taken. No clause says that any is.
#[test]
fn takes_common_spellings(rt: HostRuntime) -> Result<(), Fail> {
    let lines = [
        ("1|155190|7706|1|17", "|\n", 1),
        ("1|155190|7706|1|17", "\n", 1),
        ("1|155190|7706|1|17.00", "|\r\n", 1),
        ("6000000|200000|10000|1|17", "\r\n", 6_000_000),
        ("4294967295|1|1|1|17", "|\n", 4_294_967_295),
    ];
    let tuple = Tuple {
        price: 2_116_823,
        day: 1533,
        qty: 17,
        disc: 4,
        tax: 2,
        flag: Flag::N,
        status: LineStatus::O,
    };
    for (front, end, order) in lines {
        let back = "21168.23|0.04|0.02|N|O|1996-03-13|1996-02-12|1996-03-22|NONE|TRUCK|egular";
        let file = format!(in rt.alloc(); "{front}|{back}{end}{NEXT}")?;
        let Some((key, found, rest)) = first_row(file.as_bytes()) else {
            return Err(Fail::from(front));
        };
        assert_eq!(rt; (key.order, key.line), (order, 1), "at {front:?}");
        assert_eq!(rt; found, tuple, "at {front:?}");
        assert_eq!(rt; rest, NEXT.as_bytes(), "at {front:?}");
    }
    Ok(())
}

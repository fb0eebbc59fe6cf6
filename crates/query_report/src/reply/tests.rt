ghost use Rattle.std.specs.Prelude.{◌≤◌, length};

use super::*;
use cubit_base::{Flag, LineStatus};
use std::test::Fail;

fn list_of(alloc: Global, rows: &[u32]) -> Result<RowList, Memory>
    requires { length rows.now ≤ 9 }
{
    let mut list = RowList::new(alloc);
    for row in rows {
        if list.len() < 9 {
            list.push(*row)?;
        }
    }
    Ok(list)
}

#[test]
fn lines_of_changes(rt: HostRuntime) -> Result<(), Fail> {
    for (reply, line) in [
        (
            Reply::Placed {
                place: 0,
                row: 3967,
            },
            "w0 1 placed at=0 row=3967\n",
        ),
        (
            Reply::Duplicate { front: 1, row: 3 },
            "w0 1 duplicate front=1 row=3\n",
        ),
        (Reply::Missing { front: 0 }, "w0 1 missing front=0\n"),
        (Reply::TableFull { front: 0 }, "w0 1 table-full front=0\n"),
        (Reply::LogFull { front: 2 }, "w0 1 log-full front=2\n"),
        (Reply::Absent { front: 0 }, "w0 1 absent front=0\n"),
        (
            Reply::Merge {
                merged: 217,
                fresh: 0,
                busy: 0,
            },
            "w0 1 merge merged=217 fresh=0 busy=0\n",
        ),
    ] {
        assert_eq!(rt;
            reply_text(rt.alloc(), 0, 1, &reply)?.as_slice(),
            line.as_bytes()
        );
    }
    Ok(())
}

#[test]
fn lines_of_queries(rt: HostRuntime) -> Result<(), Fail> {
    let (front, patched) = (3, 6);
    let none = RowList::new(rt.alloc());
    let two = list_of(rt.alloc(), &[3967, 3968])?;
    for (reply, line) in [
        (
            Reply::Rows {
                front,
                list: none,
                patched,
            },
            "w7 12 rows front=3 count=0 list=- patched=6\n",
        ),
        (
            Reply::Rows {
                front,
                list: two,
                patched,
            },
            "w7 12 rows front=3 count=2 list=3967,3968 patched=6\n",
        ),
        (
            Reply::Count {
                front,
                count: 1,
                patched,
            },
            "w7 12 count front=3 count=1 patched=6\n",
        ),
        (
            Reply::Sum {
                front,
                count: 2,
                sum: 100_000,
                patched,
            },
            "w7 12 sum front=3 count=2 sum=10.0000 patched=6\n",
        ),
        (
            Reply::Q6 {
                front,
                count: 1,
                sum: 8_467_292,
                patched,
            },
            "w7 12 q6 front=3 count=1 sum=846.7292 patched=6\n",
        ),
    ] {
        assert_eq!(rt;
            reply_text(rt.alloc(), 7, 12, &reply)?.as_slice(),
            line.as_bytes()
        );
    }
    Ok(())
}

#[test]
fn line_of_a_drop(rt: HostRuntime) -> Result<(), Fail> {
    let (missing, full) = (DropLine::Missing(2), DropLine::LogFull(9));
    let lines = [
        DropLine::Placed(0),
        DropLine::Placed(1),
        missing,
        missing,
        missing,
        missing,
        full,
    ];
    let line = "w0 1 drop deleted=2 1=p0 2=p1 3=m2 4=m2 5=m2 6=m2 7=f9\n";
    assert_eq!(rt;
        reply_text(rt.alloc(), 0, 1, &Reply::DropLines(lines))?.as_slice(),
        line.as_bytes()
    );
    Ok(())
}

#[test]
fn line_of_a_lookup(rt: HostRuntime) -> Result<(), Fail> {
    let (price, day, flag, status) = (1000, 1096, Flag::R, LineStatus::F);
    let tuple = Tuple {
        price,
        day,
        qty: 6,
        disc: 1,
        tax: 0,
        flag,
        status,
    };
    let reply = Reply::Found {
        front: 3,
        row: 4,
        tuple,
    };
    let line = "w0 5 found front=3 row=4 tuple=6|10.00|0.01|0.00|R|F|1995-01-01\n";
    assert_eq!(rt;
        reply_text(rt.alloc(), 0, 5, &reply)?.as_slice(),
        line.as_bytes()
    );
    Ok(())
}

#[test]
fn lines_of_greatest_numbers(rt: HostRuntime) -> Result<(), Fail> {
    let (price, day, flag, status) = (99_999_999, 2556, Flag::A, LineStatus::O);
    let tuple = Tuple {
        price,
        day,
        qty: 50,
        disc: 10,
        tax: 8,
        flag,
        status,
    };
    let most = u32::MAX;
    for (reply, line) in [
        (
            Reply::Found {
                front: most,
                row: most,
                tuple,
            },
            "w255 4294967295 found front=4294967295 row=4294967295 tuple=50|999999.99|0.10|0.08|A|O|1998-12-31\n",
        ),
        (
            Reply::Sum {
                front: most,
                count: most,
                sum: u64::MAX,
                patched: most,
            },
            "w255 4294967295 sum front=4294967295 count=4294967295 sum=1844674407370955.1615 patched=4294967295\n",
        ),
    ] {
        assert_eq!(rt;
            reply_text(rt.alloc(), 255, most, &reply)?.as_slice(),
            line.as_bytes()
        );
    }
    Ok(())
}

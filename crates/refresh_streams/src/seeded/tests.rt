use super::*;
use cubit_base::{Flag, LineStatus, Totals, Tuple};
use std::test::Fail;

#[test]
fn so_many_rows_and_commands_are_made(rt: HostRuntime) -> Result<(), Fail> {
    let cases = [
        (0, 1, 3, 2),
        (4_294_967_295, 3, 19, 4),
        (1, 1000, 3924, 1002),
        (7, 2000, 8076, 2003),
    ];
    for (seed, orders, rows, commands) in cases {
        let (table, script) = make(rt.alloc(), seed, orders)?;
        assert_eq!(rt; table.len(), rows, "rows of {seed}");
        assert_eq!(rt; script.len(), commands, "commands of {seed}");
    }
    Ok(())
}

#[test]
fn the_rows_of_one_order(rt: HostRuntime) -> Result<(), Fail> {
    let (table, script) = make(rt.alloc(), 0, 1)?;
    let last = Tuple {
        price: 2_230_745,
        day: 1063,
        qty: 23,
        disc: 7,
        tax: 8,
        flag: Flag::N,
        status: LineStatus::F,
    };
    assert_eq!(rt; table.row(2), Some((Key { order: 1, line: 3 }, Some(last))));
    let totals = Totals {
        count: 3,
        sum: 168_575_823,
    };
    assert_eq!(rt; table.totals(&everything()), totals);
    let query = Command::Q6(Predicate::q6(1996, 7, 25));
    assert_eq!(rt; script.get(0).copied(), Some(query));
    Ok(())
}

#[test]
fn the_commands_of_three_orders(rt: HostRuntime) -> Result<(), Fail> {
    let (_, script) = make(rt.alloc(), 4_294_967_295, 3)?;
    let commands = [
        Command::Q6(Predicate::q6(1995, 2, 25)),
        Command::DropOrder(2),
        Command::Q6(Predicate::q6(1995, 5, 24)),
        Command::Sum(everything()),
    ];
    for n in 0..4 {
        assert_eq!(rt;
            script.get(n).copied(),
            Some(commands[n as usize]),
            "command {n}"
        );
    }
    assert!(rt; script.get(4).is_none());
    Ok(())
}

#[test]
fn a_merge_follows_the_thousandth_order(rt: HostRuntime) -> Result<(), Fail> {
    let (_, script) = make(rt.alloc(), 1, 1000)?;
    assert_eq!(rt; script.get(1000).copied(), Some(Command::Merge));
    assert_eq!(rt; script.get(1001).copied(), Some(Command::Sum(everything())));
    Ok(())
}

#[test]
fn an_insert_makes_another_order(rt: HostRuntime) -> Result<(), Fail> {
    let (_, script) = make(rt.alloc(), 7, 2000)?;
    let tuple = Tuple {
        price: 4_645_038,
        day: 1328,
        qty: 24,
        disc: 8,
        tax: 1,
        flag: Flag::N,
        status: LineStatus::O,
    };
    let key = Key {
        order: 2001,
        line: 1,
    };
    assert_eq!(rt; script.get(0).copied(), Some(Command::Insert(key, tuple)));
    Ok(())
}

// Where memory runs out, the next call makes the same.
#[test]
fn what_is_made_is_right_or_memory_ran_out(rt: HostRuntime) -> Result<(), Fail> {
    let alloc = rt.alloc();
    let (table, script) = match make(alloc, 7, 2000) {
        Ok(made) => made,
        Err(_) => make(alloc, 7, 2000)?,
    };
    assert_eq!(rt; (table.len(), script.len()), (8076, 2003));
    let key = Key {
        order: 2001,
        line: 1,
    };
    match script.get(0) {
        Some(Command::Insert(inserted, _)) => assert_eq!(rt; *inserted, key),
        _ => assert!(rt; false, "no insert"),
    }
    assert_eq!(rt; script.get(2002).copied(), Some(Command::Sum(everything())));
    Ok(())
}

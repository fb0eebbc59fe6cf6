ghost use Rattle.std.specs.Prelude.{◌≤◌};

use super::*;
use cubit_base::{Flag, Key, LineStatus, Tuple};
use std::test::Fail;

fn tuple(qty: u8) -> Tuple
    requires { (1 ≤ qty) × (qty ≤ 50) }
{
    let (price, day, flag, status) = (2_116_823, 1533, Flag::N, LineStatus::O);
    Tuple {
        price,
        day,
        qty,
        disc: 4,
        tax: 2,
        flag,
        status,
    }
}

#[test]
fn no_deltas(rt: HostRuntime) -> Result<(), Fail> {
    let journal = DeltaList::new(rt.alloc());
    assert_eq!(rt;
        journal_text(rt.alloc(), &journal)?.as_slice(),
        "journal 0\n".as_bytes()
    );
    Ok(())
}

#[test]
fn an_update_an_insert_and_a_delete(rt: HostRuntime) -> Result<(), Fail> {
    let mut journal = DeltaList::new(rt.alloc());
    let key = Key { order: 1, line: 1 };
    journal.push(Delta {
        author: 0,
        row: 0,
        key,
        before: Some(tuple(17)),
        after: Some(tuple(7)),
    })?;
    let key = Key {
        order: u32::MAX,
        line: 7,
    };
    journal.push(Delta {
        author: 255,
        row: 3967,
        key,
        before: None,
        after: Some(tuple(50)),
    })?;
    journal.push(Delta {
        author: 63,
        row: 3967,
        key,
        before: Some(tuple(50)),
        after: None,
    })?;
    let text = "journal 3\n\
        0 w0 1.1 row=0 old=17|21168.23|0.04|0.02|N|O|1996-03-13 new=7|21168.23|0.04|0.02|N|O|1996-03-13\n\
        1 w255 4294967295.7 row=3967 old=- new=50|21168.23|0.04|0.02|N|O|1996-03-13\n\
        2 w63 4294967295.7 row=3967 old=50|21168.23|0.04|0.02|N|O|1996-03-13 new=-\n";
    assert_eq!(rt;
        journal_text(rt.alloc(), &journal)?.as_slice(),
        text.as_bytes()
    );
    Ok(())
}

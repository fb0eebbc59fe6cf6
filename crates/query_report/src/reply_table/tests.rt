use super::*;
use crate::reply_text;
use std::test::Fail;

#[test]
fn replies_stand_by_worker(rt: HostRuntime) -> Result<(), Fail> {
    let alloc = rt.alloc();
    let mut table = ReplyTable::new(alloc);
    assert_eq!(rt; table.workers(), 0);
    table.add(alloc, 2, Reply::Missing { front: 5 })?;
    table.add(alloc, 0, Reply::Absent { front: 4 })?;
    table.add(alloc, 2, Reply::LogFull { front: 6 })?;
    assert_eq!(rt; table.workers(), 3);
    for (worker, len) in [(0, 1), (1, 0), (2, 2), (3, 0), (255, 0)] {
        assert_eq!(rt; table.len(worker), len, "of worker {worker}");
    }
    for (worker, n, line) in [
        (0, 0, "w0 1 absent front=4\n"),
        (2, 0, "w2 1 missing front=5\n"),
        (2, 1, "w2 2 log-full front=6\n"),
    ] {
        match table.get(worker, n) {
            Some(reply) => assert_eq!(rt;
                reply_text(alloc, worker, n + 1, reply)?.as_slice(),
                line.as_bytes()
            ),
            None => assert!(rt; false),
        }
    }
    assert!(rt; table.get(0, 1).is_none());
    assert!(rt; table.get(1, 0).is_none());
    assert!(rt; table.get(3, 0).is_none());
    Ok(())
}

//! The queries that are measured.
use cubit_base::{Predicate, Range};

/// A predicate with a name.
#[derive(Clone, Copy)]
pub(crate) struct Case {
    pub(crate) name: &'static str,
    pub(crate) predicate: Predicate,
}

/// Query 6 as TPC-H validates it, one that few rows match and one that many do, all rows, a month, and half of it.
pub(crate) fn cases() -> [Case; 6] {
    [
        Case {
            name: "q6",
            predicate: Predicate::q6(1994, 6, 24),
        },
        Case {
            name: "selective",
            predicate: Predicate::q6(1998, 9, 2),
        },
        Case {
            name: "wide",
            predicate: Predicate::q6(1993, 2, 51),
        },
        Case {
            name: "all",
            predicate: shipped(None),
        },
        // 1994-03-01 to 1994-03-31
        Case {
            name: "month",
            predicate: shipped(Some(Range { lo: 790, hi: 820 })),
        },
        Case {
            name: "half-month",
            predicate: shipped(Some(Range { lo: 790, hi: 804 })),
        },
    ]
}

fn shipped(ship: Option<Range>) -> Predicate {
    Predicate {
        ship,
        disc: None,
        qty: None,
        flag: None,
        status: None,
    }
}

//! The replies that tell what calls came to.
ghost use Rattle.std.specs.Prelude.{◌≡◌};
ghost use Rattle.query_report.specs.declared.reply.Reply.TheVariants as reply;
ghost use Rattle.cubit_session.specs.Step.{change_reply, found_reply};

use commit_log::Front;
use cubit_base::Tuple;
use merger::MergeCount;
use query_report::Reply;
use selection::{CountAnswer, RowsAnswer, SumAnswer};
use table_ops::{OpStop, Placed};

/// Of a change.
pub(crate) fn change_reply(change: Result<Placed, OpStop>) -> Reply
    ensures { result ≡ change_reply change }
{
    match change {
        Ok(Placed { place, row, .. }) => Reply::Placed { place, row },
        Err(OpStop::Duplicate(front, row)) => Reply::Duplicate {
            front: front.len,
            row,
        },
        Err(OpStop::Missing(front)) => Reply::Missing { front: front.len },
        Err(OpStop::TableFull(front)) => Reply::TableFull { front: front.len },
        Err(OpStop::LogFull(front)) => Reply::LogFull { front: front.len },
    }
}

/// Of a look-up.
pub(crate) fn found_reply(found: (Front, Option<(u32, Tuple)>)) -> Reply
    ensures { result ≡ found_reply found }
{
    let (front, live) = found;
    match live {
        Some((row, tuple)) => Reply::Found {
            front: front.len,
            row,
            tuple,
        },
        None => Reply::Absent { front: front.len },
    }
}

/// Of the rows that match.
pub(crate) fn rows_reply(a: RowsAnswer) -> Reply
    ensures { result ≡ reply.Rows a.front.len a.list a.patched }
{
    Reply::Rows {
        front: a.front.len,
        list: a.list,
        patched: a.patched,
    }
}

/// Of how many rows match.
pub(crate) fn count_reply(a: CountAnswer) -> Reply
    ensures { result ≡ reply.Count a.front.len a.count a.patched }
{
    Reply::Count {
        front: a.front.len,
        count: a.count,
        patched: a.patched,
    }
}

/// Of what the rows that match add up to.
pub(crate) fn sum_reply(a: SumAnswer) -> Reply
    ensures { result ≡ reply.Sum a.front.len a.count a.sum a.patched }
{
    Reply::Sum {
        front: a.front.len,
        count: a.count,
        sum: a.sum,
        patched: a.patched,
    }
}

/// The same of query 6.
pub(crate) fn q6_reply(a: SumAnswer) -> Reply
    ensures { result ≡ reply.Q6 a.front.len a.count a.sum a.patched }
{
    Reply::Q6 {
        front: a.front.len,
        count: a.count,
        sum: a.sum,
        patched: a.patched,
    }
}

/// Of a merge of all units.
pub(crate) fn merge_reply(count: MergeCount) -> Reply
    ensures { result ≡ reply.Merge count.merged count.fresh count.busy }
{
    Reply::Merge {
        merged: count.merged,
        fresh: count.fresh,
        busy: count.busy,
    }
}

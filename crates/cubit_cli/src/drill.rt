//! A drill: made commands over a made table.
ghost use Rattle.std.specs.Prelude.{◌≡◌, ◌≤◌, ◌-◌, ◌++◌, [], ◌∷◌, ℕ, List, Some, length, slice_get, IfOk};
ghost use Rattle.cubit_base.specs.declared.command.Command.{Command as CommandValue};
ghost use Rattle.cubit_base.specs.declared.command.Command.TheVariants as command;
ghost use Rattle.cubit_base.specs.declared.delta.Delta.{Delta as DeltaValue};
ghost use Rattle.cubit_base.specs.declared.entry.Limits.{Limits as LimitsValue};
ghost use Rattle.cubit_base.specs.Table.{Row};
ghost use Rattle.query_report.specs.declared.reply.Reply.{Reply as ReplyValue};
ghost use Rattle.query_report.specs.declared.reply.Reply.TheVariants as reply;
ghost use Rattle.query_report.specs.ReplyTable.{replies_of};
ghost use Rattle.refresh_streams.specs.Generator.{everything, made};
ghost use Rattle.cubit_cli.specs.Reply.{EndsInSum, IsDrillText, IsSession};
ghost use Rattle.cubit_cli.specs.Words.{drill_value};

use crate::asked::Drill;
use crate::session::session;
use crate::words::default_limits;
use query_report::{Memory, Reply, ReplyTable, drill_text};
use refresh_streams::make;
use std::alloc::Global;

/// The text of a drill.
pub(crate) fn drilled(alloc: Global, drill: &Drill) -> Result<Vec<u8>, Memory>
    ensures { IfOk result (λ text. IsDrillText (drill_value drill.now) text.items) }
{
    ends_in_sum();
    let (table, script) = make(alloc, drill.seed, drill.orders)?;
    let base = table.len();
    let outcome = session(alloc, table, &script, &default_limits())?;
    let (front, count, sum) = last_sum(&outcome.replies);
    let lines = query_report::Drill {
        seed: drill.seed,
        orders: drill.orders,
        base,
        journal: outcome.journal.len(),
        front,
        count,
        sum,
    };
    let text = drill_text(alloc, &lines)?;
    Ok(text)
}

// The front, the count and the sum of the last reply.
fn last_sum(replies: &ReplyTable) -> (u32, u32, u64)
    requires { EndsInSum replies.now }
    ensures { (patched : ℕ) × (slice_get (replies_of replies.now 0) (length (replies_of replies.now 0) - 1)
        ≡ Some (reply.Sum result.0 result.1 result.2 patched)) }
{
    match replies.get(0, replies.len(0) - 1) {
        Some(
            Reply::Sum {
                front,
                count,
                sum,
                ..
            },
        ) => (*front, *count, *sum),
        _ => unreachable!(),
    }
}

// The last command of a session is replied to by a sum, where it asks for one.
fn ends_in_sum()
    ensures { (limits : LimitsValue) (table : List Row) (commands : List CommandValue)
        (replies : List (List ReplyValue)) (journal : List DeltaValue) →
        IsSession limits table (commands ++ command.Sum everything ∷ []) replies journal →
        EndsInSum replies }
{}

//! Reports: the replies and the journal of a run as a text, both ways.
ghost use Rattle.std.specs.Prelude.{◌≡◌, ◌≢◌, List, Some, IfOk, IfSome, IfNone};
ghost use Rattle.cubit_base.specs.declared.delta.Delta.{Delta as ADelta};
ghost use Rattle.query_report.specs.declared.reply.Reply.{Reply as AReply};
ghost use Rattle.query_report.specs.Report.{IsReport, report_bytes};

use crate::journal::put_journal;
use crate::reader::Reader;
use crate::{Memory, ReplyTable};
use cubit_base::DeltaList;
use std::alloc::Global;

/// The replies of all workers, and the journal.
#[derive(Drop)]
pub struct Report {
    pub replies: ReplyTable,
    pub journal: DeltaList,
}

/// The text of a report: the lines of all replies, worker by worker, and then the journal.
#[tactic(auto, unfolding(crate::specs::Report::report_bytes))]
pub fn report_text(
    alloc: Global,
    replies: &ReplyTable,
    journal: &DeltaList,
) -> Result<Vec<u8>, Memory>
    ensures { IfOk result (λ text. text.items ≡ report_bytes replies.now journal.now) }
{
    let mut text = Vec::new(alloc);
    replies.put_lines(&mut text)?;
    put_journal(&mut text, journal)?;
    Ok(text)
}

/// The report that has these bytes, or none where no report has them.
#[tactic(auto, unfolding(crate::specs::Report::report_bytes))]
pub fn report_of(alloc: Global, bytes: &[u8]) -> Result<Option<Report>, Memory>
    ensures some { IfOk result (λ found. IfSome found (λ r. bytes.now ≡ report_bytes r.replies r.journal)) }
    ensures none { IfOk result (λ found. IfNone found ((replies : List (List AReply)) (journal : List ADelta) →
        IsReport replies journal → bytes.now ≢ report_bytes replies journal)) }
    ensures one { IfOk result (λ found. IfSome found (λ r. (replies : List (List AReply)) (journal : List ADelta) →
        IsReport replies journal → bytes.now ≡ report_bytes replies journal →
        (replies ≡ r.replies) × (journal ≡ r.journal))) }
{
    let mut reader = Reader::new(bytes);
    let replies = reader.replies(alloc)?;
    let journal = reader.journal(alloc)?;
    if reader.is_done() {
        return Ok(Some(Report { replies, journal }));
    }
    Ok(None)
}

#[cfg(test)]
mod tests;

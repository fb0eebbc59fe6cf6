//! Readers of the lines of a report.
ghost use Rattle.std.specs.Prelude.{◌≤◌, length, IfOk};
ghost use Rattle.query_report.specs.Journal.{delta_line, place_text, journal_bytes};
ghost use Rattle.query_report.specs.Reading.{Reads, Anything, EndsNumber, EndsReplies, EndsWorker, IsAtWorker};
ghost use Rattle.query_report.specs.Reply.{reply_line};
ghost use Rattle.query_report.specs.Report.{IsReply, IsReplyList, IsReplyTable, IsDelta, IsPlace, IsJournal, reply_lines, worker_lines};

use super::Reader;
use crate::reply_table::ReplyList;
use crate::{Memory, Reply, ReplyTable};
use cubit_base::{Delta, DeltaList, Key};
use std::alloc::Global;

impl<'a> Reader<'a> {
    /// The replies of all workers.
    pub(crate) fn replies(&mut self, alloc: Global) -> Result<ReplyTable, Memory>
        ensures { IfOk result (λ table. Reads (reply_lines 0) IsReplyTable EndsReplies self.old table self.new) }
    {
        let lists = self.lists(alloc)?;
        match ReplyTable::of_lists(lists) {
            Some(table) => Ok(table),
            None => {
                self.expect(false);
                Ok(ReplyTable::new(alloc))
            }
        }
    }

    // The lists of replies of the workers from 0 on, up to the last that has one.
    fn lists(&mut self, alloc: Global) -> Result<Vec<ReplyList>, Memory>
        ensures reads { IfOk result (λ lists. Reads (reply_lines 0) IsReplyTable EndsReplies
            self.old lists.items self.new) }
        ensures few { IfOk result (λ lists. length lists.items ≤ 256) }
    {
        let mut lists = Vec::new(alloc);
        for worker in 0..256u32 {
            if !self.is_at(b'w') {
                return Ok(lists);
            }
            lists.push(self.replies_of(alloc, worker as u8)?)?;
        }
        Ok(lists)
    }

    // The replies of one worker.
    fn replies_of(&mut self, alloc: Global, worker: u8) -> Result<ReplyList, Memory>
        ensures { IfOk result (λ list. Reads (worker_lines worker 1) IsReplyList (EndsWorker worker)
            self.old list self.new) }
    {
        let mut list = ReplyList::new(alloc);
        for at in 0..u32::MAX {
            if !self.is_at_worker(worker) {
                return Ok(list);
            }
            list.push(self.reply_line(alloc, worker, at + 1)?)?;
        }
        Ok(list)
    }

    // Whether a line of this worker stands at the front.
    #[inline(always)]
    fn is_at_worker(&self, worker: u8) -> bool
        ensures { IsAtWorker worker self.now result }
    {
        let mut ahead = self.ahead();
        let number = ahead.field(b"w");
        !ahead.has_failed() && number == u32::from(worker)
    }

    // The line of a worker's reply with this number.
    #[inline(always)]
    fn reply_line(&mut self, alloc: Global, worker: u8, number: u32) -> Result<Reply, Memory>
        ensures { IfOk result (λ reply. Reads (reply_line worker number) IsReply Anything self.old reply self.new) }
    {
        self.exactly(b"w", u32::from(worker));
        self.exactly(b" ", number);
        self.label(b" ");
        let reply = self.reply(alloc)?;
        self.end_line();
        Ok(reply)
    }

    /// A journal.
    pub(crate) fn journal(&mut self, alloc: Global) -> Result<DeltaList, Memory>
        ensures { IfOk result (λ deltas. Reads journal_bytes IsJournal Anything self.old deltas self.new) }
    {
        let count = self.field(b"journal ");
        self.end_line();
        let mut deltas = DeltaList::new(alloc);
        for place in 0..count {
            if self.has_failed() {
                return Ok(deltas);
            }
            deltas.push(self.delta(place))?;
        }
        Ok(deltas)
    }

    // The line of the delta at a place.
    fn delta(&mut self, place: u32) -> Delta
        ensures { Reads (delta_line place) IsDelta Anything self.old result self.new }
    {
        let (author, key, row) = self.place(place);
        self.label(b" old=");
        let before = self.held();
        self.label(b" new=");
        let after = self.held();
        self.end_line();
        Delta {
            author,
            row,
            key,
            before,
            after,
        }
    }

    // The author, the key and the row of the delta at a place.
    #[inline(always)]
    fn place(&mut self, place: u32) -> (u8, Key, u32)
        ensures { Reads (λ p. place_text place p.0 p.1 p.2) IsPlace EndsNumber self.old result self.new }
    {
        self.exactly(b"", place);
        let author = self.field_within(b" w", 0, 255);
        let order = self.field_within(b" ", 1, u32::MAX);
        let line = self.field_within(b".", 1, 7);
        let row = self.field(b" row=");
        let line = line as u8;
        (author as u8, Key { order, line }, row)
    }
}

//! The replies of all workers.
ghost use Rattle.std.specs.Prelude.{◌≡◌, ◌<◌, ◌≤◌, ◌^◌, [], ◌∷◌, ◌++◌, length, slice_get, replicate, OnOk, OnErr, IfOk, IfSome, IfNone};
ghost use Rattle.std.specs.Option.{option_copied};
ghost use Rattle.query_report.specs.Report.{reply_lines, worker_lines};
ghost use Rattle.query_report.specs.ReplyTable.{EndsInReply, added, replies_of};

use crate::reply::put_reply_line;
use crate::{Memory, Reply};
use std::alloc::Global;
use std::marker::Model;

// The replies of one worker, in the order of its commands.
#[derive(Drop)]
pub(crate) struct ReplyList {
    replies: Vec<Reply>,
}

impl Model for ReplyList {
    ghost use Rattle.std.specs.Prelude.{List, length, ◌<◌, ◌^◌};
    ghost use Rattle.query_report.specs.declared.reply.Reply.{Reply};

    ghost Value = { List Reply };

    ghost view = { λ l. l.replies.items };

    ghost invariant = { λ l. length l.replies.items < 2 ^ 32 };
}

/// A list of replies for each worker; contracts see it as the list of these. A worker past the end has no replies, and
/// the last list, where there is one, is not empty.
#[derive(Drop)]
pub struct ReplyTable {
    lists: Vec<ReplyList>,
}

impl Model for ReplyTable {
    ghost use Rattle.std.specs.Prelude.{List, length, ◌≤◌};
    ghost use Rattle.query_report.specs.declared.reply.Reply.{Reply};
    ghost use Rattle.query_report.specs.ReplyTable.{EndsInReply};

    ghost Value = { List (List Reply) };

    ghost view = { λ t. t.lists.items };

    ghost invariant = { λ t. (length t.lists.items ≤ 256) × EndsInReply t.lists.items };
}

impl ReplyTable {
    /// No list. It takes no memory.
    pub fn new(alloc: Global) -> ReplyTable
        ensures { result ≡ [] }
    {
        ReplyTable {
            lists: Vec::new(alloc),
        }
    }

    /// The table of these lists, or none where the last of them is empty.
    pub(crate) fn of_lists(lists: Vec<ReplyList>) -> Option<ReplyTable>
        requires { length lists.items ≤ 256 }
        ensures some { IfSome result (λ table. table ≡ lists.items) }
        ensures none { IfNone result (EndsInReply lists.items → ⊥) }
    {
        if let Some(last) = lists.last() {
            if last.len() == 0 {
                return None;
            }
        }
        Some(ReplyTable { lists })
    }

    /// The number of lists.
    pub fn workers(&self) -> u32
        ensures { result ≡ length self.now }
    {
        self.lists.len() as u32
    }

    /// How many replies a worker has.
    pub fn len(&self, worker: u8) -> u32
        ensures { result ≡ length (replies_of self.now worker) }
    {
        match self.lists.get(usize::from(worker)) {
            Some(list) => list.len(),
            None => 0,
        }
    }

    /// A worker's reply with this number from 0, or none past the end.
    pub fn get(&self, worker: u8, n: u32) -> Option<&Reply>
        ensures { option_copied result ≡ slice_get (replies_of self.now worker) n }
    {
        match self.lists.get(usize::from(worker)) {
            Some(list) => list.get(n),
            None => None,
        }
    }

    /// Puts a reply at the end of a worker's list; lists that are missing before it are empty from then on.
    pub fn add(&mut self, alloc: Global, worker: u8, reply: Reply) -> Result<(), Memory>
        requires { length (replies_of self.old worker) < 4_294_967_295 }
        ensures ok { OnOk result (self.new ≡ added self.old worker reply) }
        ensures err { OnErr result (self.new ≡ self.old) }
    {
        let worker = usize::from(worker);
        if worker < self.lists.len() {
            return self.lists[worker].push(reply);
        }
        let mut more = lists_to(alloc, worker - self.lists.len(), reply)?;
        self.lists.append(&mut more)
    }
}

impl ReplyTable {
    /// The lines of all replies at the end of a text, worker by worker.
    pub(crate) fn put_lines(&self, text: &mut Vec<u8>) -> Result<(), Memory>
        ensures { OnOk result (text.new.items ≡ text.old.items ++ reply_lines 0 self.now) }
    {
        put_lists(text, self.lists.as_slice())
    }
}

fn put_lists(text: &mut Vec<u8>, lists: &[ReplyList]) -> Result<(), Memory>
    requires { length lists.now ≤ 256 }
    ensures { OnOk result (text.new.items ≡ text.old.items ++ reply_lines 0 lists.now) }
{
    for (worker, list) in lists.iter().enumerate() {
        list.put_lines(text, worker as u8)?;
    }
    Ok(())
}

fn put_replies(text: &mut Vec<u8>, worker: u8, replies: &[Reply]) -> Result<(), Memory>
    requires { length replies.now < 2 ^ 32 }
    ensures { OnOk result (text.new.items ≡ text.old.items ++ worker_lines worker 1 replies.now) }
{
    for (at, reply) in replies.iter().enumerate() {
        put_reply_line(text, worker, at as u32 + 1, reply)?;
    }
    Ok(())
}

impl ReplyList {
    fn put_lines(&self, text: &mut Vec<u8>, worker: u8) -> Result<(), Memory>
        ensures { OnOk result (text.new.items ≡ text.old.items ++ worker_lines worker 1 self.now) }
    {
        put_replies(text, worker, self.replies.as_slice())
    }

    pub(crate) fn new(alloc: Global) -> ReplyList
        ensures { result ≡ [] }
    {
        ReplyList {
            replies: Vec::new(alloc),
        }
    }

    fn len(&self) -> u32
        ensures { result ≡ length self.now }
    {
        self.replies.len() as u32
    }

    fn get(&self, n: u32) -> Option<&Reply>
        ensures { option_copied result ≡ slice_get self.now n }
    {
        self.replies.get(n as usize)
    }

    pub(crate) fn push(&mut self, reply: Reply) -> Result<(), Memory>
        requires { length self.old < 4_294_967_295 }
        ensures ok { OnOk result (self.new ≡ self.old ++ reply ∷ []) }
        ensures err { OnErr result (self.new ≡ self.old) }
    {
        self.replies.push(reply)?;
        Ok(())
    }
}

// So many empty lists, and behind them one of a single reply.
fn lists_to(alloc: Global, empty: usize, reply: Reply) -> Result<Vec<ReplyList>, Memory>
    ensures { IfOk result (λ lists. lists.items ≡ replicate empty [] ++ (reply ∷ []) ∷ []) }
{
    let mut last = ReplyList::new(alloc);
    last.push(reply)?;
    let mut lists = Vec::new(alloc);
    for _ in 0..empty {
        lists.push(ReplyList::new(alloc))?;
    }
    lists.push(last)?;
    Ok(lists)
}

#[cfg(test)]
mod tests;

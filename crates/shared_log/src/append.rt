//! An append: an entry is stored in the pass's next node, and linked behind the node of a front.
ghost use Rattle.std.specs.Prelude.{◌≡◌, ◌<◌, ◌^◌, IfSome, length};
ghost use Rattle.cubit_base.specs.Key.{IsKey};
ghost use Rattle.cubit_base.specs.Tuple.{IsTuple};
ghost use Rattle.cubit_base.specs.declared.entry.Entry.{Entry as EntryValue};
ghost use Rattle.log_core.specs.Terms.{share, first_node, node_count};
ghost use Rattle.commit_log.specs.Log.{Stands, MayFollow};
ghost use Rattle.shared_log.specs.Steps.{Knows, IsNext, MayPut};
ghost use Rattle.shared_log.specs.Told.{shared_terms, KnowsLog};
ghost use Rattle.shared_log.specs.Appends.{IsEntryBehind, StoresEntry, ReachesFront, MayLink};

use super::laws::core;
use super::rule::{LogTerms, WhichLog};
use super::seat::PassSeat;
use commit_log::Front;
use cubit_base::{Delta, Entry, laws};

/// A delta is within its ranges. This does nothing: where it is called, that is known.
fn is_within(delta: &Delta)
    ensures key { IsKey delta.now.key }
    ensures order { delta.now.key.order < 2 ^ 32 }
    ensures before { IfSome delta.now.before IsTuple }
    ensures after { IfSome delta.now.after IsTuple }
{
    let _order = delta.key.order;
    if let Some(tuple) = &delta.before {
        let _day = tuple.day;
    }
    if let Some(tuple) = &delta.after {
        let _day = tuple.day;
    }
}

impl<'a, T: LogTerms, W: WhichLog> PassSeat<'a, T, W> {
    /// Stores the words of an entry in the pass's next node, by four steps.
    pub(super) fn store_entry(&mut self, node: u64, words: &[u64; 4])
        requires next { IsNext T.terms self.old node }
        requires inside { node < node_count T.terms }
        ensures { StoresEntry T.terms self.old node words.now self.new }
    {
        let _ = &self.log;
        self.store(node, 0, words[0]);
        self.store(node, 1, words[1]);
        self.store(node, 2, words[2]);
        self.store(node, 3, words[3]);
    }

    /// Sees the tail at the node of a front, and helps it there; false where something stands behind that node.
    pub(super) fn reach(&mut self, at: &Front) -> bool
        requires { Knows T.terms self.old at.now.node at.now.len }
        ensures { ReachesFront T.terms self.old at.now result self.new }
    {
        let node = u64::from(at.node);
        let tail = self.load_tail();
        if tail == node {
            return true;
        }
        let link = self.load_link(tail);
        if link == 0 || link != node {
            return false;
        }
        self.swap_tail(tail, node);
        true
    }

    // Links the pass's next node behind that of a front, and moves the tail on; false where something stands there.
    fn put(&mut self, at: &Front, node: u64, delta: &Delta) -> bool
        requires log { KnowsLog T.terms self.old }
        requires may { (e : EntryValue) × MayPut T.terms self.old at.now.node node at.now.len e
            × (e.delta ≡ delta.now) }
        ensures { MayLink T.terms self.old at.now node delta.now 1 self.new result }
    {
        let last = u64::from(at.node);
        if self.swap_link(last, node, delta) != 0 {
            return false;
        }
        self.swap_tail(last, node);
        true
    }

    /// The pass's next node, by its author's first one and how many it has used.
    pub(super) fn next_node(&self, first: u32, used: u32) -> u32
        requires author { self.now.author < length T.terms.shares }
        requires first { first ≡ first_node T.terms self.now.author }
        requires used { used ≡ self.now.used }
        requires share { used < share T.terms self.now.author }
        ensures { IsNext T.terms self.now result }
    {
        core();
        let _ = &self.log;
        first + used
    }

    /// The entry of a delta of the pass behind a front.
    pub(super) fn entry_behind(&self, at: &Front, delta: &Delta) -> Entry
        requires log { KnowsLog T.terms self.now }
        requires at { Stands (shared_terms T.terms) self.now.seen at.now }
        requires room { at.now.len < T.terms.limits.log_limit }
        requires lawful { MayFollow (shared_terms T.terms) self.now.seen at.now delta.now }
        requires author { delta.now.author ≡ self.now.author }
        ensures delta { result.delta ≡ delta.now }
        ensures entry { IsEntryBehind T.terms self.now at.now result }
    {
        laws::histories();
        laws::deltas();
        laws::rows();
        is_within(delta);
        let _ = &self.log;
        Entry {
            seq: at.len + 1,
            rows: at.rows + u32::from(delta.before.is_none()),
            delta: *delta,
        }
    }

    /// Appends an entry behind a front, in the pass's next node; false where another one stands there.
    pub(super) fn append(&mut self, at: &Front, entry: &Entry, node: u64) -> bool
        requires log { KnowsLog T.terms self.old }
        requires at { Knows T.terms self.old at.now.node at.now.len }
        requires room { at.now.len < T.terms.limits.log_limit }
        requires entry { IsEntryBehind T.terms self.old at.now entry.now }
        requires next { IsNext T.terms self.old node }
        ensures { MayLink T.terms self.old at.now node entry.now.delta 8 self.new result }
    {
        self.store_entry(node, &entry.to_words());
        if !self.reach(at) {
            return false;
        }
        self.put(at, node, &entry.delta)
    }
}

//! The exchanges of a link and of the tail.
ghost use Rattle.std.specs.Prelude.{◌≡◌, ℕ, ◌+◌, ◌*◌, ◌<◌, ◌≤◌, [], ◌∷◌, length, IfSome, IfNone, IsTrue, ◌↔◌};
ghost use Rattle.cubit_base.specs.declared.entry.Entry.{Entry as EntryValue};
ghost use Rattle.log_core.specs.Chain.{payload, HasEntry, entry_count};
ghost use Rattle.log_core.specs.Steps.{MayLink, MayComeNext, MayMoveTail, ComesTo};
ghost use Rattle.log_core.specs.declared.step.Step.TheVariants.{SwapLink, SwapTail};

use super::Core;
use crate::{Seen, Unlawful};
use cubit_base::Entry;

impl Core {
    pub(super) fn swap_link(&mut self, party: usize, node: u32, to: u32) -> Result<Seen, Unlawful>
        requires { party < length self.old.parties }
        ensures { ComesTo self.old party (SwapLink node to) result self.new }
    {
        self.is_sound();
        let Some(place) = self.link_place(party, node, to) else {
            return Err(Unlawful);
        };
        let Some(entry) = self.proposed(party, to, place) else {
            return Err(Unlawful);
        };
        if self.word(5 * node as usize + 5) != 0 {
            self.see_next(party, place);
            return Ok(Seen::Swapped(false));
        }
        self.link(party, node, to, place, &entry.delta);
        Ok(Seen::Swapped(true))
    }

    pub(super) fn swap_tail(&mut self, party: usize, from: u32, to: u32) -> Result<Seen, Unlawful>
        requires { party < length self.old.parties }
        ensures { ComesTo self.old party (SwapTail from to) result self.new }
    {
        self.is_sound();
        let Some(place) = self.move_place(party, from, to) else {
            return Err(Unlawful);
        };
        if self.tail() != from {
            self.reach_next(party, place);
            return Ok(Seen::Swapped(false));
        }
        self.move_tail(party, to, place);
        Ok(Seen::Swapped(true))
    }

    // The place of a node from which the party may move the tail.
    fn move_place(&self, party: usize, from: u32, to: u32) -> Option<u32>
        requires { party < length self.now.parties }
        ensures some { IfSome result (MayMoveTail self.now party from to) }
        ensures none { IfNone result ((k : ℕ) → MayMoveTail self.now party from to k → ⊥) }
    {
        self.is_sound();
        let place = self.place_of(from)?;
        let of = self.party(party);
        let end = self.end_of(place);
        let behind = self.end_behind(place);
        let link = self.word(5 * from as usize + 5);
        if to == 0 || link != u64::from(to) || end > of.reached || behind > of.seen {
            return None;
        }
        Some(place)
    }

    // The payload of a node.
    fn payload(&self, node: u32) -> [u64; 4]
        requires { 5 * node + 5 < length self.now.words }
        ensures { result ≡ payload self.now.words node 0 ∷ payload self.now.words node 1
            ∷ payload self.now.words node 2 ∷ payload self.now.words node 3 ∷ [] }
    {
        let at = 5 * node as usize + 1;
        [
            self.word(at),
            self.word(at + 1),
            self.word(at + 2),
            self.word(at + 3),
        ]
    }

    // The entry that a node has, where it may come next behind a place.
    fn proposed(&self, party: usize, node: u32, place: u32) -> Option<Entry>
        requires node { 5 * node + 5 < length self.now.words }
        requires place { place ≤ entry_count self.now.chain.history }
        ensures some { IfSome result (λ e. HasEntry self.now.words node e × MayComeNext self.now party place e) }
        ensures none { IfNone result ((e : EntryValue) → HasEntry self.now.words node e →
            MayComeNext self.now party place e → ⊥) }
    {
        cubit_base::laws::words();
        let Some(entry) = Entry::from_words(&self.payload(node)) else {
            return None;
        };
        if !self.may_come_next(party, place, &entry) {
            return None;
        }
        Some(entry)
    }

    // Whether an entry may come next behind a place.
    fn may_come_next(&self, party: usize, place: u32, entry: &Entry) -> bool
        requires { place ≤ entry_count self.now.chain.history }
        ensures { IsTrue result ↔ MayComeNext self.now party place entry.now }
    {
        let delta = &entry.delta;
        if !self.is_lawful_behind(place, delta) {
            return false;
        }
        let seq = u64::from(self.end_of(place)) + 1;
        let rows = self.rows_with(place, delta);
        usize::from(delta.author) == party && u64::from(entry.seq) == seq && entry.rows == rows
    }

    // The place of a node behind which the party may link its next node.
    pub(super) fn link_place(&self, party: usize, node: u32, to: u32) -> Option<u32>
        requires { party < length self.now.parties }
        ensures some { IfSome result (MayLink self.now party node to) }
        ensures none { IfNone result ((k : ℕ) → MayLink self.now party node to k → ⊥) }
    {
        self.is_sound();
        let place = self.read_place(party, node)?;
        let end = self.end_of(place);
        let room = end < self.limits.log_limit;
        let reached = end <= self.party(party).reached;
        let next = self.is_next_node(party, to);
        if !room || !reached || !next {
            return None;
        }
        Some(place)
    }
}

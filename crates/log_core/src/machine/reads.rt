//! What a core holds.
ghost use Rattle.std.specs.Prelude.{◌≡◌, ℕ, ◌+◌, ◌*◌, ◌≤◌, ◌<◌, length, slice_index, IfSome, IfNone, IsTrue, ◌↔◌};
ghost use Rattle.log_core.specs.Terms.{share, first_node};
ghost use Rattle.log_core.specs.Chain.{tail, link, node_at, IsNodeAt, delta_count, entry_count, end_at};
ghost use Rattle.log_core.specs.Core.{party as party_of};
ghost use Rattle.log_core.specs.Steps.{IsNextNode, MayRead, tail_end};

use super::Core;
use crate::Party;

impl Core {
    pub(crate) fn party_count(&self) -> usize
        ensures { result ≡ length self.now.parties }
    {
        self.parties.len()
    }

    pub(super) fn party(&self, party: usize) -> Party
        requires { party < length self.now.parties }
        ensures { result ≡ party_of self.now party }
    {
        self.parties[party]
    }

    pub(super) fn noted(&self) -> u32
        ensures { result ≡ self.now.noted }
    {
        self.noted
    }

    /// The number of deltas.
    pub(super) fn len(&self) -> u32
        ensures { result ≡ delta_count self.now.chain.history }
    {
        self.deltas.len() as u32
    }

    pub(super) fn word(&self, at: usize) -> u64
        requires { at < length self.now.words }
        ensures { result ≡ slice_index self.now.words at }
    {
        self.words[at]
    }

    pub(crate) fn tail(&self) -> u32
        ensures { result ≡ tail self.now.words }
    {
        self.words[0] as u32
    }

    /// The node that the tail links to, or 0.
    pub(crate) fn tail_link(&self) -> u32
        ensures { result ≡ link self.now.words (tail self.now.words) }
    {
        self.is_sound();
        self.word(5 * self.tail() as usize + 5) as u32
    }

    /// The last node of the chain.
    pub(crate) fn last(&self) -> u32
        ensures { result ≡ node_at self.now.chain (entry_count self.now.chain.history) }
    {
        self.nodes[self.deltas.len()]
    }

    /// The end of the node in this place.
    #[tactic(auto, using(crate::proofs::Ends::end_at_least))]
    pub(super) fn end_of(&self, place: u32) -> u32
        ensures { result ≡ end_at self.now.chain.history place }
    {
        place.min(self.len())
    }

    /// The end of the node behind it.
    #[tactic(auto, using(crate::proofs::Ends::end_at_least))]
    pub(super) fn end_behind(&self, place: u32) -> u32
        ensures { result ≡ end_at self.now.chain.history (place + 1) }
    {
        let len = self.len();
        if place < len { place + 1 } else { len }
    }

    pub(super) fn tail_end(&self) -> u32
        ensures { result ≡ tail_end self.now }
    {
        self.end_of(self.tail_place)
    }

    /// The place of a node, or none where it is not in the chain.
    pub(super) fn place_of(&self, node: u32) -> Option<u32>
        ensures some { IfSome result (IsNodeAt self.now.chain node) }
        ensures none { IfNone result ((k : ℕ) → IsNodeAt self.now.chain node k → ⊥) }
    {
        for (k, at) in self.nodes.iter().enumerate() {
            if *at == node {
                return Some(k as u32);
            }
        }
        None
    }

    /// The place of a node that the party has seen.
    pub(super) fn read_place(&self, party: usize, node: u32) -> Option<u32>
        requires { party < length self.now.parties }
        ensures some { IfSome result (MayRead self.now party node) }
        ensures none { IfNone result ((k : ℕ) → MayRead self.now party node k → ⊥) }
    {
        self.is_sound();
        let place = self.place_of(node)?;
        if self.end_of(place) > self.party(party).seen {
            return None;
        }
        Some(place)
    }

    fn first_node(&self, party: usize) -> u32
        requires { party < length self.now.parties }
        ensures value { result ≡ first_node self.now.terms party }
        ensures small { result ≤ 4_194_305 }
    {
        self.is_sound();
        let mut first = 1;
        for i in 0..party {
            first += self.shares[i];
        }
        first
    }

    /// Whether the party has a node left.
    pub(super) fn has_node(&self, party: usize) -> bool
        requires { party < length self.now.parties }
        ensures { IsTrue result ↔ ((party_of self.now party).used < share self.now.terms party) }
    {
        self.is_sound();
        self.party(party).used < self.shares[party]
    }

    /// The party's next node.
    pub(crate) fn next_node(&self, party: usize) -> u32
        requires party { party < length self.now.parties }
        requires node { (party_of self.now party).used < share self.now.terms party }
        ensures { IsNextNode self.now party result }
    {
        self.is_sound();
        self.first_node(party) + self.party(party).used
    }

    /// Whether this is the party's next node.
    pub(super) fn is_next_node(&self, party: usize, node: u32) -> bool
        requires { party < length self.now.parties }
        ensures { IsTrue result ↔ IsNextNode self.now party node }
    {
        self.has_node(party) && node == self.next_node(party)
    }
}

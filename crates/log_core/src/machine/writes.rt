//! What a step does to a core. Each of these is called where the core that it leaves is known to be sound.
ghost use Rattle.std.specs.Prelude.{◌≡◌, ◌+◌, ◌*◌, ◌^◌, ◌<◌, ◌≤◌, length, slice_set, sum};
ghost use Rattle.log_core.specs.Chain.{delta_count, entry_count};
ghost use Rattle.log_core.specs.Core.{party as party_of, with_party, IsSound};
ghost use Rattle.log_core.specs.Steps.{sees_next, reaches_next, linked, tail_moved};

use super::Core;
use crate::Party;
use cubit_base::Delta;

impl Core {
    pub(super) fn set_party(&mut self, party: usize, to: Party)
        requires party { party < length self.old.parties }
        requires sound { IsSound (with_party self.old party to) }
        ensures { self.new ≡ with_party self.old party to }
    {
        self.parties[party] = to;
    }

    pub(super) fn set_word(&mut self, at: usize, to: u64)
        requires within { at < length self.old.words }
        requires sound { IsSound (record self.old { words = slice_set self.old.words at to }) }
        ensures { self.new ≡ record self.old { words = slice_set self.old.words at to } }
    {
        self.words[at] = to;
    }

    pub(super) fn set_noted(&mut self, to: u32)
        requires { IsSound (record self.old { noted = to }) }
        ensures { self.new ≡ record self.old { noted = to } }
    {
        self.noted = to;
    }

    /// The party sees the node behind a place, where there is one.
    pub(super) fn see_next(&mut self, party: usize, place: u32)
        requires { party < length self.old.parties }
        ensures { self.new ≡ sees_next self.old party place }
    {
        self.is_sound();
        let of = self.party(party).sees(self.end_behind(place));
        self.set_party(party, of);
    }

    /// The party sees the tail behind a place.
    pub(super) fn reach_next(&mut self, party: usize, place: u32)
        requires party { party < length self.old.parties }
        requires sound { IsSound (reaches_next self.old party place) }
        ensures { self.new ≡ reaches_next self.old party place }
    {
        let of = self.party(party).reaches(self.end_behind(place));
        self.set_party(party, of);
    }

    pub(super) fn move_tail(&mut self, party: usize, to: u32, place: u32)
        requires party { party < length self.old.parties }
        requires place { place < delta_count self.old.chain.history }
        requires sound { IsSound (tail_moved self.old party to place) }
        ensures { self.new ≡ tail_moved self.old party to place }
    {
        let of = self.party(party).reaches(self.end_behind(place));
        let _len = self.len();
        self.words[0] = u64::from(to);
        self.tail_place = place + 1;
        self.parties[party] = of;
    }

    pub(super) fn link(&mut self, party: usize, node: u32, to: u32, place: u32, delta: &Delta)
        requires party { party < length self.old.parties }
        requires node { 5 * node + 5 < length self.old.words }
        requires place { place ≤ entry_count self.old.chain.history }
        requires room { delta_count self.old.chain.history < sum self.old.terms.shares }
        requires used { (party_of self.old party).used < 2 ^ 31 }
        requires sound { IsSound (linked self.old party node to place delta.now) }
        ensures { self.new ≡ linked self.old party node to place delta.now }
    {
        let of = self.party(party).links(self.end_of(place));
        let _len = self.len();
        self.words[5 * node as usize + 5] = u64::from(to);
        self.nodes.push_reserved(to);
        // The check has to be shown the fields here: a move of the whole delta gets no proof.
        self.deltas.push_reserved(Delta { ..*delta });
        self.parties[party] = of;
    }
}

//! The core as a value, and its step.
ghost use Rattle.std.specs.Prelude.{◌≡◌, ◌+◌, ◌<◌, ◌≤◌, length, sum, IfOk};
ghost use Rattle.log_core.specs.Terms.{AreTerms};
ghost use Rattle.log_core.specs.Core.{made_core, IsSound};
ghost use Rattle.log_core.specs.Steps.{ComesTo};
ghost use Rattle.log_core.specs.declared.step.Step.TheVariants.{Store, LoadTail, LoadLink, LoadPayload, Note, Join};

use crate::{Memory, Party, Seen, Step, Unlawful};
use cubit_base::{Delta, Limits, Table};
use std::alloc::Global;
use std::marker::Model;

mod lawful;
mod links;
mod reads;
mod writes;

/// The words of a log that several parties share, as a value without threads: what each of them has seen and made, and
/// the rules of its steps. It is sound wherever it is lent or given back.
#[derive(Drop)]
pub struct Core {
    base: Table,
    shares: Vec<u32>,
    limits: Limits,
    words: Vec<u64>,
    nodes: Vec<u32>,
    deltas: Vec<Delta>,
    tail_place: u32,
    parties: Vec<Party>,
    noted: u32,
}

impl Model for Core {
    ghost use Rattle.log_core.specs.Core.{CoreValue};

    ghost Value = { CoreValue };

    ghost use Rattle.log_core.specs.HeldCore.{core_value, IsHeld};

    ghost view = { core_value };

    ghost invariant = { IsHeld };
}

impl Core {
    /// The core over a base table before any step, in which each party has its share of nodes: 0 is none. No later call
    /// takes memory.
    pub fn make(
        alloc: Global,
        base: &Table,
        shares: &[u32],
        limits: &Limits,
    ) -> Result<Core, Memory>
        requires { AreTerms (record { base = base.now; shares = shares.now; limits = limits.now }) }
        ensures { IfOk result (λ core. core ≡ made_core (record {
          base = base.now;
          shares = shares.now;
          limits = limits.now;
        })) }
    {
        let count = node_count(shares);
        let mut nodes = Vec::with_capacity(alloc, count)?;
        nodes.push_reserved(0);
        Ok(Core {
            base: copied(alloc, base)?,
            shares: shares.to_vec(alloc)?,
            limits: *limits,
            words: vec![in alloc; 0; 5 * count + 1]?,
            nodes,
            deltas: Vec::with_capacity(alloc, count - 1)?,
            tail_place: 0,
            parties: vec![in alloc; Party::newcomer(); shares.len()]?,
            noted: 0,
        })
    }

    /// A sound core. This does nothing: where it is called, that is known.
    pub fn is_sound(&self)
        ensures sound { IsSound self.now }
        ensures terms { AreTerms self.now.terms }
    {
        let _base = &self.base;
    }

    /// One step of a party. It takes no memory.
    pub fn step(&mut self, party: u8, step: &Step) -> Result<Seen, Unlawful>
        ensures { ComesTo self.old party step.now result self.new }
    {
        let party = usize::from(party);
        if party >= self.party_count() {
            return Err(Unlawful);
        }
        match *step {
            Step::Store { node, word, value } => self.store(party, node, word, value),
            Step::LoadTail => self.load_tail(party),
            Step::LoadLink { node } => self.load_link(party, node),
            Step::LoadPayload { node, word } => self.load_payload(party, node, word),
            Step::SwapLink { node, to } => self.swap_link(party, node, to),
            Step::SwapTail { from, to } => self.swap_tail(party, from, to),
            Step::Note => self.note(party),
            Step::Join { note } => self.join(party, note),
        }
    }

    fn store(&mut self, party: usize, node: u32, word: u8, value: u64) -> Result<Seen, Unlawful>
        requires { party < length self.old.parties }
        ensures { ComesTo self.old party (Store node word value) result self.new }
    {
        self.is_sound();
        if word > 3 || !self.is_next_node(party, node) {
            return Err(Unlawful);
        }
        self.set_word(5 * node as usize + usize::from(word) + 1, value);
        Ok(Seen::Done)
    }

    fn load_tail(&mut self, party: usize) -> Result<Seen, Unlawful>
        requires { party < length self.old.parties }
        ensures { ComesTo self.old party LoadTail result self.new }
    {
        self.is_sound();
        let tail = self.tail();
        let of = self.party(party);
        let of = of.loads_tail(self.tail_end(), self.len(), tail);
        self.set_party(party, of);
        Ok(Seen::Value(u64::from(tail)))
    }

    fn load_link(&mut self, party: usize, node: u32) -> Result<Seen, Unlawful>
        requires { party < length self.old.parties }
        ensures { ComesTo self.old party (LoadLink node) result self.new }
    {
        self.is_sound();
        let Some(place) = self.read_place(party, node) else {
            return Err(Unlawful);
        };
        let link = self.word(5 * node as usize + 5);
        self.see_next(party, place);
        Ok(Seen::Value(link))
    }

    fn load_payload(&mut self, party: usize, node: u32, word: u8) -> Result<Seen, Unlawful>
        requires { party < length self.old.parties }
        ensures { ComesTo self.old party (LoadPayload node word) result self.new }
    {
        self.is_sound();
        let Some(_place) = self.read_place(party, node) else {
            return Err(Unlawful);
        };
        if word > 3 {
            return Err(Unlawful);
        }
        Ok(Seen::Value(self.word(5 * node as usize + usize::from(word) + 1)))
    }

    fn note(&mut self, party: usize) -> Result<Seen, Unlawful>
        requires { party < length self.old.parties }
        ensures { ComesTo self.old party Note result self.new }
    {
        self.is_sound();
        let noted = self.noted().max(self.party(party).seen);
        self.set_noted(noted);
        Ok(Seen::Done)
    }

    fn join(&mut self, party: usize, note: u32) -> Result<Seen, Unlawful>
        requires { party < length self.old.parties }
        ensures { ComesTo self.old party (Join note) result self.new }
    {
        self.is_sound();
        if note > self.noted() {
            return Err(Unlawful);
        }
        let of = self.party(party).sees(note);
        self.set_party(party, of);
        Ok(Seen::Done)
    }
}

// How many nodes there are: the head, and those of the parties.
fn node_count(shares: &[u32]) -> usize
    requires { sum shares.now ≤ 4_194_304 }
    ensures { result ≡ 1 + sum shares.now }
{
    let mut count = 1;
    for share in shares {
        count += *share as usize;
    }
    count
}

fn copied(alloc: Global, table: &Table) -> Result<Table, Memory>
    ensures { IfOk result (λ copy. copy ≡ table.now) }
{
    let mut copy = Table::with_capacity(alloc, table.len())?;
    for n in 0..table.len() {
        let Some((key, tuple)) = table.row(n) else {
            unreachable!();
        };
        copy.push(key, tuple)?;
    }
    Ok(copy)
}

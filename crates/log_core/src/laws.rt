//! What follows for steps of a core, and what one party can do alone, whatever the others have left half done.
//!
//! The functions without arguments do nothing: where one is called, its clauses are known.
ghost use Rattle.std.specs.Prelude.{◌≡◌, ℕ, ◌+◌, ◌<◌, ◌≤◌, [], ◌∷◌, ◌++◌, length, IsTrue, ◌↔◌};
ghost use Rattle.cubit_base.specs.EntryWords.{FitsWords};
ghost use Rattle.log_core.specs.Chain.{tail, link, node_at, IsNodeAt, delta_count, entry_count, end_at};
ghost use Rattle.log_core.specs.Terms.{CoreTerms, share, first_node, node_count};
ghost use Rattle.log_core.specs.Core.{CoreValue, party as party_of, made_core, IsSound};
ghost use Rattle.log_core.specs.Growing.{HasGrown, behind};
ghost use Rattle.log_core.specs.Steps.{TakesStep, IsLawfulStep};
ghost use Rattle.log_core.specs.Run.{IsLawfulRun, EndsIn, TakesFront, stores as stores_of, helps, MayCommit, TakesCommit};
ghost use Rattle.log_core.specs.declared.step.Step.{Step as StepValue};
ghost use Rattle.log_core.specs.declared.step.Seen.{Seen as SeenValue};

use crate::{Core, Seen, Step};
use cubit_base::{Delta, Entry};

/// Steps of whichever party.
pub fn steps()
    // Each of the eight kinds leaves a sound core.
    ensures sound { (core next : CoreValue) (p : ℕ) (step : StepValue) (seen : SeenValue) → IsSound core →
        TakesStep core p step seen next → IsSound next }

    // A step has one answer, and leaves one core.
    ensures one { (core : CoreValue) (p : ℕ) (step : StepValue) (a b : SeenValue) (y z : CoreValue) → IsSound core →
        TakesStep core p step a y → TakesStep core p step b z → (a ≡ b) × (y ≡ z) }

    // The history and the chain only grow at their ends, and the tail does not go back.
    ensures grows { (core next : CoreValue) (p : ℕ) (step : StepValue) (seen : SeenValue) → IsSound core →
        TakesStep core p step seen next → HasGrown core next }
{
    cubit_base::laws::words();
}

/// The chain of a sound core.
pub fn chains()
    // The tail is late by one node at most.
    ensures last { (core : CoreValue) → IsSound core → behind (tail core.words) (link core.words (tail core.words))
        ≡ node_at core.chain (entry_count core.chain.history) }

    // The node behind the tail that a party loaded last, or else that tail, has all that there was then up to it.
    ensures loaded { (core : CoreValue) (p : ℕ) → IsSound core → p < length core.parties →
        (place : ℕ) × IsNodeAt core.chain (behind (party_of core p).last (link core.words (party_of core p).last)) place
        × ((party_of core p).low ≤ end_at core.chain.history place) }

    // The words decide the chain.
    ensures one { (a b : CoreValue) → IsSound a → IsSound b → a.terms ≡ b.terms → a.words ≡ b.words →
        a.chain ≡ b.chain }
{
    cubit_base::laws::words();
}

/// The nodes of a sound core.
pub fn nodes()
    // Each stands in one place of the chain at most, and is one of those that there are.
    ensures place { (core : CoreValue) (node j k : ℕ) → IsSound core → IsNodeAt core.chain node j →
        IsNodeAt core.chain node k → j ≡ k }
    ensures inside { (core : CoreValue) (node k : ℕ) → IsSound core → IsNodeAt core.chain node k →
        node < node_count core.terms }

    // Node 0 is the head, and the last node alone has an empty link.
    ensures head { (core : CoreValue) (k : ℕ) → IsSound core → IsNodeAt core.chain 0 k → k ≡ 0 }
    ensures last { (core : CoreValue) (node k : ℕ) → IsSound core → IsNodeAt core.chain node k →
        link core.words node ≡ 0 → k ≡ entry_count core.chain.history }

    // Each node behind the head is one party's.
    ensures own { (terms : CoreTerms) (p i : ℕ) → p < length terms.shares → i < share terms p →
        first_node terms p + i < node_count terms }
    ensures apart { (terms : CoreTerms) (p q i j : ℕ) → p < length terms.shares → q < length terms.shares →
        i < share terms p → j < share terms q → first_node terms p + i ≡ first_node terms q + j → p ≡ q }

    // The core before any step is sound.
    ensures made { (terms : CoreTerms) → IsSound (made_core terms) }
{}

/// Takes a front alone: the tail, its link, and the counts of the last node. It takes no memory.
pub fn front_alone(core: &mut Core, party: u8) -> [Seen; 3]
    requires { party < length core.old.parties }
    ensures steps { TakesFront core.old party result core.new }
    ensures seen { (party_of core.new party).seen ≡ delta_count core.new.chain.history }
    ensures words { core.new.words ≡ core.old.words }
{
    core.is_sound();
    let node = core.tail();
    let last = core.last();
    let tail = took(core, party, &Step::LoadTail);
    let link = took(core, party, &Step::LoadLink { node });
    let counts = took(
        core,
        party,
        &Step::LoadPayload {
            node: last,
            word: 1,
        },
    );
    [tail, link, counts]
}

/// Whether a party may append a delta alone.
pub fn may_commit_alone(core: &Core, party: u8, delta: &Delta) -> bool
    ensures { IsTrue result ↔ MayCommit core.now party delta.now }
{
    core.may_append(party, delta)
}

/// Appends a delta alone, behind all that is there: the entry's four words, and at most five steps after them. It takes
/// no memory.
pub fn commit_alone(core: &mut Core, party: u8, delta: &Delta)
    requires { MayCommit core.old party delta.now }
    ensures steps { TakesCommit core.old party delta.now core.new }
    ensures history { core.new.chain.history ≡ core.old.chain.history ++ delta.now ∷ [] }
    ensures nodes { core.new.chain.nodes ≡ core.old.chain.nodes ++ tail core.new.words ∷ [] }
{
    core.is_sound();
    let node = core.next_node(usize::from(party));
    let entry = core.next_entry(party, delta);
    let tail = core.tail();
    let link = core.tail_link();
    let last = core.last();
    let stores = stores(node, &entry);
    run(core, party, &stores);
    run(
        core,
        party,
        &[Step::LoadTail, Step::LoadLink { node: tail }],
    );
    help(core, party, tail, link);
    let appends = [
        Step::SwapLink {
            node: last,
            to: node,
        },
        Step::SwapTail {
            from: last,
            to: node,
        },
    ];
    run(core, party, &appends);
}

// The stores of an entry.
#[tactic(auto, unfolding(cubit_base::specs::EntryWords::entry_words))]
fn stores(node: u32, entry: &Entry) -> [Step; 4]
    requires { FitsWords entry.now }
    ensures { result ≡ stores_of node entry.now }
{
    let [place, counts, before, after] = entry.to_words();
    [
        Step::Store {
            node,
            word: 0,
            value: place,
        },
        Step::Store {
            node,
            word: 1,
            value: counts,
        },
        Step::Store {
            node,
            word: 2,
            value: before,
        },
        Step::Store {
            node,
            word: 3,
            value: after,
        },
    ]
}

// Moves a late tail on, which is one with a link.
fn help(core: &mut Core, party: u8, tail: u32, link: u32)
    requires { IsLawfulRun core.old party (helps tail link) }
    ensures { EndsIn core.old party (helps tail link) core.new }
{
    if link != 0 {
        run(
            core,
            party,
            &[Step::SwapTail {
                from: tail,
                to: link,
            }],
        );
    }
}

// Takes steps that are lawful.
fn run(core: &mut Core, party: u8, steps: &[Step])
    requires { IsLawfulRun core.old party steps.now }
    ensures { EndsIn core.old party steps.now core.new }
{
    cubit_base::laws::words();
    for step in steps {
        core.is_sound();
        took(core, party, step);
    }
}

// Takes a step that is lawful.
fn took(core: &mut Core, party: u8, step: &Step) -> Seen
    requires { IsLawfulStep core.old party step.now }
    ensures { TakesStep core.old party step.now result core.new }
{
    match core.step(party, step) {
        Ok(seen) => seen,
        Err(_) => unreachable!(),
    }
}

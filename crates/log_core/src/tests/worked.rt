use super::{core, stores};
use crate::laws::{commit_alone, front_alone, may_commit_alone};
use crate::{Core, Seen, Step};
use cubit_base::{Delta, Entry};
use std::test::Fail;

// The update of key 1.1 to quantity 18 by author 0, first in a log; that of key 1.2 to quantity 1 by author 1, second.
const FIRST: [u64; 4] = [
    1,
    281_475_001_876_481,
    92_624_370_551_265_711,
    92_625_470_062_893_487,
];

const OTHER: [u64; 4] = [
    4_294_967_297,
    2_814_749_792_272_386,
    97_500_712_678_478_937,
    97_462_229_771_506_777,
];
// Key 9.1 inserted by author 0, first in a log, in row 3.
const NEW: [u64; 4] = [12_884_901_897, 281_475_010_265_089, 0, 1_099_511_627_779];
// Key 1.1 back to quantity 17, second in a log.
const BACK: [u64; 4] = [
    1,
    281_475_001_876_482,
    92_625_470_062_893_487,
    92_624_370_551_265_711,
];

const AUTHOR: u64 = 0x8_0000_0000_0000;

const ROWS: u64 = 0x80_0000;

const NONE: Option<Seen> = None;

const DONE: Option<Seen> = Some(Seen::Done);

const YES: Option<Seen> = Some(Seen::Swapped(true));

const NO: Option<Seen> = Some(Seen::Swapped(false));

fn value(x: u64) -> Option<Seen> {
    Some(Seen::Value(x))
}

// Stores words that the party may store, and answers to one exchange of a link.
fn proposes(core: &mut Core, party: u8, words: [u64; 4], node: u32, to: u32) -> Option<Seen> {
    for step in stores(to, words) {
        core.step(party, &step).ok()?;
    }
    core.step(party, &Step::SwapLink { node, to }).ok()
}

// Two parties append one after the other; the first is stopped after it linked its node.
#[test]
fn a_party_that_stops_halfway_is_helped(rt: HostRuntime) -> Result<(), Fail> {
    let mut core = core(rt.alloc(), &[1, 1], 16, 16)?;
    for step in stores(1, FIRST) {
        assert_eq!(rt; core.step(0, &step).ok(), DONE);
    }
    for step in stores(2, OTHER) {
        assert_eq!(rt; core.step(1, &step).ok(), DONE);
    }
    for (at, (party, step, seen)) in [
        (0, Step::LoadTail, value(0)),
        (0, Step::LoadLink { node: 0 }, value(0)),
        (0, Step::SwapLink { node: 0, to: 1 }, YES),
        (1, Step::LoadTail, value(0)),
        (1, Step::LoadLink { node: 0 }, value(1)),
        (
            1,
            Step::LoadPayload { node: 1, word: 1 },
            value(281_475_001_876_481),
        ),
        (1, Step::SwapTail { from: 0, to: 1 }, YES),
        (1, Step::SwapLink { node: 1, to: 2 }, YES),
        (1, Step::SwapTail { from: 1, to: 2 }, YES),
        (0, Step::SwapTail { from: 0, to: 1 }, NO),
        (0, Step::LoadTail, value(2)),
        (0, Step::LoadLink { node: 2 }, value(0)),
        (
            0,
            Step::LoadPayload { node: 2, word: 1 },
            value(2_814_749_792_272_386),
        ),
    ]
    .into_iter()
    .enumerate()
    {
        assert_eq!(rt; core.step(party, &step).ok(), seen, "at {at}");
    }
    Ok(())
}

// Each step over a core that was just made.
#[test]
fn first_steps(rt: HostRuntime) -> Result<(), Fail> {
    for (at, (party, step, seen)) in [
        (2, Step::LoadTail, NONE),
        (2, Step::Note, NONE),
        (0, store(1, 0), DONE),
        (0, store(1, 4), NONE),
        (0, store(2, 0), NONE),
        (0, store(3, 0), NONE),
        (0, store(0, 0), NONE),
        (1, store(3, 0), DONE),
        (0, Step::LoadLink { node: 0 }, value(0)),
        (0, Step::LoadLink { node: 1 }, NONE),
        (
            0,
            Step::LoadLink {
                node: 4_294_967_295,
            },
            NONE,
        ),
        (0, Step::LoadPayload { node: 0, word: 3 }, value(0)),
        (0, Step::LoadPayload { node: 0, word: 4 }, NONE),
        (0, Step::SwapLink { node: 0, to: 1 }, NONE),
        (0, Step::SwapTail { from: 0, to: 0 }, NONE),
        (0, Step::SwapTail { from: 0, to: 1 }, NONE),
        (0, Step::Note, DONE),
        (0, Step::Join { note: 0 }, DONE),
        (0, Step::Join { note: 1 }, NONE),
    ]
    .into_iter()
    .enumerate()
    {
        let mut core = core(rt.alloc(), &[2, 1], 16, 16)?;
        assert_eq!(rt; core.step(party, &step).ok(), seen, "at {at}");
    }
    let mut core = core(rt.alloc(), &[0, 1], 16, 16)?;
    assert_eq!(rt; core.step(0, &store(1, 0)).ok(), NONE);
    Ok(())
}

fn store(node: u32, word: u8) -> Step {
    Step::Store {
        node,
        word,
        value: 1,
    }
}

// What a party proposes behind the head.
#[test]
fn proposals(rt: HostRuntime) -> Result<(), Fail> {
    let [place, counts, before, after] = FIRST;
    for (at, (row_limit, log_limit, words, seen)) in [
        (16, 16, FIRST, YES),
        (3, 1, FIRST, YES),
        (16, 0, FIRST, NONE),
        (16, 16, [place, counts + 1, before, after], NONE),
        (16, 16, [place, counts + ROWS, before, after], NONE),
        (16, 16, [place, counts + AUTHOR, before, after], NONE),
        (16, 16, [place, counts, after, before], NONE),
        (16, 16, [place + 0x1_0000_0000, counts, before, after], NONE),
        (16, 16, [place, counts, before, 0], YES),
        (16, 16, NEW, YES),
        (3, 16, NEW, NONE),
        (4, 16, NEW, YES),
        (16, 16, [NEW[0] - 8, NEW[1], 0, NEW[3]], NONE),
    ]
    .into_iter()
    .enumerate()
    {
        let mut core = core(rt.alloc(), &[2, 1], row_limit, log_limit)?;
        assert_eq!(rt; proposes(&mut core, 0, words, 0, 1), seen, "at {at}");
    }
    Ok(())
}

// After party 0 has linked its node and stopped.
#[test]
fn steps_after_a_link(rt: HostRuntime) -> Result<(), Fail> {
    let theirs = [FIRST[0], FIRST[1] + AUTHOR, FIRST[2], FIRST[3]];
    let (link_0, link_1) = (Step::LoadLink { node: 0 }, Step::LoadLink { node: 1 });
    let (tail_1, tail_2) = (
        Step::SwapTail { from: 0, to: 1 },
        Step::SwapTail { from: 0, to: 2 },
    );
    let (join, lost) = (Step::Join { note: 1 }, Step::SwapLink { node: 0, to: 3 });
    let node = Step::LoadPayload { node: 1, word: 0 };
    for (at, (log_limit, steps)) in [
        (
            16,
            [
                (0, store(1, 0), NONE),
                (0, store(2, 0), DONE),
                (0, store(3, 0), NONE),
            ],
        ),
        (
            16,
            [
                (1, link_1, NONE),
                (1, link_0, value(1)),
                (1, link_1, value(0)),
            ],
        ),
        (
            16,
            [(1, tail_1, NONE), (1, link_0, value(1)), (1, tail_1, YES)],
        ),
        (16, [(0, tail_2, NONE), (0, tail_1, YES), (0, tail_1, NO)]),
        (
            16,
            [(1, join, NONE), (0, Step::Note, DONE), (1, join, DONE)],
        ),
        (
            16,
            [(1, node, NONE), (1, link_0, value(1)), (1, node, value(1))],
        ),
        (16, [(1, lost, NONE), (1, link_1, NONE), (1, lost, NONE)]),
    ]
    .into_iter()
    .enumerate()
    {
        let mut core = core(rt.alloc(), &[2, 1], 16, log_limit)?;
        assert_eq!(rt; proposes(&mut core, 0, FIRST, 0, 1), YES);
        for (party, step, seen) in steps {
            assert_eq!(rt; core.step(party, &step).ok(), seen, "at {at}");
        }
    }
    let mut core = core(rt.alloc(), &[2, 1], 16, 16)?;
    assert_eq!(rt; proposes(&mut core, 0, FIRST, 0, 1), YES);
    // A lost exchange needs all that a won one needs, and shows the node that came before.
    assert_eq!(rt; proposes(&mut core, 1, theirs, 0, 3), NO);
    assert_eq!(rt; core.step(1, &link_1).ok(), value(0));
    assert_eq!(rt; core.step(1, &store(3, 0)).ok(), DONE);
    Ok(())
}

// A link is set only where the tail was seen.
#[test]
fn a_second_link(rt: HostRuntime) -> Result<(), Fail> {
    for (log_limit, moves, seen) in [(16, false, NONE), (16, true, YES), (1, true, NONE)] {
        let mut core = core(rt.alloc(), &[2, 1], 16, log_limit)?;
        assert_eq!(rt; proposes(&mut core, 0, FIRST, 0, 1), YES);
        if moves {
            assert_eq!(rt; core.step(0, &Step::SwapTail { from: 0, to: 1 }).ok(), YES);
        }
        assert_eq!(rt;
            proposes(&mut core, 0, BACK, 1, 2),
            seen,
            "{moves}, {log_limit}"
        );
    }
    Ok(())
}

// A party alone takes the front of all that is there.
#[test]
fn a_front_taken_alone(rt: HostRuntime) -> Result<(), Fail> {
    let mut core = core(rt.alloc(), &[2, 1], 16, 16)?;
    for (party, links, node, counts) in [
        (1, false, 0, 0),
        (1, true, 1, FIRST[1]),
        (0, false, 1, FIRST[1]),
    ] {
        if links {
            assert_eq!(rt; proposes(&mut core, 0, FIRST, 0, 1), YES);
        }
        assert!(rt; usize::from(party) < core.party_count());
        let seen = front_alone(&mut core, party);
        let expected = [Seen::Value(0), Seen::Value(node), Seen::Value(counts)];
        assert_eq!(rt; seen, expected, "of {party}");
    }
    Ok(())
}

fn delta(words: [u64; 4]) -> Option<Delta> {
    let entry = Entry::from_words(&words)?;
    Some(entry.delta)
}

// Appends a delta alone where that may be, and answers with the front taken afterwards.
fn commits(core: &mut Core, party: u8, delta: &Delta) -> Option<[Seen; 3]> {
    if !may_commit_alone(core, party, delta) {
        return None;
    }
    commit_alone(core, party, delta);
    if usize::from(party) >= core.party_count() {
        return None;
    }
    Some(front_alone(core, party))
}

// A party commits alone, wherever another one stopped.
#[test]
fn a_commit_made_alone(rt: HostRuntime) -> Result<(), Fail> {
    let Some(new) = delta([NEW[0], NEW[1] + AUTHOR, NEW[2], NEW[3]]) else {
        assert!(rt; false);
        return Ok(());
    };
    let [a, b, c, d] = stores(1, FIRST);
    let (link, swap) = (
        Step::LoadLink { node: 0 },
        Step::SwapLink { node: 0, to: 1 },
    );
    let moved = Step::SwapTail { from: 0, to: 1 };
    for made in 0..9 {
        let mut core = core(rt.alloc(), &[1, 1], 16, 2)?;
        for (at, step) in [a, b, c, d, Step::LoadTail, link, swap, moved]
            .into_iter()
            .enumerate()
        {
            if at < made {
                assert!(rt; core.step(0, &step).is_ok(), "{at} of {made}");
            }
        }
        let seq = if made < 7 { 1 } else { 2 };
        let counts = NEW[1] + AUTHOR + seq - 1;
        let expected = [Seen::Value(2), Seen::Value(0), Seen::Value(counts)];
        assert_eq!(rt; commits(&mut core, 1, &new), Some(expected), "after {made}");
        // Its one node is used.
        assert_eq!(rt; commits(&mut core, 1, &new), None, "after {made}");
    }
    Ok(())
}

// What a party may commit.
#[test]
fn commits_that_may_be(rt: HostRuntime) -> Result<(), Fail> {
    let gone = [FIRST[0], FIRST[1], FIRST[2], 0];
    for (at, (party, share, row_limit, log_limit, words, may)) in [
        (0, 1, 3, 1, FIRST, true),
        (0, 1, 4, 1, NEW, true),
        (0, 1, 3, 1, gone, true),
        (1, 1, 4, 1, FIRST, false),
        (2, 1, 4, 1, FIRST, false),
        (0, 0, 4, 1, FIRST, false),
        (0, 1, 4, 0, FIRST, false),
        (0, 1, 3, 1, NEW, false),
    ]
    .into_iter()
    .enumerate()
    {
        let Some(delta) = delta(words) else {
            assert!(rt; false, "at {at}");
            continue;
        };
        let mut core = core(rt.alloc(), &[share, 1], row_limit, log_limit)?;
        assert_eq!(rt; commits(&mut core, party, &delta).is_some(), may, "at {at}");
    }
    Ok(())
}

// Drawn schedules, step by step beside the plain model.
ghost use Rattle.std.specs.Prelude.{◌<◌};

use super::plain::Plain;
use super::{core, stores};
use crate::{Core, Memory, Seen, Step};
use std::test::Fail;

const TUPLES: [u64; 3] = [
    92_624_370_551_265_711,
    97_500_712_678_478_937,
    93_036_675_598_949_921,
];

const CHANGED: u64 = 92_625_470_062_893_487;

#[derive(Drop)]
struct Draws {
    state: u64,
}

impl Draws {
    fn below(&mut self, n: u64) -> u64
        requires { 0 < n }
        ensures { result < n }
    {
        self.state = self
            .state
            .wrapping_mul(6_364_136_223_846_793_005)
            .wrapping_add(1_442_695_040_888_963_407);
        (self.state >> 33) % n
    }

    fn small(&mut self, n: u32) -> u32
        requires { 0 < n }
        ensures { result < n }
    {
        self.below(u64::from(n)) as u32
    }
}

// The words of an entry that mostly is good behind the last node.
fn draft(draws: &mut Draws, plain: &Plain, party: u8) -> Result<[u64; 4], Memory> {
    let rows = plain.rows_now()?;
    let at = draws.below(4);
    let is_wrong = draws.below(6) == 0;
    let (row, order, before, after) = match rows.get(at as usize) {
        Some(r) if r.tuple == 0 => (rows.len() as u64, r.order, 0, TUPLES[2]),
        Some(r) if is_wrong => (at, r.order, CHANGED, r.tuple),
        Some(r) if draws.below(3) == 0 => (at, r.order, r.tuple, 0),
        Some(r) => (at, r.order, r.tuple, CHANGED),
        None => (rows.len() as u64, 9, 0, TUPLES[1]),
    };
    let line = match rows.get(at as usize) {
        Some(r) => r.line,
        None => 1,
    };
    let seq = plain
        .len()
        .wrapping_add(if draws.below(6) == 0 { 2 } else { 1 });
    let author = if draws.below(16) == 0 {
        1
    } else {
        u64::from(party)
    };
    let ever = (rows.len() as u64)
        .wrapping_add(u64::from(before == 0))
        .wrapping_add(u64::from(draws.below(12) == 0));
    let counts = seq % 0x80_0000
        + ever % 0x200_0000 * 0x80_0000
        + line % 8 * 0x1_0000_0000_0000
        + author % 64 * 0x8_0000_0000_0000;
    Ok([
        order % 0x1_0000_0000 + row % 0x1_0000_0000 * 0x1_0000_0000,
        counts,
        before,
        after,
    ])
}

// Any step, mostly at the last node and the party's next one.
fn single(draws: &mut Draws, last: u32, own: u32) -> Step {
    let node = if draws.below(2) == 0 {
        last
    } else {
        draws.small(10)
    };
    let to = if draws.below(2) == 0 {
        own
    } else {
        draws.small(10)
    };
    match draws.below(12) {
        0 => Step::LoadTail,
        1 | 2 => Step::LoadLink { node },
        3 => {
            let word = draws.small(6) as u8;
            Step::LoadPayload { node, word }
        }
        4 | 5 | 6 => Step::SwapLink { node, to },
        7 | 8 | 9 => Step::SwapTail { from: node, to },
        10 => Step::Note,
        _ => Step::Join { note: to },
    }
}

// Four steps: the stores of a draft, a whole append, or any.
fn turn(draws: &mut Draws, plain: &Plain, party: u8) -> Result<[Step; 4], Memory> {
    let own = plain.own(party);
    let last = plain.last();
    Ok(match draws.below(3) {
        0 => {
            let words = draft(draws, plain, party)?;
            let node = if draws.below(8) == 0 {
                draws.small(9)
            } else {
                own
            };
            stores(node, words)
        }
        1 => {
            let from = plain.tail();
            [
                Step::LoadTail,
                Step::LoadLink { node: from },
                Step::SwapTail { from, to: last },
                Step::SwapLink {
                    node: last,
                    to: own,
                },
            ]
        }
        _ => [
            single(draws, last, own),
            single(draws, last, own),
            single(draws, last, own),
            single(draws, last, own),
        ],
    })
}

// How many steps linked a node, and how many were refused.
#[derive(Clone, Copy, Drop)]
struct Counts {
    linked: u64,
    refused: u64,
}

impl Counts {
    fn count(&mut self, step: &Step, seen: Option<Seen>) {
        let is_link = matches!(step, Step::SwapLink { .. });
        if is_link && seen == Some(Seen::Swapped(true)) {
            self.linked = self.linked.wrapping_add(1);
        }
        if seen.is_none() {
            self.refused = self.refused.wrapping_add(1);
        }
    }
}

// The first step at which the core and the model answer differently.
fn run(
    draws: &mut Draws,
    core: &mut Core,
    plain: &mut Plain,
    counts: &mut Counts,
) -> Result<Option<u64>, Memory> {
    for at in 0..60u64 {
        let party = draws.small(4) as u8;
        for step in turn(draws, plain, party)? {
            let expected = plain.step(party, &step)?;
            let seen = core.step(party, &step).ok();
            if seen != expected {
                return Ok(Some(at));
            }
            counts.count(&step, seen);
        }
    }
    Ok(None)
}

#[test]
fn drawn_schedules_of_three_parties(rt: HostRuntime) -> Result<(), Fail> {
    let mut draws = Draws { state: 20_261_201 };
    let mut counts = Counts {
        linked: 0,
        refused: 0,
    };
    for schedule in 0..1_500u64 {
        let mut core = core(rt.alloc(), &[2, 3, 2], 5, 6)?;
        let mut plain = Plain::make(rt.alloc(), &TUPLES, &[2, 3, 2], 5, 6)?;
        let differs = run(&mut draws, &mut core, &mut plain, &mut counts)?;
        assert_eq!(rt; differs, None, "schedule {schedule}");
    }
    assert!(rt; counts.linked > 3_000, "{}", counts.linked);
    assert!(rt; counts.refused > 30_000, "{}", counts.refused);
    Ok(())
}

#[test]
fn drawn_schedules_of_two_parties(rt: HostRuntime) -> Result<(), Fail> {
    let mut draws = Draws { state: 7 };
    let mut counts = Counts {
        linked: 0,
        refused: 0,
    };
    for schedule in 0..1_500u64 {
        let mut core = core(rt.alloc(), &[4, 4], 4, 8)?;
        let mut plain = Plain::make(rt.alloc(), &TUPLES, &[4, 4], 4, 8)?;
        let differs = run(&mut draws, &mut core, &mut plain, &mut counts)?;
        assert_eq!(rt; differs, None, "schedule {schedule}");
    }
    assert!(rt; counts.linked > 3_000, "{}", counts.linked);
    assert!(rt; counts.refused > 30_000, "{}", counts.refused);
    Ok(())
}

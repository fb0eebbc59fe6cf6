// The core once more, plainly and slowly: nodes and links alone, and everything else worked out anew for each step.
use crate::{Memory, Seen, Step};
use std::alloc::Global;

#[derive(Clone, Copy, Drop)]
pub(super) struct Node {
    pub words: [u64; 4],
    pub link: u64,
}

#[derive(Clone, Copy, Drop)]
pub(super) struct Known {
    pub first: u64,
    pub share: u64,
    pub used: u64,
    pub seen: u64,
    pub reached: u64,
}

// A row: its key as order and line, and the word of its tuple.
#[derive(Clone, Copy, Drop)]
pub(super) struct Row {
    pub order: u64,
    pub line: u64,
    pub tuple: u64,
}

#[derive(Drop)]
pub(super) struct Plain {
    pub rows: Vec<Row>,
    pub nodes: Vec<Node>,
    pub parties: Vec<Known>,
    pub tail: u64,
    pub noted: u64,
    pub row_limit: u64,
    pub log_limit: u64,
}

fn most(a: u64, b: u64) -> u64 {
    if a < b { b } else { a }
}

impl Plain {
    pub(super) fn make(
        alloc: Global,
        tuples: &[u64],
        shares: &[u64],
        row_limit: u64,
        log_limit: u64,
    ) -> Result<Plain, Memory> {
        let empty = Node {
            words: [0; 4],
            link: 0,
        };
        let mut rows = Vec::new(alloc);
        for (at, tuple) in tuples.iter().enumerate() {
            rows.push(Row {
                order: 1,
                line: (at as u64).wrapping_add(1),
                tuple: *tuple,
            })?;
        }
        let mut nodes = Vec::new(alloc);
        nodes.push(empty)?;
        let mut parties = Vec::new(alloc);
        for share in shares {
            parties.push(Known {
                first: nodes.len() as u64,
                share: *share,
                used: 0,
                seen: 0,
                reached: 0,
            })?;
            for _node in 0..*share {
                nodes.push(empty)?;
            }
        }
        Ok(Plain {
            rows,
            nodes,
            parties,
            tail: 0,
            noted: 0,
            row_limit,
            log_limit,
        })
    }

    fn node(&self, node: u64) -> Node {
        match self.nodes.get(node as usize) {
            Some(node) => *node,
            None => Node {
                words: [0; 4],
                link: 0,
            },
        }
    }

    // How many nodes stand before this one in the chain.
    fn place(&self, node: u64) -> Option<u64> {
        let mut at = 0;
        for place in 0..self.nodes.len() as u64 {
            if at == node {
                return Some(place);
            }
            at = self.node(at).link;
            if at == 0 {
                return None;
            }
        }
        None
    }

    pub(super) fn len(&self) -> u64 {
        let mut at = 0;
        for place in 0..self.nodes.len() as u64 {
            at = self.node(at).link;
            if at == 0 {
                return place;
            }
        }
        0
    }

    // The last node, and the one that a party uses next.
    pub(super) fn last(&self) -> u32 {
        let mut at = 0;
        for _node in 0..self.nodes.len() {
            let link = self.node(at).link;
            if link == 0 {
                break;
            }
            at = link;
        }
        (at % 1_000) as u32
    }

    pub(super) fn tail(&self) -> u32 {
        (self.tail % 1_000) as u32
    }

    pub(super) fn own(&self, party: u8) -> u32 {
        match self.parties.get(usize::from(party)) {
            Some(known) => (known.first.wrapping_add(known.used) % 1_000) as u32,
            None => 0,
        }
    }

    // The rows behind a place.
    fn rows_behind(&self, place: u64) -> Result<Vec<Row>, Memory> {
        let mut rows = self.rows.clone()?;
        let mut at = 0;
        for _delta in 0..place {
            at = self.node(at).link;
            let [numbers, counts, _, tuple] = self.node(at).words;
            let row = (numbers >> 32) as usize;
            let new = Row {
                order: numbers % 0x1_0000_0000,
                line: counts / 0x1_0000_0000_0000 % 8,
                tuple,
            };
            if row == rows.len() {
                rows.push(new)?;
            } else if let Some(old) = rows.get_mut(row) {
                *old = new;
            }
        }
        Ok(rows)
    }

    pub(super) fn rows_now(&self) -> Result<Vec<Row>, Memory> {
        self.rows_behind(self.len())
    }

    // Whether the words are an entry of the party that may come next behind a place. Tuples are not judged here: all
    // that are drawn are good.
    fn may_follow(&self, party: u64, place: u64, words: [u64; 4]) -> Result<bool, Memory> {
        let [numbers, counts, before, after] = words;
        let (order, row) = (numbers % 0x1_0000_0000, numbers / 0x1_0000_0000);
        let seq = counts % 0x80_0000;
        let ever = counts / 0x80_0000 % 0x200_0000;
        let line = counts / 0x1_0000_0000_0000 % 8;
        let author = counts / 0x8_0000_0000_0000;
        let rows = self.rows_behind(place)?;
        let count = rows.len() as u64;
        let mut is_free = true;
        for r in &rows {
            is_free &= r.tuple == 0 || r.order != order || r.line != line;
        }
        let is_there = match rows.get(row as usize) {
            Some(r) => before != 0 && r.tuple == before && r.order == order && r.line == line,
            None => false,
        };
        let is_new = before == 0 && after != 0 && row == count && count < self.row_limit && is_free;
        let ever_then = if is_new { count.wrapping_add(1) } else { count };
        let is_next = seq == place.wrapping_add(1) && ever == ever_then && author == party;
        Ok(order != 0 && line != 0 && is_next && (is_there || is_new))
    }

    // The place of a node that the party has seen.
    fn near(&self, known: &Known, node: u64) -> Option<u64> {
        match self.place(node) {
            Some(place) if place <= known.seen => Some(place),
            _ => None,
        }
    }

    fn store(&mut self, known: &Known, node: u64, word: u8, value: u64) -> Option<Seen> {
        let own = known.first.wrapping_add(known.used);
        if known.used >= known.share || node != own || word > 3 {
            return None;
        }
        if let Some(node) = self.nodes.get_mut(own as usize) {
            if let Some(old) = node.words.get_mut(usize::from(word)) {
                *old = value;
            }
        }
        Some(Seen::Done)
    }

    fn load(&self, known: &mut Known, node: u64, word: Option<u8>) -> Option<Seen> {
        let place = self.near(known, node)?;
        let Node { words, link } = self.node(node);
        if let Some(word) = word {
            return match words.get(usize::from(word)) {
                Some(value) => Some(Seen::Value(*value)),
                None => None,
            };
        }
        if link != 0 {
            known.seen = most(known.seen, place.wrapping_add(1));
        }
        Some(Seen::Value(link))
    }

    fn swap_link(
        &mut self,
        party: u64,
        known: &mut Known,
        node: u64,
        to: u64,
    ) -> Result<Option<Seen>, Memory> {
        let Some(place) = self.near(known, node) else {
            return Ok(None);
        };
        let own = known.first.wrapping_add(known.used);
        let is_own = known.used < known.share && to == own;
        let may = self.may_follow(party, place, self.node(own).words)?;
        if place > known.reached || !is_own || place >= self.log_limit || !may {
            return Ok(None);
        }
        known.seen = most(known.seen, place.wrapping_add(1));
        let is_last = self.node(node).link == 0;
        if is_last {
            known.used = known.used.wrapping_add(1);
            if let Some(node) = self.nodes.get_mut(node as usize) {
                node.link = own;
            }
        }
        Ok(Some(Seen::Swapped(is_last)))
    }

    fn swap_tail(&mut self, known: &mut Known, from: u64, to: u64) -> Option<Seen> {
        let place = self.place(from)?;
        if to == 0 || self.node(from).link != to || place > known.reached || place >= known.seen {
            return None;
        }
        known.reached = most(known.reached, place.wrapping_add(1));
        let is_tail = self.tail == from;
        if is_tail {
            self.tail = to;
        }
        Some(Seen::Swapped(is_tail))
    }

    fn take(&mut self, party: u64, known: &mut Known, step: &Step) -> Result<Option<Seen>, Memory> {
        Ok(match *step {
            Step::Store { node, word, value } => self.store(known, u64::from(node), word, value),
            Step::LoadTail => {
                let place = self.place(self.tail).unwrap_or(0);
                known.seen = most(known.seen, place);
                known.reached = most(known.reached, place);
                Some(Seen::Value(self.tail))
            }
            Step::LoadLink { node } => self.load(known, u64::from(node), None),
            Step::LoadPayload { node, word } => self.load(known, u64::from(node), Some(word)),
            Step::SwapLink { node, to } => {
                self.swap_link(party, known, u64::from(node), u64::from(to))?
            }
            Step::SwapTail { from, to } => self.swap_tail(known, u64::from(from), u64::from(to)),
            Step::Note => {
                self.noted = most(self.noted, known.seen);
                Some(Seen::Done)
            }
            Step::Join { note } if u64::from(note) > self.noted => None,
            Step::Join { note } => {
                known.seen = most(known.seen, u64::from(note));
                Some(Seen::Done)
            }
        })
    }

    pub(super) fn step(&mut self, party: u8, step: &Step) -> Result<Option<Seen>, Memory> {
        let at = usize::from(party);
        let Some(known) = self.parties.get(at) else {
            return Ok(None);
        };
        let mut known = *known;
        let seen = self.take(u64::from(party), &mut known, step)?;
        if seen.is_some() {
            if let Some(old) = self.parties.get_mut(at) {
                *old = known;
            }
        }
        Ok(seen)
    }
}

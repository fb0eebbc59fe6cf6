//! The steps of a core, and what they answer.

/// One atomic step of a party. A node is a number from 0, the head; a word of a payload is 0 to 3.
#[derive(Clone, Copy, Debug, PartialEq, Eq)]
pub enum Step {
    /// Stores a word of the payload of the party's next node.
    Store { node: u32, word: u8, value: u64 },
    /// Loads the tail.
    LoadTail,
    /// Loads the link of a node that the party has seen.
    LoadLink { node: u32 },
    /// Loads a word of the payload of such a node.
    LoadPayload { node: u32, word: u8 },
    /// Links the party's next node behind a node, unless that one has a link.
    SwapLink { node: u32, to: u32 },
    /// Moves the tail on by one node, unless it is elsewhere.
    SwapTail { from: u32, to: u32 },
    /// Notes for others how many deltas the party has seen.
    Note,
    /// Sees as many deltas as were noted, or fewer.
    Join { note: u32 },
}

/// What a step answers.
#[derive(Clone, Copy, Debug, PartialEq, Eq)]
pub enum Seen {
    /// What was loaded.
    Value(u64),
    /// Whether an exchange was made.
    Swapped(bool),
    /// A store, a note or a join was made.
    Done,
}

/// The step breaks a rule of the core, which is as it was.
#[derive(Clone, Copy, Debug, PartialEq, Eq)]
pub struct Unlawful;

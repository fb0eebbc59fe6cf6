//! Prefixes of a log, and places of a walk over it.
ghost use Rattle.std.specs.Prelude.{◌≡◌};
ghost use Rattle.commit_log.specs.Handle.{stop_number};

/// A prefix of a log.
#[derive(Clone, Copy, Debug, PartialEq, Eq)]
pub struct Front {
    /// How many deltas it has.
    pub len: u32,
    /// How many rows there ever were, live or not, after it.
    pub rows: u32,
    /// Its last node, 0 for the empty prefix.
    pub node: u32,
}

/// How far a walk has come.
#[derive(Clone, Copy, Debug, PartialEq, Eq)]
pub struct Cursor {
    /// How many deltas lie behind it.
    pub len: u32,
    /// The node of the last of them, 0 where there is none.
    pub node: u32,
}

/// Why a delta was not appended.
#[derive(Clone, Copy, Debug, PartialEq, Eq)]
pub enum AppendStop {
    /// The log has as many deltas as it may.
    Full,
    /// Another delta stands behind the front; this one is all that was seen, and longer.
    Late(Front),
}

impl AppendStop {
    /// Full 1, Late 2.
    pub fn number(&self) -> u8
        ensures { result ≡ stop_number self.now }
    {
        match self {
            AppendStop::Full => 1,
            AppendStop::Late(_) => 2,
        }
    }
}

//! What a core keeps of each party.
ghost use Rattle.std.specs.Prelude.{◌≡◌, ◌^◌, ◌+◌, ◌<◌};
ghost use Rattle.log_core.specs.Core.{newcomer};
ghost use Rattle.log_core.specs.Steps.{sees as party_sees, reaches as party_reaches, links as party_links, loads_tail as party_loads};

/// What one party has seen and made.
#[derive(Clone, Copy, Debug, PartialEq, Eq, Drop)]
pub struct Party {
    /// How many deltas it has seen.
    pub seen: u32,
    /// The greatest end at which it has seen the tail.
    pub reached: u32,
    /// How many deltas there were when it last loaded the tail.
    pub low: u32,
    /// The tail that it loaded then.
    pub last: u32,
    /// How many of its nodes are linked.
    pub used: u32,
}

impl Party {
    /// A party that has made no step.
    pub(crate) fn newcomer() -> Party
        ensures { result ≡ newcomer }
    {
        Party {
            seen: 0,
            reached: 0,
            low: 0,
            last: 0,
            used: 0,
        }
    }

    pub(crate) fn sees(self, end: u32) -> Party
        ensures { result ≡ party_sees self end }
    {
        Party {
            seen: self.seen.max(end),
            ..self
        }
    }

    pub(crate) fn reaches(self, end: u32) -> Party
        ensures { result ≡ party_reaches self end }
    {
        Party {
            reached: self.reached.max(end),
            ..self
        }
    }

    pub(crate) fn links(self, end: u32) -> Party
        requires end { end < 2 ^ 31 }
        requires used { self.used < 2 ^ 31 }
        ensures { result ≡ party_links self end }
    {
        Party {
            seen: self.seen.max(end + 1),
            used: self.used + 1,
            ..self
        }
    }

    pub(crate) fn loads_tail(self, end: u32, low: u32, last: u32) -> Party
        ensures { result ≡ party_loads self end low last }
    {
        Party {
            seen: self.seen.max(end),
            reached: self.reached.max(end),
            low,
            last,
            used: self.used,
        }
    }
}

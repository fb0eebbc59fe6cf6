//! How long the rounds took.
ghost use Rattle.std.specs.Prelude.{◌≡◌, ◌/◌, max};
ghost use Rattle.std.specs.Duration.{as_nanos, max_nanos};

use std::fmt;
use std::time::Duration;

/// The time of all rounds, and of the fastest.
#[derive(Drop)]
pub(crate) struct Times {
    pub(crate) rounds: u32,
    pub(crate) total: Duration,
    pub(crate) least: Duration,
}

impl Times {
    ghost use Rattle.kernel_bench.specs.Times.{AddsRound};

    /// No round yet.
    pub(crate) fn new() -> Times
        ensures rounds { result.rounds ≡ 0 }
        ensures total { as_nanos result.total ≡ 0 }
        ensures least { as_nanos result.least ≡ max_nanos }
    {
        Times {
            rounds: 0,
            total: Duration::ZERO,
            least: Duration::MAX,
        }
    }

    /// Counts in one round.
    pub(crate) fn add(&mut self, time: Duration)
        ensures { AddsRound self.old self.new (as_nanos time) }
    {
        self.rounds = self.rounds.saturating_add(1);
        self.total = self.total.saturating_add(time);
        if time.as_nanos() < self.least.as_nanos() {
            self.least = time;
        }
    }

    // The time of a round on average, cut to whole nanoseconds.
    fn mean(&self) -> Duration
        ensures { as_nanos result ≡ as_nanos self.now.total / max self.now.rounds 1 }
    {
        self.total / self.rounds.max(1)
    }
}

impl fmt::Display for Times {
    fn fmt<W: fmt::Write>(&self, f: &mut fmt::Formatter<W>) -> fmt::Result {
        let mean = self.mean();
        let least = self.least;
        write!(
            f,
            "mean={}.{:09} least={}.{:09}",
            mean.as_secs(),
            mean.subsec_nanos(),
            least.as_secs(),
            least.subsec_nanos()
        )
    }
}

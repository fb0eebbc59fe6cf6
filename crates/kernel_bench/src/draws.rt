//! The generator SplitMix64, the same as the twin's.
ghost use Rattle.std.specs.Prelude.{◌≡◌, ◌<◌, ◌%◌};
ghost use Rattle.kernel_bench.specs.Draws.{draw, next_state};

/// Numbers that a seed determines, without end.
#[derive(Drop)]
pub(crate) struct Draws {
    state: u64,
}

impl Draws {
    pub(crate) fn new(seed: u64) -> Draws
        ensures { result.state ≡ seed }
    {
        Draws { state: seed }
    }

    fn next(&mut self) -> u64
        ensures state { self.new.state ≡ next_state self.old.state }
        ensures draw { result ≡ draw self.new.state }
    {
        self.state = self.state.wrapping_add(0x9e37_79b9_7f4a_7c15);
        let mixed = self.state;
        let mixed = (mixed ^ (mixed >> 30)).wrapping_mul(0xbf58_476d_1ce4_e5b9);
        let mixed = (mixed ^ (mixed >> 27)).wrapping_mul(0x94d0_49bb_1331_11eb);
        mixed ^ (mixed >> 31)
    }

    /// A number below the limit.
    pub(crate) fn below(&mut self, limit: u64) -> u64
        requires { 0 < limit }
        ensures state { self.new.state ≡ next_state self.old.state }
        ensures draw { result ≡ draw self.new.state % limit }
        ensures below { result < limit }
    {
        self.next() % limit
    }
}

//! Operations on two rows, one group at a time.
ghost use Rattle.std.specs.Prelude.{◌≡◌, ◌<◌, ◌^◌, Bool, ◌&&◌, ◌||◌};
ghost use Rattle.wah_words.specs.Group.{IsUniform, group_rows};
ghost use Rattle.wah_words.specs.Rows.{differs, pointwise};

/// An operation on two truth values that makes false of two that are false.
pub(crate) trait Operation {
    ghost of_rows: { Bool → Bool → Bool };

    /// The operation on each two rows of two groups.
    fn of_groups(a: u32, b: u32) -> u32
        requires left { a < 2 ^ 31 }
        requires right { b < 2 ^ 31 }
        ensures within { result < 2 ^ 31 }
        ensures uniform { IsUniform a → IsUniform b → IsUniform result }
        ensures rows { group_rows result ≡ pointwise of_rows (group_rows a) (group_rows b) };
}

pub(crate) struct And;

impl Operation for And {
    ghost of_rows = { ◌&&◌ };

    fn of_groups(a: u32, b: u32) -> u32 {
        a & b
    }
}

pub(crate) struct Or;

impl Operation for Or {
    ghost of_rows = { ◌||◌ };

    fn of_groups(a: u32, b: u32) -> u32 {
        a | b
    }
}

pub(crate) struct Xor;

impl Operation for Xor {
    ghost of_rows = { differs };

    fn of_groups(a: u32, b: u32) -> u32 {
        a ^ b
    }
}

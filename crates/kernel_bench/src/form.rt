//! The forms of input.
ghost use Rattle.std.specs.Prelude.{◌≡◌};

/// How the rows of an input lie.
#[derive(Clone, Copy)]
pub(crate) enum Form {
    /// Each row is true with probability 1/2.
    Dense,
    /// Each row is true with probability 1/84.
    Sparse,
    /// Long runs of one value.
    Clustered,
    /// Parts of each of the others.
    Mixed,
}

impl Form {
    ghost use Rattle.kernel_bench.specs.Names.{form_named};

    /// The form of that name, or none.
    pub(crate) fn of_name(name: &str) -> Option<Form>
        ensures { result ≡ form_named name.now }
    {
        match name {
            "dense" => Some(Form::Dense),
            "sparse" => Some(Form::Sparse),
            "clustered" => Some(Form::Clustered),
            "mixed" => Some(Form::Mixed),
            _ => None,
        }
    }
}

//! The rows of the inputs.
ghost use Rattle.std.specs.Prelude.{◌≡◌, ◌<◌, IfOk, length};

use crate::draws::Draws;
use crate::form::Form;
use std::alloc::{AllocError, Global};

// Rows of one value that follow each other.
#[derive(Drop)]
struct RowRun {
    value: bool,
    left: u64,
}

// Rows that are drawn in one form.
#[derive(Drop)]
struct Part {
    form: Form,
    left: u64,
}

/// Rows without end, drawn in a form from a seed.
#[derive(Drop)]
pub(crate) struct Rows {
    form: Form,
    draws: Draws,
    run: RowRun,
    part: Part,
}

impl Rows {
    pub(crate) fn new(form: Form, seed: u64) -> Rows
        ensures form { result.form ≡ form }
        ensures seed { result.draws.state ≡ seed }
    {
        Rows {
            form,
            draws: Draws::new(seed),
            run: RowRun {
                value: false,
                left: 0,
            },
            part: Part {
                form: Form::Dense,
                left: 0,
            },
        }
    }

    /// The next rows.
    pub(crate) fn next_list(&mut self, alloc: Global, size: u32) -> Result<Vec<bool>, AllocError>
        ensures { IfOk result (λ rows. length rows.items ≡ size) }
    {
        let mut rows = Vec::with_capacity(alloc, size as usize)?;
        for _ in 0..size {
            rows.push(self.next())?;
        }
        Ok(rows)
    }

    fn next(&mut self) -> bool {
        let form = match self.form {
            Form::Mixed => self.next_part(),
            form => form,
        };
        match form {
            Form::Dense => self.draws.below(2) == 0,
            Form::Sparse => self.draws.below(84) == 0,
            _ => self.next_of_run(),
        }
    }

    // Runs of up to 10,000 rows, false and true in turn.
    fn next_of_run(&mut self) -> bool {
        if self.run.left == 0 {
            self.run.left = self.draws.below(10_000) + 1;
            self.run.value = !self.run.value;
        }
        self.run.left -= 1;
        self.run.value
    }

    // Parts of up to 50,000 rows.
    fn next_part(&mut self) -> Form {
        if self.part.left == 0 {
            self.part.left = self.draws.below(50_000) + 1;
            self.part.form = match self.draws.below(3) {
                0 => Form::Dense,
                1 => Form::Sparse,
                _ => Form::Clustered,
            };
        }
        self.part.left -= 1;
        self.part.form
    }
}

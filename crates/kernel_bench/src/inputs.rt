//! The bitvectors that a kernel is run on.
ghost use Rattle.std.specs.Prelude.{◌≡◌, ◌≤◌, IfOk, length};
ghost use Rattle.kernel_bench.specs.Kernel.{AreOfLength};
ghost use Rattle.kernel_bench.specs.Rounds.{chosen};

use crate::form::Form;
use crate::rows::Rows;
use fence_window::Fenced;
use std::alloc::{AllocError, Global};
use wah_words::Wah;

/// So many bitvectors of that many rows each, drawn one after the other.
pub(crate) fn drawn(
    alloc: Global,
    form: Form,
    seed: u64,
    size: u32,
    count: usize,
) -> Result<Vec<Fenced>, AllocError>
    ensures count { IfOk result (λ inputs. length inputs.items ≡ count) }
    ensures size { IfOk result (λ inputs. AreOfLength size inputs.items) }
{
    let mut rows = Rows::new(form, seed);
    let mut inputs = Vec::with_capacity(alloc, count)?;
    for _ in 0..count {
        inputs.push(next_input(alloc, &mut rows, size)?)?;
    }
    Ok(inputs)
}

fn next_input(alloc: Global, rows: &mut Rows, size: u32) -> Result<Fenced, AllocError>
    ensures { IfOk result (λ input. length input ≡ size) }
{
    let list = rows.next_list(alloc, size)?;
    Fenced::make(alloc, Wah::from_rows(alloc, &list)?)
}

/// All inputs but the last, or all but the first, as a mix chooses.
pub(crate) fn chosen(inputs: &[Fenced], mix: u64) -> &[Fenced]
    requires { 1 ≤ length inputs.now }
    ensures { result.now ≡ chosen mix inputs.now }
{
    let start = (mix % 2) as usize;
    &inputs[start..start + inputs.len() - 1]
}

//! Words with each row turned.
ghost use Rattle.std.specs.Prelude.{◌≡◌, ◌<◌, ◌+◌, ◌++◌, IfOk, OnOk, not, length, map, replicate};
ghost use Rattle.wah_words.specs.Group.{group_count, unpacked};
ghost use Rattle.wah_words.specs.Word.{groups, run_count, run_group};
ghost use Rattle.wah_words.specs.Rows.{cleared};
ghost use Rattle.wah_words.specs.Canonical.{IsCanonical, IsCountedFill};

use crate::Memory;
use crate::builder::Builder;
use crate::run::{GROUP_ROWS, Run, first_rows};
use std::alloc::Global;

/// The groups of words with each row turned, and false past the last row.
pub(crate) fn complement(alloc: Global, words: &[u32], rows: u32) -> Result<Builder, Memory>
    requires { IsCanonical words.now rows }
    ensures { IfOk result (λ out. unpacked out ≡ cleared rows (map not (unpacked (groups words.now)))) }
{
    let Some((last, front)) = words.split_last() else {
        return Builder::with_capacity(alloc, 0);
    };
    let mut out = Builder::turned(alloc, front)?;
    // Of the words the last alone may become two, since its last group may have rows past the last row.
    push_last_complement(&mut out, *last, rows)?;
    Ok(out)
}

// Puts the groups of the last word at the end with each row turned, and false past the last row.
fn push_last_complement(out: &mut Builder, last: u32, rows: u32) -> Result<(), Memory>
    requires some { 0 < rows }
    requires fill { IsCountedFill last }
    requires size { length out.old + run_count last ≡ group_count rows }
    ensures { OnOk result (unpacked out.new
        ≡ cleared rows (unpacked out.old ++ map not (unpacked (replicate (run_count last) (run_group last))))) }
{
    let run = Run::of_word(last).complement();
    if run.count > 1 {
        out.push_run(Run {
            group: run.group,
            count: run.count - 1,
        })?;
    }
    out.push_group(first_rows(run.group, (rows - 1) % GROUP_ROWS + 1))?;
    Ok(())
}

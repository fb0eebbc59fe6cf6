//! The rows that were changed, found page by page.
ghost use Rattle.std.specs.Prelude.{◌≡◌, ◌+◌, ◌*◌, ◌/◌, ◌-◌, ◌^◌, ◌<◌, ◌≤◌, ◌++◌, ℕ, All, length, replicate, IfOk, OnOk};
ghost use Rattle.front_patch.specs.RowStates.{IsRising, last_state};
ghost use Rattle.front_patch.specs.ChangedRows.{IsCountBefore, AreCounts};

use crate::row_state::RowState;
use commit_log::Memory;
use cubit_base::Tuple;
use fence_window::PAGE_ROWS;
use std::alloc::Global;
use std::marker::Model;

/// The last states of the rows that were changed, in the order of rows; contracts see these.
#[derive(Drop)]
pub(crate) struct ChangedRows {
    states: Vec<RowState>,
    // For each page up to the last that has such a row, how many states are of rows before it.
    counts: Vec<usize>,
}

impl Model for ChangedRows {
    ghost use Rattle.std.specs.Prelude.{List};
    ghost use Rattle.front_patch.specs.RowStates.{IsRising};
    ghost use Rattle.front_patch.specs.ChangedRows.{AreCounts};
    ghost use Rattle.front_patch.specs.declared.row_state.RowState.{RowState};

    ghost Value = { List RowState };

    ghost view = { λ c. c.states.items };

    ghost invariant = { λ c. IsRising c.states.items × AreCounts c.states.items c.counts.items };
}

impl ChangedRows {
    /// Of the last states of rows.
    pub(crate) fn of(alloc: Global, states: Vec<RowState>) -> Result<ChangedRows, Memory>
        requires { IsRising states.items }
        ensures { IfOk result (λ changed. changed ≡ states.items) }
    {
        let counts = counts_of(alloc, &states)?;
        Ok(ChangedRows { states, counts })
    }

    /// Those of the rows of whole pages: so many rows from one on.
    pub(crate) fn among(&self, first: u64, rows: u64) -> &[RowState]
        requires from { first ≡ 3_968 * (first / 3_968) }
        requires whole { rows ≡ 3_968 * (rows / 3_968) }
        requires end { first + rows < 2 ^ 64 }
        ensures within { All (λ s. (first ≤ s.row) × (s.row < first + rows)) result.now }
        ensures rising { IsRising result.now }
        ensures same { (row : ℕ) → first ≤ row → row < first + rows →
            last_state row result.now ≡ last_state row self.now }
    {
        let from = self.count_before(first);
        let to = self.count_before(first + rows);
        &self.states[from..to]
    }

    // How many of the states are of rows before the first of a page.
    fn count_before(&self, row: u64) -> usize
        requires { row ≡ 3_968 * (row / 3_968) }
        ensures { IsCountBefore self.now row result }
    {
        match self.counts.get((row / u64::from(PAGE_ROWS)) as usize) {
            Some(count) => *count,
            None => self.states.len(),
        }
    }
}

// For each page up to that of the last state, how many states are of rows before it.
fn counts_of(alloc: Global, states: &[RowState]) -> Result<Vec<usize>, Memory>
    requires { IsRising states.now }
    ensures { IfOk result (λ counts. AreCounts states.now counts.items) }
{
    let mut counts = Vec::new(alloc);
    for at in 0..states.len() {
        fill(&mut counts, (states[at].row / PAGE_ROWS) as usize, at)?;
    }
    Ok(counts)
}

// Puts a count at the end until there is one for a page.
fn fill(counts: &mut Vec<usize>, page: usize, count: usize) -> Result<(), Memory>
    requires { page < 2 ^ 32 }
    ensures { OnOk result (counts.new.items
        ≡ counts.old.items ++ replicate (page + 1 - length counts.old.items) count) }
{
    for _end in counts.len()..page + 1 {
        counts.push(count)?;
    }
    Ok(())
}

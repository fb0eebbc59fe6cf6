//! What follows from what changes come to, for the layers above. These functions do nothing: where one is called, its
//! clauses are known.
ghost use Rattle.std.specs.Prelude.{◌≡◌, ◌+◌, ◌≤◌, length, Result};
ghost use Rattle.cubit_base.specs.Change.{Change};
ghost use Rattle.commit_log.specs.Log.{Terms};
ghost use Rattle.commit_log.specs.Handle.{Handle, Grows, ReadsOn, others};
ghost use Rattle.table_ops.specs.Changed.{IsChanged};
ghost use Rattle.table_ops.specs.declared.outcome.Placed.{Placed};
ghost use Rattle.table_ops.specs.declared.outcome.OpStop.{OpStop};

/// Changes.
pub fn changes()
    ensures grows { (terms : Terms) (handle later : Handle) (change : Change) (result : Result Placed OpStop) →
        IsChanged terms handle change later result → Grows handle later }
    ensures on { (terms : Terms) (handle read later : Handle) (change : Change) (result : Result Placed OpStop) →
        ReadsOn handle read → IsChanged terms read change later result → IsChanged terms handle change later result }
    ensures others { (terms : Terms) (handle read later : Handle) (change : Change) (result : Result Placed OpStop) →
        ReadsOn handle read → IsChanged terms read change later result →
        length read.seen ≤ length handle.seen + others handle later }
{
    commit_log::laws::reads();
}

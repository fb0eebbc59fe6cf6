//! What follows for versions that are patched. These functions do nothing: where one is called, its clauses are known.
ghost use Rattle.std.specs.Prelude.{◌≡◌, ◌≤◌, ℕ, List, Option, length, take};
ghost use Rattle.cubit_base.specs.History.{after, rows_after};
ghost use Rattle.cubit_base.specs.declared.delta.Delta.{Delta};
ghost use Rattle.commit_log.specs.Log.{Terms, IsLog};
ghost use Rattle.commit_log.specs.declared.front.Front.{Front};
ghost use Rattle.column_bins.specs.declared.plan_type.Plan.{Plan};
ghost use Rattle.unit_version.specs.declared.unit.Unit.{Unit as IndexUnit};
ghost use Rattle.version_store.specs.Version.{Version};
ghost use Rattle.front_patch.specs.Changed.{AreChanged};
ghost use Rattle.front_patch.specs.Patch.{IsPatch};
ghost use Rattle.front_patch.specs.Since.{IsContentSince, ShowsBase, content_by};
ghost use Rattle.front_patch.specs.Taken.{Serves};
ghost use Rattle.front_patch.specs.declared.row_state.RowState.{RowState};

/// What serves a unit is its content at some length from the least on.
pub(crate) fn contents_since()
    ensures { (terms : Terms) (log : List Delta) (least : ℕ) (unit : IndexUnit) (version : Option Version) →
        Serves terms log least unit version → IsContentSince terms log least unit (content_by version unit terms.base) }
{
    version_store::laws::versions();
}

/// Where the base's content serves a unit, the least length is 0.
pub(crate) fn base_serves()
    ensures { (terms : Terms) (log : List Delta) (least : ℕ) (unit : IndexUnit) (version : Option Version) →
        Serves terms log least unit version → ShowsBase version → least ≡ 0 }
{}

/// The rows that were changed have their last states, and each other row is as it was at any length from the least on.
pub(crate) fn changed_rows()
    ensures { (terms : Terms) (seen : List Delta) (front : Front) (least : ℕ) (plan : Plan) (pages : ℕ)
        (changed : List RowState) (len : ℕ) → IsPatch terms seen front least plan pages changed → least ≤ len →
        len ≤ length seen → AreChanged changed (after terms.base (take len seen)) (after terms.base seen) }
{
    cubit_base::laws::histories();
    cubit_base::laws::rows();
    commit_log::laws::stretches();
}

/// A longer prefix of a log has no fewer rows.
pub(crate) fn rows_rise()
    ensures { (terms : Terms) (log : List Delta) (n m : ℕ) → IsLog terms log → n ≤ m →
        rows_after terms.base (take n log) ≤ rows_after terms.base (take m log) }
{
    cubit_base::laws::histories();
    cubit_base::laws::rows();
}

//! What follows from the contracts of taken versions, for the layers above. These functions do nothing: where one is
//! called, its clauses are known.
ghost use Rattle.std.specs.Prelude.{◌≡◌, ℕ, ◌<◌, true, Contains, Some, length};
ghost use Rattle.column_bins.specs.Plan.{stretch_of};
ghost use Rattle.column_bins.specs.declared.column.Column.{Column};
ghost use Rattle.column_bins.specs.declared.plan_type.Plan.{Plan};
ghost use Rattle.column_bins.specs.declared.plan_type.Stretch.{Stretch};
ghost use Rattle.unit_version.specs.declared.unit.Unit.TheVariants.{Live, Bin, Page};
ghost use Rattle.front_patch.specs.Planned.{HasBin, is_open, units_of, planned_count};

/// The units of a plan.
pub fn units()
    ensures live { (plan : Plan) (pages : ℕ) → is_open plan ≡ true → Contains (units_of plan pages) Live }
    ensures bins { (plan : Plan) (pages : ℕ) (column : Column) (stretch : Stretch) (bin : ℕ) →
        stretch_of column plan ≡ Some stretch → HasBin stretch bin → Contains (units_of plan pages) (Bin column bin) }
    ensures pages { (plan : Plan) (pages page : ℕ) → page < pages → Contains (units_of plan pages) (Page page) }
    ensures count { (plan : Plan) (pages : ℕ) → length (units_of plan pages) ≡ planned_count plan pages }
{}

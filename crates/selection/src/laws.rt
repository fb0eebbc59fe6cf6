//! What follows from the contracts of queries, for the layers above. These functions do nothing: where one is called,
//! its clauses are known.
ghost use Rattle.std.specs.Prelude.{◌≡◌, ℕ, ◌≤◌, Bool, All, length};
ghost use Rattle.cubit_base.specs.declared.predicate.Predicate.{Predicate};
ghost use Rattle.column_bins.specs.Plan.{unit_count};
ghost use Rattle.column_bins.specs.declared.plan_type.Plan.{Plan};
ghost use Rattle.commit_log.specs.declared.front.Front.{Front};
ghost use Rattle.unit_version.specs.Unit.{IsUnit};
ghost use Rattle.wah_words.specs.Place.{page_count};
ghost use Rattle.selection.specs.Answered.{IsPlanOf, units_at};

/// The units of a query's plan: as many as the query needs at this front, and each a unit of an index with its pages.
pub fn units()
    ensures count { (p : Predicate) (sum : Bool) (plan : Plan) (first : Front) → IsPlanOf p sum plan →
        length (units_at plan first) ≡ unit_count p sum first.rows }
    ensures are { (p : Predicate) (sum : Bool) (plan : Plan) (first : Front) (pages : ℕ) → IsPlanOf p sum plan →
        page_count first.rows ≤ pages → All (IsUnit pages) (units_at plan first) }
{}

//! The laws of bins, for the layers above. These functions do nothing: where one is called, its clauses are known.
ghost use Rattle.std.specs.Prelude.{◌≡◌, ℕ, ◌+◌, ◌-◌, ◌*◌, true, false, Some};
ghost use Rattle.cubit_base.specs.Day.{day_value};
ghost use Rattle.cubit_base.specs.Predicate.{matches};
ghost use Rattle.cubit_base.specs.Tuple.{TupleValue, IsTuple};
ghost use Rattle.cubit_base.specs.declared.predicate.Predicate.{Predicate};
ghost use Rattle.column_bins.specs.Month.{month_of};
ghost use Rattle.column_bins.specs.Plan.{is_candidate, is_in_part};

/// Each tuple that matches is a candidate, and each candidate whose month is met whole matches.
pub fn candidates()
    ensures all { (p : Predicate) (t : TupleValue) → IsTuple t → matches p t ≡ true → is_candidate p t ≡ true }
    ensures exact { (p : Predicate) (t : TupleValue) → IsTuple t → is_candidate p t ≡ true →
        is_in_part p t ≡ false → matches p t ≡ true }
{}

/// The month of a day is that of its date.
pub fn months()
    ensures dated { (year month day n : ℕ) → day_value year month day ≡ Some n →
        month_of n ≡ (year - 1992) * 12 + month - 1 }
{}

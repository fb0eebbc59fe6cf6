//! The laws of what units hold, for the layers above. These functions do nothing: where one is called, its clauses are
//! known.
ghost use Rattle.std.specs.Prelude.{◌≡◌, ℕ, ◌+◌, ◌%◌, ◌<◌, ◌≤◌, List, length, slice_get, Some};
ghost use Rattle.cubit_base.specs.Key.{KeyValue};
ghost use Rattle.cubit_base.specs.Table.{Row};
ghost use Rattle.cubit_base.specs.LiveRow.{tuple_at, live_row};
ghost use Rattle.unit_version.specs.KeyedRow.{keyed_from, row_of_key};
ghost use Rattle.unit_version.specs.Content.{tuples_from};
ghost use Rattle.unit_version.specs.Patch.{IsSomeUnit};
ghost use Rattle.unit_version.specs.Unit.{IsUnit};
ghost use Rattle.unit_version.specs.declared.unit.Unit.{Unit as IndexUnit};
ghost use Rattle.wah_words.specs.Place.{page_count};

/// The key page of a key has the live row that the table has for it.
pub fn keys()
    ensures found { (table : List Row) (key : KeyValue) →
        row_of_key (keyed_from (key.order % 64) 0 table) key ≡ live_row table key }
{}

/// The tuples of a stretch of rows, one by one.
pub fn tuples()
    ensures long { (table : List Row) (row n : ℕ) → length (tuples_from table row n) ≡ n }
    ensures each { (table : List Row) (row n i : ℕ) → i < n →
        slice_get (tuples_from table row n) i ≡ Some (tuple_at table (row + i)) }
{}

/// The units of an index are units of the largest one.
pub fn units()
    ensures some { (room : ℕ) (unit : IndexUnit) → room ≤ 16_777_216 → IsUnit (page_count room) unit → IsSomeUnit unit }
{}

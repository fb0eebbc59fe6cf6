//! The laws of tables, deltas and histories, for the layers above. These functions do nothing: where one is called, its
//! clauses are known.
ghost use Rattle.std.specs.Prelude.{◌≡◌, ◌≢◌, ◌↔◌, ℕ, ◌+◌, ◌<◌, ◌≤◌, ◌==◌, Bool, true, ◌||◌, List, [], ◌∷◌, ◌++◌, length, take, drop, count_by, slice_get, slice_set, find, Option, Some, None, is_some, if◌then◌else◌};
ghost use Rattle.cubit_base.specs.Key.{KeyValue};
ghost use Rattle.cubit_base.specs.Tuple.{TupleValue, IsTuple};
ghost use Rattle.cubit_base.specs.Word.{tuple_word};
ghost use Rattle.cubit_base.specs.EntryWords.{FitsWords, entry_words};
ghost use Rattle.cubit_base.specs.declared.entry.Entry.{Entry as EntryValue};
ghost use Rattle.cubit_base.specs.Table.{Row, HasDistinctKeys, HasTuples};
ghost use Rattle.cubit_base.specs.LiveRow.{tuple_at, IsFree, HasDistinctLiveKeys, live_row};
ghost use Rattle.cubit_base.specs.Delta.{applied, IsLawful, is_insert};
ghost use Rattle.cubit_base.specs.History.{after, rows_after, IsHistory, LeavesTuples, is_of_row, is_of_key, last_delta, row_by_last, live_row_by_last};
ghost use Rattle.cubit_base.specs.Change.{Change, Placed, outcome, key_of};
ghost use Rattle.cubit_base.specs.declared.delta.Delta.{Delta};

/// A word tells its tuple, and four words their entry.
pub fn words()
    ensures tuple { (a b : TupleValue) → IsTuple a → IsTuple b → tuple_word a ≡ tuple_word b → a ≡ b }
    ensures entry { (a b : EntryValue) → FitsWords a → FitsWords b → entry_words a ≡ entry_words b → a ≡ b }
{}

/// One delta over a table.
pub fn deltas()
    // In the words of lists.
    ensures pushed { (table : List Row) (d : Delta) → d.row ≡ length table →
        applied table d ≡ table ++ (d.key, d.after) ∷ [] }
    ensures set { (table : List Row) (d : Delta) (key : KeyValue) (held : Option TupleValue) →
        slice_get table d.row ≡ Some (key, held) → applied table d ≡ slice_set table d.row (key, d.after) }

    // Row by row: what the delta's row held, and holds afterwards, and that no other row changes.
    ensures before { (limit : ℕ) (table : List Row) (d : Delta) → IsLawful limit table d →
        tuple_at table d.row ≡ d.before }
    ensures own { (limit : ℕ) (table : List Row) (d : Delta) → IsLawful limit table d →
        slice_get (applied table d) d.row ≡ Some (d.key, d.after) }
    ensures others { (table : List Row) (d : Delta) (n : ℕ) → n ≢ d.row →
        slice_get (applied table d) n ≡ slice_get table n }

    // How many rows there are.
    ensures insert { (limit : ℕ) (table : List Row) (d : Delta) → IsLawful limit table d →
        is_insert d ≡ (d.row == length table) }
    ensures count { (limit : ℕ) (table : List Row) (d : Delta) → IsLawful limit table d →
        length (applied table d) ≡ length table + (if is_insert d then 1 else 0) }
    ensures row { (limit : ℕ) (table : List Row) (d : Delta) → IsLawful limit table d →
        d.row < length (applied table d) }

    // It has one tuple at least.
    ensures told { (limit : ℕ) (table : List Row) (d : Delta) → IsLawful limit table d →
        (is_some d.before || is_some d.after) ≡ true }
{}

/// Histories and their parts.
pub fn histories()
    ensures join { (table : List Row) (h g : List Delta) → after table (h ++ g) ≡ after (after table h) g }
    ensures append { (limit : ℕ) (table : List Row) (h g : List Delta) →
        IsHistory limit table (h ++ g) ↔ (IsHistory limit table h × IsHistory limit (after table h) g) }
    ensures front { (limit : ℕ) (table : List Row) (h : List Delta) (n : ℕ) → IsHistory limit table h →
        IsHistory limit table (take n h) }
    ensures rest { (limit : ℕ) (table : List Row) (h : List Delta) (n : ℕ) → IsHistory limit table h →
        IsHistory limit (after table (take n h)) (drop n h) }
    ensures each { (limit : ℕ) (table : List Row) (h : List Delta) (n : ℕ) (d : Delta) → IsHistory limit table h →
        slice_get h n ≡ Some d → IsLawful limit (after table (take n h)) d }
    ensures wider { (small large : ℕ) (table : List Row) (h : List Delta) → small ≤ large →
        IsHistory small table h → IsHistory large table h }
{}

/// Rows after a history.
pub fn rows()
    ensures count { (limit : ℕ) (table : List Row) (h : List Delta) → IsHistory limit table h →
        rows_after table h ≡ length table + count_by is_insert h }
    ensures within { (limit : ℕ) (table : List Row) (h : List Delta) → IsHistory limit table h →
        length table ≤ limit → rows_after table h ≤ limit }

    // All tuples are within the accepted ranges.
    ensures tuples { (table : List Row) (h : List Delta) → HasTuples table → LeavesTuples h →
        HasTuples (after table h) }

    // A row keeps its key for good.
    ensures key { (table : List Row) (h : List Delta) (n : ℕ) (key : KeyValue) (held : Option TupleValue) →
        slice_get table n ≡ Some (key, held) →
        (now : Option TupleValue) × (slice_get (after table h) n ≡ Some (key, now)) }

    // The first delta of a row tells what it held, and the last one what it is.
    ensures first { (limit : ℕ) (table : List Row) (h : List Delta) (n : ℕ) (d : Delta) → IsHistory limit table h →
        find (is_of_row n) h ≡ Some d → tuple_at table n ≡ d.before }
    ensures last { (limit : ℕ) (table : List Row) (h : List Delta) (n : ℕ) → IsHistory limit table h →
        slice_get (after table h) n ≡ row_by_last (last_delta (is_of_row n) h) (slice_get table n) }
{}

/// Live rows and their keys.
pub fn live_rows()
    ensures found { (table : List Row) (key : KeyValue) (row : ℕ) (tuple : TupleValue) →
        live_row table key ≡ Some (row, tuple) → slice_get table row ≡ Some (key, Some tuple) }
    ensures only { (table : List Row) (key : KeyValue) (row : ℕ) (tuple : TupleValue) → HasDistinctLiveKeys table →
        slice_get table row ≡ Some (key, Some tuple) → live_row table key ≡ Some (row, tuple) }
    ensures free { (table : List Row) (key : KeyValue) → (live_row table key ≡ None) ↔ IsFree table key }

    // Which keys differ, and still do so after a history.
    ensures distinct { (table : List Row) → HasDistinctKeys table → HasDistinctLiveKeys table }
    ensures kept { (limit : ℕ) (table : List Row) (h : List Delta) → IsHistory limit table h →
        HasDistinctLiveKeys table → HasDistinctLiveKeys (after table h) }

    // The last delta of a key tells its live row.
    ensures last { (limit : ℕ) (table : List Row) (h : List Delta) (key : KeyValue) → IsHistory limit table h →
        HasDistinctLiveKeys table →
        live_row (after table h) key ≡ live_row_by_last (last_delta (is_of_key key) h) (live_row table key) }
{}

/// A change that comes to a delta.
pub fn outcomes()
    ensures lawful { (row_limit log_limit : ℕ) (table : List Row) (n author : ℕ) (change : Change) (d : Delta) →
        length table ≤ row_limit → outcome row_limit log_limit table n author change ≡ Placed d →
        IsLawful row_limit table d }
    ensures named { (row_limit log_limit : ℕ) (table : List Row) (n author : ℕ) (change : Change) (d : Delta) →
        outcome row_limit log_limit table n author change ≡ Placed d →
        (d.author ≡ author) × (d.key ≡ key_of change) }
    ensures room { (row_limit log_limit : ℕ) (table : List Row) (n author : ℕ) (change : Change) (d : Delta) →
        outcome row_limit log_limit table n author change ≡ Placed d → n ≢ log_limit }
{}

#[cfg(test)]
mod tests;

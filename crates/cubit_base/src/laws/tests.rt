// Worked histories and outcomes: what the definitions compute.
ghost use Rattle.std.specs.Prelude.{◌≡◌, List, [], ◌∷◌, Some, None};
ghost use Rattle.cubit_base.specs.Key.{KeyValue};
ghost use Rattle.cubit_base.specs.Tuple.{TupleValue};
ghost use Rattle.cubit_base.specs.Table.{Row};
ghost use Rattle.cubit_base.specs.LiveRow.{live_row};
ghost use Rattle.cubit_base.specs.History.{after, rows_after, IsHistory};
ghost use Rattle.cubit_base.specs.Change.{Insert, Update, Delete, Duplicate, TableFull, Missing, LogFull, Placed, outcome};
ghost use Rattle.cubit_base.specs.declared.delta.Delta.{Delta};

fn updates()
    ensures back { (key : KeyValue) (x y : TupleValue) →
        let there : Delta = record { author = 0; row = 0; key = key; before = Some x; after = Some y } in
        let back : Delta = record { author = 0; row = 0; key = key; before = Some y; after = Some x } in
        let table : List Row = (key, Some x) ∷ [] in
        IsHistory 1 table (there ∷ back ∷ []) × (after table (there ∷ back ∷ []) ≡ table) }
{}

fn a_key_inserted_again_has_a_new_row()
    ensures rows { (first : Row) (key : KeyValue) (x y : TupleValue) →
        let one : Delta = record { author = 0; row = 1; key = key; before = None; after = Some x } in
        let two : Delta = record { author = 0; row = 1; key = key; before = Some x; after = None } in
        let three : Delta = record { author = 0; row = 2; key = key; before = None; after = Some y } in
        after (first ∷ []) (one ∷ two ∷ three ∷ []) ≡ first ∷ (key, None) ∷ (key, Some y) ∷ [] }
{}

fn the_first_line_that_holds_decides()
    ensures duplicate { (x y : TupleValue) →
        let a : KeyValue = record { order = 1; line = 1 } in
        outcome 1 0 ((a, Some x) ∷ []) 0 0 (Insert a y) ≡ Duplicate 0 }
    ensures table_full { (x y : TupleValue) →
        let a : KeyValue = record { order = 1; line = 1 } in
        let b : KeyValue = record { order = 2; line = 1 } in
        outcome 1 0 ((a, Some x) ∷ []) 0 0 (Insert b y) ≡ TableFull }
    ensures missing { (x y : TupleValue) →
        let a : KeyValue = record { order = 1; line = 1 } in
        let b : KeyValue = record { order = 1; line = 2 } in
        outcome 1 0 ((a, Some x) ∷ (b, None) ∷ []) 0 0 (Delete b) ≡ Missing }
    ensures log_full { (x y : TupleValue) →
        let a : KeyValue = record { order = 1; line = 1 } in
        outcome 1 2 ((a, Some x) ∷ []) 2 0 (Update a y) ≡ LogFull }
    ensures placed { (x y : TupleValue) →
        let a : KeyValue = record { order = 1; line = 1 } in
        let b : KeyValue = record { order = 1; line = 2 } in
        outcome 2 3 ((b, None) ∷ (a, Some x) ∷ []) 2 5 (Update a y)
        ≡ Placed (record { author = 5; row = 1; key = a; before = Some x; after = Some y }) }
{}

#[test]
fn worked() {
    updates();
    a_key_inserted_again_has_a_new_row();
    the_first_line_that_holds_decides();
}

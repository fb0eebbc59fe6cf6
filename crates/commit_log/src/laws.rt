//! What follows from the contracts of a log, for the layers above. These functions do nothing: where one is called, its
//! clauses are known.
ghost use Rattle.std.specs.Prelude.{◌≡◌, ℕ, ◌+◌, ◌≤◌, List, [], ◌∷◌, ◌++◌, length, take, slice_get, Option, Some};
ghost use Rattle.std.specs.Option.{option_map};
ghost use Rattle.cubit_base.specs.Key.{KeyValue};
ghost use Rattle.cubit_base.specs.Delta.{applied};
ghost use Rattle.cubit_base.specs.History.{after, is_of_key, last_delta};
ghost use Rattle.cubit_base.specs.declared.delta.Delta.{Delta};
ghost use Rattle.cubit_base.specs.declared.entry.Entry.{Entry};
ghost use Rattle.commit_log.specs.Log.{Terms, IsLog, Stands, IsPlace, between, IsLatest};
ghost use Rattle.commit_log.specs.Handle.{Handle, Begins, Grows, SeesMore, ReadsOn, with_look, with_walk, others, Appended};
ghost use Rattle.commit_log.specs.declared.front.Front.{Front};
ghost use Rattle.commit_log.specs.declared.front.Cursor.{Cursor};

/// Prefixes of a log, and of a longer one.
pub fn prefixes()
    ensures kept { (log longer : List Delta) (n : ℕ) → Begins log longer → n ≤ length log →
        take n longer ≡ take n log }
    ensures front { (terms : Terms) (log longer : List Delta) (front : Front) → Begins log longer →
        Stands terms log front → Stands terms longer front }
    ensures cursor { (terms : Terms) (log longer : List Delta) (cursor : Cursor) → Begins log longer →
        IsPlace terms log cursor → IsPlace terms longer cursor }
    ensures log { (terms : Terms) (log : List Delta) (n : ℕ) → IsLog terms log → IsLog terms (take n log) }
    ensures rows { (terms : Terms) (log : List Delta) (front : Front) → IsLog terms log → Stands terms log front →
        front.rows ≤ terms.limits.row_limit }
{
    cubit_base::laws::histories();
    cubit_base::laws::rows();
}

/// Handles, and what they are after calls.
pub fn handles()
    ensures same { (handle : Handle) → Grows handle handle }
    ensures on { (handle later last : Handle) → Grows handle later → Grows later last → Grows handle last }
    ensures more { (handle later : Handle) → SeesMore handle later → Grows handle later }
    ensures look { (handle later : Handle) → SeesMore (with_look handle) later → Grows handle later }
    ensures walk { (handle later : Handle) → later ≡ with_walk handle → Grows handle later }
{}

/// Handles that read on.
pub fn reads()
    ensures same { (handle : Handle) → ReadsOn handle handle }
    ensures walk { (handle later last : Handle) → ReadsOn handle later → last ≡ with_walk later →
        ReadsOn handle last }
    ensures more { (handle later last : Handle) → ReadsOn handle later → SeesMore later last → ReadsOn handle last }
    ensures on { (handle later last : Handle) → ReadsOn handle later → ReadsOn later last → ReadsOn handle last }
    ensures grows { (handle later : Handle) → ReadsOn handle later → Grows handle later }
    // All that it reads on by is of other authors.
    ensures others { (handle later : Handle) → ReadsOn handle later →
        length later.seen ≡ length handle.seen + others handle later }
    ensures earlier { (handle read later : Handle) → Grows handle read → Grows read later →
        others handle read ≤ others handle later }
    ensures later { (handle read later : Handle) → Grows handle read → Grows read later →
        others read later ≤ others handle later }
{}

/// Appended deltas.
pub fn appends()
    ensures grows { (terms : Terms) (handle later : Handle) (at front : Front) (delta : Delta) →
        Appended terms handle at delta later front → Grows handle later }
    ensures table { (terms : Terms) (handle later : Handle) (at front : Front) (delta : Delta) →
        Appended terms handle at delta later front →
        after terms.base (take front.len later.seen) ≡ applied (after terms.base (take at.len handle.seen)) delta }
{}

/// The deltas between two lengths of a log.
pub fn stretches()
    ensures empty { (log : List Delta) (n : ℕ) → between n n log ≡ [] }
    ensures next { (log : List Delta) (from to : ℕ) (delta : Delta) → from ≤ to → slice_get log to ≡ Some delta →
        between from (to + 1) log ≡ between from to log ++ delta ∷ [] }
    ensures parts { (log : List Delta) (from to : ℕ) → from ≤ to → take from log ++ between from to log ≡ take to log }
    ensures latest { (terms : Terms) (log : List Delta) (key : KeyValue) (from to : ℕ) (entry : Option Entry) →
        from ≤ to → to ≤ length log → IsLatest terms log key from to entry →
        last_delta (is_of_key key) (between from to log) ≡ option_map (λ e. e.delta) entry }
{}

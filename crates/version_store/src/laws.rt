//! What follows from the contracts of a store, for the layers above. These functions do nothing: where one is called,
//! its clauses are known.
ghost use Rattle.std.specs.Prelude.{◌≡◌, ℕ, ◌+◌, ◌≤◌, List, take};
ghost use Rattle.std.specs.Option.{unwrap_or};
ghost use Rattle.cubit_base.specs.History.{after};
ghost use Rattle.cubit_base.specs.declared.delta.Delta.{Delta};
ghost use Rattle.commit_log.specs.Log.{Terms};
ghost use Rattle.commit_log.specs.Handle.{Handle, Begins};
ghost use Rattle.commit_log.specs.declared.front.Front.{Front};
ghost use Rattle.unit_version.specs.Content.{content_of};
ghost use Rattle.unit_version.specs.declared.unit.Unit.{Unit};
ghost use Rattle.version_store.specs.Version.{Version, Fits};
ghost use Rattle.version_store.specs.Store.{Store, RoseBy, GivesUp, IsBusy};
ghost use Rattle.version_store.specs.declared.store.Again.{Again};

/// Versions that fit.
pub fn versions()
    // What they show, their own content or else the base's, is the unit's after their front.
    ensures content { (terms : Terms) (log : List Delta) (unit : Unit) (version : Version) →
        Fits terms log unit version → unwrap_or version.content (content_of unit terms.base)
        ≡ content_of unit (after terms.base (take version.front.len log)) }
    ensures longer { (terms : Terms) (log longer : List Delta) (unit : Unit) (version : Version) →
        Begins log longer → Fits terms log unit version → Fits terms longer unit version }
{}

/// Counts of lost turns add up.
pub fn losses()
    ensures { (some more before between now : ℕ) → RoseBy some before between → RoseBy more between now →
        RoseBy (some + more) before now }
{}

/// A handle that loses no turn, as that of a `MemoryStore`, gives up no hold and finds no version busy.
pub fn no_losses()
    ensures held { (tries : ℕ) (store later : Store) (again : Again) → 1 ≤ tries → store.losses ≡ 0 →
        later.losses ≡ 0 → GivesUp tries store later again → ⊥ }
    ensures free { (handle same : Handle) (store later : Store) (unit : Unit) (front : Front) → store.losses ≡ 0 →
        later.losses ≡ 0 → IsBusy handle store unit front same later → ⊥ }
{}

//! What follows from the steps of a worker, for the layers above. These functions do nothing: where one is called, its
//! clauses are known.
ghost use Rattle.std.specs.Prelude.{◌≡◌, ℕ, ◌+◌, ◌≤◌, List, [], ◌∷◌, ◌++◌, Ok};
ghost use Rattle.cubit_base.specs.Command.{weight_of};
ghost use Rattle.cubit_base.specs.declared.command.Command.{Command};
ghost use Rattle.cubit_base.specs.declared.delta.Delta.{Delta};
ghost use Rattle.wah_words.specs.Place.{page_count};
ghost use Rattle.commit_log.specs.Log.{Terms};
ghost use Rattle.commit_log.specs.Handle.{Handle, Begins};
ghost use Rattle.commit_log.specs.Serial.{SerialValue, serial_handle};
ghost use Rattle.version_store.specs.Version.{base_version};
ghost use Rattle.version_store.specs.Memory.{MemoryValue, memory_store, IsNew};
ghost use Rattle.query_report.specs.declared.reply.Reply.{Reply};
ghost use Rattle.query_report.specs.ReplyTable.{added};
ghost use Rattle.cubit_session.specs.Run.{Setting, Answers, marks_of, places_of};
ghost use Rattle.cubit_session.specs.Step.{Told, IsStep, AddsTo, setting_of, told_by};
ghost use Rattle.cubit_session.specs.Alone.{OwnsLog, HasRunAlone};
ghost use Rattle.cubit_session.specs.Through.{HasRun};

/// Steps: each reply answers its command over all deltas that the worker has seen then, and tells its own changes.
pub fn steps()
    ensures answers { (terms : Terms) (tries : ℕ) (command : Command) (before after : Told) (reply : Reply) →
        IsStep terms tries command before after (Ok reply) →
        Answers (setting_of terms before.store.pages) after.log.seen before.log.author command reply }
    ensures adds { (terms : Terms) (tries : ℕ) (command : Command) (before after : Told) (reply : Reply) →
        IsStep terms tries command before after (Ok reply) →
        AddsTo before.log after.log (marks_of reply) (places_of reply) }
    ensures spare { (terms : Terms) (tries : ℕ) (command : Command) (before after : Told) (reply : Reply) →
        IsStep terms tries command before after (Ok reply) →
        before.log.spare ≤ after.log.spare + weight_of command }
{}

/// Parts of a run: what answers a command over a journal does so over a longer one, and one command more is answered.
pub fn parts()
    ensures later { (s : Setting) (journal longer : List Delta) (worker : ℕ) (command : Command) (reply : Reply) →
        Begins journal longer → Answers s journal worker command reply → Answers s longer worker command reply }
    ensures none { (s : Setting) (handle : Handle) → HasRun s handle handle [] [] }
    ensures next { (s : Setting) (handle between after : Handle) (commands : List Command) (replies : List (List Reply))
        (command : Command) (reply : Reply) → HasRun s handle between commands replies →
        Answers s after.seen between.author command reply → AddsTo between after (marks_of reply) (places_of reply) →
        HasRun s handle after (commands ++ command ∷ []) (added replies 0 reply) }
{}

/// A worker that has its log and its store to itself: at the start, and after one command more.
pub fn alone()
    ensures none { (terms : Terms) (s : Setting) (pages : ℕ) (log : SerialValue) (memory : MemoryValue) →
        log.seen ≡ [] → IsNew pages (base_version terms) memory →
        HasRunAlone s (told_by serial_handle memory_store (log, memory)) [] [] }
    ensures next { (terms : Terms) (pages tries : ℕ) (command : Command) (before after : Told) (reply : Reply)
        (commands : List Command) (replies : List Reply) → 1 ≤ tries → page_count terms.limits.row_limit ≤ pages →
        HasRunAlone (setting_of terms pages) before commands replies →
        IsStep terms tries command before after (Ok reply) → OwnsLog terms after → after.store.losses ≡ 0 →
        before.store.pages ≡ pages → after.store.pages ≡ pages →
        HasRunAlone (setting_of terms pages) after (commands ++ command ∷ []) (replies ++ reply ∷ []) }
{
    commit_log::laws::prefixes();
    selection::laws::units();
}

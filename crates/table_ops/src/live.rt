//! The live row of a key, carried from one front to another.
ghost use Rattle.std.specs.Prelude.{◌≡◌, ℕ, ◌+◌, ◌-◌, ◌*◌, ◌≤◌, List, length, take, Option, if◌then◌else◌};
ghost use Rattle.std.specs.Option.{option_map};
ghost use Rattle.cubit_base.specs.Table.{Row};
ghost use Rattle.cubit_base.specs.LiveRow.{live_row, HasDistinctLiveKeys};
ghost use Rattle.cubit_base.specs.History.{after, live_row_by_last};
ghost use Rattle.cubit_base.specs.Key.{KeyValue, same_key};
ghost use Rattle.cubit_base.specs.declared.delta.Delta.{Delta as DeltaValue};
ghost use Rattle.cubit_base.specs.declared.entry.Entry.{Entry as EntryValue};
ghost use Rattle.commit_log.specs.Log.{Terms, IsLog, Stands, IsEntry, IsLatest};
ghost use Rattle.commit_log.specs.Handle.{SeesMore, ReadsOn, with_look, RisesWithin};
ghost use Rattle.unit_version.specs.Content.{content_of};
ghost use Rattle.table_ops.specs.Found.{IsFound, page_of};

use commit_log::{CommitLog, Front};
use cubit_base::{Delta, Entry, Key, Steps, Tuple, laws};
use std::sync::ledger::Ledger;
use unit_version::Content;

/// The key's live row at the front of all that the log holds, from its page after a front.
pub(crate) fn found_since<L: CommitLog, N: Ledger>(
    log: &mut L,
    page: &Content,
    key: &Key,
    from: &Front,
    steps: &mut Steps<N>,
) -> (Front, Option<(u32, Tuple)>)
    requires from { Stands L.terms (L.handle log.old).seen from.now }
    requires page { page.now
        ≡ content_of (page_of key.now) (after L.terms.base (take from.now.len (L.handle log.old).seen)) }
    requires keys { HasDistinctLiveKeys L.terms.base }
    ensures found { IsFound L.terms (L.handle log.new).seen key.now result }
    ensures more { SeesMore (with_look (L.handle log.old)) (L.handle log.new) }
    ensures steps { RisesWithin (5 + 5 * (result.0.len - from.now.len)) steps.old steps.new }
{
    commit_log::laws::prefixes();
    commit_log::laws::handles();
    live_rows();
    let front = log.front(steps);
    let last = log.latest(key, from, &front, steps);
    (front, live_row_since(last, page, key))
}

/// The key's live row at a front, from that at one before it.
pub(crate) fn found_behind<L: CommitLog, N: Ledger>(
    log: &mut L,
    key: &Key,
    live: Option<(u32, Tuple)>,
    from: &Front,
    to: &Front,
    steps: &mut Steps<N>,
) -> Option<(u32, Tuple)>
    requires log { IsLog L.terms (L.handle log.old).seen }
    requires from { Stands L.terms (L.handle log.old).seen from.now }
    requires to { Stands L.terms (L.handle log.old).seen to.now }
    requires order { from.now.len ≤ to.now.len }
    requires live { live_row (after L.terms.base (take from.now.len (L.handle log.old).seen)) key.now ≡ live }
    requires keys { HasDistinctLiveKeys L.terms.base }
    ensures live { live_row (after L.terms.base (take to.now.len (L.handle log.new).seen)) key.now ≡ result }
    ensures seen { (L.handle log.new).seen ≡ (L.handle log.old).seen }
    ensures reads { ReadsOn (L.handle log.old) (L.handle log.new) }
    ensures steps { steps.new ≡ steps.old + 5 * (to.now.len - from.now.len) }
{
    commit_log::laws::prefixes();
    live_rows();
    commit_log::laws::reads();
    let mut live = live;
    let mut cursor = log.cursor(from);
    while let Some(entry) = log.following(&mut cursor, to, steps) {
        live = live_row_behind(&entry.delta, key, live);
    }
    live
}

// How the live row of a key goes on from one front to another.
fn live_rows()
    ensures latest { (terms : Terms) (log : List DeltaValue) (key : KeyValue) (from to : ℕ)
        (entry : Option EntryValue) → IsLog terms log → HasDistinctLiveKeys terms.base → from ≤ to → to ≤ length log →
        IsLatest terms log key from to entry → live_row (after terms.base (take to log)) key
        ≡ live_row_by_last (option_map (λ e. e.delta) entry) (live_row (after terms.base (take from log)) key) }
    ensures next { (terms : Terms) (log : List DeltaValue) (key : KeyValue) (place : ℕ) (entry : EntryValue) →
        IsLog terms log → HasDistinctLiveKeys terms.base → IsEntry terms log place entry →
        live_row (after terms.base (take (place + 1) log)) key
        ≡ (if same_key entry.delta.key key then option_map (λ tuple. (entry.delta.row, tuple)) entry.delta.after
        else live_row (after terms.base (take place log)) key) }
{
    commit_log::laws::stretches();
    laws::histories();
    laws::live_rows();
}

// The key's live row, by its last delta since its page was made, and the page where there is none.
fn live_row_since(last: Option<Entry>, page: &Content, key: &Key) -> Option<(u32, Tuple)>
    ensures { (table : List Row) → page.now ≡ content_of (page_of key.now) table →
        live_row_by_last (option_map (λ e. e.delta) last) (live_row table key.now) ≡ result }
{
    match last {
        Some(entry) => live_row_of(&entry.delta),
        None => find(page, key),
    }
}

// The key's live row behind a delta, from that before it.
fn live_row_behind(delta: &Delta, key: &Key, before: Option<(u32, Tuple)>) -> Option<(u32, Tuple)>
    ensures { result ≡ (if same_key delta.now.key key.now
        then option_map (λ tuple. (delta.now.row, tuple)) delta.now.after else before) }
{
    if delta.key == *key {
        live_row_of(delta)
    } else {
        before
    }
}

// The live row that a delta leaves.
fn live_row_of(delta: &Delta) -> Option<(u32, Tuple)>
    ensures { result ≡ option_map (λ tuple. (delta.now.row, tuple)) delta.now.after }
{
    let row = delta.row;
    delta.after.map(|tuple| (row, tuple))
}

// The live row that the key has over a table, by the key's page there.
fn find(page: &Content, key: &Key) -> Option<(u32, Tuple)>
    ensures { (table : List Row) → page.now ≡ content_of (page_of key.now) table → live_row table key.now ≡ result }
{
    unit_version::laws::keys();
    match page {
        Content::Keys(keys) => keys.find(key),
        Content::Bits(_) | Content::Page(_) => None,
    }
}

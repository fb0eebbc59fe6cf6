//! Words written page by page.
//!
//! The fill that is under way is kept beside the words, so that what a page adds is made apart from them: words are put
//! at the end alone, and the start of each page is known when it is pushed. A page without a group of true rows, as
//! most are, goes without a branch for a group.
ghost use Rattle.std.specs.Prelude.{ℕ, List, Bool, ◌≡◌, ◌<◌, ◌≤◌, ◌+◌, ◌-◌, ◌*◌, ◌%◌, ◌^◌, ◌≢◌, if◌then◌else◌, [], ◌∷◌, ◌++◌, All, IsTrue, slice_index, IfOk, IfSome, IfNone, OnOk, OnErr, drop, replicate, take, false, length};
ghost use Rattle.wah_words.specs.Group.{group_at, unpacked};
ghost use Rattle.wah_words.specs.Pages.{IsUnderway, IsWriting, false_run, underway};
ghost use Rattle.wah_words.specs.Canonical.{AreRuns};
ghost use Rattle.wah_words.specs.Stretch.{AreFencesFrom, pages_from};
ghost use Rattle.wah_words.specs.Word.{groups, run_count, run_group};
ghost use Rattle.wah_words.specs.Place.{ArePagesOf, HasFences, IsAfter, SpellPages};

use crate::Memory;
use crate::place::{PAGE_GROUPS, PAGE_ROWS, Place};
use crate::run::{ALL_TRUE, COUNT_BITS, FALSE_FILL, Run, TRUE_FILL, fill_word, group_count, joins};
use crate::stretch::{copy, push_moved, push_run, settled};
use crate::wah::Wah;
use std::alloc::Global;
use std::marker::Model;

// The most words that a page makes: one for each group, and the run before it.
const PAGE_WORDS: usize = PAGE_GROUPS + 1;

const _: () = prove!(PAGE_WORDS == 129);

/// A bitvector in the making, page by page; contracts see the groups pushed so far.
#[derive(Drop)]
pub struct PageWriter {
    words: Vec<u32>,
    // The run under way behind the words: a fill, or 0 where there is none.
    run: u32,
    starts: Vec<Place>,
}

impl Model for PageWriter {
    ghost use Rattle.std.specs.Prelude.{List, ℕ, ◌++◌};

    ghost Value = { List ℕ };

    ghost use Rattle.wah_words.specs.Word.{groups};
    ghost use Rattle.wah_words.specs.Pages.{ArePaged, underway};

    ghost view = { λ w. groups (w.words.items ++ underway w.run) };

    ghost invariant = { λ w. ArePaged w.words.items w.run w.starts.items };
}

impl PageWriter {
    /// No groups yet, with room for that many pages.
    pub fn with_capacity(alloc: Global, pages: u32) -> Result<PageWriter, Memory>
        ensures { IfOk result (λ writer. writer ≡ []) }
    {
        let pages = pages as usize;
        Ok(PageWriter {
            words: Vec::with_capacity(alloc, PAGE_GROUPS * pages + 1)?,
            run: 0,
            starts: Vec::with_capacity(alloc, pages)?,
        })
    }

    /// How many pages were pushed.
    pub fn pages(&self) -> usize
        ensures { length self.now ≡ PAGE_GROUPS * result }
    {
        self.starts.len()
    }

    /// Puts the groups of a page at the end. Without memory the groups are those that were there.
    pub fn push_page(&mut self, page: &[u32; PAGE_GROUPS]) -> Result<(), Memory>
        requires within { All (λ group. group < 2 ^ 31) page.now }
        requires room { length self.old + PAGE_GROUPS < 2 ^ 30 }
        ensures ok { OnOk result (self.new ≡ self.old ++ page.now) }
        ensures err { OnErr result (self.new ≡ self.old) }
    {
        let mut out = [0; PAGE_WORDS];
        let (len, run) = write(&mut out, self.run, page);
        let start = Place {
            word: self.words.len(),
            skipped: self.run & COUNT_BITS,
        };
        self.starts.push(start)?;
        if let Err(memory) = self.words.extend_from_slice(&out[..len]) {
            self.starts.pop();
            return Err(memory);
        }
        self.run = run;
        Ok(())
    }

    /// Puts whole pages of other words at the end as they lie, from the first of these places up to the last, of which
    /// each is where a page starts. It takes the time of a copy of the words and the places.
    pub fn push_pages(self, words: &[u32], fences: &[Place]) -> Result<PageWriter, Memory>
        requires runs { AreRuns words.now }
        requires room { length (groups words.now) < 2 ^ 30 }
        requires some { 0 < length fences.now }
        requires within { length self + 128 * (length fences.now - 1) < length (groups words.now) }
        requires fences { AreFencesFrom words.now (length self) fences.now }
        ensures { IfOk result (λ writer. writer ≡ self ++ pages_from words.now (length self) (length fences.now - 1)) }
    {
        let mut writer = self;
        let end = fences.len() - 1;
        for at in 0..end {
            let first = settled(words, fences[at]);
            let run = Run::of_word(words[first.word]);
            if run.count - first.skipped < PAGE_GROUPS as u32 {
                let last = settled(words, fences[end]);
                return writer.push_stretch(words, first, last, &fences[at + 1..end]);
            }
            writer = writer.push_filled(run)?;
        }
        Ok(writer)
    }

    // Puts a page at the end that lies in a run.
    fn push_filled(mut self, run: Run) -> Result<PageWriter, Memory>
        requires page { PAGE_GROUPS ≤ run.count }
        requires room { length self + PAGE_GROUPS < 2 ^ 30 }
        ensures { IfOk result (λ writer. writer ≡ self ++ replicate PAGE_GROUPS run.group) }
    {
        let start = start_behind(&self.words, self.run);
        let next = push_run(&mut self.words, self.run, run.part(PAGE_GROUPS as u32))?;
        self.starts.push(start)?;
        self.run = next;
        Ok(self)
    }

    // Puts pages at the end, of which the first begins in a run that ends before the page does, and the others at these
    // places.
    fn push_stretch(
        mut self,
        words: &[u32],
        first: Place,
        last: Place,
        others: &[Place],
    ) -> Result<PageWriter, Memory>
        requires runs { AreRuns words.now }
        requires room { length (groups words.now) < 2 ^ 30 }
        requires first { IsAfter words.now (length self) first }
        requires last { IsAfter words.now (length self + 128 * (length others.now + 1)) last }
        requires others { AreFencesFrom words.now (length self + 128) others.now }
        requires first_inside { first.skipped < run_count (slice_index words.now first.word) }
        requires last_inside { last.skipped < run_count (slice_index words.now last.word) }
        requires first_within { first.word < length words.now }
        requires last_within { last.word < length words.now }
        requires short { run_count (slice_index words.now first.word) < first.skipped + PAGE_GROUPS }
        ensures { IfOk result (λ writer. writer ≡ self ++ pages_from words.now (length self) (length others.now + 1)) }
    {
        let start = start_behind(&self.words, self.run);
        let (base, next) = copy(&mut self.words, self.run, words, first, last)?;
        self.starts.push(start)?;
        push_moved(&mut self.starts, others, first.word + 1, base)?;
        self.run = next;
        Ok(self)
    }

    /// The bitvector of so many rows, and the start of each of its pages.
    pub fn finish(mut self, rows: u32) -> Result<(Wah, Vec<Place>), Memory>
        requires { ArePagesOf self rows }
        ensures list { IfOk result (λ made. made.0 ≡ take rows (unpacked self)) }
        ensures starts { IfOk result (λ made. HasFences made.0 made.1.items) }
    {
        let excess = PAGE_GROUPS as u32 * rows.div_ceil(PAGE_ROWS) - group_count(rows);
        let run = shortened(self.run, excess);
        close(&mut self.words, run)?;
        Ok((Wah::of_words(self.words, rows), self.starts))
    }
}

/// The law of pages: the groups of a list's pages hold its rows, and groups that hold some rows are those of that list.
pub fn pages_of_list()
    ensures within { (list : List Bool) (k : ℕ) → group_at list k < 2 ^ 31 }
    ensures held { (groups : List ℕ) (list : List Bool) → SpellPages groups list → ArePagesOf groups (length list) }
    ensures list { (groups : List ℕ) (list : List Bool) → SpellPages groups list →
        take (length list) (unpacked groups) ≡ list }
    ensures spelled { (groups : List ℕ) (rows : ℕ) → All (λ group. group < 2 ^ 31) groups → ArePagesOf groups rows →
        SpellPages groups (take rows (unpacked groups)) }
{}

// Where the groups behind words and the run under way begin.
fn start_behind(words: &[u32], run: u32) -> Place
    ensures word { result.word ≡ length words.now }
    ensures skipped { result.skipped ≡ run % 2 ^ 30 }
{
    Place {
        word: words.len(),
        skipped: run & COUNT_BITS,
    }
}

// Puts the run under way behind the words, where there is one.
pub(crate) fn close(words: &mut Vec<u32>, run: u32) -> Result<(), Memory>
    ensures { OnOk result (words.new.items ≡ words.old.items ++ underway run) }
{
    if run != 0 {
        words.push(run)?;
    }
    Ok(())
}

// The run under way with so many groups fewer.
fn shortened(run: u32, groups: u32) -> u32
    requires fill { IsUnderway run }
    requires within { groups ≤ run % 2 ^ 30 }
    ensures none { result ≡ 0 → run % 2 ^ 30 ≡ groups }
    ensures some { 0 < result → (result + groups ≡ run) × (groups < run % 2 ^ 30) }
{
    if run & COUNT_BITS == groups {
        0
    } else {
        run - groups
    }
}

// Writes the words that the groups of a page end, and gives how many they are and the run under way behind them.
fn write(out: &mut [u32; PAGE_WORDS], run: u32, page: &[u32; PAGE_GROUPS]) -> (usize, u32)
    requires fill { IsUnderway run }
    requires within { All (λ group. group < 2 ^ 31) page.now }
    requires room { run % 2 ^ 30 + PAGE_GROUPS < 2 ^ 30 }
    ensures { IsWriting run page.now out.new result.0 result.1 }
{
    if run < TRUE_FILL && is_mixed(page) {
        write_mixed(out, run, page)
    } else {
        write_any(out, run, page)
    }
}

// The same, for any groups.
fn write_any(out: &mut [u32; PAGE_WORDS], run: u32, page: &[u32; PAGE_GROUPS]) -> (usize, u32)
    requires fill { IsUnderway run }
    requires within { All (λ group. group < 2 ^ 31) page.now }
    requires room { run % 2 ^ 30 + PAGE_GROUPS < 2 ^ 30 }
    ensures { IsWriting run page.now out.new result.0 result.1 }
{
    let mut len = 0;
    let mut next = run;
    for i in 0..PAGE_GROUPS {
        (len, next) = push(out, len, next, page[i]);
    }
    (len, next)
}

// Goes on by one group.
#[inline(always)]
fn push(out: &mut [u32; PAGE_WORDS], len: usize, run: u32, group: u32) -> (usize, u32)
    requires fill { IsUnderway run }
    requires within { group < 2 ^ 31 }
    requires count { run % 2 ^ 30 + 1 < 2 ^ 30 }
    requires room { len + length (underway run) < PAGE_WORDS }
    ensures writes { (before : ℕ) (page : List ℕ) → IsWriting before page out.old len run →
        IsWriting before (page ++ group ∷ []) out.new result.0 result.1 }
    ensures count { result.1 % 2 ^ 30 ≤ run % 2 ^ 30 + 1 }
{
    let Some(fill) = fill_of(group) else {
        let len = end_run(out, len, run);
        out[len] = group;
        return (len + 1, 0);
    };
    if joins(run, fill) {
        return (len, run + 1);
    }
    (end_run(out, len, run), fill)
}

// The fill of one group, where its rows have one value.
#[inline(always)]
fn fill_of(group: u32) -> Option<u32>
    requires { group < 2 ^ 31 }
    ensures fill { IfSome result (λ fill. 2 ^ 31 ≤ fill) }
    ensures group { IfSome result (λ fill. run_group fill ≡ group) }
    ensures count { IfSome result (λ fill. run_count fill ≡ 1) }
    ensures none { IfNone result ((0 < group) × (group < 2 ^ 31 - 1)) }
{
    match group {
        0 => Some(fill_word(false, 1)),
        ALL_TRUE => Some(fill_word(true, 1)),
        _ => None,
    }
}

// Writes the run under way, where there is one.
#[inline(always)]
fn end_run(out: &mut [u32; PAGE_WORDS], len: usize, run: u32) -> usize
    requires { len + length (underway run) ≤ PAGE_WORDS }
    ensures len { result ≡ len + length (underway run) }
    ensures words { take result out.new ≡ take len out.old ++ underway run }
{
    if run == 0 {
        return len;
    }
    out[len] = run;
    len + 1
}

// Whether no group has true rows alone.
fn is_mixed(page: &[u32; PAGE_GROUPS]) -> bool
    ensures { IsTrue result → (k : ℕ) → k < 128 → slice_index page.now k ≢ 2 ^ 31 - 1 }
{
    let mut mixed = true;
    for i in 0..PAGE_GROUPS {
        mixed &= page[i] != ALL_TRUE;
    }
    mixed
}

// The same, where no group has true rows alone and no run of them is under way.
fn write_mixed(out: &mut [u32; PAGE_WORDS], run: u32, page: &[u32; PAGE_GROUPS]) -> (usize, u32)
    requires fill { IsUnderway run }
    requires false_fill { run < 3 * 2 ^ 30 }
    requires within { All (λ group. group < 2 ^ 31) page.now }
    requires mixed { (k : ℕ) → k < 128 → slice_index page.now k ≢ 2 ^ 31 - 1 }
    requires room { run % 2 ^ 30 + PAGE_GROUPS < 2 ^ 30 }
    ensures { IsWriting run page.now out.new result.0 result.1 }
{
    let mut len = 0;
    let mut zeros = run & COUNT_BITS;
    for i in 0..PAGE_GROUPS {
        (len, zeros) = push_mixed(out, len, zeros, page[i]);
    }
    (len, if zeros == 0 { 0 } else { FALSE_FILL + zeros })
}

// Goes on by one group, behind so many groups of false rows, with no branch: the fill and the group are written in any
// case, and count where they are wanted.
#[inline(always)]
fn push_mixed(out: &mut [u32; PAGE_WORDS], len: usize, zeros: u32, group: u32) -> (usize, u32)
    requires within { group < 2 ^ 31 - 1 }
    requires count { zeros + 1 < 2 ^ 30 }
    requires room { len + length (underway (false_run zeros)) < PAGE_WORDS }
    ensures writes { (before : ℕ) (page : List ℕ) → IsWriting before page out.old len (false_run zeros) →
        IsWriting before (page ++ group ∷ []) out.new result.0 (false_run result.1) }
    ensures count { result.1 ≤ zeros + 1 }
{
    let is_some = group != 0;
    let len = put(out, len, FALSE_FILL + zeros, is_some & (zeros != 0));
    let len = put(out, len, group, is_some);
    (len, if is_some { 0 } else { zeros + 1 })
}

// Writes a word, which counts where it is wanted.
#[inline(always)]
fn put(out: &mut [u32; PAGE_WORDS], len: usize, word: u32, wanted: bool) -> usize
    requires { len < PAGE_WORDS }
    ensures len { result ≡ len + length (if wanted then word ∷ [] else []) }
    ensures words { take result out.new ≡ take len out.old ++ (if wanted then word ∷ [] else []) }
{
    out[len] = word;
    len + usize::from(wanted)
}

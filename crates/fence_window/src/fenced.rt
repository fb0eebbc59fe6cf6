//! Bitvectors with a fence for each page.
ghost use Rattle.std.specs.Prelude.{ℕ, ◌≡◌, ◌+◌, ◌*◌, ◌<◌, ◌≤◌, ◌^◌, ◌++◌, All, IfOk, length, take, slice_get, slice_index, bit_or};
ghost use Rattle.std.specs.List.Sorted.{IsStrictlyIncreasing};
ghost use Rattle.wah_words.specs.Group.{group_at, unpacked};
ghost use Rattle.wah_words.specs.Place.{ArePagesOf, HasFences, page_count};
ghost use Rattle.wah_words.specs.Rows.{IsToggled};
ghost use Rattle.fence_window.specs.Ors.{IsOrInto};
ghost use Rattle.fence_window.specs.Turned.{AreRowsToggled, IsCopied};
ghost use Rattle.fence_window.specs.Window.{IsWindow};

use crate::Memory;
use crate::place::{advanced, or_groups};
use std::alloc::Global;
use std::marker::Model;
use wah_words::{
    GROUP_ROWS, PAGE_GROUPS, PAGE_ROWS, PageWriter, Place, Run, Wah, laws, one_spelling, turn_rows,
};

// The pages that are read at once.
const BLOCK_PAGES: usize = 32;

/// The groups of these pages.
pub const BLOCK_GROUPS: usize = BLOCK_PAGES * PAGE_GROUPS;

const _: () = prove!(BLOCK_GROUPS == 4_096);

/// A bitvector whose pages are reached without a walk from its first word; contracts see its list.
#[derive(Drop)]
pub struct Fenced {
    wah: Wah,
    fences: Vec<Place>,
}

impl Model for Fenced {
    ghost use Rattle.std.specs.Prelude.{List, Bool};

    ghost Value = { List Bool };

    ghost use Rattle.wah_words.specs.Place.{ArePagesOf, HasFences};

    ghost view = { λ f. f.wah };

    ghost invariant = { λ f. HasFences f.wah f.fences.items };
}

impl Fenced {
    /// The bitvector, with its fences. It takes one pass over the words.
    pub fn make(alloc: Global, wah: Wah) -> Result<Fenced, Memory>
        ensures { IfOk result (λ fenced. fenced ≡ wah) }
    {
        let fences = fences_of(alloc, &wah)?;
        Ok(Fenced { wah, fences })
    }

    /// The bitvector whose pages were written, of so many rows, with its fences. It takes no pass.
    pub fn from_pages(pages: PageWriter, rows: u32) -> Result<Fenced, Memory>
        requires { ArePagesOf pages rows }
        ensures { IfOk result (λ fenced. fenced ≡ take rows (unpacked pages)) }
    {
        let (wah, fences) = pages.finish(rows)?;
        Ok(Fenced { wah, fences })
    }

    /// The bitvector.
    pub fn wah(&self) -> &Wah
        ensures { result.now ≡ self.now }
    {
        &self.wah
    }

    /// The list with false after it up to `rows`, and then with the rows at these places turned. It takes a copy of the
    /// words and the fences, and a step for each page in which a row is turned; where these are many, it passes over
    /// the words.
    pub fn toggled(&self, alloc: Global, places: &[u32], rows: u32) -> Result<Fenced, Memory>
        requires rising { IsStrictlyIncreasing places.now }
        requires below { All (λ place. place < rows) places.now }
        requires longer { length self.now ≤ rows }
        ensures length { IfOk result (λ fenced. length fenced ≡ rows) }
        ensures rows { IfOk result (λ fenced. IsToggled self.now places.now fenced) }
    {
        if places.is_empty() && rows == self.wah.len() {
            return self.copied(alloc);
        }
        // To write a page anew takes longer than to pass over its words.
        let pages = rows.div_ceil(PAGE_ROWS);
        if places.len() > pages as usize / 4 {
            return Fenced::make(alloc, self.wah.toggled(alloc, places, rows)?);
        }
        self.toggled_pages(alloc, places, rows)
    }

    // The same, page by page where rows are turned, and by copies between.
    fn toggled_pages(&self, alloc: Global, places: &[u32], rows: u32) -> Result<Fenced, Memory>
        requires rising { IsStrictlyIncreasing places.now }
        requires below { All (λ place. place < rows) places.now }
        requires longer { length self.now ≤ rows }
        ensures length { IfOk result (λ fenced. length fenced ≡ rows) }
        ensures rows { IfOk result (λ fenced. IsToggled self.now places.now fenced) }
    {
        laws::groups();
        laws::rows_of_groups();
        laws::toggles();
        let pages = rows.div_ceil(PAGE_ROWS);
        let mut writer = PageWriter::with_capacity(alloc, pages)?;
        let mut rest = places;
        let mut from = 0;
        while from < pages {
            let page = copied_to(rest, from, self.fences.len());
            writer = self.copied_pages(writer, page)?;
            let (here, after) = split_page(rest, page);
            writer.push_page(&self.toggled_page(page, here))?;
            rest = after;
            from = page + 1;
        }
        let made = Fenced::from_pages(writer, rows)?;
        Ok(made)
    }

    // The pages that are written, and those of the list up to another page.
    fn copied_pages(&self, writer: PageWriter, page: u32) -> Result<PageWriter, Memory>
        requires whole { length writer ≤ 128 * page }
        requires within { length writer < 128 * page → page < page_count (length self.now) }
        requires few { length self.now < 2 ^ 32 }
        ensures { IfOk result (λ made. IsCopied self.now writer page made) }
    {
        let from = writer.pages();
        if from >= page as usize {
            return Ok(writer);
        }
        let words = self.wah.words();
        let made = writer.push_pages(words, &self.fences[from..page as usize + 1])?;
        Ok(made)
    }

    // A page with the rows at these places turned.
    fn toggled_page(&self, page: u32, places: &[u32]) -> [u32; PAGE_GROUPS]
        requires rising { IsStrictlyIncreasing places.now }
        requires from { All (λ place. PAGE_ROWS * page ≤ place) places.now }
        requires to { All (λ place. place < PAGE_ROWS * page + PAGE_ROWS) places.now }
        requires few { PAGE_ROWS * page < 2 ^ 32 }
        ensures within { All (λ group. group < 2 ^ 31) result }
        ensures rows { AreRowsToggled self.now places.now (PAGE_ROWS * page) result }
    {
        laws::groups();
        let mut numbers = [0; PAGE_GROUPS];
        self.window(page, &mut numbers);
        turn_rows(&mut numbers, page * PAGE_ROWS, places);
        numbers
    }

    // The list once more.
    fn copied(&self, alloc: Global) -> Result<Fenced, Memory>
        ensures { IfOk result (λ fenced. fenced ≡ self.now) }
    {
        let wah = self.wah.extended(alloc, self.wah.len())?;
        let mut fences = Vec::with_capacity(alloc, self.fences.len())?;
        fences.extend_from_slice(&self.fences)?;
        Ok(Fenced { wah, fences })
    }

    /// Writes the groups of a page, and 0 where there are none. It takes no memory.
    pub fn window(&self, page: u32, out: &mut [u32; PAGE_GROUPS])
        ensures { IsWindow self.now page out.new }
    {
        out.fill(0);
        let words = self.wah.words();
        match self.fences.get(page as usize) {
            Some(fence) => or_groups(words, *fence, self.end_before(page as usize + 1), out),
            None => {}
        }
    }

    /// Puts the groups of 32 pages from the first on into the numbers, by or; past the last page nothing changes. It
    /// takes no memory.
    pub fn or_into(&self, first: u32, out: &mut [u32; BLOCK_GROUPS])
        ensures { IsOrInto self.now first out.old out.new }
    {
        let words = self.wah.words();
        match self.fences.get(first as usize) {
            Some(fence) => {
                or_groups(
                    words,
                    *fence,
                    self.end_before(first as usize + BLOCK_PAGES),
                    out,
                );
            }
            None => {}
        }
    }

    // The word at which a page begins, or the end of the words.
    fn end_before(&self, page: usize) -> usize {
        match self.fences.get(page) {
            Some(fence) => fence.word,
            None => self.wah.words().len(),
        }
    }

    /// The truth value of a row. It takes no memory, and reads the words of one page at most.
    pub fn get(&self, row: u32) -> bool
        requires { row < length self.now }
        ensures { slice_get self.now row ≡ Some result }
    {
        let group = row / GROUP_ROWS;
        let words = self.wah.words();
        let fence = self.fences[group as usize / PAGE_GROUPS];
        let place = advanced(words, fence, group % PAGE_GROUPS as u32);
        (Run::of_word(words[place.word]).group >> (row % GROUP_ROWS)) & 1 == 1
    }
}

// The page up to which all are copied whole: the next one with a place, or the last.
fn copied_to(places: &[u32], from: u32, fences: usize) -> u32
    requires rising { IsStrictlyIncreasing places.now }
    requires behind { All (λ place. PAGE_ROWS * from ≤ place) places.now }
    ensures from { from ≤ result }
    ensures within { from < result → result < fences }
    ensures behind { All (λ place. PAGE_ROWS * result ≤ place) places.now }
{
    let next = first_page(places);
    if next <= from || fences <= from as usize + 1 {
        return from;
    }
    if (next as usize) < fences {
        return next;
    }
    fences as u32 - 1
}

// The page of the first place, or the last number where there is none.
fn first_page(places: &[u32]) -> u32
    requires { IsStrictlyIncreasing places.now }
    ensures { All (λ place. PAGE_ROWS * result ≤ place) places.now }
{
    if places.is_empty() {
        return u32::MAX;
    }
    places[0] / PAGE_ROWS
}

// The places that lie in a page, and those behind it.
fn split_page(places: &[u32], page: u32) -> (&[u32], &[u32])
    requires { IsStrictlyIncreasing places.now }
    ensures whole { places.now ≡ result.0.now ++ result.1.now }
    ensures here_rising { IsStrictlyIncreasing result.0.now }
    ensures rising { IsStrictlyIncreasing result.1.now }
    ensures here { All (λ place. place < PAGE_ROWS * page + PAGE_ROWS) result.0.now }
    ensures behind { All (λ place. PAGE_ROWS * page + PAGE_ROWS ≤ place) result.1.now }
{
    for at in 0..places.len() {
        if places[at] / PAGE_ROWS > page {
            return places.split_at(at);
        }
    }
    places.split_at(places.len())
}

fn fences_of(alloc: Global, wah: &Wah) -> Result<Vec<Place>, Memory>
    ensures { IfOk result (λ fences. HasFences wah.now fences.items) }
{
    // The fences are those of whatever words spell the list, since no others do.
    one_spelling();
    let words = wah.words();
    let pages = wah.len().div_ceil(PAGE_ROWS);
    let mut fences = Vec::with_capacity(alloc, pages as usize)?;
    let mut place = Place {
        word: 0,
        skipped: 0,
    };
    for _page in 0..pages {
        fences.push(place)?;
        place = advanced(words, place, PAGE_GROUPS as u32);
    }
    Ok(fences)
}

#[cfg(test)]
mod tests;

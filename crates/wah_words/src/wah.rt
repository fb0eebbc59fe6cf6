//! Bitvectors.
ghost use Rattle.std.specs.Prelude.{ℕ, Bool, List, ◌≡◌, ◌<◌, ◌≤◌, ◌^◌, ◌++◌, ◌&&◌, ◌||◌, false, not, length, map, take, drop, replicate, slice_index, slice_index_or, ◌-◌, All, Contains, ◌↔◌, IsTrue, IfOk, IfSome, IsSome};
ghost use Rattle.std.specs.List.Sorted.{IsStrictlyIncreasing};
ghost use Rattle.wah_words.specs.Group.{Packs, group_at, group_count as groups_for, unpacked};
ghost use Rattle.wah_words.specs.Word.{groups as groups_of};
ghost use Rattle.wah_words.specs.Canonical.{AreWords, IsCanonical, Spells};
ghost use Rattle.wah_words.specs.Rows.{IsToggled, differs, pointwise, true_count};

use crate::builder::Builder;
use crate::complement::complement;
use crate::count::true_rows;
use crate::operation::{And, Operation, Or, Xor};
use crate::places::groups_of_places;
use crate::run::{GROUP_ROWS, group_count, group_of, is_canonical};
use crate::toggle::toggled;
use crate::{Memory, walk};
use std::alloc::Global;
use std::marker::Model;

// The rows of a group, as a length.
const GROUP_LENGTH: usize = GROUP_ROWS as usize;

/// A list of truth values as run-length words; contracts see the list.
#[derive(Drop)]
pub struct Wah {
    words: Vec<u32>,
    rows: u32,
}

impl Model for Wah {
    ghost use Rattle.std.specs.Prelude.{List, Bool};

    ghost Value = { List Bool };

    ghost use Rattle.wah_words.specs.Canonical.{IsCanonical, spelled_rows};

    ghost view = { λ w. spelled_rows w.words.items w.rows };

    ghost invariant = { λ w. IsCanonical w.words.items w.rows };
}

impl Wah {
    /// The list of these truth values, at most 4,294,967,295 of them. It takes one pass.
    pub fn from_rows(alloc: Global, rows: &[bool]) -> Result<Wah, Memory>
        requires { length rows.now < 2 ^ 32 }
        ensures { IfOk result (λ wah. wah ≡ rows.now) }
    {
        let groups = Wah::groups_of(alloc, rows)?;
        Ok(Wah::of_groups(groups, rows.len() as u32))
    }

    /// The list of so many rows that is true at these places alone.
    pub fn from_places(alloc: Global, places: &[u32], rows: u32) -> Result<Wah, Memory>
        requires rising { IsStrictlyIncreasing places.now }
        requires below { All (λ place. place < rows) places.now }
        ensures length { IfOk result (λ wah. length wah ≡ rows) }
        ensures places { IfOk result (λ wah. (row : ℕ) →
            IsTrue (slice_index_or wah row false) ↔ Contains places.now row) }
    {
        let groups = groups_of_places(alloc, places, rows)?;
        Ok(Wah::of_groups(groups, rows))
    }

    /// The bitvector of these words, or none where they are not in the canonical form for so many rows.
    /// It takes no memory.
    pub fn from_words(words: Vec<u32>, rows: u32) -> Option<Wah>
        ensures canonical { IsSome result ↔ IsCanonical words.items rows }
        ensures list { IfSome result (λ wah. Spells words.items wah) }
        ensures rows { IfSome result (λ wah. length wah ≡ rows) }
    {
        if !is_canonical(&words, rows) {
            return None;
        }
        Some(Wah { words, rows })
    }

    fn groups_of(alloc: Global, rows: &[bool]) -> Result<Builder, Memory>
        requires { length rows.now < 2 ^ 32 }
        ensures { IfOk result (λ groups. Packs groups rows.now) }
    {
        let mut out = Builder::with_capacity(alloc, rows.len().div_ceil(GROUP_LENGTH))?;
        let whole = rows.len() / GROUP_LENGTH;
        for i in 0..whole {
            let start = GROUP_LENGTH * i;
            out.push_group(group_of(&rows[start..start + GROUP_LENGTH]))?;
        }
        let rest = &rows[GROUP_LENGTH * whole..];
        if rest.is_empty() {
            return Ok(out);
        }
        out.push_group(group_of(rest))?;
        Ok(out)
    }

    /// True where both lists are true.
    pub fn and(&self, alloc: Global, other: &Wah) -> Result<Wah, Memory>
        requires { length self.now ≡ length other.now }
        ensures { IfOk result (λ wah. wah ≡ pointwise ◌&&◌ self.now other.now) }
    {
        self.combined::<And>(alloc, other)
    }

    /// True where one list is true, or both.
    pub fn or(&self, alloc: Global, other: &Wah) -> Result<Wah, Memory>
        requires { length self.now ≡ length other.now }
        ensures { IfOk result (λ wah. wah ≡ pointwise ◌||◌ self.now other.now) }
    {
        self.combined::<Or>(alloc, other)
    }

    /// True where one list is true and the other is not.
    pub fn xor(&self, alloc: Global, other: &Wah) -> Result<Wah, Memory>
        requires { length self.now ≡ length other.now }
        ensures { IfOk result (λ wah. wah ≡ pointwise differs self.now other.now) }
    {
        self.combined::<Xor>(alloc, other)
    }

    fn combined<O: Operation>(&self, alloc: Global, other: &Wah) -> Result<Wah, Memory>
        requires lengths { length self.now ≡ length other.now }
        requires padding { O.of_rows false false ≡ false }
        ensures { IfOk result (λ wah. wah ≡ pointwise O.of_rows self.now other.now) }
    {
        let groups = walk::combined::<O>(alloc, &self.words, &other.words, group_count(self.rows))?;
        Ok(Wah::of_groups(groups, self.rows))
    }

    /// True where the list is false, and false where it is true.
    pub fn not(&self, alloc: Global) -> Result<Wah, Memory>
        ensures { IfOk result (λ wah. wah ≡ map not self.now) }
    {
        let groups = complement(alloc, &self.words, self.rows)?;
        Ok(Wah::of_groups(groups, self.rows))
    }

    /// The list, and false after it up to so many rows.
    pub fn extended(&self, alloc: Global, rows: u32) -> Result<Wah, Memory>
        requires { length self.now ≤ rows }
        ensures { IfOk result (λ wah. wah ≡ self.now ++ replicate (rows - length self.now) false) }
    {
        let more = group_count(rows) - group_count(self.rows);
        let mut groups = Builder::from_slice(alloc, &self.words)?;
        groups.push_false(more)?;
        Ok(Wah::of_groups(groups, rows))
    }

    /// The list with false after it up to `rows`, and then with the rows at these places turned. It takes a copy of
    /// the words, and a step for each place.
    pub fn toggled(&self, alloc: Global, places: &[u32], rows: u32) -> Result<Wah, Memory>
        requires rising { IsStrictlyIncreasing places.now }
        requires below { All (λ place. place < rows) places.now }
        requires longer { length self.now ≤ rows }
        ensures length { IfOk result (λ wah. length wah ≡ rows) }
        ensures rows { IfOk result (λ wah. IsToggled self.now places.now wah) }
    {
        let groups = toggled(alloc, &self.words, self.rows, places, rows)?;
        Ok(Wah::of_groups(groups, rows))
    }

    // The first rows of groups that have no true row after them.
    fn of_groups(groups: Builder, rows: u32) -> Wah
        requires size { length groups ≡ groups_for rows }
        requires padding { All (λ row. row ≡ false) (drop rows (unpacked groups)) }
        ensures { result ≡ take rows (unpacked groups) }
    {
        Wah {
            words: groups.into_words(),
            rows,
        }
    }

    /// The list that canonical words spell.
    pub(crate) fn of_words(words: Vec<u32>, rows: u32) -> Wah
        requires { IsCanonical words.items rows }
        ensures list { result ≡ take rows (unpacked (groups_of words.items)) }
        ensures fit { AreWords words.items }
    {
        Wah { words, rows }
    }

    /// The number of rows.
    pub fn len(&self) -> u32
        ensures { result ≡ length self.now }
    {
        self.rows
    }

    /// The words that spell the list, whose groups are those of the list.
    pub fn words(&self) -> &[u32]
        ensures spelling { Spells result.now self.now }
        ensures each_group { (k : ℕ) → slice_index (groups_of result.now) k ≡ group_at self.now k }
    {
        &self.words
    }

    /// How many rows are true.
    pub fn count(&self) -> u32
        ensures { result ≡ true_count self.now }
    {
        // No more rows are true than there are, so the total fits.
        let rows = self.rows;
        let total = true_rows(&self.words);
        prove!(total <= rows);
        total
    }
}

/// The law of the form: words of 32 bits that spell one list are the same words, and words spell one list
/// of a length alone.
pub fn one_spelling()
    ensures words { (a b : List ℕ) (list : List Bool) → AreWords a → AreWords b →
        Spells a list → Spells b list → a ≡ b }
    ensures list { (words : List ℕ) (a b : List Bool) → length a ≡ length b →
        Spells words a → Spells words b → a ≡ b }
{}

#[cfg(test)]
mod tests;

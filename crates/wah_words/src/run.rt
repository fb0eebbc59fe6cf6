//! Words, read as runs of groups.
ghost use Rattle.std.specs.Prelude.{◌≡◌, ◌<◌, ◌≤◌, ◌+◌, ◌-◌, ◌^◌, ◌++◌, ◌↔◌, IsTrue, false, not, length, map, replicate};
ghost use Rattle.wah_words.specs.Group.{IsUniform, filled, group_count as groups_for, group_rows};
ghost use Rattle.wah_words.specs.Rows.{cleared};
ghost use Rattle.wah_words.specs.Word.{run_group, run_count, turned_word};
ghost use Rattle.wah_words.specs.Canonical.{IsCanonical, IsCountedFill, IsMixedLiteral};

/// The rows of a group.
pub const GROUP_ROWS: u32 = 31;
/// The group whose rows are all true.
pub(crate) const ALL_TRUE: u32 = 0x7fff_ffff;
/// The lowest fill; up to the next constant its rows are false.
pub(crate) const FALSE_FILL: u32 = 0x8000_0000;
/// The lowest fill of true rows: bit 30 of a fill is the value of its rows.
pub const TRUE_FILL: u32 = 0xc000_0000;
// The bit of a fill that is the value of its rows.
const VALUE_BIT: u32 = 0x4000_0000;
/// The bits of a fill that count its groups.
pub(crate) const COUNT_BITS: u32 = 0x3fff_ffff;

// The numbers of the form, which the definitions say in powers of two.
const _: () = prove!(GROUP_ROWS == 31);

const _: () = prove!(ALL_TRUE == 2_147_483_647);

const _: () = prove!(FALSE_FILL == 2_147_483_648);

const _: () = prove!(TRUE_FILL == 3_221_225_472);

const _: () = prove!(VALUE_BIT == 1_073_741_824);

const _: () = prove!(COUNT_BITS == 1_073_741_823);

/// So many groups of one value, side by side. More than one are all false or all true.
#[derive(Clone, Copy)]
pub struct Run {
    /// The rows of each group, the first in the lowest bit.
    pub group: u32,
    pub count: u32,
    ghost within: { group < 2 ^ 31 },
    ghost uniform: { 1 < count → IsUniform group },
}

impl Run {
    /// The run that a word stands for.
    pub fn of_word(word: u32) -> Run
        ensures group { result.group ≡ run_group word }
        ensures count { result.count ≡ run_count word }
        ensures few { result.count < 2 ^ 30 }
    {
        if is_literal(word) {
            return Run {
                group: word,
                count: 1,
            };
        }
        let group = if word < TRUE_FILL { 0 } else { ALL_TRUE };
        Run {
            group,
            count: word & COUNT_BITS,
        }
    }

    /// So many groups of the run.
    pub(crate) fn part(self, count: u32) -> Run
        requires { count ≤ self.count }
        ensures group { result.group ≡ self.group }
        ensures count { result.count ≡ count }
    {
        Run {
            group: self.group,
            count,
        }
    }

    /// The run whose rows are the others.
    pub(crate) fn complement(self) -> Run
        ensures count { result.count ≡ self.count }
        ensures rows { group_rows result.group ≡ map not (group_rows self.group) }
    {
        Run {
            group: ALL_TRUE ^ self.group,
            count: self.count,
        }
    }
}

/// Whether a word is one group as it stands.
pub fn is_literal(word: u32) -> bool
    ensures { IsTrue result ↔ word < 2 ^ 31 }
{
    word < FALSE_FILL
}

/// The fill that counts so many groups of rows with the value.
pub(crate) fn fill_word(value: bool, count: u32) -> u32
    requires { count < 2 ^ 30 }
    ensures fill { 2 ^ 31 ≤ result }
    ensures group { run_group result ≡ filled value }
    ensures count { run_count result ≡ count }
{
    if value {
        TRUE_FILL + count
    } else {
        FALSE_FILL + count
    }
}

/// The word of the same kind whose rows are the others.
pub(crate) fn word_complement(word: u32) -> u32
    ensures { result ≡ turned_word word }
{
    word ^ if word < FALSE_FILL {
        ALL_TRUE
    } else {
        VALUE_BIT
    }
}

/// How many groups hold so many rows.
pub(crate) fn group_count(rows: u32) -> u32
    ensures { result ≡ groups_for rows }
{
    rows.div_ceil(GROUP_ROWS)
}

/// The group that begins with these rows, at most 31, and ends in false.
pub(crate) fn group_of(rows: &[bool]) -> u32
    requires { length rows.now ≤ GROUP_ROWS }
    ensures within { result < 2 ^ 31 }
    ensures rows { group_rows result ≡ rows.now ++ replicate (31 - length rows.now) false }
{
    let mut group = 0;
    for (place, row) in rows.iter().enumerate() {
        if *row {
            group += 1u32 << place;
        }
    }
    group
}

// Whether a word may stand among canonical words.
fn is_proper(word: u32) -> bool
    ensures { IsTrue result ↔ (IsMixedLiteral word × IsCountedFill word) }
{
    if is_literal(word) {
        0 < word && word < ALL_TRUE
    } else {
        Run::of_word(word).count != 0
    }
}

/// Whether two words side by side are fills of one value, which one fill could stand for.
pub(crate) fn joins(previous: u32, word: u32) -> bool
    ensures { IsTrue result ↔ ((2 ^ 31 ≤ previous) × (2 ^ 31 ≤ word) × (run_group previous ≡ run_group word)) }
{
    !is_literal(previous) && previous >> 30 == word >> 30
}

/// Whether the words are in the canonical form for so many rows.
pub(crate) fn is_canonical(words: &[u32], rows: u32) -> bool
    ensures { IsTrue result ↔ IsCanonical words.now rows }
{
    let mut left = group_count(rows);
    // A literal joins no word, so the first word has no neighbour to fear.
    let mut previous = 1;
    for word in words {
        let run = Run::of_word(*word);
        if !is_proper(*word) || joins(previous, *word) || left < run.count {
            return false;
        }
        left -= run.count;
        previous = *word;
    }
    if left != 0 {
        return false;
    }
    let last_rows = rows % GROUP_ROWS;
    last_rows == 0 || Run::of_word(previous).group >> last_rows == 0
}

/// The first rows of a group, and false after them.
pub(crate) fn first_rows(group: u32, rows: u32) -> u32
    requires { rows ≤ GROUP_ROWS }
    ensures within { result < 2 ^ 31 }
    ensures rows { group_rows result ≡ cleared rows (group_rows group) }
{
    group & ((1u32 << rows) - 1)
}

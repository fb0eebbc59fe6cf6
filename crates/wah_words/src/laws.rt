//! The laws of groups and of spellings, for the layers above. These functions do nothing: where one is called, its
//! clauses are known.
ghost use Rattle.std.specs.Prelude.{ℕ, Bool, Contains, IsTrue, List, ◌↔◌, ◌≡◌, ◌<◌, ◌≤◌, ◌+◌, ◌-◌, ◌*◌, ◌/◌, ◌%◌, ◌^◌, ◌&&◌, ◌||◌, ◌≢◌, ◌++◌, All, bit_and, bit_or, bit_xor, count_ones, drop, false, length, slice_index, slice_index_or, take};
ghost use Rattle.wah_words.specs.Place.{ArePagesOf, page_count};
ghost use Rattle.wah_words.specs.Group.{group_at, group_count, group_row, unpacked};
ghost use Rattle.wah_words.specs.Rows.{IsToggled, differs, has, pointwise, true_count};
ghost use Rattle.wah_words.specs.Sum.{sum_below};
ghost use Rattle.wah_words.specs.Canonical.{AreWords, FitsFills, Spells};

/// The groups of a list.
pub fn groups()
    ensures within { (list : List Bool) (k : ℕ) → group_at list k < 2 ^ 31 }
    ensures row { (list : List Bool) (k place : ℕ) → place < 31 →
        slice_index_or list (31 * k + place) false ≡ group_row (group_at list k) place }
    ensures past { (list : List Bool) (k : ℕ) → group_count (length list) ≤ k → group_at list k ≡ 0 }

    // A list is determined by its length and its groups.
    ensures same { (a b : List Bool) → length a ≡ length b → ((k : ℕ) → group_at a k ≡ group_at b k) → a ≡ b }
{}

/// The rows of groups.
pub fn rows_of_groups()
    ensures row { (groups : List ℕ) (row : ℕ) →
        slice_index_or (unpacked groups) row false ≡ group_row (slice_index groups (row / 31)) (row % 31) }
    ensures all { (groups : List ℕ) (k : ℕ) → All (λ group. group < 2 ^ 31) groups →
        group_at (unpacked groups) k ≡ slice_index groups k }

    // No matter whether false rows at the end are left out.
    ensures front { (groups : List ℕ) (rows k : ℕ) → All (λ group. group < 2 ^ 31) groups →
        All (λ row. row ≡ false) (drop rows (unpacked groups)) →
        group_at (take rows (unpacked groups)) k ≡ slice_index groups k }
{}

/// The rows that are turned.
pub fn toggles()
    ensures has { (places : List ℕ) (row : ℕ) → IsTrue (has places row) ↔ Contains places row }

    // A list is determined by its length, and by what it is made of by turning rows.
    ensures same { (old : List Bool) (places : List ℕ) (a b : List Bool) → length a ≡ length b →
        IsToggled old places a → IsToggled old places b → a ≡ b }

    // So is the list of groups in whole pages, with no row behind its own.
    ensures pages { (old : List Bool) (places groups : List ℕ) (rows : ℕ) → length old ≤ rows →
        All (λ place. place < rows) places → length groups ≡ 128 * page_count rows →
        IsToggled old places (unpacked groups) →
        ArePagesOf groups rows × (length (take rows (unpacked groups)) ≡ rows)
        × IsToggled old places (take rows (unpacked groups)) }

    // A row is turned where one of two lists has it.
    ensures parted { (a b : List ℕ) (row : ℕ) → has (a ++ b) row ≡ (has a row || has b row) }
    ensures absent { (places : List ℕ) (row : ℕ) → All (λ place. place ≢ row) places → has places row ≡ false }
{}

/// Operations on lists, group by group.
pub fn operations()
    ensures and { (a b : List Bool) (k : ℕ) → length a ≡ length b →
        group_at (pointwise ◌&&◌ a b) k ≡ bit_and (group_at a k) (group_at b k) }
    ensures or { (a b : List Bool) (k : ℕ) → length a ≡ length b →
        group_at (pointwise ◌||◌ a b) k ≡ bit_or (group_at a k) (group_at b k) }
    ensures xor { (a b : List Bool) (k : ℕ) → length a ≡ length b →
        group_at (pointwise differs a b) k ≡ bit_xor (group_at a k) (group_at b k) }
{}

/// How many rows are true, group by group, or page by page of 128 groups. More groups or pages than hold the list
/// add nothing.
pub fn counts()
    ensures groups { (list : List Bool) (count : ℕ) → length list ≤ 31 * count →
        true_count list ≡ sum_below (λ k. count_ones (group_at list k)) count }
    ensures pages { (list : List Bool) (count : ℕ) → length list ≤ 3968 * count → true_count list
        ≡ sum_below (λ page. sum_below (λ k. count_ones (group_at list (128 * page + k))) 128) count }
{}

/// The lists that words spell.
pub fn spellings()
    ensures some { (list : List Bool) → FitsFills list → (words : List ℕ) × AreWords words × Spells words list }
    ensures only { (words : List ℕ) (list : List Bool) → Spells words list → FitsFills list }

    // So it is with each list that takes no more groups than one fill can count.
    ensures few { (list : List Bool) → length list ≤ 31 * (2 ^ 30 - 1) → FitsFills list }
{}

//! Windows and rows, of given words and of drawn lists.
use super::*;
use std::process::Abort;
use std::test::Fail;

mod pages;
mod toggles;

// The bitvector of these words, fenced.
fn fenced_of(alloc: Global, words: &[u32], rows: u32) -> Result<Fenced, Fail> {
    let wah = Wah::from_words(words.to_vec(alloc)?, rows).ok_or("not canonical")?;
    Ok(Fenced::make(alloc, wah)?)
}

// The groups of a page, given as runs of one group, are what `window` writes.
fn has_window(rt: &impl Abort, fenced: &Fenced, page: u32, runs: &[(u32, usize)]) {
    let mut out = [0x5555_5555; 128];
    fenced.window(page, &mut out);
    let mut groups = out.iter();
    for (group, count) in runs {
        for _ in 0..*count {
            assert_eq!(rt; groups.next(), Some(group), "page {page}");
        }
    }
    for group in groups {
        assert_eq!(rt; *group, 0, "page {page}");
    }
}

#[test]
fn one_row_of_a_second_page(rt: HostRuntime) -> Result<(), Fail> {
    for (words, group) in [
        (&[0xc000_0080, 0x0000_0001][..], 0x7fff_ffff),
        (&[0x8000_0080, 0x0000_0001][..], 0),
    ] {
        let fenced = fenced_of(rt.alloc(), words, 3_969)?;
        has_window(&rt, &fenced, 0, &[(group, 128)]);
        has_window(&rt, &fenced, 1, &[(1, 1)]);
        has_window(&rt, &fenced, 2, &[]);
        assert_eq!(rt; fenced.wah().words(), words);
    }
    Ok(())
}

#[test]
fn runs_across_pages(rt: HostRuntime) -> Result<(), Fail> {
    // A run that ends in page 0, one that goes on into page 1, one that covers pages 2 and 3, and the rest.
    let words = [
        0x8000_0064,
        0xc000_0032,
        0x0000_0005,
        0x8000_0069,
        0xc000_0120,
        0x0000_0003,
    ];
    let fenced = fenced_of(rt.alloc(), &words, 545 * 31)?;
    has_window(&rt, &fenced, 0, &[(0, 100), (0x7fff_ffff, 28)]);
    has_window(&rt, &fenced, 1, &[(0x7fff_ffff, 22), (5, 1)]);
    has_window(&rt, &fenced, 2, &[(0x7fff_ffff, 128)]);
    has_window(&rt, &fenced, 3, &[(0x7fff_ffff, 128)]);
    has_window(&rt, &fenced, 4, &[(0x7fff_ffff, 32), (3, 1)]);
    has_window(&rt, &fenced, 5, &[]);
    Ok(())
}

#[test]
fn rows_through_the_fences(rt: HostRuntime) -> Result<(), Fail> {
    // Rows 0, 31, 62 to 92, 3,967 and 3,968 are true.
    let words = [
        0x0000_0001,
        0x0000_0001,
        0xc000_0001,
        0x8000_007c,
        0x4000_0000,
        0x0000_0001,
    ];
    let fenced = fenced_of(rt.alloc(), &words, 3_969)?;
    for (row, value) in [
        (0, true),
        (1, false),
        (30, false),
        (31, true),
        (32, false),
        (61, false),
        (62, true),
        (92, true),
        (93, false),
        (3_966, false),
        (3_967, true),
        (3_968, true),
    ] {
        assert!(rt; row < fenced.wah().len());
        assert!(rt; fenced.get(row) == value, "row {row}");
    }
    Ok(())
}

#[test]
fn pages_past_the_end(rt: HostRuntime) -> Result<(), Fail> {
    for (words, rows) in [
        (&[][..], 0),
        (&[0x0000_0001][..], 1),
        (&[0xc000_0080][..], 3_968),
    ] {
        let fenced = fenced_of(rt.alloc(), words, rows)?;
        for page in [1, 33_554_432, 67_108_864, 4_294_967_295] {
            has_window(&rt, &fenced, page, &[]);
        }
    }
    Ok(())
}

#[test]
fn the_longest_list(rt: HostRuntime) -> Result<(), Fail> {
    let fenced = fenced_of(rt.alloc(), &[0xc842_1084, 0x0000_0007], 4_294_967_295)?;
    has_window(&rt, &fenced, 0, &[(0x7fff_ffff, 128)]);
    has_window(&rt, &fenced, 1_082_401, &[(0x7fff_ffff, 4), (7, 1)]);
    has_window(&rt, &fenced, 1_082_402, &[]);
    assert!(rt; 4_294_967_294 < fenced.wah().len());
    assert!(rt; fenced.get(4_294_967_294));
    Ok(())
}

// Rows from a fixed generator, of which one in 64 begins a run of the other value.
fn drawn_rows(alloc: Global, seed: u64, count: usize) -> Result<Vec<bool>, Memory> {
    let mut rows = Vec::new(alloc);
    let mut state = seed;
    let mut value = false;
    for _ in 0..count {
        state = state
            .wrapping_mul(6_364_136_223_846_793_005)
            .wrapping_add(1_442_695_040_888_963_407);
        value ^= state >> 58 == 0;
        rows.push(value)?;
    }
    Ok(rows)
}

// The window of a page has the rows from the page's first on, and then false.
fn has_rows(rt: &impl Abort, fenced: &Fenced, page: u32, rows: &[bool]) {
    let mut out = [0x5555_5555; 128];
    fenced.window(page, &mut out);
    let mut rest = rows.iter().skip(page as usize * PAGE_ROWS as usize);
    for group in out {
        for bit in 0..31u32 {
            let row = rest.next().copied().unwrap_or(false);
            assert_eq!(rt; (group >> bit) & 1 == 1, row, "page {page}");
        }
    }
}

// The groups of 32 pages, put into numbers, have the rows beside what the numbers were.
fn has_rows_within(rt: &impl Abort, fenced: &Fenced, first: u32, rows: &[bool]) {
    let mut out = [0x8000_0001; 4096];
    fenced.or_into(first, &mut out);
    let mut rest = rows.iter().skip(first as usize * PAGE_ROWS as usize);
    for group in out {
        for bit in 0..32u32 {
            let row = bit < 31 && rest.next().copied().unwrap_or(false);
            let was = bit == 0 || bit == 31;
            assert_eq!(rt; (group >> bit) & 1 == 1, row || was, "from page {first}");
        }
    }
}

#[test]
fn windows_are_those_of_plain_lists(rt: HostRuntime) -> Result<(), Fail> {
    for count in (0..131).chain(3_960..3_975).chain(130_000..130_001) {
        let rows = drawn_rows(rt.alloc(), count as u64, count)?;
        assert!(rt; rows.len() < 1_000_000);
        let fenced = Fenced::make(rt.alloc(), Wah::from_rows(rt.alloc(), &rows)?)?;
        for page in 0..fenced.wah().len() / PAGE_ROWS + 2 {
            has_rows(&rt, &fenced, page, &rows);
        }
    }
    Ok(())
}

#[test]
fn ors_are_those_of_plain_lists(rt: HostRuntime) -> Result<(), Fail> {
    for (count, firsts) in [(100, &[0, 1][..]), (130_000, &[0, 2, 33])] {
        let rows = drawn_rows(rt.alloc(), count as u64, count)?;
        assert!(rt; rows.len() < 1_000_000);
        let fenced = Fenced::make(rt.alloc(), Wah::from_rows(rt.alloc(), &rows)?)?;
        for first in firsts {
            has_rows_within(&rt, &fenced, *first, &rows);
        }
    }
    Ok(())
}

//! Lists written page by page or kept plain, and the places of their pages, against plain lists.
ghost use Rattle.std.specs.Prelude.{◌≡◌, ◌<◌, ◌^◌, All, IfOk};
ghost use Rattle.fence_window.specs.Window.{IsWindow};

use super::{Fenced, drawn_rows, has_rows};
use crate::{BLOCK_GROUPS, Memory, PAGE_GROUPS, PAGE_ROWS, PageWriter, Plain};
use std::alloc::Global;
use std::process::Abort;
use std::test::Fail;
use wah_words::{Wah, pages_of_list, true_places, true_rows_of};

// A page of a list.
fn page_of(fenced: &Fenced, number: u32) -> [u32; PAGE_GROUPS]
    ensures window { IsWindow fenced.now number result }
    ensures within { All (λ group. group < 2 ^ 31) result }
{
    pages_of_list();
    let mut page = [0; PAGE_GROUPS];
    fenced.window(number, &mut page);
    page
}

// The list once more, written page by page.
fn rewritten(alloc: Global, fenced: &Fenced) -> Result<Fenced, Memory>
    ensures { IfOk result (λ again. again ≡ fenced.now) }
{
    pages_of_list();
    let rows = fenced.wah().len();
    let pages = rows.div_ceil(PAGE_ROWS);
    let mut writer = PageWriter::with_capacity(alloc, pages)?;
    for number in 0..pages {
        writer.push_page(&page_of(fenced, number))?;
    }
    Fenced::from_pages(writer, rows)
}

// The list once more, its groups kept plain.
fn plain_of(alloc: Global, fenced: &Fenced) -> Result<Plain, Memory>
    ensures { IfOk result (λ plain. plain ≡ fenced.now) }
{
    pages_of_list();
    let rows = fenced.wah().len();
    let mut groups = Vec::new(alloc);
    for number in 0..rows.div_ceil(PAGE_ROWS) {
        groups.extend_from_slice(&page_of(fenced, number))?;
    }
    Ok(Plain::from_groups(groups, rows))
}

// The places of a page are those of the rows that are true.
fn has_places(rt: &impl Abort, fenced: &Fenced, number: u32, rows: &[bool]) {
    let page = page_of(fenced, number);
    let mut places = [0xffff; PAGE_ROWS as usize];
    let count = true_places(&page, &mut places);
    assert_eq!(rt; true_rows_of(&page) as usize, count);
    let mut found = places[..count].iter();
    let rows = rows.iter().skip(number as usize * PAGE_ROWS as usize);
    for (place, row) in rows.take(PAGE_ROWS as usize).enumerate() {
        if *row {
            assert!(rt;
                found.next().is_some_and(|it| usize::from(*it) == place),
                "page {number}"
            );
        }
    }
    assert!(rt; found.next().is_none(), "page {number}");
}

#[test]
fn pages_are_those_of_plain_lists(rt: HostRuntime) -> Result<(), Fail> {
    let alloc = rt.alloc();
    for count in (0..131).chain(3_960..3_975).chain(130_000..130_001) {
        let rows = drawn_rows(alloc, count as u64, count)?;
        assert!(rt; rows.len() < 1_000_000);
        let fenced = Fenced::make(alloc, Wah::from_rows(alloc, &rows)?)?;
        let again = rewritten(alloc, &fenced)?;
        assert_eq!(rt; again.wah().words(), fenced.wah().words(), "{count} rows");
        for page in 0..fenced.wah().len() / PAGE_ROWS + 2 {
            has_rows(&rt, &again, page, &rows);
            has_places(&rt, &again, page, &rows);
        }
    }
    Ok(())
}

#[test]
fn pages_of_sparse_lists(rt: HostRuntime) -> Result<(), Fail> {
    // Fills that cover whole pages, that end with one, and that end the list.
    let alloc = rt.alloc();
    for places in [
        &[][..],
        &[0, 3_967, 3_968, 100_000],
        &[7_935, 999_999],
        &[31, 62, 93, 999_000],
    ] {
        let fenced = Fenced::make(alloc, Wah::from_places(alloc, places, 1_000_000)?)?;
        let again = rewritten(alloc, &fenced)?;
        assert_eq!(rt; again.wah().words(), fenced.wah().words());
        for place in places {
            assert!(rt; *place < 1_000_000);
            assert!(rt; again.get(*place), "row {place}");
        }
    }
    Ok(())
}

#[test]
fn plain_lists_are_those_of_words(rt: HostRuntime) -> Result<(), Fail> {
    let alloc = rt.alloc();
    for count in [0, 100, 130_000] {
        let rows = drawn_rows(alloc, count as u64, count)?;
        assert!(rt; rows.len() < 1_000_000);
        let fenced = Fenced::make(alloc, Wah::from_rows(alloc, &rows)?)?;
        let plain = plain_of(alloc, &fenced)?;
        for first in [0, 1, 2, 32, 33, 67_108_863, 4_294_967_295] {
            let mut out = [0x8000_0001; BLOCK_GROUPS];
            let mut other = [0x8000_0001; BLOCK_GROUPS];
            fenced.or_into(first, &mut out);
            plain.or_into(first, &mut other);
            assert!(rt; out == other, "{count} rows from page {first}");
        }
    }
    Ok(())
}

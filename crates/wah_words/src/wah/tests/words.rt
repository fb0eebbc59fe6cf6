//! Spellings and what is none.
use super::{rows_of_runs, wah_of_rows, wah_of_words};
use crate::Wah;
use std::test::Fail;

#[test]
fn rows_have_these_words(rt: HostRuntime) -> Result<(), Fail> {
    for (runs, words, count) in [
        (&[][..], &[][..], 0),
        (&[(false, 31), (true, 31)], &[0x8000_0001, 0xc000_0001], 31),
        (&[(false, 32)], &[0x8000_0002], 0),
        (&[(true, 32)], &[0xc000_0001, 0x0000_0001], 32),
        (
            &[(true, 1), (false, 30), (true, 1)],
            &[0x0000_0001, 0x0000_0001],
            2,
        ),
        (&[(true, 5)], &[0x0000_001f], 5),
        (&[(true, 5), (false, 31)], &[0x0000_001f, 0x8000_0001], 5),
    ] {
        let rows = rows_of_runs(rt.alloc(), runs)?;
        let wah = wah_of_rows(&rt, rt.alloc(), &rows)?;
        assert_eq!(rt; wah.words(), words);
        assert_eq!(rt; wah.len() as usize, rows.len());
        let back = wah_of_words(rt.alloc(), words, wah.len())?;
        assert_eq!(rt; back.words(), words);
        assert_eq!(rt; (wah.count(), back.count()), (count, count));
    }
    Ok(())
}

#[test]
fn other_words_are_refused(rt: HostRuntime) -> Result<(), Fail> {
    for (words, rows) in [
        (&[0x8000_0001, 0x8000_0001][..], 62),
        (&[0xc000_0001, 0xc000_0001], 62),
        (&[0x0000_0000], 31),
        (&[0x7fff_ffff], 31),
        (&[0x8000_0000], 0),
        (&[0x0000_0002], 1),
        (&[0xc000_0001], 5),
        (&[0x8000_0001], 32),
        (&[0x8000_0002], 31),
        (&[0x0000_0001], 0),
        (&[], 1),
        (&[0xc000_0002], 32),
        (&[0xbfff_ffff, 0xffff_ffff], 62),
        (&[0x0000_0001, 0x8000_0000], 31),
    ] {
        let read = Wah::from_words(words.to_vec(rt.alloc())?, rows);
        assert!(rt; read.is_none(), "{rows} rows");
    }
    Ok(())
}

#[test]
fn no_places_are_true(rt: HostRuntime) -> Result<(), Fail> {
    let none = Wah::from_places(rt.alloc(), &[], 0)?;
    assert_eq!(rt; none.words(), [].as_slice());
    let none = Wah::from_places(rt.alloc(), &[], 32)?;
    assert_eq!(rt; none.words(), [0x8000_0002].as_slice());
    Ok(())
}

#[test]
fn places_are_true(rt: HostRuntime) -> Result<(), Fail> {
    let some = Wah::from_places(rt.alloc(), &[0, 31, 3968], 3969)?;
    assert_eq!(rt; some.words(), [1, 1, 0x8000_007e, 1].as_slice());
    let some = Wah::from_places(rt.alloc(), &[62, 63], 200)?;
    assert_eq!(rt; some.words(), [0x8000_0002, 3, 0x8000_0004].as_slice());
    Ok(())
}

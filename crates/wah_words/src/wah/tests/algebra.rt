//! Operations on words.
use super::wah_of_words;
use std::test::Fail;

#[test]
fn operations_join_runs(rt: HostRuntime) -> Result<(), Fail> {
    for (a, b, rows, both, either, one) in [
        (
            &[0xc000_0001, 0x8000_0001, 0xc000_0001][..],
            &[0xc000_0003][..],
            93,
            &[0xc000_0001, 0x8000_0001, 0xc000_0001][..],
            &[0xc000_0003][..],
            &[0x8000_0001, 0xc000_0001, 0x8000_0001][..],
        ),
        (
            &[0x8000_0001, 0x0000_0008, 0x8000_0001],
            &[0x8000_0001, 0x0000_0008, 0x8000_0001],
            93,
            &[0x8000_0001, 0x0000_0008, 0x8000_0001],
            &[0x8000_0001, 0x0000_0008, 0x8000_0001],
            &[0x8000_0003],
        ),
        (
            &[0x8000_0001, 0x0000_0008, 0x8000_0001],
            &[0xc000_0001, 0x7fff_fff7, 0xc000_0001],
            93,
            &[0x8000_0003],
            &[0xc000_0003],
            &[0xc000_0003],
        ),
    ] {
        let a = wah_of_words(rt.alloc(), a, rows)?;
        let b = wah_of_words(rt.alloc(), b, rows)?;
        assert_eq!(rt; a.len(), b.len());
        assert_eq!(rt; a.and(rt.alloc(), &b)?.words(), both);
        assert_eq!(rt; a.or(rt.alloc(), &b)?.words(), either);
        assert_eq!(rt; a.xor(rt.alloc(), &b)?.words(), one);
    }
    Ok(())
}

#[test]
fn a_list_and_its_complement(rt: HostRuntime) -> Result<(), Fail> {
    let a = wah_of_words(rt.alloc(), &[0x8000_0001, 0xc000_0001], 62)?;
    let b = a.not(rt.alloc())?;
    assert_eq!(rt; b.words(), [0xc000_0001, 0x8000_0001].as_slice());
    assert_eq!(rt; a.and(rt.alloc(), &b)?.words(), [0x8000_0002].as_slice());
    assert_eq!(rt; a.or(rt.alloc(), &b)?.words(), [0xc000_0002].as_slice());
    assert_eq!(rt; a.xor(rt.alloc(), &b)?.words(), [0xc000_0002].as_slice());
    Ok(())
}

#[test]
fn complements(rt: HostRuntime) -> Result<(), Fail> {
    for (words, rows, others) in [
        (
            &[0x8000_0001, 0xc000_0001][..],
            62,
            &[0xc000_0001, 0x8000_0001][..],
        ),
        (&[0x8000_0001], 5, &[0x0000_001f]),
        (&[0x8000_0002], 32, &[0xc000_0001, 0x0000_0001]),
        (&[0x8000_0001, 0x0000_001f], 36, &[0xc000_0001, 0x8000_0001]),
        (&[], 0, &[]),
    ] {
        let wah = wah_of_words(rt.alloc(), words, rows)?;
        assert_eq!(rt; wah.not(rt.alloc())?.words(), others);
    }
    Ok(())
}

#[test]
fn lists_are_extended(rt: HostRuntime) -> Result<(), Fail> {
    for (words, rows, longer, extended) in [
        (&[][..], 0, 0, &[][..]),
        (&[], 0, 63, &[0x8000_0003]),
        (&[0x0000_001f], 5, 31, &[0x0000_001f]),
        (&[0x0000_001f], 5, 36, &[0x0000_001f, 0x8000_0001]),
        (
            &[0xc000_0001, 0x8000_0001],
            40,
            100,
            &[0xc000_0001, 0x8000_0003],
        ),
    ] {
        let wah = wah_of_words(rt.alloc(), words, rows)?;
        assert_eq!(rt; wah.len(), rows);
        let wah = wah.extended(rt.alloc(), longer)?;
        assert_eq!(rt; wah.words(), extended);
        assert_eq!(rt; wah.len(), longer);
    }
    Ok(())
}

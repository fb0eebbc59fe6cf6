//! Drills. The answers are those of a program apart, which has the generator and the table and no index.
use super::writes;
use std::test::Fail;

#[test]
fn drills(rt: HostRuntime) -> Result<(), Fail> {
    for (words, out) in [
        (
            ["drill", "0", "1"],
            "drill seed=0 orders=1 base=3 journal=0\nfront=0 count=3 sum=16857.5823\n",
        ),
        (
            ["drill", "4294967295", "3"],
            "drill seed=4294967295 orders=3 base=19 journal=6\nfront=6 count=13 sum=32588.1346\n",
        ),
        (
            ["drill", "7", "2000"],
            "drill seed=7 orders=2000 base=8076 journal=3216\nfront=3216 count=6320 sum=16387403.4837\n",
        ),
        (
            ["drill", "007", "0002000"],
            "drill seed=7 orders=2000 base=8076 journal=3216\nfront=3216 count=6320 sum=16387403.4837\n",
        ),
    ] {
        writes(&rt, rt.alloc(), &[], &words, out)?;
    }
    Ok(())
}

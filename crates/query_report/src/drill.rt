//! What a drill writes.
ghost use Rattle.std.specs.Prelude.{◌≡◌, ◌++◌, IfOk, OnOk};
ghost use Rattle.query_report.specs.Drill.{drill_text, last_text, made_text, size_text};

use crate::Memory;
use crate::piece::put_decimal4;
use crate::reply::put_two;
use std::alloc::Global;

/// What a drill came to.
#[derive(Clone, Copy, Debug, PartialEq, Eq)]
pub struct Drill {
    /// What the base table and the script were made from.
    pub seed: u32,
    pub orders: u32,
    /// How many rows the base table has.
    pub base: u32,
    /// How many deltas the journal has.
    pub journal: u32,
    /// Behind how many of them the last answer was given.
    pub front: u32,
    /// How many rows it found.
    pub count: u32,
    /// Their sum, in units of 0.0001.
    pub sum: u64,
}

/// The two lines of a drill.
pub fn drill_text(alloc: Global, drill: &Drill) -> Result<Vec<u8>, Memory>
    ensures { IfOk result (λ text. text.items ≡ drill_text drill.now) }
{
    let mut text = Vec::new(alloc);
    put_made(&mut text, drill)?;
    put_last(&mut text, drill)?;
    Ok(text)
}

fn put_made(text: &mut Vec<u8>, drill: &Drill) -> Result<(), Memory>
    ensures { OnOk result (text.new.items ≡ text.old.items ++ made_text drill.now) }
{
    put_two(text, b"drill seed=", drill.seed, b" orders=", drill.orders)?;
    put_size(text, drill)?;
    Ok(())
}

fn put_size(text: &mut Vec<u8>, drill: &Drill) -> Result<(), Memory>
    ensures { OnOk result (text.new.items ≡ text.old.items ++ size_text drill.now) }
{
    put_two(text, b" base=", drill.base, b" journal=", drill.journal)?;
    text.extend_from_slice(b"\n")?;
    Ok(())
}

fn put_last(text: &mut Vec<u8>, drill: &Drill) -> Result<(), Memory>
    ensures { OnOk result (text.new.items ≡ text.old.items ++ last_text drill.now) }
{
    put_two(text, b"front=", drill.front, b" count=", drill.count)?;
    text.extend_from_slice(b" sum=")?;
    put_decimal4(text, drill.sum)?;
    text.extend_from_slice(b"\n")?;
    Ok(())
}

#[cfg(test)]
mod tests {
    use super::*;
    use std::test::Fail;

    #[test]
    fn two_lines(rt: HostRuntime) -> Result<(), Fail> {
        let drill = Drill {
            seed: 7,
            orders: 2000,
            base: 8076,
            journal: 3216,
            front: 3216,
            count: 6320,
            sum: 163_874_034_837,
        };
        assert_eq!(rt;
            drill_text(rt.alloc(), &drill)?.as_slice(),
            "drill seed=7 orders=2000 base=8076 journal=3216\nfront=3216 count=6320 sum=16387403.4837\n".as_bytes()
        );
        Ok(())
    }
}

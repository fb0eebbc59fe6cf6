//! The line of an answer.
ghost use Rattle.std.specs.Prelude.{◌≡◌, IfOk};
ghost use Rattle.query_report.specs.Answer.{answer_text};

use crate::{Memory, decimal4};
use cubit_base::Totals;
use itoa::Buffer;
use std::alloc::Global;

/// The line that a query writes over a table that nothing has changed.
pub fn answer_line(alloc: Global, totals: &Totals) -> Result<Vec<u8>, Memory>
    ensures { IfOk result (λ line. line.items ≡ answer_text totals.now.count totals.now.sum) }
{
    let mut buffer = Buffer::new();
    let mut line = Vec::from_slice(alloc, b"front=0 count=")?;
    line.extend_from_slice(buffer.format(totals.count).as_bytes())?;
    line.extend_from_slice(b" sum=")?;
    line.extend_from_slice(&decimal4(alloc, totals.sum)?)?;
    line.extend_from_slice(b"\n")?;
    Ok(line)
}

#[cfg(test)]
mod tests {
    use super::*;
    use std::test::Fail;

    #[test]
    fn lines(rt: HostRuntime) -> Result<(), Fail> {
        for (count, sum, line) in [
            (0, 0, "front=0 count=0 sum=0.0000\n"),
            (1, 8_467_292, "front=0 count=1 sum=846.7292\n"),
            (
                16_777_216,
                16_777_215_832_227_840,
                "front=0 count=16777216 sum=1677721583222.7840\n",
            ),
        ] {
            let totals = Totals { count, sum };
            assert_eq!(rt;
                answer_line(rt.alloc(), &totals)?.as_slice(),
                line.as_bytes()
            );
        }
        Ok(())
    }
}

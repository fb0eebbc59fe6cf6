//! Sums of money: units of 0.0001, the product of cents and hundredths.
ghost use Rattle.std.specs.Prelude.{◌≡◌, ◌+◌, ◌<◌, ◌∷◌, IfOk};
ghost use Rattle.query_report.specs.Decimal.{decimal4_text, four_digits};

use crate::Memory;
use itoa::Buffer;
use std::alloc::Global;

/// The text of a sum of units of 0.0001: the whole units without leading zeros, a point, and four digits.
pub fn decimal4(alloc: Global, units: u64) -> Result<Vec<u8>, Memory>
    ensures { IfOk result (λ text. text.items ≡ decimal4_text units) }
{
    let mut buffer = Buffer::new();
    let mut text = Vec::from_slice(alloc, buffer.format(units / 10_000).as_bytes())?;
    text.extend_from_slice(&fraction((units % 10_000) as u16))?;
    Ok(text)
}

// The point and the four digits behind it.
pub(crate) fn fraction(part: u16) -> [u8; 5]
    requires { part < 10_000 }
    ensures { result ≡ 46 ∷ four_digits part }
{
    [
        b'.',
        digit(part / 1000),
        digit(part / 100 % 10),
        digit(part / 10 % 10),
        digit(part % 10),
    ]
}

pub(crate) fn digit(n: u16) -> u8
    requires { n < 10 }
    ensures { result ≡ 48 + n }
{
    b'0' + n as u8
}

#[cfg(test)]
mod tests {
    use super::*;
    use std::test::Fail;

    #[test]
    fn sums(rt: HostRuntime) -> Result<(), Fail> {
        for (units, text) in [
            (0, "0.0000"),
            (1, "0.0001"),
            (9_999, "0.9999"),
            (10_000, "1.0000"),
            (8_467_292, "846.7292"),
            (18_446_744_073_709_551_615, "1844674407370955.1615"),
        ] {
            assert_eq!(rt; decimal4(rt.alloc(), units)?.as_slice(), text.as_bytes());
        }
        Ok(())
    }
}

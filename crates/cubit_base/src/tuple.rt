//! The values of one `lineitem` row that queries read (TPC-H clause 1.4.1), within the ranges that are accepted.
ghost use Rattle.std.specs.Prelude.{◌≡◌, ◌≢◌, ◌≤◌, IfSome, IfNone};
ghost use Rattle.cubit_base.specs.Tuple.{TupleValue, IsTuple, amount_of, flag_number, status_number};
ghost use Rattle.cubit_base.specs.Word.{tuple_word};

use std::marker::Model;

/// L_RETURNFLAG: accepted, none, returned.
#[derive(Clone, Copy, Debug, PartialEq, Eq)]
pub enum Flag {
    A,
    N,
    R,
}

/// L_LINESTATUS: filled or open.
#[derive(Clone, Copy, Debug, PartialEq, Eq)]
pub enum LineStatus {
    F,
    O,
}

/// The values of a row. A value of this type is always within the ranges of `IsTuple`.
#[derive(Clone, Copy, Debug, PartialEq, Eq)]
pub struct Tuple {
    /// L_EXTENDEDPRICE in cents, 0 to 99,999,999.
    pub price: u32,
    /// L_SHIPDATE in days since 1992-01-01, 0 to 2556.
    pub day: u16,
    /// L_QUANTITY, 1 to 50.
    pub qty: u8,
    /// L_DISCOUNT in hundredths, 0 to 10.
    pub disc: u8,
    /// L_TAX in hundredths, 0 to 8.
    pub tax: u8,
    /// L_RETURNFLAG.
    pub flag: Flag,
    /// L_LINESTATUS.
    pub status: LineStatus,
}

impl Model for Tuple {
    ghost use Rattle.std.specs.Prelude.{◌≤◌};
    ghost use Rattle.cubit_base.specs.Tuple.{TupleValue, IsTuple};

    ghost Value = { TupleValue };

    ghost view = { λ t. record {
      price = t.price;
      day = t.day;
      qty = t.qty;
      disc = t.disc;
      tax = t.tax;
      flag = t.flag;
      status = t.status;
    } };

    ghost invariant = { λ t. IsTuple (record {
      price = t.price;
      day = t.day;
      qty = t.qty;
      disc = t.disc;
      tax = t.tax;
      flag = t.flag;
      status = t.status;
    }) };

    ghost inverse = { λ v. record {
      price = v.price;
      day = v.day;
      qty = v.qty;
      disc = v.disc;
      tax = v.tax;
      flag = v.flag;
      status = v.status;
    } };
}

impl Flag {
    /// A 0, N 1, R 2.
    pub fn number(self) -> u8
        ensures { result ≡ flag_number self }
    {
        self as u8
    }
}

impl LineStatus {
    /// F 0, O 1.
    pub fn number(self) -> u8
        ensures { result ≡ status_number self }
    {
        self as u8
    }
}

impl Tuple {
    /// Price times discount, in units of 0.0001.
    pub fn amount(&self) -> u64
        ensures value { result ≡ amount_of self.now }
        ensures within { result ≤ 999_999_990 }
    {
        u64::from(self.price) * u64::from(self.disc)
    }

    /// The tuple in one word of 57 bits.
    pub fn pack(&self) -> u64
        ensures { result ≡ tuple_word self.now }
    {
        1 + u64::from(self.price) * 0x2
            + u64::from(self.day) * 0x1000_0000
            + u64::from(self.qty) * 0x100_0000_0000
            + u64::from(self.disc) * 0x4000_0000_0000
            + u64::from(self.tax) * 0x4_0000_0000_0000
            + u64::from(self.flag.number()) * 0x40_0000_0000_0000
            + u64::from(self.status.number()) * 0x100_0000_0000_0000
    }

    /// The tuple that has this word, or none where no tuple has it.
    pub fn unpack(word: u64) -> Option<Tuple>
        ensures some { IfSome result (λ t. IsTuple t × (word ≡ tuple_word t)) }
        ensures none { IfNone result ((t : TupleValue) → IsTuple t → word ≢ tuple_word t) }
    {
        let price = ((word >> 1) & 0x7ff_ffff) as u32;
        let day = ((word >> 28) & 0xfff) as u16;
        let qty = ((word >> 40) & 0x3f) as u8;
        let disc = ((word >> 46) & 0xf) as u8;
        let tax = ((word >> 50) & 0xf) as u8;
        let flag = match (word >> 54) & 0x3 {
            0 => Flag::A,
            1 => Flag::N,
            2 => Flag::R,
            _ => return None,
        };
        let status = if (word >> 56) & 0x1 == 0 {
            LineStatus::F
        } else {
            LineStatus::O
        };
        if word & 0x1 == 0 || word >> 57 != 0 || qty == 0 {
            return None;
        }
        if price > 99_999_999 || day > 2556 || qty > 50 || disc > 10 || tax > 8 {
            return None;
        }
        Some(Tuple {
            price,
            day,
            qty,
            disc,
            tax,
            flag,
            status,
        })
    }
}

#[cfg(test)]
mod tests {
    use super::*;

    fn tuple_of(
        price: u32,
        day: u16,
        qty: u8,
        disc: u8,
        tax: u8,
        flag: Flag,
        status: LineStatus,
    ) -> Tuple
        requires price { price ≤ 99_999_999 }
        requires day { day ≤ 2556 }
        requires qty { (1 ≤ qty) × (qty ≤ 50) }
        requires disc { disc ≤ 10 }
        requires tax { tax ≤ 8 }
    {
        Tuple {
            price,
            day,
            qty,
            disc,
            tax,
            flag,
            status,
        }
    }

    #[test]
    fn words(rt: HostRuntime) {
        for (tuple, word) in [
            (
                tuple_of(1, 0, 1, 0, 0, Flag::A, LineStatus::F),
                0x0000_0100_0000_0003,
            ),
            (
                tuple_of(2_116_823, 1533, 17, 4, 2, Flag::N, LineStatus::O),
                92_624_370_551_265_711,
            ),
            (
                tuple_of(4_598_316, 1563, 36, 9, 6, Flag::N, LineStatus::O),
                97_500_712_678_478_937,
            ),
            (
                tuple_of(1_330_960, 1489, 8, 10, 2, Flag::N, LineStatus::O),
                93_036_675_598_949_921,
            ),
            (
                tuple_of(99_999_999, 2556, 50, 10, 8, Flag::R, LineStatus::O),
                0x01a2_b29f_cbeb_c1ff,
            ),
        ] {
            assert_eq!(rt; tuple.pack(), word);
            assert_eq!(rt; Tuple::unpack(word), Some(tuple));
        }
    }

    #[test]
    fn no_words(rt: HostRuntime) {
        let word = 0x0000_0100_0000_0003;
        assert!(rt; Tuple::unpack(word).is_some());
        for other in [
            0,
            word - 1,
            word - 2 + 2 * 100_000_000,
            word + (2557 << 28),
            word - (1 << 40),
            word + (50 << 40),
            word + (11 << 46),
            word + (9 << 50),
            word + (3 << 54),
            word + (1 << 57),
        ] {
            assert_eq!(rt; Tuple::unpack(other), None, "of {other}");
        }
    }
}

//! A table in memory, at 16 bytes a row.
ghost use Rattle.std.specs.Prelude.{◌≡◌, ◌<◌, ◌≤◌, [], ◌∷◌, ◌++◌, length, slice_get, IsTrue, ◌↔◌, IfOk, IfSome, OnOk, OnErr};
ghost use Rattle.cubit_base.specs.Answer.{answer};
ghost use Rattle.cubit_base.specs.Table.{HasTuples};
ghost use Rattle.cubit_base.specs.Tuple.{IsTuple};
ghost use Rattle.cubit_base.specs.declared.table.TheConstants.{ROW_LIMIT};

use crate::{Flag, Key, LineStatus, Memory, Predicate, Tuple};
use std::alloc::Global;
use std::marker::Model;

// A row in 16 bytes. A quantity of 0, which no tuple has, says that there is no tuple.
#[derive(Drop)]
struct StoredRow {
    price: u32,
    order: u32,
    day: u16,
    qty: u8,
    disc: u8,
    tax: u8,
    line: u8,
    flag: Flag,
    status: LineStatus,
}

const _: () = prove!(size_of::<StoredRow>() == 16);

impl Model for StoredRow {
    ghost use Rattle.cubit_base.specs.Table.{Row};

    ghost Value = { Row };

    ghost use Rattle.cubit_base.specs.StoredRow.{row_of, IsStoredRow};

    ghost view = { row_of };

    ghost invariant = { IsStoredRow };
}

impl StoredRow {
    fn new(key: Key, tuple: Option<Tuple>) -> StoredRow
        ensures value { result ≡ (key, tuple) }
        ensures within { IfSome tuple IsTuple }
    {
        match tuple {
            Some(t) => StoredRow {
                price: t.price,
                order: key.order,
                day: t.day,
                qty: t.qty,
                disc: t.disc,
                tax: t.tax,
                line: key.line,
                flag: t.flag,
                status: t.status,
            },
            None => StoredRow {
                price: 0,
                order: key.order,
                day: 0,
                qty: 0,
                disc: 0,
                tax: 0,
                line: key.line,
                flag: Flag::A,
                status: LineStatus::F,
            },
        }
    }

    fn row(&self) -> (Key, Option<Tuple>)
        ensures { result ≡ self.now }
    {
        let key = Key {
            order: self.order,
            line: self.line,
        };
        if self.qty == 0 {
            return (key, None);
        }
        let tuple = Tuple {
            price: self.price,
            day: self.day,
            qty: self.qty,
            disc: self.disc,
            tax: self.tax,
            flag: self.flag,
            status: self.status,
        };
        (key, Some(tuple))
    }
}

/// The most rows that a table may have.
pub const ROW_LIMIT: u32 = 16_777_216;

const _: () = prove!(ROW_LIMIT == 16_777_216);

/// The rows of a table, numbered from 0; contracts see them as a list.
#[derive(Drop)]
pub struct Table {
    rows: Vec<StoredRow>,
}

impl Model for Table {
    ghost use Rattle.std.specs.Prelude.{List, length, ◌≤◌};
    ghost use Rattle.cubit_base.specs.Table.{Row, HasTuples};
    ghost use Rattle.cubit_base.specs.declared.table.TheConstants.{ROW_LIMIT};

    ghost Value = { List Row };

    ghost view = { λ t. t.rows.items };

    ghost invariant = { λ t. (length t.rows.items ≤ ROW_LIMIT) × HasTuples t.rows.items };
}

/// What a query adds up over the rows that match.
#[derive(Clone, Copy, Debug, PartialEq, Eq)]
pub struct Totals {
    /// How many rows match.
    pub count: u32,
    /// The sum of price times discount, in units of 0.0001.
    pub sum: u64,
}

impl Table {
    /// The empty table. It takes no memory.
    pub fn new(alloc: Global) -> Table
        ensures { result ≡ [] }
    {
        Table {
            rows: Vec::new(alloc),
        }
    }

    /// The empty table, with room for that many rows.
    pub fn with_capacity(alloc: Global, rows: u32) -> Result<Table, Memory>
        ensures { IfOk result (λ table. table ≡ []) }
    {
        Ok(Table {
            rows: Vec::with_capacity(alloc, rows as usize)?,
        })
    }

    /// The number of rows.
    pub fn len(&self) -> u32
        ensures value { result ≡ length self.now }
        ensures within { length self.now ≤ ROW_LIMIT }
    {
        self.rows.len() as u32
    }

    /// Whether there is no row.
    pub fn is_empty(&self) -> bool
        ensures { IsTrue result ↔ (self.now ≡ []) }
    {
        self.rows.is_empty()
    }

    /// Each tuple is within the accepted ranges. This does nothing: where it is called, that is known.
    pub fn has_tuples(&self)
        ensures { HasTuples self.now }
    {
        let _rows = &self.rows;
    }

    /// Puts a row at the end.
    pub fn push(&mut self, key: Key, tuple: Option<Tuple>) -> Result<(), Memory>
        requires { length self.old < ROW_LIMIT }
        ensures ok { OnOk result (self.new ≡ self.old ++ (key, tuple) ∷ []) }
        ensures err { OnErr result (self.new ≡ self.old) }
    {
        self.rows.push(StoredRow::new(key, tuple))?;
        Ok(())
    }

    /// The row with this number, or none past the end.
    pub fn row(&self, n: u32) -> Option<(Key, Option<Tuple>)>
        ensures { result ≡ slice_get self.now n }
    {
        match self.rows.get(n as usize) {
            Some(stored) => Some(stored.row()),
            None => None,
        }
    }

    /// The answer of the predicate by one pass over all rows.
    pub fn totals(&self, predicate: &Predicate) -> Totals
        ensures count { result.count ≡ (answer self.now predicate.now).count }
        ensures sum { result.sum ≡ (answer self.now predicate.now).sum }
    {
        let mut totals = Totals { count: 0, sum: 0 };
        for stored in &self.rows {
            if let (_, Some(tuple)) = stored.row() {
                if predicate.matches(&tuple) {
                    totals.count += 1;
                    totals.sum += tuple.amount();
                }
            }
        }
        totals
    }
}

#[cfg(test)]
mod tests {
    use super::*;
    use std::test::Fail;

    #[test]
    fn rows_come_back(rt: HostRuntime) -> Result<(), Fail> {
        let mut table = Table::with_capacity(rt.alloc(), 2)?;
        assert!(rt; table.is_empty());
        let key = Key { order: 1, line: 7 };
        let tuple = Tuple {
            price: 99_999_999,
            day: 2556,
            qty: 50,
            disc: 10,
            tax: 8,
            flag: Flag::R,
            status: LineStatus::O,
        };
        table.push(key, Some(tuple))?;
        table.push(key, None)?;
        assert_eq!(rt; table.row(0), Some((key, Some(tuple))));
        assert_eq!(rt; table.row(1), Some((key, None)));
        assert_eq!(rt; table.row(2), None);
        assert_eq!(rt; table.len(), 2);
        Ok(())
    }

    #[test]
    fn answers_query_6(rt: HostRuntime) -> Result<(), Fail> {
        let mut table = Table::new(rt.alloc());
        let key = Key { order: 1, line: 1 };
        let (price, day, flag, status) = (2_116_823, 1533, Flag::N, LineStatus::O);
        table.push(
            key,
            Some(Tuple {
                price,
                day,
                qty: 17,
                disc: 4,
                tax: 2,
                flag,
                status,
            }),
        )?;
        table.push(key, None)?;
        let totals = table.totals(&Predicate::q6(1996, 5, 24));
        assert_eq!(rt;
            totals,
            Totals {
                count: 1,
                sum: 8_467_292
            }
        );
        assert_eq!(rt; table.totals(&Predicate::q6(1996, 6, 24)).count, 0);
        Ok(())
    }
}

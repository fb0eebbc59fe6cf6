//! What is measured: replies and deltas that are drawn one after another, the same in each run.
ghost use Rattle.std.specs.Prelude.{◌≡◌, ◌<◌, ◌≤◌};

use cubit_base::{Delta, DeltaList, Flag, Key, LineStatus, Memory, RowList, Tuple};
use query_report::{DropLine, Reply, ReplyTable};
use std::alloc::Global;

/// The most replies and deltas.
pub(crate) const MOST: u32 = 4_000_000;

const WORKERS: u32 = 4;

const ROWS: u32 = 6_000_000;

const FRONTS: u32 = 4_194_304;

/// A linear congruential generator.
#[derive(Drop)]
pub(crate) struct Draws {
    state: u64,
}

impl Draws {
    pub(crate) fn new() -> Draws {
        Draws { state: 1 }
    }

    fn below(&mut self, n: u32) -> u32
        requires { 0 < n }
        ensures { result < n }
    {
        self.state = self
            .state
            .wrapping_mul(6_364_136_223_846_793_005)
            .wrapping_add(1_442_695_040_888_963_407);
        ((self.state >> 33) % u64::from(n)) as u32
    }

    fn row(&mut self) -> u32
        ensures { result < ROWS }
    {
        self.below(ROWS)
    }

    fn front(&mut self) -> u32 {
        self.below(FRONTS)
    }

    fn sum(&mut self) -> u64 {
        let high = u64::from(self.below(1_000_000));
        high * 1_000_000 + u64::from(self.below(1_000_000))
    }

    fn tuple(&mut self) -> Tuple {
        let qty = 1 + self.below(50) as u8;
        let price = self.below(100_000_000);
        let disc = self.below(11) as u8;
        let tax = self.below(9) as u8;
        let flag = self.flag();
        let status = self.status();
        let day = self.below(2557) as u16;
        Tuple {
            price,
            day,
            qty,
            disc,
            tax,
            flag,
            status,
        }
    }

    fn flag(&mut self) -> Flag {
        match self.below(3) {
            0 => Flag::A,
            1 => Flag::N,
            _ => Flag::R,
        }
    }

    fn status(&mut self) -> LineStatus {
        match self.below(2) {
            0 => LineStatus::F,
            _ => LineStatus::O,
        }
    }

    fn list(&mut self, alloc: Global) -> Result<RowList, Memory> {
        let mut list = RowList::new(alloc);
        for _ in 0..self.below(16) {
            let row = self.row();
            if list.len() < MOST {
                list.push(row)?;
            }
        }
        Ok(list)
    }

    fn drop_line(&mut self) -> DropLine {
        match self.below(3) {
            0 => DropLine::Placed(self.front()),
            1 => DropLine::Missing(self.front()),
            _ => DropLine::LogFull(self.front()),
        }
    }

    fn drop_lines(&mut self) -> [DropLine; 7] {
        [
            self.drop_line(),
            self.drop_line(),
            self.drop_line(),
            self.drop_line(),
            self.drop_line(),
            self.drop_line(),
            self.drop_line(),
        ]
    }

    fn change(&mut self, form: u32) -> Reply {
        let front = self.front();
        match form {
            0 => Reply::Placed {
                place: front,
                row: self.row(),
            },
            1 => Reply::Duplicate {
                front,
                row: self.row(),
            },
            2 => Reply::Missing { front },
            3 => Reply::TableFull { front },
            _ => Reply::LogFull { front },
        }
    }

    fn answer(&mut self, form: u32) -> Reply {
        let front = self.front();
        let count = self.row();
        match form {
            9 => Reply::Count {
                front,
                count,
                patched: self.front(),
            },
            10 => Reply::Sum {
                front,
                count,
                sum: self.sum(),
                patched: self.front(),
            },
            _ => Reply::Q6 {
                front,
                count,
                sum: self.sum(),
                patched: self.front(),
            },
        }
    }

    fn reply(&mut self, alloc: Global) -> Result<Reply, Memory> {
        match self.below(13) {
            form @ 0..=4 => Ok(self.change(form)),
            5 => Ok(Reply::DropLines(self.drop_lines())),
            6 => Ok(Reply::Found {
                front: self.front(),
                row: self.row(),
                tuple: self.tuple(),
            }),
            7 => Ok(Reply::Absent {
                front: self.front(),
            }),
            8 => Ok(Reply::Rows {
                front: self.front(),
                list: self.list(alloc)?,
                patched: self.front(),
            }),
            form @ 9..=11 => Ok(self.answer(form)),
            _ => Ok(Reply::Merge {
                merged: self.row(),
                fresh: self.row(),
                busy: self.row(),
            }),
        }
    }

    fn delta(&mut self) -> Delta {
        let author = self.below(WORKERS) as u8;
        let row = self.row();
        let order = 1 + self.row();
        let line = 1 + self.below(7) as u8;
        let kind = self.below(3);
        let before = if kind > 0 { Some(self.tuple()) } else { None };
        let after = if kind < 2 { Some(self.tuple()) } else { None };
        Delta {
            author,
            row,
            key: Key { order, line },
            before,
            after,
        }
    }

    /// So many replies of four workers in turn.
    pub(crate) fn replies(&mut self, alloc: Global, count: u32) -> Result<ReplyTable, Memory> {
        let mut table = ReplyTable::new(alloc);
        for i in 0..count {
            let worker = (i % WORKERS) as u8;
            let reply = self.reply(alloc)?;
            if table.len(worker) < MOST {
                table.add(alloc, worker, reply)?;
            }
        }
        Ok(table)
    }

    /// So many deltas.
    pub(crate) fn journal(&mut self, alloc: Global, count: u32) -> Result<DeltaList, Memory> {
        let mut deltas = DeltaList::new(alloc);
        for _ in 0..count {
            let delta = self.delta();
            if deltas.len() < MOST {
                deltas.push(delta)?;
            }
        }
        Ok(deltas)
    }
}

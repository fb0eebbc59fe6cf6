//! A table as a plain list of rows, to compare with.
use crate::{OpStop, Placed};
use commit_log::Memory;
use cubit_base::{Key, Limits, Tuple};
use std::alloc::Global;

// A command.
#[derive(Clone, Copy)]
pub(crate) enum Command {
    Insert(Key, Tuple),
    Update(Key, Tuple),
    Delete(Key),
    LookUp(Key),
}

// What it answers. The front is told by its length.
#[derive(Clone, Copy, Debug, PartialEq, Eq)]
pub(crate) enum Answer {
    Placed { at: u32, row: u32, front: u32 },
    Duplicate { front: u32, row: u32 },
    Missing { front: u32 },
    TableFull { front: u32 },
    LogFull { front: u32 },
    Found { front: u32, row: u32, tuple: Tuple },
    Absent { front: u32 },
    NoShareLeft,
}

impl Answer {
    // Of a change.
    pub(crate) fn of_change(change: &Result<Placed, OpStop>) -> Answer {
        match change {
            Ok(placed) => Answer::Placed {
                at: placed.place,
                row: placed.row,
                front: placed.front.len,
            },
            Err(OpStop::Duplicate(front, row)) => Answer::Duplicate {
                front: front.len,
                row: *row,
            },
            Err(OpStop::Missing(front)) => Answer::Missing { front: front.len },
            Err(OpStop::TableFull(front)) => Answer::TableFull { front: front.len },
            Err(OpStop::LogFull(front)) => Answer::LogFull { front: front.len },
        }
    }
}

// The rows, and how many changes there were.
#[derive(Drop)]
pub(crate) struct Plain {
    rows: Vec<(Key, Option<Tuple>)>,
    changes: u32,
    limits: Limits,
}

impl Plain {
    pub(crate) fn new(
        alloc: Global,
        rows: &[(Key, Tuple)],
        limits: Limits,
    ) -> Result<Plain, Memory> {
        let mut plain = Plain {
            rows: Vec::new(alloc),
            changes: 0,
            limits,
        };
        for (key, tuple) in rows {
            plain.rows.push((*key, Some(*tuple)))?;
        }
        Ok(plain)
    }

    // What the command comes to.
    pub(crate) fn answer(&mut self, command: &Command) -> Result<Answer, Memory> {
        match command {
            Command::Insert(key, tuple) => self.insert(*key, *tuple),
            Command::Update(key, tuple) => Ok(self.change(key, Some(*tuple))),
            Command::Delete(key) => Ok(self.change(key, None)),
            Command::LookUp(key) => Ok(match self.live(key) {
                Some((row, tuple)) => Answer::Found {
                    front: self.changes,
                    row,
                    tuple,
                },
                None => Answer::Absent {
                    front: self.changes,
                },
            }),
        }
    }

    fn insert(&mut self, key: Key, tuple: Tuple) -> Result<Answer, Memory> {
        let front = self.changes;
        let row = self.count();
        if let Some((row, _)) = self.live(&key) {
            return Ok(Answer::Duplicate { front, row });
        }
        if row == self.limits.row_limit {
            return Ok(Answer::TableFull { front });
        }
        if front == self.limits.log_limit {
            return Ok(Answer::LogFull { front });
        }
        self.rows.push((key, Some(tuple)))?;
        Ok(self.placed(row))
    }

    fn change(&mut self, key: &Key, tuple: Option<Tuple>) -> Answer {
        let front = self.changes;
        let Some((row, _)) = self.live(key) else {
            return Answer::Missing { front };
        };
        if front == self.limits.log_limit {
            return Answer::LogFull { front };
        }
        if let Some(held) = self.rows.get_mut(row as usize) {
            held.1 = tuple;
        }
        self.placed(row)
    }

    fn placed(&mut self, row: u32) -> Answer {
        let at = self.changes;
        self.changes = at.wrapping_add(1);
        Answer::Placed {
            at,
            row,
            front: self.changes,
        }
    }

    fn live(&self, key: &Key) -> Option<(u32, Tuple)> {
        let mut row = 0u32;
        for (other, held) in &self.rows {
            if other == key {
                if let Some(tuple) = held {
                    return Some((row, *tuple));
                }
            }
            row = row.wrapping_add(1);
        }
        None
    }

    fn count(&self) -> u32 {
        let mut count = 0u32;
        for _ in &self.rows {
            count = count.wrapping_add(1);
        }
        count
    }
}

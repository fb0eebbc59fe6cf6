//! Values drawn one after another from a seed.
ghost use Rattle.std.specs.Prelude.{◌≡◌, ◌+◌, ◌<◌, ◌≤◌};
ghost use Rattle.refresh_streams.specs.Generator.{draw, flag_with, status_with, drawn_tuple, drawn_query, command_of_kind, drawn_command, first_line_of};

use cubit_base::{Command, Flag, Key, LineStatus, Predicate, Tuple};

/// Knuth's linear congruential generator for MMIX, of which the upper bits are used.
#[derive(Drop)]
pub(crate) struct Generator {
    /// The seed, or what the last draw left.
    pub(crate) state: u64,
}

const MULTIPLIER: u64 = 6_364_136_223_846_793_005;

const INCREMENT: u64 = 1_442_695_040_888_963_407;

impl Generator {
    /// A number below this one.
    pub(crate) fn draw(&mut self, below: u32) -> u32
        requires { 1 ≤ below }
        ensures value { result ≡ (draw below self.old.state).0 }
        ensures state { self.new.state ≡ (draw below self.old.state).1 }
        ensures within { result < below }
    {
        self.state = self.state.wrapping_mul(MULTIPLIER).wrapping_add(INCREMENT);
        (self.state / 0x2_0000_0000 % u64::from(below)) as u32
    }

    /// A tuple.
    pub(crate) fn tuple(&mut self) -> Tuple
        ensures value { result ≡ (drawn_tuple self.old.state).0 }
        ensures state { self.new.state ≡ (drawn_tuple self.old.state).1 }
    {
        let qty = 1 + self.draw(50) as u8;
        let price = 90_000 + self.draw(10_000_000);
        let disc = self.draw(11) as u8;
        let tax = self.draw(9) as u8;
        let flag = flag_with(self.draw(3));
        let status = status_with(self.draw(2));
        let day = self.draw(2557) as u16;
        Tuple {
            price,
            day,
            qty,
            disc,
            tax,
            flag,
            status,
        }
    }

    /// The command for an order, of so many orders.
    pub(crate) fn command(&mut self, orders: u32, order: u32) -> Command
        requires order { (1 ≤ order) × (order ≤ orders) }
        requires orders { orders ≤ 100_000 }
        ensures value { result ≡ (drawn_command orders order self.old.state).0 }
        ensures state { self.new.state ≡ (drawn_command orders order self.old.state).1 }
    {
        let kind = self.draw(4);
        self.command_of_kind(orders, order, kind)
    }

    fn command_of_kind(&mut self, orders: u32, order: u32, kind: u32) -> Command
        requires order { (1 ≤ order) × (order ≤ orders) }
        requires orders { orders ≤ 100_000 }
        ensures value { result ≡ (command_of_kind orders order kind self.old.state).0 }
        ensures state { self.new.state ≡ (command_of_kind orders order kind self.old.state).1 }
    {
        match kind {
            0 => Command::Insert(first_line_of(orders + order), self.tuple()),
            1 => Command::Update(first_line_of(order), self.tuple()),
            2 => Command::DropOrder(order),
            _ => Command::Q6(self.query()),
        }
    }

    // A predicate of the form of query 6.
    fn query(&mut self) -> Predicate
        ensures value { result ≡ (drawn_query self.old.state).0 }
        ensures state { self.new.state ≡ (drawn_query self.old.state).1 }
    {
        let year = 1993 + self.draw(5) as u16;
        let disc = 2 + self.draw(8) as u8;
        let qty = 24 + self.draw(2) as u8;
        Predicate::q6(year, disc, qty)
    }
}

fn first_line_of(order: u32) -> Key
    requires { 1 ≤ order }
    ensures { result ≡ first_line_of order }
{
    Key { order, line: 1 }
}

fn flag_with(number: u32) -> Flag
    ensures { result ≡ flag_with number }
{
    match number {
        0 => Flag::A,
        1 => Flag::N,
        _ => Flag::R,
    }
}

fn status_with(number: u32) -> LineStatus
    ensures { result ≡ status_with number }
{
    match number {
        0 => LineStatus::F,
        _ => LineStatus::O,
    }
}

//! The kernels.
ghost use Rattle.std.specs.Prelude.{◌≡◌, ◌<◌, ◌≤◌, All, IfOk, length};
ghost use Rattle.std.specs.List.Sorted.{IsStrictlyIncreasing};
ghost use Rattle.kernel_bench.specs.Pages.{IsSelectedOf, block_count};
ghost use Rattle.kernel_bench.specs.Names.{kernel_named};
ghost use Rattle.kernel_bench.specs.Kernel.{AreOfLength, Makes, IsSpread, IsTurned, each_of, input_count, list_at, with_page};

use crate::pages::{rewritten, selected, xor_of};
use crate::times::Times;
use fence_window::{Fenced, PAGE_ROWS};
use std::alloc::Global;
use std::io;
use std::rt::Clock;
use std::time::Instant;
use wah_words::{Memory, Wah};

// The bins that a query reads of each column.
const QUANTITIES: usize = 23;

const MONTHS: usize = 12;

const DISCOUNTS: usize = 3;

// The numbers of the definition.
const _: () = prove!(QUANTITIES == 23);

const _: () = prove!(MONTHS == 12);

const _: () = prove!(DISCOUNTS == 3);

// In so many rows one is turned.
const TOGGLE_ROWS: u32 = 65_536;
// In so many rows one is true.
const SPREAD_ROWS: u32 = 84;

const _: () = prove!(TOGGLE_ROWS == 65_536);

const _: () = prove!(SPREAD_ROWS == 84);

/// An operation to measure.
#[derive(Clone, Copy)]
pub(crate) enum Kernel {
    And,
    Or,
    Xor,
    Not,
    Count,
    /// A page of false rows more.
    Extended,
    /// A list of one true row in 84, from their places.
    FromPlaces,
    /// One row in 65,536 turned.
    Toggled,
    /// The fences of a list.
    Make,
    /// A list with its fences, written page by page as another one is read.
    Build,
    /// All groups, page by page.
    Window,
    /// The rows that a query selects, page by page: those that a bin of each of three columns has.
    Select,
}

/// What a kernel made.
#[derive(Drop)]
pub(crate) enum Outcome {
    List(Wah),
    Pages(Fenced),
    Number(u64),
}

impl Kernel {
    /// The kernel of that name, or none.
    pub(crate) fn of_name(name: &str) -> Option<Kernel>
        ensures { result ≡ kernel_named name.now }
    {
        match name {
            "and" => Some(Kernel::And),
            "or" => Some(Kernel::Or),
            "xor" => Some(Kernel::Xor),
            "not" => Some(Kernel::Not),
            "count" => Some(Kernel::Count),
            "extended" => Some(Kernel::Extended),
            "from_places" => Some(Kernel::FromPlaces),
            "toggled" => Some(Kernel::Toggled),
            "make" => Some(Kernel::Make),
            "build" => Some(Kernel::Build),
            "window" => Some(Kernel::Window),
            "select" => Some(Kernel::Select),
            _ => None,
        }
    }

    /// How many bitvectors it reads.
    pub(crate) fn input_count(self) -> usize
        ensures { result ≡ input_count self }
    {
        match self {
            Kernel::And | Kernel::Or | Kernel::Xor => 2,
            Kernel::Select => QUANTITIES + MONTHS + DISCOUNTS,
            _ => 1,
        }
    }

    /// What the kernel makes of bitvectors. Its own time alone is taken: what it needs beside them is made before.
    pub(crate) fn outcome<R: Clock + AllocGlobal>(
        self,
        rt: &R,
        inputs: &[Fenced],
        times: &mut Times,
    ) -> io::Result<Outcome>
        requires count { length inputs.now ≡ input_count self }
        requires size { AreOfLength (length (list_at inputs.now 0)) inputs.now }
        ensures { IfOk result (Makes self inputs.now) }
    {
        let alloc = rt.alloc();
        let a = inputs[0].wah();
        Ok(match self {
            Kernel::And => Outcome::List(timed(rt, times, || a.and(alloc, inputs[1].wah()))??),
            Kernel::Or => Outcome::List(timed(rt, times, || a.or(alloc, inputs[1].wah()))??),
            Kernel::Xor => Outcome::List(timed(rt, times, || a.xor(alloc, inputs[1].wah()))??),
            Kernel::Not => Outcome::List(timed(rt, times, || a.not(alloc))??),
            Kernel::Count => Outcome::Number(u64::from(timed(rt, times, || a.count())?)),
            Kernel::Extended => Outcome::List(extended(rt, times, a)?),
            Kernel::FromPlaces => Outcome::List(spread(rt, times, a.len())?),
            Kernel::Toggled => Outcome::List(toggled(rt, times, a)?),
            Kernel::Make => Outcome::Pages(fenced(rt, times, a)?),
            Kernel::Build => Outcome::Pages(timed(rt, times, || rewritten(alloc, &inputs[0]))??),
            Kernel::Window => {
                let xor = timed(rt, times, || xor_of(&inputs[0]))?;
                Outcome::Number(u64::from(xor))
            }
            Kernel::Select => {
                let total = timed(rt, times, || selected_of(inputs, a.len()))?;
                Outcome::Number(total)
            }
        })
    }
}

// What a call makes, with its time among the others.
fn timed<R: Clock, T: Drop, F: FnOnce() -> T>(rt: &R, times: &mut Times, call: F) -> io::Result<T>
    requires { F.IsAlwaysCallable call }
    ensures { IfOk result (λ made. F.post call made) }
{
    let began = Instant::now(rt)?;
    let made = call();
    times.add(began.elapsed(rt)?);
    Ok(made)
}

fn extended<R: Clock + AllocGlobal>(rt: &R, times: &mut Times, list: &Wah) -> io::Result<Wah>
    ensures { IfOk result (λ longer. longer ≡ with_page list.now) }
{
    let alloc = rt.alloc();
    let rows = list.len().saturating_add(PAGE_ROWS);
    Ok(timed(rt, times, || list.extended(alloc, rows))??)
}

fn spread<R: Clock + AllocGlobal>(rt: &R, times: &mut Times, rows: u32) -> io::Result<Wah>
    ensures { IfOk result (IsSpread rows) }
{
    let alloc = rt.alloc();
    let places = each_of(alloc, SPREAD_ROWS, rows)?;
    Ok(timed(rt, times, || Wah::from_places(alloc, &places, rows))??)
}

fn toggled<R: Clock + AllocGlobal>(rt: &R, times: &mut Times, list: &Wah) -> io::Result<Wah>
    ensures { IfOk result (IsTurned list.now) }
{
    let alloc = rt.alloc();
    let rows = list.len();
    let places = each_of(alloc, TOGGLE_ROWS, rows)?;
    Ok(timed(rt, times, || list.toggled(alloc, &places, rows))??)
}

fn fenced<R: Clock + AllocGlobal>(rt: &R, times: &mut Times, list: &Wah) -> io::Result<Fenced>
    ensures { IfOk result (λ fenced. fenced ≡ list.now) }
{
    let alloc = rt.alloc();
    let copy = list.extended(alloc, list.len())?;
    Ok(timed(rt, times, move || Fenced::make(alloc, copy))??)
}

// One row in so many, from the first on.
fn each_of(alloc: Global, step: u32, rows: u32) -> Result<Vec<u32>, Memory>
    requires { 1 ≤ step }
    ensures each { IfOk result (λ places. places.items ≡ each_of step rows) }
    ensures rising { IfOk result (λ places. IsStrictlyIncreasing places.items) }
    ensures below { IfOk result (λ places. All (λ place. place < rows) places.items) }
{
    let count = rows.div_ceil(step);
    let mut places = Vec::with_capacity(alloc, count as usize)?;
    for i in 0..count {
        places.push(step * i)?;
    }
    Ok(places)
}

// How many of so many rows are selected by the bins of three columns.
fn selected_of(inputs: &[Fenced], rows: u32) -> u64
    requires { length inputs.now ≡ input_count Kernel.Select }
    ensures { IsSelectedOf inputs.now (block_count rows) result }
{
    let (quantities, rest) = inputs.split_at(QUANTITIES);
    let (months, discounts) = rest.split_at(MONTHS);
    selected(quantities, months, discounts, rows)
}

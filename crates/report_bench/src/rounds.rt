//! The rounds of a measurement.
use crate::draws::Draws;
use query_report::{report_of, report_text};
use std::io;
use std::rt::Clock;
use std::time::{Duration, Instant};

/// The length and a checksum of the text, and the least times of the rounds.
#[derive(Drop)]
pub(crate) struct Times {
    pub(crate) bytes: usize,
    pub(crate) sum: u64,
    pub(crate) write: Duration,
    pub(crate) read: Duration,
}

/// Writes a report and reads it again, so many times.
pub(crate) fn measured<R: Clock + AllocGlobal>(
    rt: &R,
    replies: u32,
    deltas: u32,
    rounds: u32,
) -> io::Result<Times> {
    let mut draws = Draws::new();
    let replies = draws.replies(rt.alloc(), replies)?;
    let journal = draws.journal(rt.alloc(), deltas)?;
    let mut times = Times {
        bytes: 0,
        sum: 0,
        write: Duration::MAX,
        read: Duration::MAX,
    };
    for _ in 0..rounds {
        let began = Instant::now(rt)?;
        let text = report_text(rt.alloc(), &replies, &journal)?;
        let write = began.elapsed(rt)?;
        let began = Instant::now(rt)?;
        let found = report_of(rt.alloc(), &text)?;
        let read = began.elapsed(rt)?;
        let Some(again) = found else {
            return Err(io::Error::from(io::ErrorKind::InvalidData));
        };
        if report_text(rt.alloc(), &again.replies, &again.journal)?.as_slice() != text.as_slice() {
            return Err(io::Error::from(io::ErrorKind::InvalidData));
        }
        times = Times {
            bytes: text.len(),
            sum: checksum(&text),
            write: times.write.min(write),
            read: times.read.min(read),
        };
    }
    Ok(times)
}

fn checksum(text: &[u8]) -> u64 {
    let mut sum = 0u64;
    for b in text {
        sum = sum.wrapping_mul(31).wrapping_add(u64::from(*b));
    }
    sum
}

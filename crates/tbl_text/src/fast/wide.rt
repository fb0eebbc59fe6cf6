//! The text or the digits at the front of some bytes, many bytes at a time.
ghost use Rattle.std.specs.Prelude.{◌≡◌, ◌^◌, ◌%◌, ◌≤◌, ◌<◌, map, take, length, count_by, count_ones, IfSome};
ghost use Rattle.std.specs.List.{prefix_len};
ghost use Rattle.std.specs.Simd.Lanes.{mask_l};
ghost use Rattle.tbl_text.specs.Field.{is_digit, is_text_byte};
ghost use Rattle.tbl_text.specs.Lines.{is_bar};
ghost use Rattle.tbl_text.specs.Wide.{is_odd_byte, is_no_digit};

use std::simd::prelude::*;

// How many bytes are looked at together for text and for digits.
const LANES: usize = 64;

const DIGIT_LANES: usize = 16;

/// How much text stands at the front, and how many bars are in it; none where it ends close to the end of the bytes.
#[inline(always)]
pub(crate) fn text_and_bars(bytes: &[u8]) -> Option<(usize, usize)>
    ensures len { IfSome result (λ r. r.0 ≡ prefix_len is_text_byte bytes.now) }
    ensures bars { IfSome result (λ r. r.1 ≡ count_by is_bar (take r.0 bytes.now)) }
    ensures within { IfSome result (λ r. r.0 ≤ length bytes.now) }
{
    let mut at = 0;
    let mut bars = 0;
    while bytes.len() - at >= LANES {
        let lanes = u8x64::from_slice(&bytes[at..]);
        let odd = odd_lanes(lanes);
        let bar = bar_lanes(lanes);
        if odd != 0 {
            let len = odd.trailing_zeros();
            return Some((at + len as usize, bars + ones_below(bar, len)));
        }
        bars += bar.count_ones() as usize;
        at += LANES;
    }
    None
}

/// How many digits stand at the front; none where they are many, or end close to the end of the bytes.
#[inline(always)]
pub(crate) fn few_digits(bytes: &[u8]) -> Option<usize>
    ensures { IfSome result (λ n. n ≡ prefix_len is_digit bytes.now) }
{
    if bytes.len() < DIGIT_LANES {
        return None;
    }
    let others = other_lanes(u8x16::from_slice(bytes));
    if others == 0 {
        return None;
    }
    Some(others.trailing_zeros() as usize)
}

// The lanes that are no digits.
#[inline(always)]
fn other_lanes(lanes: u8x16) -> u64
    ensures { result ≡ mask_l (map is_no_digit lanes) }
{
    (lanes - u8x16::splat(b'0'))
        .simd_ge(u8x16::splat(10))
        .to_bitmask()
}

// The lanes that are no text.
#[inline(always)]
fn odd_lanes(lanes: u8x64) -> u64
    ensures { result ≡ mask_l (map is_odd_byte lanes) }
{
    (lanes - u8x64::splat(b' '))
        .simd_ge(u8x64::splat(b'~' - b' ' + 1))
        .to_bitmask()
}

// The lanes that are bars.
#[inline(always)]
fn bar_lanes(lanes: u8x64) -> u64
    ensures { result ≡ mask_l (map is_bar lanes) }
{
    lanes.simd_eq(u8x64::splat(b'|')).to_bitmask()
}

// How many of the lowest bits are set.
#[inline(always)]
fn ones_below(mask: u64, count: u32) -> usize
    requires { count < 64 }
    ensures value { result ≡ count_ones (mask % 2 ^ count) }
    ensures within { result ≤ 64 }
{
    (mask % (1 << count)).count_ones() as usize
}

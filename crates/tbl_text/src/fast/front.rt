//! What stands at the front of some bytes.
ghost use Rattle.std.specs.Prelude.{◌≡◌, ℕ, ◌⊎◌, ◌<◌, ◌^◌, ◌∷◌, IfSome};
ghost use Rattle.tbl_text.specs.Field.{IsPair, IsFrontInteger};
ghost use Rattle.tbl_text.specs.LineCursor.{IsEnd};

use crate::field::{MOST_DIGITS, pair_of};

/// The integer at the front, and what follows its digits; none also close to the end of the bytes. One loop of a fixed
/// number of turns counts the digits and reads them.
#[inline(always)]
pub(crate) fn front_number(bytes: &[u8]) -> Option<(u64, &[u8])>
    ensures value { IfSome result (λ r. IsFrontInteger bytes.now r.1.now r.0) }
    ensures within { IfSome result (λ r. r.0 < 10 ^ MOST_DIGITS) }
{
    if bytes.len() <= MOST_DIGITS {
        return None;
    }
    let mut number = 0;
    for at in 0..MOST_DIGITS + 1 {
        let b = bytes[at];
        if !b.is_ascii_digit() {
            return if at == 0 {
                None
            } else {
                Some((number, &bytes[at..]))
            };
        }
        number = number * 10 + u64::from(b - b'0');
    }
    None
}

/// What follows the bar at the front.
#[inline(always)]
pub(crate) fn past_bar(bytes: &[u8]) -> Option<&[u8]>
    ensures { IfSome result (λ rest. bytes.now ≡ 124 ∷ rest.now) }
{
    match bytes {
        [b'|', rest @ ..] => Some(rest),
        _ => None,
    }
}

/// What follows `.00` at the front, or all where it does not stand there.
#[inline(always)]
pub(crate) fn past_zeros(bytes: &[u8]) -> &[u8]
    ensures { (bytes.now ≡ result.now) ⊎ (bytes.now ≡ 46 ∷ 48 ∷ 48 ∷ result.now) }
{
    match bytes {
        [b'.', b'0', b'0', rest @ ..] => rest,
        _ => bytes,
    }
}

/// A point and two decimals at the front, and what follows them.
#[inline(always)]
pub(crate) fn two_decimals(bytes: &[u8]) -> Option<(u8, &[u8])>
    ensures value { IfSome result (λ r. (tens : ℕ) × (ones : ℕ)
        × (bytes.now ≡ 46 ∷ tens ∷ ones ∷ r.1.now) × IsPair tens ones r.0) }
    ensures within { IfSome result (λ r. r.0 < 100) }
{
    match bytes {
        [b'.', tenths, ones, rest @ ..] => Some((pair_of(*tenths, *ones)?, rest)),
        _ => None,
    }
}

/// Money of `0`, a point and two decimals before a bar, and what follows the bar.
#[inline(always)]
pub(crate) fn below_one(bytes: &[u8]) -> Option<(u8, &[u8])>
    ensures { IfSome result (λ r. (tens : ℕ) × (ones : ℕ)
        × (bytes.now ≡ 48 ∷ 46 ∷ tens ∷ ones ∷ 124 ∷ r.1.now) × IsPair tens ones r.0) }
{
    match bytes {
        [b'0', b'.', tenths, ones, b'|', rest @ ..] => Some((pair_of(*tenths, *ones)?, rest)),
        _ => None,
    }
}

/// What follows the line's end at the front.
#[inline(always)]
pub(crate) fn past_end(bytes: &[u8]) -> Option<&[u8]>
    ensures { IfSome result (λ rest. IsEnd bytes.now rest.now) }
{
    match bytes {
        [b'\n', rest @ ..] => Some(rest),
        [b'\r', b'\n', rest @ ..] => Some(rest),
        _ => None,
    }
}

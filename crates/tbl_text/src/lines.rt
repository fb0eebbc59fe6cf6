//! The first line of some bytes.
ghost use Rattle.std.specs.Prelude.{◌≡◌, ◌<◌, ◌≤◌, ◌↔◌, ◌∷◌, [], length, take, drop, IsNone, IfSome};
ghost use Rattle.tbl_text.specs.Lines.{lines_of, line_end, line_len, next_line, without_cr};

use memchr::memchr;

/// Where the first line ends.
#[derive(Clone, Copy, Debug, PartialEq, Eq)]
pub struct Line {
    /// The bytes of the line, without its line end.
    pub len: usize,
    /// Where the next line begins.
    pub next: usize,
}

/// The first line, or none where there are no bytes. LF ends a line, and a CR before it, or at the end of the bytes,
/// is not part of it.
pub fn first_line(bytes: &[u8]) -> Option<Line>
    ensures none { IsNone result ↔ (bytes.now ≡ []) }
    ensures within { IfSome result (λ line. (line.len ≤ line.next) × (0 < line.next) × (line.next ≤ length bytes.now)) }
    ensures len { IfSome result (λ line. line.len ≡ line_len bytes.now) }
    ensures next { IfSome result (λ line. line.next ≡ next_line bytes.now) }

    // The rest of the lines begins where the next line does.
    ensures lines { IfSome result (λ line. lines_of bytes.now
        ≡ take line.len bytes.now ∷ lines_of (drop line.next bytes.now)) }
{
    if bytes.is_empty() {
        return None;
    }
    let end = line_end(bytes);
    Some(Line {
        len: len_without_cr(&bytes[..end]),
        next: (end + 1).min(bytes.len()),
    })
}

// The place of the first LF, or the number of bytes.
fn line_end(bytes: &[u8]) -> usize
    ensures { result ≡ line_end bytes.now }
{
    memchr(b'\n', bytes).unwrap_or(bytes.len())
}

// How much of a line is left without the one CR that may end it.
fn len_without_cr(line: &[u8]) -> usize
    ensures { result ≡ length (without_cr line.now) }
{
    match line.last() {
        Some(b'\r') => line.len() - 1,
        _ => line.len(),
    }
}

#[cfg(test)]
mod tests {
    use super::*;

    #[test]
    fn reads_first_lines(rt: HostRuntime) {
        let cases: [(&[u8], usize, usize); 7] = [
            (b"\n", 0, 1),
            (b"\r\n", 0, 2),
            (b"a", 1, 1),
            (b"a\r", 1, 2),
            (b"a\r\r\nb", 2, 4),
            (b"a\nb", 1, 2),
            (b"\r", 0, 1),
        ];
        for (bytes, len, next) in cases {
            assert_eq!(rt; first_line(bytes), Some(Line { len, next }), "of {bytes:?}");
        }
        assert_eq!(rt; first_line(b""), None);
    }
}

//! Why a file is refused.
ghost use Rattle.std.specs.Prelude.{◌≡◌};
ghost use Rattle.query_report.specs.Refusal.{detail_label, detail_number};

use itoa::Buffer;

/// What a refusal says besides the line and the fault.
#[derive(Clone, Copy, Debug, PartialEq, Eq)]
pub enum Detail {
    Nothing,
    /// How many fields the line has.
    Fields(u32),
    /// The earlier line with the same key.
    First(u32),
}

/// The first fault of a file.
#[derive(Clone, Copy, Debug, PartialEq, Eq)]
pub struct Refusal {
    /// The line, from 1; 0 stands for the file as a whole.
    pub line: u32,
    /// The number of the fault, as docs/FORMATS.md lists them.
    pub fault: u8,
    pub detail: Detail,
}

impl Detail {
    pub(crate) fn label(self) -> &'static str
        ensures { result.now ≡ detail_label self }
    {
        match self {
            Detail::Nothing => "",
            Detail::Fields(_) => " fields=",
            Detail::First(_) => " first=",
        }
    }

    pub(crate) fn number(self, buffer: &mut Buffer) -> &str
        ensures { result.now ≡ detail_number self }
    {
        match self {
            Detail::Nothing => "",
            Detail::Fields(number) | Detail::First(number) => buffer.format(number),
        }
    }
}

//! What is wrong with a line.
ghost use Rattle.std.specs.Prelude.{◌≡◌};
ghost use Rattle.tbl_text.specs.Line.{fault_number};

/// The first thing that is wrong with a line.
#[derive(Clone, Copy, Debug, PartialEq, Eq)]
pub enum LineFault {
    /// There are so many fields, and not 16.
    FieldCount(u32),
    /// L_ORDERKEY is no integer from 1 to 4,294,967,295.
    Order,
    /// L_LINENUMBER is no integer from 1 to 7.
    Line,
    /// L_QUANTITY is no integer from 1 to 50, with `.0` or `.00` or neither.
    Quantity,
    /// L_EXTENDEDPRICE is no money from 0.00 to 999,999.99.
    Price,
    /// L_DISCOUNT is no money from 0.00 to 0.10.
    Discount,
    /// L_TAX is no money from 0.00 to 0.08.
    Tax,
    /// L_RETURNFLAG is none of `A`, `N` and `R`.
    Flag,
    /// L_LINESTATUS is none of `F` and `O`.
    Status,
    /// L_SHIPDATE is no date from 1992-01-01 to 1998-12-31.
    Date,
    /// Another field has a byte outside 32 to 126.
    Text,
}

impl LineFault {
    /// The number that docs/FORMATS.md gives the fault, 1 to 11 in the order of the variants.
    pub fn number(self) -> u8
        ensures { result ≡ fault_number self }
    {
        match self {
            LineFault::FieldCount(_) => 1,
            LineFault::Order => 2,
            LineFault::Line => 3,
            LineFault::Quantity => 4,
            LineFault::Price => 5,
            LineFault::Discount => 6,
            LineFault::Tax => 7,
            LineFault::Flag => 8,
            LineFault::Status => 9,
            LineFault::Date => 10,
            LineFault::Text => 11,
        }
    }
}

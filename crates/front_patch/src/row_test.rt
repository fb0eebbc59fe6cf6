//! What a bitvector says of a row.
ghost use Rattle.std.specs.Prelude.{◌≡◌};
ghost use Rattle.front_patch.specs.Bits.{passes};
ghost use Rattle.front_patch.specs.Values.{AreOf};

use crate::values::{Values, value_of, values_of};
use column_bins::{Column, Stretch};
use cubit_base::Tuple;

/// A test of a row by its tuple.
#[derive(Clone, Copy, Debug)]
pub(crate) enum RowTest {
    /// It is live.
    IsLive,
    /// It is live, and its bin in the column lies in the stretch.
    IsInBins(Column, Stretch),
}

impl RowTest {
    /// The values of the column that pass, for many rows; any where no column decides.
    pub(crate) fn values(self) -> Values
        ensures { AreOf self result }
    {
        match self {
            RowTest::IsLive => Values { first: 0, after: 0 },
            RowTest::IsInBins(column, stretch) => values_of(column, stretch),
        }
    }

    /// Whether a row with this tuple, or none, passes, by the values that do.
    #[inline(always)]
    pub(crate) fn passes(self, values: Values, tuple: &Option<Tuple>) -> bool
        requires { AreOf self values }
        ensures { result ≡ passes self tuple.now }
    {
        match (self, tuple) {
            (RowTest::IsLive, tuple) => tuple.is_some(),
            (RowTest::IsInBins(_, _), None) => false,
            (RowTest::IsInBins(column, _), Some(tuple)) => {
                let value = value_of(column, tuple);
                values.first <= value && value < values.after
            }
        }
    }
}

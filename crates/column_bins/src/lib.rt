//! Bins: the months, discounts, quantities, flags and statuses by which the index finds rows, and the bins that a
//! predicate needs. docs/DEFINITIONS.md says the words of the contracts in plain language.
//!
//! # Proved
//!
//! Each call is safe, returns, and takes no memory.
//!
//! - `bin_of`: the bin of the tuple's value in the column (`value`), which is one of the column's bins (`within`).
//! - `plan`: a column has a stretch exactly where the predicate restricts it, and a bin lies in the stretch exactly
//!   where some value of the column that the range has is of this bin (`ship`, `disc`, `qty`, `flag`, `status`). Tuples
//!   have to be read exactly for a sum, and where the range has some days of a month, but not all (`pages`).
//! - `laws::candidates`: each tuple that matches is a candidate (`all`), and each candidate whose month is met whole
//!   matches (`exact`). `laws::months`: the month of a day is that of its date (`dated`).
//!
//! # Not said
//!
//! - Which of its spellings an empty stretch has: `first` and `after` say only which bins lie between them.
//! - How long a call takes, and what `Debug` prints.
//!
//! # Example
//!
//! ```
//! let plan = plan(&Predicate::q6(1996, 5, 24), false);
//! assert_eq!(rt; plan.ship, Some(Stretch { first: 48, after: 60 }));
//! assert_eq!(rt; plan.disc, Some(Stretch { first: 4, after: 7 }));
//! assert_eq!(rt; plan.qty, Some(Stretch { first: 0, after: 23 }));
//! assert!(rt; !plan.pages);
//! ```
#![tactic(auto)]

mod column;
pub mod laws;
mod plan_type;
mod planning;

pub use column::{Column, bin_of};
pub use plan_type::{Plan, Stretch};
pub use planning::plan;

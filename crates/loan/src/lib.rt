//! A loan: the row that it is kept as, the loan itself, whose shares total its face, and what is asked of its lenders.

#![tactic(auto)]

mod kept;
mod question;
mod shares;
mod stage;
mod totals;
mod whole;

pub use kept::{Dues, LoanRow};
pub use question::Awaited;
pub use shares::Shares;
pub use stage::{Matter, Stage};
pub use totals::{LentBy, OutOf, RowsOut, UnclosedOf};
pub use whole::{Loan, UnsoundRow};

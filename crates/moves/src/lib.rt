//! The moves of one call in one book: of every account into one place or out of one place, and between what an account has
//! available and what it has pledged.

#![tactic(auto)]

mod column;
mod many;
mod pledging;

pub use column::Column;
pub use many::{Way, move_each};
pub use pledging::{free_face, pledge_face};

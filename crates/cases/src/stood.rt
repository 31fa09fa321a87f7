//! Worked moves on the standing books, and a refusal of each kind.
use crate::moving::{empties, hundreds, hundreds_and_one_above, refuses};
use book::*;
use standing::*;

#[test]
fn pledges_bonds(rt: HostRuntime) {
    let mut book = StandingBonds::new(hundreds());
    let free = available_place(31, 15);
    let pledged = pledged_place(31, 15);
    assert_eq!(rt; book.shift(free, pledged, 30), Ok(()));
    assert_eq!(rt; book.amount(1022), Some(70));
    assert_eq!(rt; book.amount(1023), Some(130));
    assert_eq!(rt; book.amount(1024), None);
}

#[test]
fn refuses_cash(rt: HostRuntime) {
    refuses(&rt, StandingCash::new(hundreds()));
}

#[test]
fn empties_a_place_above_the_largest(rt: HostRuntime) {
    empties(&rt, StandingCash::new(hundreds_and_one_above()));
}

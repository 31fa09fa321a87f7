//! Worked moves on the netting books, and a refusal of each kind.
use crate::moving::{empties, hundreds, hundreds_and_one_above, refuses};
use book::*;
use netting::*;

#[test]
fn nets_bonds_both_ways(rt: HostRuntime) {
    let mut book = NettingBonds::new(hundreds());
    let free = available_place(31, 15);
    let pledged = pledged_place(31, 15);
    assert_eq!(rt; book.shift(free, pledged, 100), Ok(()));
    assert_eq!(rt; book.shift(pledged, free, 130), Ok(()));
    assert_eq!(rt; book.amount(1022), Some(130));
    assert_eq!(rt; book.amount(1023), Some(70));
    assert_eq!(rt; book.amount(1024), None);
}

#[test]
fn refuses_cash(rt: HostRuntime) {
    refuses(&rt, NettingCash::new(hundreds()));
}

#[test]
fn empties_a_place_above_the_largest(rt: HostRuntime) {
    empties(&rt, NettingCash::new(hundreds_and_one_above()));
}

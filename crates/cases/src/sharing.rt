//! Totals, parts and shares.
use share::{EvenRule, FirstRule, SharingRule};
use sums::parts::{floor_parts, part_by};
use sums::total::{Every, total};

#[test]
fn totals(rt: HostRuntime) {
    assert_eq!(rt; total(&[5u64, 3, 4], &Every), 12);
    assert_eq!(rt; total(&[0u64; 32], &Every), 0);
}

// Weights or limits of 5, 3 and 4.
fn limits() -> [u64; 32] {
    let mut limits = [0; 32];
    limits[1] = 5;
    limits[2] = 3;
    limits[7] = 4;
    limits
}

#[test]
fn odd_units_go_to_the_lowest(rt: HostRuntime) {
    assert_eq!(rt; part_by(6, &[0; 32])[0], 0);
    let floors = floor_parts(6, &limits());
    assert!(rt; floors[1] == 2 && floors[2] == 1 && floors[7] == 2);
    let parts = part_by(6, &limits());
    assert!(rt; parts[1] == 3 && parts[2] == 1 && parts[7] == 2);
}

#[test]
fn the_first_rule_fills_in_rising_order(rt: HostRuntime) {
    let shares = FirstRule.share(&limits(), 6);
    assert!(rt; shares[1] == 5 && shares[2] == 1 && shares[7] == 0);
}

#[test]
fn the_even_rule_parts_by_the_limits(rt: HostRuntime) {
    let shares = EvenRule.share(&limits(), 6);
    assert!(rt; shares[1] == 3 && shares[2] == 1 && shares[7] == 2);
}

#[test]
fn limits_above_the_want_count_as_it(rt: HostRuntime) {
    let mut limits = [0; 32];
    limits[0] = 900;
    limits[1] = 10;
    let shares = EvenRule.share(&limits, 10);
    assert!(rt; shares[0] == 5 && shares[1] == 5);
}

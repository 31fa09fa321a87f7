//! Fees and values.
use figures::fees::{clearing_fee, fee, house_keeps, lender_parts, rate};
use figures::values::{covers, for_share, lent_value, multiplier, row_value};

#[test]
fn one_day_at_one_and_a_quarter(rt: HostRuntime) {
    assert_eq!(rt; rate(17_500), 12_500);
    assert_eq!(rt; fee(10_000_000, 12_500, 1), 34_247);
    assert_eq!(rt; clearing_fee(10_000_000, 1), 2_000);
    let mut shares = [0; 32];
    shares[0] = 6_000_000;
    shares[1] = 4_000_000;
    let parts = lender_parts(34_247, 2_000, &shares);
    assert!(rt; parts[0] == 19_348 && parts[1] == 12_898);
    assert_eq!(rt; house_keeps(34_247, 2_000, &shares), 2_001);
    assert_eq!(rt; house_keeps(34_247, 2_000, &[0; 32]), 34_247);
}

#[test]
fn a_pledge_covers_to_the_last_fen(rt: HostRuntime) {
    let lent = lent_value(10_000_000, 10_000, 10_500);
    let rows = row_value(11_670_000, 10_000, 9_000, multiplier(0)) as u128;
    assert!(rt; covers(rows, lent, 34_247));
    let fewer = row_value(11_660_000, 10_000, 9_000, multiplier(0)) as u128;
    assert!(rt; !covers(fewer, lent, 34_247));
    assert!(rt; covers(lent as u128 + 34_247, lent, 34_247));
    assert_eq!(rt; for_share(199, 101), 200);
}

//! Both sides of each end of every range, window and good face.
use terms::{OrderKind, Range, is_good_face};

#[test]
fn ranges_end_where_they_say(rt: HostRuntime) {
    let edges = [
        (Range::Right, 3, 4),
        (Range::Grade, 7, 8),
        (Range::Unit, 1_000_000, 1_000_001),
        (Range::Price, 20_000, 20_001),
        (Range::Discount, 10_000, 10_001),
        (Range::Adjustment, 20_000, 20_001),
        (Range::Limit, 1_000, 1_001),
        (Range::Maturity, 70_000, 70_001),
        (Range::LongestTerm, 14, 15),
        (Range::MostLoans, 64, 65),
        (Range::LoanRows, 256, 257),
        (Range::Day, 60_000, 60_001),
        (Range::R001, 100_000, 100_001),
        (Range::Minute, 1_439, 1_440),
        (Range::Amount, 10_000_000_000_000, 10_000_000_000_001),
        (Range::Mode, 1, 2),
    ];
    for (range, last, past) in edges {
        assert!(rt; range.allows(last) && !range.allows(past) && !range.allows(u64::MAX));
    }
}

#[test]
fn ranges_begin_where_they_say(rt: HostRuntime) {
    let from_one = [
        Range::Unit,
        Range::Price,
        Range::Maturity,
        Range::LongestTerm,
        Range::MostLoans,
        Range::LoanRows,
        Range::Day,
    ];
    for range in from_one {
        assert!(rt; !range.allows(0) && range.allows(1));
    }
    let from_none = [
        Range::Right,
        Range::Grade,
        Range::Discount,
        Range::Limit,
        Range::R001,
        Range::Minute,
        Range::Amount,
        Range::Mode,
    ];
    for range in from_none {
        assert!(rt; range.allows(0));
    }
    let adjustment = Range::Adjustment;
    assert!(rt; adjustment.allows(0) && !adjustment.allows(1));
    assert!(rt; !adjustment.allows(9_999) && adjustment.allows(10_000));
}

#[test]
fn windows_include_both_ends(rt: HostRuntime) {
    let full = OrderKind::Full;
    assert!(rt; !full.may_come(539) && full.may_come(540));
    assert!(rt; full.may_come(1_010) && !full.may_come(1_011));
    let net = OrderKind::Net;
    assert!(rt; !net.may_come(944) && net.may_come(945));
    assert!(rt; net.may_come(970) && !net.may_come(971));
}

#[test]
fn good_faces_are_multiples_within_a_billion(rt: HostRuntime) {
    assert!(rt; !is_good_face(0, 1) && is_good_face(1, 1));
    assert!(rt; is_good_face(1_000_000_000, 1_000) && !is_good_face(1_000_000_001, 1));
    assert!(rt; is_good_face(3_000, 1_000) && !is_good_face(3_001, 1_000));
}

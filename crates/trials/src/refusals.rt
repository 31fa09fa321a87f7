//! A refusal of each number that the calls of a day can give, with its spot and layer.
use crate::sample::{figures, parts, told};
use pool::{OpenDay, Pool};
use share::EvenRule;
use standing::{StandingBonds, StandingCash};
use std::test::Fail;

type Sample = Pool<StandingBonds, StandingCash, EvenRule>;

fn opened() -> Result<(Sample, OpenDay), Fail> {
    opened_on(100)
}

fn opened_on(day: u64) -> Result<(Sample, OpenDay), Fail> {
    let mut figures = figures();
    figures.day = day;
    // No `map_err`: it would move the whole pool once more.
    match Pool::open(parts(), &figures) {
        Ok(opened) => Ok(opened),
        Err(_) => Err(Fail::new("not opened")),
    }
}

#[test]
fn clock_goes_on_within_the_day(rt: HostRuntime) -> Result<(), Fail> {
    let (mut pool, day) = opened()?;
    assert_eq!(rt; told(pool.clock(&day, 540)), Ok(()));
    assert_eq!(rt; told(pool.clock(&day, 540)), Ok(()));
    assert_eq!(rt; told(pool.clock(&day, 539)), Err((20, 0, 'O')));
    assert_eq!(rt; told(pool.clock(&day, 1_440)), Err((20, 0, 'O')));
    assert_eq!(rt; told(pool.clock(&day, 1_439)), Ok(()));
    Ok(())
}

#[test]
fn quota_mode_and_price_are_refused_in_order(rt: HostRuntime) -> Result<(), Fail> {
    let (mut pool, day) = opened()?;
    assert_eq!(rt; told(pool.quota(&day, 0, 16, u64::MAX)), Err((1, 0, 'O')));
    assert_eq!(rt; told(pool.quota(&day, 32, 0, 0)), Err((1, 32, 'O')));
    assert_eq!(rt; told(pool.quota(&day, 2, 16, 0)), Err((2, 0, 'O')));
    assert_eq!(rt; told(pool.quota(&day, 2, 15, 0)), Err((4, 2, 'O')));
    assert_eq!(rt;
        told(pool.quota(&day, 1, 15, 10_000_000_000_001)),
        Err((20, 0, 'O'))
    );
    assert_eq!(rt; told(pool.quota(&day, 1, 0, 600)), Ok(()));
    assert_eq!(rt; pool.lendable(1, 0).ok(), Some(600));
    assert_eq!(rt; told(pool.mode(&day, 4, 2)), Err((4, 4, 'O')));
    assert_eq!(rt; told(pool.mode(&day, 1, 2)), Err((20, 0, 'O')));
    assert_eq!(rt; told(pool.mode(&day, 1, 1)), Ok(()));
    assert_eq!(rt; pool.lendable(1, 0).ok(), Some(5_000_000));
    assert_eq!(rt; told(pool.quota(&day, 1, 0, 1)), Err((16, 0, 'O')));
    assert_eq!(rt; told(pool.mode(&day, 1, 0)), Ok(()));
    assert_eq!(rt; pool.lendable(1, 0).ok(), Some(0));
    assert_eq!(rt; told(pool.price(&day, 16, 1)), Err((2, 0, 'O')));
    assert_eq!(rt; told(pool.price(&day, 15, 0)), Err((20, 0, 'O')));
    assert_eq!(rt; told(pool.price(&day, 15, 20_000)), Ok(()));
    Ok(())
}

#[test]
fn deliver_is_refused_in_order(rt: HostRuntime) -> Result<(), Fail> {
    let (mut pool, day) = opened()?;
    assert_eq!(rt; told(pool.deliver(&day, 0, 0, 16, 0)), Err((1, 0, 'O')));
    assert_eq!(rt;
        told(pool.deliver(&day, 1, u64::MAX, 16, 0)),
        Err((1, u64::MAX, 'O'))
    );
    assert_eq!(rt; told(pool.deliver(&day, 1, 1, 16, 0)), Err((1, 1, 'O')));
    assert_eq!(rt; told(pool.deliver(&day, 1, 2, 16, 0)), Err((2, 0, 'O')));
    assert_eq!(rt; told(pool.deliver(&day, 1, 2, 0, 1_500)), Err((5, 0, 'O')));
    assert_eq!(rt;
        told(pool.deliver(&day, 1, 2, 0, 5_001_000)),
        Err((13, 1, 'B'))
    );
    assert_eq!(rt; told(pool.deliver(&day, 1, 2, 0, 5_000_000)), Ok(()));
    assert_eq!(rt; pool.bond_amount(64), Some(5_000_000));
    assert_eq!(rt; pool.bond_amount(33), Some(700));
    assert_eq!(rt; told(pool.deliver(&day, 2, 3, 15, 6)), Err((13, 2, 'B')));
    assert_eq!(rt; told(pool.deliver(&day, 2, 3, 15, 5)), Err((19, 3, 'B')));
    assert_eq!(rt; told(pool.deliver(&day, 3, 2, 15, 4)), Ok(()));
    assert_eq!(rt; told(pool.deliver(&day, 2, 3, 15, 4)), Ok(()));
    Ok(())
}

#[test]
fn over_comes_after_short(rt: HostRuntime) -> Result<(), Fail> {
    let (mut pool, day) = opened()?;
    assert_eq!(rt; told(pool.remit(&day, 2, 4, 2)), Err((13, 2, 'C')));
    assert_eq!(rt; told(pool.remit(&day, 2, 4, 1)), Err((19, 4, 'C')));
    assert_eq!(rt; told(pool.remit(&day, 4, 4, 1)), Err((1, 4, 'O')));
    assert_eq!(rt; told(pool.remit(&day, 1, 2, 0)), Err((20, 0, 'O')));
    assert_eq!(rt;
        told(pool.remit(&day, 1, 2, 10_000_000_000_001)),
        Err((20, 0, 'O'))
    );
    assert_eq!(rt; told(pool.remit(&day, 1, 2, 10_000)), Ok(()));
    assert_eq!(rt; pool.cash_amount(2), Some(10_001));
    assert_eq!(rt; pool.cash_amount(32), None);
    Ok(())
}

#[test]
fn a_day_of_another_pool_is_refused(rt: HostRuntime) -> Result<(), Fail> {
    let (mut pool, day) = opened()?;
    let (mut other, tomorrow) = opened_on(101)?;
    assert_eq!(rt; told(pool.deliver(&tomorrow, 0, 0, 0, 0)), Err((6, 0, 'O')));
    assert_eq!(rt; told(other.clock(&day, 5_000)), Err((6, 0, 'O')));
    Ok(())
}

#[test]
fn a_refused_shut_or_next_hands_its_day_back(rt: HostRuntime) -> Result<(), Fail> {
    let (mut pool, day) = opened()?;
    assert!(rt; pool.clock(&day, 1_019).is_ok());
    let Err((early, day)) = pool.shut(day) else {
        return Err(Fail::new("shut too early"));
    };
    assert_eq!(rt; early.cause.code(), 6);
    assert!(rt; pool.clock(&day, 1_020).is_ok());
    let Ok(shut) = pool.shut(day) else {
        return Err(Fail::new("not shut"));
    };
    let Err((same, shut)) = pool.next(shut, 100, 0) else {
        return Err(Fail::new("the same day again"));
    };
    assert_eq!(rt; same.cause.code(), 20);
    let Ok(day) = pool.next(shut, 60_000, 100_000) else {
        return Err(Fail::new("no next day"));
    };
    assert_eq!(rt; told(pool.clock(&day, 0)), Ok(()));
    Ok(())
}

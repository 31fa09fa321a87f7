//! A whole life over each pair of books and each rule.
use crate::sample::{balances, figures, stock};
use book::Book;
use life::live;
use netting::Netting;
use pool::Parts;
use share::{EvenRule, FirstRule, SharingRule};
use standing::Standing;
use std::process::Abort;
use std::test::Fail;
use terms::Call;

/// Two days with refused calls among them; a call that does not come is left out.
fn ends_alike<B: Book + Drop, C: Book + Drop, S: SharingRule + Drop>(
    rt: &impl Abort,
    bonds: B,
    cash: C,
    rule: S,
) -> Result<(), Fail> {
    let first = Call::Deliver {
        from: 1,
        to: 2,
        bond: 0,
        face: 2_000_000,
    };
    let short = Call::Remit {
        from: 2,
        to: 1,
        fen: 2,
    };
    let calls = [
        first,
        short,
        Call::Next { day: 101, r001: 0 },
        Call::Clock { minute: 1_020 },
        Call::Shut,
        first,
        Call::Next { day: 101, r001: 0 },
        first,
        first,
    ];
    let Ok(lived) = live(Parts { bonds, cash, rule }, &figures(), &calls) else {
        return Err(Fail::new("not opened"));
    };
    assert_eq!(rt; lived.pool.bond_amount(32), Some(1_000_000));
    assert_eq!(rt; lived.pool.bond_amount(64), Some(4_000_000));
    assert_eq!(rt; lived.pool.bond_amount(33), Some(700));
    assert_eq!(rt; lived.pool.cash_amount(2), Some(1));
    Ok(())
}

#[test]
fn every_pair_of_books_ends_alike(rt: HostRuntime) -> Result<(), Fail> {
    ends_alike(
        &rt,
        Standing::new(stock()),
        Standing::new(balances()),
        FirstRule,
    )?;
    ends_alike(
        &rt,
        Standing::new(stock()),
        Netting::new(balances()),
        EvenRule,
    )?;
    ends_alike(
        &rt,
        Netting::new(stock()),
        Standing::new(balances()),
        FirstRule,
    )?;
    ends_alike(
        &rt,
        Netting::new(stock()),
        Netting::new(balances()),
        EvenRule,
    )
}

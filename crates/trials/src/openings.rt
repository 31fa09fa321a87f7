//! Openings that are refused: each figure at its spot, and the books before the figures.
use crate::sample::{balances, figures, stock, told};
use netting::Netting;
use pool::{Parts, Pool};
use records::{Figures, Records};
use share::FirstRule;
use standing::Standing;
use std::test::Fail;

fn opened(figures: &Figures) -> Result<(), (u8, u64, char)> {
    told(Records::open(figures))
}

#[test]
fn rows_are_refused_at_their_number(rt: HostRuntime) {
    assert_eq!(rt; opened(&figures()), Ok(()));
    let mut house = figures();
    house.accounts[0].right = 1;
    house.accounts[5].grade = 8;
    assert_eq!(rt; opened(&house), Err((20, 0, 'O')));
    let mut last = figures();
    last.accounts[31].grade = 8;
    last.bonds[0].price = 0;
    assert_eq!(rt; opened(&last), Err((20, 31, 'O')));
    let mut bond = figures();
    bond.bonds[15].maturity = 70_001;
    bond.longest_term = 0;
    assert_eq!(rt; opened(&bond), Err((20, 15, 'O')));
}

#[test]
fn other_figures_are_refused_at_none(rt: HostRuntime) {
    let mut term = figures();
    term.longest_term = 15;
    assert_eq!(rt; opened(&term), Err((20, 0, 'O')));
    let mut loans = figures();
    loans.most_loans = 0;
    assert_eq!(rt; opened(&loans), Err((20, 0, 'O')));
    let mut rows = figures();
    rows.loan_rows = 257;
    assert_eq!(rt; opened(&rows), Err((20, 0, 'O')));
    let mut day = figures();
    day.day = 60_001;
    assert_eq!(rt; opened(&day), Err((20, 0, 'O')));
    let mut rate = figures();
    rate.r001 = 100_001;
    assert_eq!(rt; opened(&rate), Err((20, 0, 'O')));
}

#[test]
fn an_amount_above_the_largest_is_refused_before_a_row(rt: HostRuntime) -> Result<(), Fail> {
    let mut amounts = stock();
    amounts[1023] = 10_000_000_000_001;
    let mut bad = figures();
    bad.accounts[3].right = 4;
    let parts = Parts {
        bonds: Netting::new(amounts),
        cash: Standing::new(balances()),
        rule: FirstRule,
    };
    let Err(unopened) = Pool::open(parts, &bad) else {
        return Err(Fail::new("opened"));
    };
    assert_eq!(rt; unopened.refusal.spot, 0);
    Ok(())
}

#[test]
fn a_book_of_another_size_is_refused(rt: HostRuntime) -> Result<(), Fail> {
    let parts = Parts {
        bonds: Standing::new(balances()),
        cash: Standing::new(balances()),
        rule: FirstRule,
    };
    let Err(unopened) = Pool::open(parts, &figures()) else {
        return Err(Fail::new("opened"));
    };
    assert_eq!(rt; unopened.refusal.cause.code(), 20);
    Ok(())
}

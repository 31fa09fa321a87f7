//! What opening lines make of a draft.
use draft::Draft;
use script::{BookKind, Fault, Item, RuleKind, parse_line};

// Takes the lines of an opening, up to the first damage.
fn collect(draft: &mut Draft, lines: &[&str]) -> Result<(), Fault> {
    for line in lines {
        if let Ok(Some(Item::Part(part))) = parse_line(line.as_bytes()) {
            draft.take(part)?;
        }
    }
    Ok(())
}

#[test]
fn drafts(rt: HostRuntime) {
    let mut draft = Draft::new();
    let lines = [
        "books netting standing",
        "rule even",
        "stock 31 15 7 9",
        "bond 15 1 2 3 4 5 6 7",
    ];
    assert_eq!(rt; collect(&mut draft, &lines), Ok(()));
    assert!(rt; draft.stocks[1022] == 7 && draft.stocks[1023] == 9 && draft.stocks[1021] == 0);
    let last = draft.bonds[15];
    let before = draft.bonds[14];
    assert_eq!(rt; last.unit, 1);
    assert_eq!(rt; last.maturity, 7);
    assert_eq!(rt; before.maturity, 1);
    assert_eq!(rt; draft.bond_book, BookKind::Netting);
    assert_eq!(rt; draft.cash_book, BookKind::Standing);
    assert_eq!(rt; draft.rule, RuleKind::Even);
    let no_account = collect(&mut draft, &["stock 32 16 0 0"]);
    assert_eq!(rt; no_account, Err(Fault::NoAccount(32)));
    let no_bond = collect(&mut draft, &["stock 31 16 0 0"]);
    assert_eq!(rt; no_bond, Err(Fault::NoBond(16)));
}

//! The answers as they are written.
use answers::Answer;
use std::test::Fail;
use terms::{Cause, Layer};

#[test]
fn answers(rt: HostRuntime) -> Result<(), Fail> {
    let short = Layer::BondBook.refuse(Cause::Short, 5);
    let (place, account, amount) = (1023, 31, 8);
    let written = [
        (Answer::Accepted, "ok"),
        (Answer::Refused(short), "refused 13 short at 5 in B"),
        (Answer::Lendable(u64::MAX), "lendable 18446744073709551615"),
        (Answer::BondAmount { place, amount }, "B 31 15 1 8"),
        (Answer::CashAmount { account, amount }, "C 31 8"),
        (Answer::NoPool, "no pool"),
        (Answer::DayIsShut, "day is shut"),
    ];
    for (answer, line) in written {
        assert_eq!(rt; format!(in rt.alloc(); "{answer}")?.as_str(), line);
    }
    Ok(())
}

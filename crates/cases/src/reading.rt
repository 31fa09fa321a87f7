//! Lines of every kind and every kind of damage.
use input::{Line, Lines, NumberFault, number};
use script::*;
use std::process::Abort;
use std::test::Fail;
use terms::Call;

#[test]
fn numbers(rt: HostRuntime) {
    let read = [
        ("0", Ok(0)),
        ("007", Ok(7)),
        ("18446744073709551615", Ok(u64::MAX)),
        ("00018446744073709551615", Ok(u64::MAX)),
        ("18446744073709551616", Err(NumberFault::TooLarge)),
        ("99999999999999999999999", Err(NumberFault::TooLarge)),
        ("", Err(NumberFault::Empty)),
        ("+1", Err(NumberFault::NotDigits)),
        ("99999999999999999999999x", Err(NumberFault::NotDigits)),
    ];
    for (word, value) in read {
        assert_eq!(rt; number(word), value);
    }
}

#[test]
fn lines(rt: HostRuntime) {
    let mut lines = Lines::new(b"a\n\nb");
    for (number, text) in [(1, b"a".as_slice()), (2, b""), (3, b"b")] {
        assert_eq!(rt; lines.next(), Some(Line { number, text }));
    }
    assert_eq!(rt; lines.number(), 3);
    assert_eq!(rt; lines.next(), None);
}

// Each line is damaged, in these words.
fn refuses(rt: &(impl Abort + AllocGlobal), lines: &[(&[u8], &str)]) -> Result<(), Fail> {
    for (line, what) in lines {
        let Err(error) = parse_line(line) else {
            return Err(Fail::new(*what));
        };
        assert_eq!(rt; format!(in rt.alloc(); "{error}")?.as_str(), *what);
    }
    Ok(())
}

#[test]
fn damaged_words(rt: HostRuntime) -> Result<(), Fail> {
    refuses(
        &rt,
        &[
            (b"borow 1", "unknown word 'borow'"),
            (b"rule last", "unknown word 'last'"),
            (b"rule", "missing word"),
            (b"books standing", "missing word"),
            (b"clock", "missing number"),
            (b"stock 1 2 3", "missing number"),
            (b"clock 1 x", "extra word 'x'"),
            (b"amounts 1", "extra word '1'"),
            (b"clock 12a", "not a number '12a'"),
            (b"clock -1 -2", "not a number '-1'"),
            (
                b"clock 18446744073709551616",
                "number too large '18446744073709551616'",
            ),
        ],
    )
}

#[test]
fn damaged_bytes(rt: HostRuntime) -> Result<(), Fail> {
    refuses(
        &rt,
        &[
            (b"clock 1 \xff", "not text"),
            (b"say \xc3", "not text"),
            (b"clock 1\r", "carriage return at the end of the line"),
            (b"say hello\r", "carriage return at the end of the line"),
            (b"\r", "carriage return at the end of the line"),
            (b"clock\t1", "control character"),
            (b"# a\x00b", "control character"),
            (b"say \x7f", "control character"),
        ],
    )
}

#[test]
fn blank_lines(rt: HostRuntime) {
    for line in ["", "   ", "# clock 1", "  #"] {
        assert_eq!(rt; parse_line(line.as_bytes()), Ok(None));
    }
}

#[test]
fn calls(rt: HostRuntime) {
    let (account, bond, face) = (1, 2, 3);
    let read = [
        (
            "clock 18446744073709551615#end",
            Call::Clock { minute: u64::MAX },
        ),
        (
            "  quota  1 02   3  ",
            Call::Quota {
                account,
                bond,
                face,
            },
        ),
        ("mode 1 2", Call::Mode { account, mode: 2 }),
        ("price 1 2", Call::Price { bond: 1, price: 2 }),
        (
            "deliver 1 2 3 4",
            Call::Deliver {
                from: 1,
                to: 2,
                bond: 3,
                face: 4,
            },
        ),
        (
            "remit 1 2 3",
            Call::Remit {
                from: 1,
                to: 2,
                fen: 3,
            },
        ),
        ("shut # the day", Call::Shut),
        ("next 1 2", Call::Next { day: 1, r001: 2 }),
    ];
    for (line, call) in read {
        assert_eq!(rt; parse_line(line.as_bytes()), Ok(Some(Item::Call(call))));
    }
}

// What a line prints, if it is a `say` line.
fn said(line: &str) -> Option<&str> {
    match parse_line(line.as_bytes()) {
        Ok(Some(Item::Say(text))) => Some(text),
        _ => None,
    }
}

#[test]
fn sayings(rt: HostRuntime) {
    let read = [
        ("say", Some("")),
        ("  say", Some("")),
        ("say ", Some("")),
        ("say  no # comment ", Some(" no # comment ")),
        ("saying", None),
    ];
    for (line, text) in read {
        assert_eq!(rt; said(line), text);
    }
}

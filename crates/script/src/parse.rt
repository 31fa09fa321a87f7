//! Reads one line of a script.
ghost use Rattle.std.specs.Prelude.{◌≡◌, IfOk, OnOk};
ghost use Rattle.script.specs.Faults.{Clean};

use crate::fault::{Fault, LineError};
use crate::item::{Item, Opening, OpeningPart};
use crate::words::Words;
use std::str::from_utf8;
use tables::{AccountFigures, BondFigures};
use terms::Call;

/// The item of a line; `None` where the line is empty or a comment. Only text is read, and no line that ends in a
/// carriage return.
pub fn parse_line(line: &[u8]) -> Result<Option<Item<'_>>, LineError<'_>>
    ensures { OnOk result (Clean line.now) }
{
    let text = readable(line)?.trim_ascii_start();
    if let Some(said) = text.strip_prefix("say ") {
        return Ok(Some(Item::Say(said)));
    }
    let mut words = Words::new(before_comment(text));
    let Some(keyword) = words.next() else {
        return Ok(None);
    };
    let item = parse_item(keyword, &mut words)?;
    words.end()?;
    Ok(Some(item))
}

// The line as text without control characters.
fn readable(line: &[u8]) -> Result<&str, LineError<'_>>
    ensures text { IfOk result (λ text. text.now ≡ line.now) }
    ensures clean { OnOk result (Clean line.now) }
{
    let Ok(text) = from_utf8(line) else {
        return Err(LineError::of_line(Fault::NotText));
    };
    if let [.., b'\r'] = line {
        return Err(LineError::of_line(Fault::CarriageReturn));
    }
    if line.iter().any(|b| begins_control(*b)) && text.chars().any(|c| c.is_control()) {
        return Err(LineError::of_line(Fault::ControlCharacter));
    }
    Ok(text)
}

// Whether a control character may begin with this byte: those below 128 are a byte each, those from 128 to 159 begin with
// 0xC2. Few lines have such a byte, so the characters of the others need not be taken apart.
fn begins_control(byte: u8) -> bool {
    byte.is_ascii_control() || byte == 0xC2
}

fn before_comment(text: &str) -> &str {
    text.split_once('#').map_or(text, |(before, _)| before)
}

// The item that a keyword begins.
fn parse_item<'a>(keyword: &'a str, words: &mut Words<'a>) -> Result<Item<'a>, LineError<'a>> {
    if let Some(call) = parse_call(keyword, words)? {
        return Ok(Item::Call(call));
    }
    if let Some(part) = parse_part(keyword, words)? {
        return Ok(Item::Part(part));
    }
    match keyword {
        "open" => Ok(Item::Open(parse_opening(words)?)),
        "amounts" => Ok(Item::Amounts),
        "lendable" => Ok(Item::Lendable {
            account: words.number()?,
            bond: words.number()?,
        }),
        "say" => Ok(Item::Say("")),
        _ => Err(LineError::of_word(Fault::UnknownWord, keyword)),
    }
}

// The call that a keyword begins; `None` where no call begins so.
fn parse_call<'a>(keyword: &str, words: &mut Words<'a>) -> Result<Option<Call>, LineError<'a>> {
    let call = match keyword {
        "clock" => Call::Clock {
            minute: words.number()?,
        },
        "quota" => Call::Quota {
            account: words.number()?,
            bond: words.number()?,
            face: words.number()?,
        },
        "mode" => Call::Mode {
            account: words.number()?,
            mode: words.number()?,
        },
        "price" => Call::Price {
            bond: words.number()?,
            price: words.number()?,
        },
        "deliver" => Call::Deliver {
            from: words.number()?,
            to: words.number()?,
            bond: words.number()?,
            face: words.number()?,
        },
        "remit" => Call::Remit {
            from: words.number()?,
            to: words.number()?,
            fen: words.number()?,
        },
        "shut" => Call::Shut,
        "next" => Call::Next {
            day: words.number()?,
            r001: words.number()?,
        },
        _ => return Ok(None),
    };
    Ok(Some(call))
}

// The part of the opening that a keyword begins; `None` where no part begins so.
fn parse_part<'a>(
    keyword: &str,
    words: &mut Words<'a>,
) -> Result<Option<OpeningPart>, LineError<'a>> {
    let part = match keyword {
        "books" => OpeningPart::Books {
            bonds: words.kind()?,
            cash: words.kind()?,
        },
        "rule" => OpeningPart::Rule(words.kind()?),
        "account" => OpeningPart::Account {
            account: words.number()?,
            figures: AccountFigures {
                right: words.number()?,
                grade: words.number()?,
            },
        },
        "bond" => OpeningPart::Bond {
            bond: words.number()?,
            figures: parse_bond(words)?,
        },
        "stock" => OpeningPart::Stock {
            account: words.number()?,
            bond: words.number()?,
            available: words.number()?,
            pledged: words.number()?,
        },
        "balance" => OpeningPart::Balance {
            account: words.number()?,
            fen: words.number()?,
        },
        _ => return Ok(None),
    };
    Ok(Some(part))
}

fn parse_bond<'a>(words: &mut Words<'a>) -> Result<BondFigures, LineError<'a>> {
    Ok(BondFigures {
        unit: words.number()?,
        price: words.number()?,
        discount: words.number()?,
        adjustment: words.number()?,
        lent_limit: words.number()?,
        pledge_limit: words.number()?,
        maturity: words.number()?,
    })
}

fn parse_opening<'a>(words: &mut Words<'a>) -> Result<Opening, LineError<'a>> {
    Ok(Opening {
        longest_term: words.number()?,
        most_loans: words.number()?,
        loan_rows: words.number()?,
        day: words.number()?,
        r001: words.number()?,
    })
}

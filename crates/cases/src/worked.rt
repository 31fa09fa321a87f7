//! The cases that were worked by hand, as one table over the definitions, and what the program makes of them.
ghost use Rattle.std.specs.Prelude.{◌≡◌, true, false};
ghost use Rattle.cases.specs.Worked.{Worked, pledged_row};

use figures::fees::{clearing_fee, fee, rate};
use figures::values::{covers, lent_value, multiplier, row_value};
use tables::{Account, Mode, Right, lendable};
use terms::OrderKind;

/// What the program answers for the worked cases.
#[derive(Clone, Copy)]
pub struct WorkedFigures {
    pub rate: u16,
    pub fee: u64,
    pub clearing_fee: u64,
    pub covered: bool,
    pub uncovered: bool,
    pub early: bool,
    pub first: bool,
    pub last: bool,
    pub late: bool,
    pub lendable: u64,
}

// The table stands.
fn check_table()
    ensures { Worked }
{}

/// The table of worked cases, and the same figures by the program.
pub fn worked_cases() -> WorkedFigures
    ensures table { Worked }
    ensures run { result ≡ record { rate = 12500; fee = 34247; clearing_fee = 2000; covered = true; uncovered = false; early = false; first = true; last = true; late = false; lendable = 0 } }
{
    check_table();
    let rate = rate(17_500);
    let fee = fee(10_000_000, rate, 1);
    let lent = lent_value(10_000_000, 10_000, 10_500);
    let lender = Account {
        right: Right::Lend,
        grade: 0,
        mode: Mode::Preset,
        presets: [0; 16],
    };
    WorkedFigures {
        rate,
        fee,
        clearing_fee: clearing_fee(10_000_000, 1),
        covered: covers(pledged(11_670_000) as u128, lent, fee),
        uncovered: covers(pledged(11_660_000) as u128, lent, fee),
        early: OrderKind::Net.may_come(944),
        first: OrderKind::Net.may_come(945),
        last: OrderKind::Net.may_come(970),
        late: OrderKind::Net.may_come(971),
        lendable: lendable(lender, 1_000_000, 5, 8),
    }
}

// A pledge row of a borrower of grade 0, at price 10,000 and discount 9,000.
fn pledged(face: u32) -> u64
    ensures { result ≡ pledged_row face }
{
    row_value(face, 10_000, 9_000, multiplier(0))
}

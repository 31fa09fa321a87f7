//! The row that a loan is kept as. Any figures may stand in it: a loan is read from it by a check.
ghost use Rattle.std.specs.Prelude.{◌≡◌};
ghost use Rattle.loan.specs.Stages.{is_out};
ghost use Rattle.loan.specs.Kept.{is_closed, falls_late, shut_on};

use crate::stage::Stage;
use pledge::Pledge;

/// What the borrower owes and by when.
#[derive(Clone, Copy, Debug, PartialEq, Eq)]
pub struct Dues {
    /// Millionths a year.
    pub rate: u16,
    /// Days.
    pub term: u8,
    /// The due day.
    pub due: u32,
    pub fee_paid: bool,
    /// The running coupon figure, in fen for 100 yuan of face.
    pub figure: u32,
    pub rolled: bool,
    pub late: bool,
}

/// A loan as it is kept.
#[derive(Clone, Copy, Debug, PartialEq, Eq)]
pub struct LoanRow {
    pub borrower: u8,
    pub bond: u8,
    /// In yuan.
    pub face: u32,
    /// What each account has lent of the face.
    pub shares: [u64; 32],
    pub pledge: Pledge,
    pub dues: Dues,
    pub stage: Stage,
}

impl LoanRow {
    /// Whether the lent bond is neither given back nor delivered in cash.
    pub fn is_out(&self) -> bool
        ensures { result ≡ is_out self.now.stage }
    {
        self.stage.is_out()
    }

    /// Whether nothing is owed any more, so that the pledge is freed.
    pub fn is_closed(&self) -> bool
        ensures { result ≡ is_closed self.now }
    {
        self.dues.fee_paid && self.dues.figure == 0 && !self.is_out()
    }

    // Whether the end of a day finds something owed that was due.
    fn falls_late(&self, day: u32) -> bool
        ensures { result ≡ falls_late day self.now }
    {
        let dues = self.dues;
        dues.figure > 0 || day >= dues.due && (!dues.fee_paid || self.stage.is_unfunded())
    }

    /// The loan after the end of a day: a roll or cash matter lapses, and what is overdue is late for good.
    pub fn at_shut(self, day: u32) -> LoanRow
        ensures { result ≡ shut_on day self }
    {
        let late = self.dues.late || self.falls_late(day);
        LoanRow {
            dues: Dues { late, ..self.dues },
            stage: self.stage.at_shut(),
            ..self
        }
    }
}

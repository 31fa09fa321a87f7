//! What a kept loan counts in the totals over loans.
ghost use Rattle.loan.specs.Totals.{lent_of, out_of, unclosed_of, rows_of};

use crate::kept::LoanRow;
use sums::total::AmountFor;

/// Asks for the lent face of an account in a bond.
#[derive(Clone, Copy)]
pub struct LentBy {
    pub account: u8,
    pub bond: u8,
}

impl AmountFor<LentBy> for LoanRow {
    ghost amount_for = { λ asked row. lent_of asked.account asked.bond row };

    fn amount_for(&self, asked: &LentBy) -> u64 {
        if !self.is_out() || self.bond != asked.bond {
            return 0;
        }
        let account = usize::from(asked.account);
        self.shares.get(account).copied().unwrap_or(0)
    }
}

/// Asks for the face out of a borrower in a bond.
#[derive(Clone, Copy)]
pub struct OutOf {
    pub borrower: u8,
    pub bond: u8,
}

impl AmountFor<OutOf> for LoanRow {
    ghost amount_for = { λ asked row. out_of asked.borrower asked.bond row };

    fn amount_for(&self, asked: &OutOf) -> u64 {
        if self.is_out() && self.borrower == asked.borrower && self.bond == asked.bond {
            u64::from(self.face)
        } else {
            0
        }
    }
}

/// Asks for the number of a borrower's unclosed loans.
#[derive(Clone, Copy)]
pub struct UnclosedOf {
    pub borrower: u8,
}

impl AmountFor<UnclosedOf> for LoanRow {
    ghost amount_for = { λ asked row. unclosed_of asked.borrower row };

    fn amount_for(&self, asked: &UnclosedOf) -> u64 {
        u64::from(self.borrower == asked.borrower && !self.is_closed())
    }
}

/// Asks for the unfreed rows of a borrower in a bond.
#[derive(Clone, Copy)]
pub struct RowsOut {
    pub borrower: u8,
    pub bond: u8,
}

impl AmountFor<RowsOut> for LoanRow {
    ghost amount_for = { λ asked row. rows_of asked.borrower asked.bond row };

    fn amount_for(&self, asked: &RowsOut) -> u64 {
        if self.borrower != asked.borrower || self.is_closed() {
            return 0;
        }
        self.pledge.face_of(asked.bond)
    }
}

//! Loans are added, swapped a row and marked at the end of a day; none is ever taken out.
ghost use Rattle.std.specs.Prelude.{◌≡◌, ◌<◌, ◌≤◌, ◌^◌, true, [], map, length, All, IfOk, IfSome, if◌then◌else◌, Some, None};
ghost use Rattle.terms.specs.Refusals.{Settles};
ghost use Rattle.loan.specs.Kept.{row_of, shut_on, is_sound};
ghost use Rattle.register.specs.Loans.{is_full, with_loan, swap_refused, with_exchange, all_shut};

use crate::Register;
use loan::{Loan, LoanRow};
use pledge::Exchange;
use std::alloc::{AllocError, Global};
use terms::{Cause, Layer, Refusal};

impl Register {
    /// A register with room for so many loans.
    pub fn open(heap: Global, most: u16) -> Result<Register, AllocError>
        ensures { IfOk result (λ v. v ≡ record { rows = []; most = most }) }
    {
        let rows = Vec::with_capacity(heap, usize::from(most))?;
        Ok(Register { rows, most })
    }

    /// Whether as many loans have been accepted as rows are kept. Callers also learn here what every register keeps: no more
    /// loans than rows, fewer than 2^16 rows, and shares that total the face of each loan.
    pub fn is_full(&self) -> bool
        ensures full { result ≡ is_full self.now }
        ensures few { length self.now.rows ≤ self.now.most }
        ensures counted { self.now.most < 2 ^ 16 }
        ensures sound { All (λ (row : LoanRow). is_sound row ≡ true) self.now.rows }
    {
        self.rows.len() >= usize::from(self.most)
    }

    /// Adds a loan and gives its number; a full register stays as it is.
    pub fn add(&mut self, loan: Loan) -> Option<u64>
        ensures number { result ≡ (if is_full self.old then None else Some (length self.old.rows)) }
        ensures counted { IfSome result (λ number. number < 2 ^ 16) }
        ensures rows { self.new ≡ (if is_full self.old then self.old else with_loan self.old (row_of loan)) }
    {
        if self.is_full() {
            return None;
        }
        let number = self.rows.len() as u64;
        self.rows.push_reserved(loan.into());
        Some(number)
    }

    /// Tries a row in the place of another in a loan's pledge; refused, the loan stays as it is.
    pub fn swap(&mut self, loan: u64, exchange: &Exchange) -> Result<(), Refusal>
        ensures { Settles (swap_refused self.old loan exchange.now) tt self.old (with_exchange self.old loan exchange.now) result self.new }
    {
        let Some(row) = self.rows.get_mut(loan as usize) else {
            return Err(Layer::Order.refuse(Cause::Loan, 0));
        };
        row.pledge.swap(exchange)
    }

    /// Marks every loan as the end of a day leaves it.
    #[tactic(auto, using(crate::proofs::Shutting::kept_shut))]
    pub fn shut(&mut self, day: u32)
        ensures { self.new ≡ all_shut day self.old }
    {
        mark_each(&mut self.rows, day);
    }
}

// Marks the rows one by one.
fn mark_each(rows: &mut [LoanRow], day: u32)
    ensures { rows.new ≡ map (shut_on day) rows.old }
{
    for row in rows.iter_mut() {
        *row = row.at_shut(day);
    }
}

//! Which lenders of a loan are awaited: those with a share above 0 that have not answered.
ghost use Rattle.std.specs.Prelude.{◌≡◌, ℕ, ◌<◌, nat_lt, slice_index};
ghost use Rattle.loan.specs.Asked.{holds, awaited_of, asked};
ghost use Rattle.loan.specs.Kept.{row_of};

use crate::whole::Loan;

/// Who is awaited: the lowest account, and how many in all.
#[derive(Clone, Copy, Debug, Default, PartialEq, Eq)]
pub struct Awaited {
    pub lowest: Option<u8>,
    pub many: u32,
}

impl Loan {
    /// Who is awaited in the loan's matter; without one, nobody.
    pub fn question(&self) -> Awaited
        ensures { result ≡ asked (row_of self.now) }
    {
        match self.stage.answered() {
            Some(answered) => left_of(&self.shares.by, answered),
            None => Awaited::default(),
        }
    }
}

// Of the lenders, those that have not answered.
#[tactic(auto, using(crate::proofs::Digits::left_many, crate::proofs::Digits::left_some, crate::proofs::Digits::left_none))]
fn left_of(by: &[u64; 32], answered: u32) -> Awaited
    ensures { result ≡ awaited_of by.now answered }
{
    let left = lenders(by) & !answered;
    Awaited {
        lowest: (left != 0).then(|| left.trailing_zeros() as u8),
        many: left.count_ones(),
    }
}

// The accounts with a share above 0, one bit for each.
fn lenders(by: &[u64; 32]) -> u32
    ensures { (a : ℕ) → a < 32 → holds result a ≡ nat_lt 0 (slice_index by.now a) }
{
    let mut mask: u32 = 0;
    // A loop: a fold would carry the same mask through a closure.
    for (a, &share) in by.iter().enumerate() {
        if share > 0 {
            mask |= 1 << a;
        }
    }
    mask
}

#[cfg(test)]
mod tests {
    use super::*;
    use crate::kept::{Dues, LoanRow};
    use crate::stage::{Matter, Stage};
    use pledge::{Pledge, PledgeRow};
    use std::test::Fail;

    #[test]
    fn a_roll_awaits_its_lenders_until_shut(rt: HostRuntime) -> Result<(), Fail> {
        let mut shares = [0; 32];
        shares[3] = 600;
        shares[5] = 400;
        let row = LoanRow {
            borrower: 1,
            bond: 0,
            face: 1_000,
            shares,
            pledge: Pledge {
                rows: [PledgeRow { bond: 1, face: 500 }; 4],
            },
            dues: Dues {
                rate: 12_500,
                term: 1,
                due: 11,
                fee_paid: true,
                figure: 0,
                rolled: false,
                late: false,
            },
            stage: Stage::Out(Matter::Roll {
                term: 7,
                answered: 1 << 3,
            }),
        };
        let loan = Loan::try_from(row)?;
        let awaited = Awaited {
            lowest: Some(5),
            many: 1,
        };
        assert_eq!(rt; loan.question(), awaited);
        assert!(rt; LoanRow::from(loan).at_shut(11).dues.late);
        Ok(())
    }
}

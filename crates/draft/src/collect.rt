//! Collects what a pool is to be opened with, line by line.
ghost use Rattle.std.specs.Prelude.{◌≡◌, ◌++◌, length, set};
ghost use Rattle.terms.specs.Table.{first_of, answered, settled};
ghost use Rattle.draft.specs.Drafts.{blank_plan, missing, account_faults, bond_faults, part_faults, planned, figures_of};

use crate::plan::Draft;
use book::{available_place, pledged_place};
use records::Figures;
use script::{BookKind, Fault, Opening, OpeningPart, RuleKind};
use tables::{AccountFigures, BondFigures};

impl Draft {
    /// What stands where no line says otherwise.
    #[tactic(auto, unfolding(crate::specs::Drafts::every))]
    pub fn new() -> Draft
        ensures { result ≡ blank_plan }
    {
        let nobody = AccountFigures { right: 0, grade: 0 };
        let nothing = BondFigures {
            unit: 1,
            price: 1,
            discount: 0,
            adjustment: 0,
            lent_limit: 0,
            pledge_limit: 0,
            maturity: 1,
        };
        Draft {
            bond_book: BookKind::Standing,
            cash_book: BookKind::Standing,
            rule: RuleKind::First,
            accounts: [nobody; 32],
            bonds: [nothing; 16],
            stocks: [0; 1024],
            balances: [0; 32],
        }
    }

    /// Takes one line of the opening; of repeated lines the last stands. A line that names no account or no bond
    /// changes nothing.
    pub fn take(&mut self, part: OpeningPart) -> Result<(), Fault>
        ensures answer { result ≡ answered (first_of (part_faults part)) tt }
        ensures after { self.new ≡ settled (first_of (part_faults part)) self.old (planned self.old part) }
    {
        match part {
            OpeningPart::Books { bonds, cash } => {
                self.bond_book = bonds;
                self.cash_book = cash;
            }
            OpeningPart::Rule(rule) => self.rule = rule,
            OpeningPart::Account { account, figures } => {
                put(
                    &mut self.accounts,
                    account,
                    figures,
                    Fault::NoAccount(account),
                )?;
            }
            OpeningPart::Bond { bond, figures } => {
                put(&mut self.bonds, bond, figures, Fault::NoBond(bond))?;
            }
            OpeningPart::Stock {
                account,
                bond,
                available,
                pledged,
            } => {
                let (account, bond) = stock_row(account, bond)?;
                self.stocks[available_place(account, bond)] = available;
                self.stocks[pledged_place(account, bond)] = pledged;
            }
            OpeningPart::Balance { account, fen } => {
                put(&mut self.balances, account, fen, Fault::NoAccount(account))?;
            }
        }
        Ok(())
    }

    /// The figures with which the pool is opened.
    pub fn figures(&self, opening: Opening) -> Figures
        ensures { result ≡ figures_of self.now opening }
    {
        Figures {
            accounts: self.accounts,
            bonds: self.bonds,
            longest_term: opening.longest_term,
            most_loans: opening.most_loans,
            loan_rows: opening.loan_rows,
            day: opening.day,
            r001: opening.r001,
        }
    }
}

// Puts a row into its place, or gives the fault where there is no such place.
fn put<X: Drop>(rows: &mut [X], place: u64, row: X, fault: Fault) -> Result<(), Fault>
    ensures answer { result ≡ answered (first_of (missing (length rows.old) place fault)) tt }
    ensures after { rows.new ≡ settled (first_of (missing (length rows.old) place fault)) rows.old (set rows.old place row) }
{
    // The place is tested, since no clause of `get_mut` says what the rows hold after it.
    let place = place as usize;
    if place >= rows.len() {
        return Err(fault);
    }
    rows[place] = row;
    Ok(())
}

// The numbers of an account and a bond, which are in range.
fn stock_row(account: u64, bond: u64) -> Result<(u8, u8), Fault>
    ensures { result ≡ answered (first_of (account_faults account ++ bond_faults bond)) (account, bond) }
{
    if account >= 32 {
        return Err(Fault::NoAccount(account));
    }
    if bond >= 16 {
        return Err(Fault::NoBond(bond));
    }
    Ok((account as u8, bond as u8))
}

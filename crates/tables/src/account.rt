//! Accounts: their rights and grades, how they lend, and what one may lend.
ghost use Rattle.std.specs.Prelude.{◌≡◌};
ghost use Rattle.terms.specs.Named.{named};
ghost use Rattle.terms.specs.Ranges.{allowed};
ghost use Rattle.terms.specs.declared.range.Range.TheVariants as range;
ghost use Rattle.tables.specs.Accounts.{right_of, mode_of, is_whole, may_lend, may_borrow, lendable_of, bad_account, account_of};

use crate::rows::ReadFrom;
use terms::{Range, UnknownNumber};

/// What a member may do.
#[derive(Clone, Copy, Debug, Default, PartialEq, Eq)]
pub enum Right {
    #[default]
    Neither,
    Lend,
    Borrow,
    Both,
}

/// 0 neither, 1 lend, 2 borrow, 3 both.
impl TryFrom<u64> for Right {
    type Error = UnknownNumber;

    ghost try_from_gives = { λ n r. r ≡ named (allowed range.Right n) (right_of n) n };

    fn try_from(n: u64) -> Result<Right, UnknownNumber> {
        match n {
            0 => Ok(Right::Neither),
            1 => Ok(Right::Lend),
            2 => Ok(Right::Borrow),
            3 => Ok(Right::Both),
            _ => Err(UnknownNumber(n)),
        }
    }
}

impl Right {
    pub fn may_lend(self) -> bool
        ensures { result ≡ may_lend self }
    {
        matches!(self, Right::Lend | Right::Both)
    }

    pub fn may_borrow(self) -> bool
        ensures { result ≡ may_borrow self }
    {
        matches!(self, Right::Borrow | Right::Both)
    }
}

/// How an account lends: up to a preset for each bond, or its whole available face.
#[derive(Clone, Copy, Debug, Default, PartialEq, Eq)]
pub enum Mode {
    #[default]
    Preset,
    Whole,
}

/// 0 by presets, 1 the whole available face.
impl TryFrom<u64> for Mode {
    type Error = UnknownNumber;

    ghost try_from_gives = { λ n r. r ≡ named (allowed range.Mode n) (mode_of n) n };

    fn try_from(n: u64) -> Result<Mode, UnknownNumber> {
        match n {
            0 => Ok(Mode::Preset),
            1 => Ok(Mode::Whole),
            _ => Err(UnknownNumber(n)),
        }
    }
}

impl Mode {
    /// Whether an account in this mode lends its whole available face.
    pub fn is_whole(self) -> bool
        ensures { result ≡ is_whole self }
    {
        self == Mode::Whole
    }
}

/// By default an account that may do nothing.
#[derive(Clone, Copy, Debug, Default, PartialEq, Eq)]
pub struct Account {
    pub right: Right,
    pub grade: u8,
    pub mode: Mode,
    /// For each bond the face up to which the account lends by presets; 0 where none is set, since an account without a
    /// preset lends as one with a preset of 0 does.
    pub presets: [u64; 16],
}

/// An account as an opening tells it; any numbers may stand here, since whoever opens a pool may send anything.
#[derive(Clone, Copy, Debug, Default, PartialEq, Eq)]
pub struct AccountFigures {
    pub right: u64,
    pub grade: u64,
}

impl ReadFrom<AccountFigures> for Account {
    ghost bad = { bad_account };

    ghost meant = { account_of };

    #[tactic(auto, unfolding(crate::specs::Blank::blank))]
    fn read(figures: &AccountFigures) -> Option<Account> {
        let right = Right::try_from(figures.right).ok()?;
        if !Range::Grade.allows(figures.grade) {
            return None;
        }
        Some(Account {
            right,
            grade: figures.grade as u8,
            mode: Mode::Preset,
            presets: [0; 16],
        })
    }
}

/// The face of a bond that an account may lend, from what it has available there, its preset and what it has lent.
pub fn lendable(account: Account, available: u64, preset: u64, lent: u64) -> u64
    ensures { result ≡ lendable_of account available preset lent }
{
    if !account.right.may_lend() {
        return 0;
    }
    match account.mode {
        Mode::Whole => available,
        Mode::Preset => available.min(preset.saturating_sub(lent)),
    }
}

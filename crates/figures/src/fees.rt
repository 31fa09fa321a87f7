//! The fee of a loan, and who gets it. Faces are in yuan, rates in millionths a year, money in fen.
ghost use Rattle.std.specs.Prelude.{◌≡◌, ◌+◌, ◌-◌, ◌/◌, ◌^◌, ◌<◌, ◌≤◌, sum};
ghost use Rattle.figures.specs.Fees.{half_up, rate_of, fee_of, clearing_of, lender_parts, house_keeps, ClearingWithin};

use sums::parts::floor_parts;
use sums::total::{Every, total};

/// A fee's divisor: 365 days, millionths and the 100 fen of a yuan.
const FEE_DIVISOR: u64 = 3_650_000;

/// A clearing fee's divisor: two hundredths of a fen a day for 100 yuan.
const CLEARING_DIVISOR: u64 = 5_000;

/// The rate of a loan that begins at this R001, the overnight repo rate.
pub fn rate(r001: u32) -> u16
    ensures { result ≡ rate_of r001 }
{
    r001.saturating_sub(5_000).max(5_000).min(15_000) as u16
}

/// The fee for a term of days, rounded half up.
pub fn fee(face: u32, rate: u16, days: u16) -> u64
    ensures { result ≡ fee_of face rate days }
{
    half_up(
        u64::from(face) * u64::from(rate) * u64::from(days),
        FEE_DIVISOR,
    )
}

/// The clearing fee for a term of days, rounded half up.
pub fn clearing_fee(face: u32, days: u16) -> u64
    ensures { result ≡ clearing_of face days }
{
    half_up(u64::from(face) * u64::from(days), CLEARING_DIVISOR)
}

/// What each lender gets of the fee: the fee less the clearing fee by the shares, rounded down.
pub fn lender_parts(fee: u64, clearing: u64, shares: &[u64; 32]) -> [u64; 32]
    ensures parts { result ≡ lender_parts fee clearing shares.now }
    ensures below { sum result ≤ fee - clearing }
{
    floor_parts(fee.saturating_sub(clearing), shares)
}

/// What stays with the house once the lenders have their parts: at least the clearing fee, where the fee holds it.
pub fn house_keeps(fee: u64, clearing: u64, shares: &[u64; 32]) -> u64
    ensures kept { result ≡ house_keeps fee clearing shares.now }
    ensures whole { result + sum (lender_parts fee clearing shares.now) ≡ fee }
    ensures least { clearing ≤ fee → clearing ≤ result }
{
    let parts = lender_parts(fee, clearing, shares);
    fee - total(&parts, &Every) as u64
}

/// The lowest rate of a loan: at it and above it the clearing fee is within the fee.
pub fn clearing_within() -> u16
    ensures { ClearingWithin result }
{
    from_rate(rate(0))
}

/// A rate from which up the clearing fee is within the fee.
fn from_rate(rate: u16) -> u16
    requires { rate ≡ 5_000 }
    ensures { ClearingWithin result }
{
    rate
}

/// An amount over an even divisor, rounded half up.
fn half_up(amount: u64, by: u64) -> u64
    requires { (0 < by) × (amount + by / 2 < 2 ^ 64) }
    ensures { result ≡ half_up amount by }
{
    (amount + by / 2) / by
}

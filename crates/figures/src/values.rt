//! What pledges and loans are worth. Faces are in yuan, prices in fen for 100 yuan, discounts and
//! adjustments in ten-thousandths, multipliers in hundredths, values in fen.
ghost use Rattle.std.specs.Prelude.{◌≡◌};
ghost use Rattle.figures.specs.Values.{row_value, multiplier_of, lent_value, for_share, covers_of};

/// What a pledge row is worth after its discount and its grade's multiplier, rounded down.
/// Nothing at a multiplier of 0, which no grade has.
pub fn row_value(face: u32, price: u16, discount: u16, multiplier: u16) -> u64
    ensures { result ≡ row_value face price discount multiplier }
{
    if multiplier == 0 {
        return 0;
    }
    u64::from(face) * u64::from(price) * u64::from(discount) / (10_000 * u64::from(multiplier))
}

/// A grade's multiplier; 0 past grade 7, and no `None`, since a member's grade is 0 to 7 from the opening on.
pub fn multiplier(grade: u8) -> u16
    ensures { result ≡ multiplier_of grade }
{
    match grade {
        0 => 100,
        1 => 105,
        2 => 110,
        3 => 120,
        4 => 130,
        5 => 150,
        6 => 175,
        7 => 200,
        _ => 0,
    }
}

/// What the lent face is worth after its adjustment, rounded up.
pub fn lent_value(face: u32, price: u16, adjustment: u16) -> u64
    ensures { result ≡ lent_value face price adjustment }
{
    (u64::from(face) * u64::from(price) * u64::from(adjustment) + 999_999) / 1_000_000
}

/// What a lender's share comes to at a figure in fen for 100 yuan, as a price, rounded down.
pub fn for_share(share: u32, figure: u32) -> u64
    ensures { result ≡ for_share share figure }
{
    u64::from(share) * u64::from(figure) / 100
}

/// Whether pledge rows of this total cover the lent value and the fee.
pub fn covers(rows: u128, lent: u64, fee: u64) -> bool
    ensures { result ≡ covers_of rows lent fee }
{
    rows >= u128::from(lent) + u128::from(fee)
}

//! The places of an account in a book of bonds: for each of 16 bonds an available and a pledged one. A book is one row of
//! numbered places by the rules of a pool, so a place is a number.
ghost use Rattle.std.specs.Prelude.{◌≡◌};
ghost use Rattle.book.specs.Places.{available, pledged};

/// The place of what an account has available of a bond.
pub fn available_place(account: u8, bond: u8) -> usize
    ensures { result ≡ available account bond }
{
    (usize::from(account) * 16 + usize::from(bond)) * 2
}

/// The place of what an account has pledged of a bond.
pub fn pledged_place(account: u8, bond: u8) -> usize
    ensures { result ≡ pledged account bond }
{
    available_place(account, bond) + 1
}

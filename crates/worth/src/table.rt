//! A bond of the records.
ghost use Rattle.std.specs.Prelude.{◌≡◌};
ghost use Rattle.records.specs.Kept.{bond_at};

use records::Records;
use tables::Bond;

/// A bond of the table; past its end one without figures.
pub(crate) fn bond_of(records: &Records, bond: u8) -> Bond
    ensures { result ≡ bond_at records.now bond }
{
    records
        .bonds
        .get(usize::from(bond))
        .copied()
        .unwrap_or_default()
}

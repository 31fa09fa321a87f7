//! Orders to borrow: what one carries, the two kinds, and the minutes of the day at which each may come.
ghost use Rattle.std.specs.Prelude.{◌≡◌};
ghost use Rattle.terms.specs.Named.{named};
ghost use Rattle.terms.specs.Orders.{is_kind, kind_of, in_window};

use crate::unknown::UnknownNumber;

/// A pledge row as an order tells it; any numbers may stand here.
#[derive(Clone, Copy, Debug, PartialEq, Eq)]
pub struct OrderRow {
    pub bond: u64,
    pub face: u64,
}

/// An order to borrow; any numbers may stand here, since whoever sends one may send anything. Rows past the count are not
/// looked at; the count stands beside an array, and no slice, since calls are copied and own what they carry.
#[derive(Clone, Copy)]
pub struct Order {
    pub kind: u64,
    pub borrower: u64,
    pub bond: u64,
    pub face: u64,
    pub term: u64,
    pub count: u64,
    pub rows: [OrderRow; 4],
}

#[derive(Clone, Copy, Debug, PartialEq, Eq)]
pub enum OrderKind {
    Full,
    Net,
}

/// 0 full, 1 net.
impl TryFrom<u64> for OrderKind {
    type Error = UnknownNumber;

    ghost try_from_gives = { λ n r. r ≡ named (is_kind n) (kind_of n) n };

    fn try_from(n: u64) -> Result<OrderKind, UnknownNumber> {
        match n {
            0 => Ok(OrderKind::Full),
            1 => Ok(OrderKind::Net),
            _ => Err(UnknownNumber(n)),
        }
    }
}

impl OrderKind {
    /// Whether an order of this kind may come at this minute.
    pub fn may_come(self, minute: u16) -> bool
        ensures { result ≡ in_window self minute }
    {
        match (self, minute) {
            (OrderKind::Full, m) if m >= 540 && m <= 1010 => true,
            (OrderKind::Net, m) if m >= 945 && m <= 970 => true,
            _ => false,
        }
    }
}

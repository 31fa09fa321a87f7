//! One place of a netting book. For clauses it is the amount that it holds.
ghost use Rattle.std.specs.Prelude.{◌≡◌, ℕ};
ghost use Rattle.netting.specs.Netted.{standing, Within};

use std::marker::Model;

/// What a place opened with, and its net change since.
#[derive(Drop)]
pub(crate) struct Entry {
    opening: u64,
    net: i128,
}

impl Model for Entry {
    ghost Value = { ℕ };

    ghost view = { λ e. standing e.opening e.net };

    ghost invariant = { λ e. Within e.opening e.net };
}

impl Entry {
    /// A place that opens with an amount.
    pub(crate) fn open(opening: u64) -> Entry
        ensures { result ≡ opening }
    {
        Entry { opening, net: 0 }
    }

    /// What the place holds.
    pub(crate) fn amount(&self) -> u64
        ensures { result ≡ self.now }
    {
        (i128::from(self.opening) + self.net) as u64
    }

    /// Gives the place the net change with which it holds an amount.
    pub(crate) fn set(&mut self, amount: u64)
        ensures { self.new ≡ amount }
    {
        self.net = i128::from(amount) - i128::from(self.opening);
    }
}

//! The one total: what any rows come to for what is asked of them.
ghost use Rattle.std.specs.Prelude.{◌≡◌, ℕ, ◌+◌, ◌*◌, ◌^◌, ◌<◌, ◌≤◌, length, sum_by};

/// A row with an amount for what is asked. A row that does not count has the amount 0.
pub trait AmountFor<Q> {
    ghost amount_for: { Q → Self → ℕ };

    fn amount_for(&self, asked: &Q) -> u64
        ensures { result ≡ amount_for asked.now self.now };
}

/// What the rows come to for what is asked. No number of rows and no amount makes it wrap.
pub fn total<Q, T: AmountFor<Q>>(rows: &[T], asked: &Q) -> u128
    ensures sum { result ≡ sum_by (T.amount_for asked.now) rows.now }
    ensures bound { result ≤ 18446744073709551615 * length rows.now }
{
    let mut sum: u128 = 0;
    for row in rows {
        sum = added(sum, row, asked);
    }
    sum
}

/// A sum with one row's amount added.
fn added<Q, T: AmountFor<Q>>(sum: u128, row: &T, asked: &Q) -> u128
    requires { sum + 18446744073709551615 < 2 ^ 128 }
    ensures sum { result ≡ sum + T.amount_for asked.now row.now }
    ensures bound { result ≤ sum + 18446744073709551615 }
{
    sum + u128::from(row.amount_for(asked))
}

/// Asks for the whole amount of every row.
#[derive(Clone, Copy)]
pub struct Every;

impl AmountFor<Every> for u64 {
    ghost amount_for = { λ _ amount. amount };

    fn amount_for(&self, _asked: &Every) -> u64 {
        *self
    }
}

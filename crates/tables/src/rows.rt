//! One reading of a table: every row of figures in turn, up to the first that is outside its range.
ghost use Rattle.std.specs.Prelude.{◌≡◌, Bool, length, IfOk, if◌then◌else◌, Some, None};
ghost use Rattle.tables.specs.Rows.{read_table};
ghost use Rattle.terms.specs.Refusals.{refuse_order};
ghost use Rattle.terms.specs.declared.refusal.Cause.TheVariants as cause;

use terms::{Cause, Layer, Refusal};

/// A row that is read from figures of the type F. A trait of its own and no `TryFrom`: the proof of a table needs the row
/// that figures mean as a function of them, and of a `TryFrom` only a relation is known.
pub trait ReadFrom<F>: Copy + Default {
    /// A figure of the row is outside its range.
    ghost bad: { F → Bool };

    /// The row that good figures mean.
    ghost meant: { F → Self };

    fn read(figures: &F) -> Option<Self>
        ensures { result ≡ (if bad figures.now then None else Some (meant figures.now)) };
}

/// The rows that the figures mean, or the refusal that names the first row with a figure outside its range.
pub fn read_table<F, R: ReadFrom<F>, const N: usize>(figures: &[F; N]) -> Result<[R; N], Refusal>
    ensures read { result ≡ read_table R.ReadFrom.bad R.ReadFrom.meant figures.now }
    ensures sized { IfOk result (λ rows. length rows ≡ N) }
{
    let mut rows = [R::default(); N];
    // A loop, since of `try_from_fn` it is not known that its error is the first one.
    for (i, one) in figures.iter().enumerate() {
        let Some(row) = R::read(one) else {
            return Err(refuse_row(i));
        };
        rows[i] = row;
    }
    Ok(rows)
}

// The refusal of a row with a figure outside its range.
fn refuse_row(row: usize) -> Refusal
    ensures { result ≡ refuse_order cause.Figure row }
{
    Layer::Order.refuse(Cause::Figure, row as u64)
}

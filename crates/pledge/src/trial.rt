//! The guard of a row under trial: unless the trial is accepted, the old row comes back when the guard is let go.
ghost use Rattle.std.specs.Prelude.{◌≡◌};

use crate::rows::PledgeRow;
use std::mem;

/// A pledge row with another row in its place.
pub struct Trial<'a> {
    row: &'a mut PledgeRow,
    old: PledgeRow,
}

impl<'a> Trial<'a> {
    /// Puts a new row in the place of one.
    pub fn begin(row: &'a mut PledgeRow, new: PledgeRow) -> Trial<'a>
        ensures tried { result.row.now ≡ new }
        ensures held { result.old ≡ row.old }
        ensures place { result.row.ghost_name ≡ row.entry.ghost_name }
    {
        let old = mem::replace(row, new);
        Trial { row, old }
    }

    /// The row under trial.
    pub fn row(&self) -> &PledgeRow
        ensures { result.now ≡ self.entry.now.row.now }
    {
        self.row
    }

    /// Lets the new row stay.
    pub fn accept(self)
        ensures { self.exit.0.now ≡ self.entry.row.now }
    {
        let Trial { row: _, old: _ } = self;
    }
}

impl Drop for Trial<'_> {
    fn drop(self)
        ensures { self.exit.0.now ≡ self.entry.old }
    {
        let Trial { row, old } = self;
        *row = old;
    }
}

//! The range of every figure that is sent.
ghost use Rattle.std.specs.Prelude.{◌≡◌};
ghost use Rattle.terms.specs.Ranges.{allowed};

#[derive(Clone, Copy, Debug, PartialEq, Eq)]
pub enum Range {
    Right,
    Grade,
    Unit,
    Price,
    Discount,
    Adjustment,
    Limit,
    Maturity,
    LongestTerm,
    MostLoans,
    LoanRows,
    Day,
    R001,
    Minute,
    Amount,
    Mode,
}

impl Range {
    /// Whether a figure of this kind may be n.
    pub fn allows(self, n: u64) -> bool
        ensures { result ≡ allowed self n }
    {
        match self {
            Range::Right => n <= 3,
            Range::Grade => n <= 7,
            Range::Unit => n >= 1 && n <= 1_000_000,
            Range::Price => n >= 1 && n <= 20_000,
            Range::Discount => n <= 10_000,
            Range::Adjustment => n == 0 || n >= 10_000 && n <= 20_000,
            Range::Limit => n <= 1_000,
            Range::Maturity => n >= 1 && n <= 70_000,
            Range::LongestTerm => n >= 1 && n <= 14,
            Range::MostLoans => n >= 1 && n <= 64,
            Range::LoanRows => n >= 1 && n <= 256,
            Range::Day => n >= 1 && n <= 60_000,
            Range::R001 => n <= 100_000,
            Range::Minute => n <= 1_439,
            Range::Amount => n <= 10_000_000_000_000,
            Range::Mode => n <= 1,
        }
    }
}

//! The stages of a loan, and the matters that its lenders are asked about while it is out.
ghost use Rattle.std.specs.Prelude.{◌≡◌};
ghost use Rattle.loan.specs.Stages.{is_out, is_unfunded, answered_in, lapsed};

/// What is asked of the lenders. `answered` has one bit for each account.
#[derive(Clone, Copy, Debug, PartialEq, Eq)]
pub enum Matter {
    /// Nothing is asked. A case and no `Option`, so that one match on stage and matter has every case.
    Quiet,
    /// To extend the loan by a term.
    Roll { term: u8, answered: u32 },
    /// To take cash at a price.
    Cash { price: u16, answered: u32 },
    /// To confirm the cash that the house holds.
    Funded { price: u16, answered: u32 },
}

/// Where the lent bond is: still out, given back, or delivered in cash.
#[derive(Clone, Copy, Debug, PartialEq, Eq)]
pub enum Stage {
    Out(Matter),
    Back,
    Delivered,
}

impl Stage {
    /// Whether the lent bond is neither given back nor delivered in cash.
    pub(crate) fn is_out(self) -> bool
        ensures { result ≡ is_out self }
    {
        match self {
            Stage::Out(_) => true,
            Stage::Back | Stage::Delivered => false,
        }
    }

    /// Whether the loan is out, and the house does not hold the cash for it.
    pub(crate) fn is_unfunded(self) -> bool
        ensures { result ≡ is_unfunded self }
    {
        match self {
            Stage::Out(Matter::Funded { .. }) => false,
            Stage::Out(_) => true,
            Stage::Back | Stage::Delivered => false,
        }
    }

    /// The answers in the matter, if there is one.
    pub(crate) fn answered(self) -> Option<u32>
        ensures { result ≡ answered_in self }
    {
        match self {
            Stage::Out(
                Matter::Roll { answered, .. }
                | Matter::Cash { answered, .. }
                | Matter::Funded { answered, .. },
            ) => Some(answered),
            Stage::Out(Matter::Quiet) | Stage::Back | Stage::Delivered => None,
        }
    }

    /// The stage after the day is shut.
    pub(crate) fn at_shut(self) -> Stage
        ensures { result ≡ lapsed self }
    {
        match self {
            Stage::Out(Matter::Roll { .. } | Matter::Cash { .. }) => Stage::Out(Matter::Quiet),
            other => other,
        }
    }
}

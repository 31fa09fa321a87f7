//! The calls of a pool's life, each with the numbers that it carries. Any number may be sent.
#[derive(Clone, Copy, Debug, PartialEq, Eq)]
pub enum Call {
    Clock {
        minute: u64,
    },
    Quota {
        account: u64,
        bond: u64,
        face: u64,
    },
    Mode {
        account: u64,
        mode: u64,
    },
    Price {
        bond: u64,
        price: u64,
    },
    Deliver {
        from: u64,
        to: u64,
        bond: u64,
        face: u64,
    },
    Remit {
        from: u64,
        to: u64,
        fen: u64,
    },
    Shut,
    Next {
        day: u64,
        r001: u64,
    },
}

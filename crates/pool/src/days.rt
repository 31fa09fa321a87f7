//! The two kinds of day that a caller holds. Neither can be copied, so that a day is shut once and turned into a next day once.
/// An open day: calls borrow it, and shutting takes it.
#[derive(Drop)]
pub struct OpenDay {
    pub(crate) number: u32,
}

/// A shut day: only a next day comes of it.
#[derive(Drop)]
pub struct ShutDay {
    pub(crate) number: u32,
}

/// The day that a caller holds, of either kind.
#[derive(Drop)]
pub enum Day {
    Open(OpenDay),
    Shut(ShutDay),
}

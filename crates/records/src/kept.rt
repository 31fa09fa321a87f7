//! The tables of a pool, each of its fixed size.
use tables::{Account, Bond};

/// The day and the minute that the pool keeps, whether the day is open, and the day's R001.
#[derive(Clone, Copy)]
pub struct Time {
    pub day: u32,
    pub opened: bool,
    pub minute: u16,
    pub r001: u32,
}

/// The limits that a pool is opened with.
#[derive(Clone, Copy)]
pub struct Limits {
    pub longest_term: u8,
    pub most_loans: u8,
    pub loan_rows: u16,
}

/// The tables of accounts and bonds, the time, and the limits.
#[derive(Clone, Copy)]
pub struct Records {
    pub accounts: [Account; 32],
    pub bonds: [Bond; 16],
    pub time: Time,
    pub limits: Limits,
}

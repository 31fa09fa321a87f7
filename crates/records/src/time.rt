//! The calls that keep the time: clock, shut and next. `day` is the number of the day that the caller holds.
ghost use Rattle.std.specs.Prelude.{◌≡◌};
ghost use Rattle.terms.specs.Table.{first_of};
ghost use Rattle.terms.specs.Refusals.{Settles};
ghost use Rattle.records.specs.Times.{not_open, not_shut, clock_rules, clocked, shut_rules, closed, next_rules, reopened};

use crate::kept::{Records, Time};
use terms::{Cause, Layer, Range, Refusal};

impl Records {
    /// Whether an open day of this number is not this pool's.
    pub fn is_not_open(&self, day: u32) -> bool
        ensures { result ≡ not_open self.now day }
    {
        !self.time.opened || self.time.day != day
    }

    fn is_not_shut(&self, day: u32) -> bool
        ensures { result ≡ not_shut self.now day }
    {
        self.time.opened || self.time.day != day
    }

    /// Moves the clock on to a minute of the day.
    pub fn clock(&mut self, day: u32, minute: u64) -> Result<(), Refusal>
        ensures { Settles (first_of (clock_rules self.old day minute)) tt self.old (clocked self.old minute) result self.new }
    {
        if self.is_not_open(day) {
            return Err(Layer::Order.refuse(Cause::Time, 0));
        }
        if minute < u64::from(self.time.minute) || !Range::Minute.allows(minute) {
            return Err(Layer::Order.refuse(Cause::Figure, 0));
        }
        self.time.minute = minute as u16;
        Ok(())
    }

    /// Ends the day.
    pub fn shut(&mut self, day: u32) -> Result<(), Refusal>
        ensures { Settles (first_of (shut_rules self.old day)) tt self.old (closed self.old) result self.new }
    {
        if self.is_not_open(day) {
            return Err(Layer::Order.refuse(Cause::Time, 0));
        }
        if self.time.minute < 1020 {
            return Err(Layer::Order.refuse(Cause::Time, 0));
        }
        self.time.opened = false;
        Ok(())
    }

    /// Opens the next day, at minute 0.
    pub fn next(&mut self, shut: u32, day: u64, r001: u64) -> Result<(), Refusal>
        ensures { Settles (first_of (next_rules self.old shut day r001)) tt self.old (reopened self.old day r001) result self.new }
    {
        if self.is_not_shut(shut) {
            return Err(Layer::Order.refuse(Cause::Time, 0));
        }
        if day <= u64::from(self.time.day) || !Range::Day.allows(day) {
            return Err(Layer::Order.refuse(Cause::Figure, 0));
        }
        if !Range::R001.allows(r001) {
            return Err(Layer::Order.refuse(Cause::Figure, 0));
        }
        self.time = Time {
            day: day as u32,
            opened: true,
            minute: 0,
            r001: r001 as u32,
        };
        Ok(())
    }
}

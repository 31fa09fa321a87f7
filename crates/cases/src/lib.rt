//! Worked cases: a table that is proved, and runs of the parts of the pool on edge values.

#![tactic(auto)]

#[cfg(test)]
mod answering;
#[cfg(test)]
mod drafts;
#[cfg(test)]
mod edges;
#[cfg(test)]
mod money;
#[cfg(test)]
mod moving;
#[cfg(test)]
mod netted;
#[cfg(test)]
mod reading;
#[cfg(test)]
mod sharing;
#[cfg(test)]
mod stood;
mod worked;

pub use worked::{WorkedFigures, worked_cases};

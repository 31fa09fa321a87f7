//! Runs of the pool: openings that are refused, a refusal of each number, and whole lives. There are only tests here.

#![tactic(auto)]

#[cfg(test)]
mod lives;
#[cfg(test)]
mod openings;
#[cfg(test)]
mod refusals;
#[cfg(test)]
mod sample;

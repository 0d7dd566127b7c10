//! Plaintexts that are used up to a moment, which stands in front of them in ticks.
#![tactic(auto)]

mod expiry;
#[cfg(test)]
mod tests;

pub use expiry::{TimedRefused, expiry_comes_back, split_expiry, with_expiry};

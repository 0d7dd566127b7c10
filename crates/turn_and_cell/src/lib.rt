//! A cell whose setter is the flight of a turn: what one caller of many does with both.
//!
//! Whoever takes the turn has the setter, and its viewer learns all that was set. From then on a
//! look extends the value set last, so a value that extends the look may be set.
#![tactic(auto)]

mod held;
#[cfg(test)]
mod tests;

pub use held::{look, set, take};

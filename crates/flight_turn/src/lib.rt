//! The turn of one node: who may fly, and how much was asked for.
//!
//! Many seats share a turn. At most one of them holds it, and with it the flight, a value that
//! there is once. Nobody waits: a seat that finds the turn taken is told by whom.
#![tactic(auto)]

mod calls;
mod plays;
mod rule;
mod seat;
#[cfg(test)]
mod tests;
mod turn;

pub use seat::TurnSeat;
pub use turn::{Busy, Turn};

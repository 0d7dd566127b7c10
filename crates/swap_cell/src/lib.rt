//! A cell with one setter and viewers that never wait.
//!
//! The setter hands each viewer two shares of each value that it sets, in slots of the viewer's own,
//! one after the other. A value extends those that were set before it, no viewer ever goes back, and
//! a look finds one of its slots free.
#![tactic(auto)]

mod apart;
mod board;
mod handles;
mod making;
mod plays;
mod setting;
#[cfg(test)]
mod tests;
mod viewing;

pub use apart::Apart;
pub use handles::{SetBack, Setter, Told, Viewer};
pub use making::cell;

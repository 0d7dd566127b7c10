//! A cluster: sessions over one history. An audit of their traces tells the first that left it.
#![tactic(auto)]

mod auditing;
mod differs;
#[cfg(test)]
mod node_tests;
#[cfg(test)]
mod pass_tests;
#[cfg(test)]
mod session_tests;
#[cfg(test)]
mod tests;

pub use auditing::{AuditFork, audit};
pub use differs::Differs;

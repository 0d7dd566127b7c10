//! Chains of purposes, and the data that binds the keys of a payload to a key's id and a chain.
#![tactic(auto)]

mod chain;
mod law;
#[cfg(test)]
mod tests;

pub use chain::{Chain, ChainRefused, MAX_CHAIN, MAX_PURPOSES};
pub use law::aad_one_to_one;

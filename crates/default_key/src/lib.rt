//! Which key of a ring protects at a moment: the key that is preferred, the one to fall back on,
//! and whether a new key is due.
#![tactic(auto)]

mod choice;
mod key_facts;
mod options;
mod policy;

pub use key_facts::KeyFacts;
pub use options::{BadLifetime, Options, PERIOD, PROPAGATION, SKEW};
pub use policy::{Policy, resolve};

#[cfg(test)]
mod tests;

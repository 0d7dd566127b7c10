//! Key derivation in counter mode (SP 800-108, 4.1), over any pseudorandom function.
#![tactic(auto)]

mod counter;
#[cfg(test)]
mod tests;

pub use counter::{MAX_DERIVED, TooLong, derive};

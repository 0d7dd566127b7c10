//! Galois/Counter Mode (SP 800-38D) with nonces of 96 bits and tags of 128, over any block cipher. That
//! data and texts are below 2^32 bytes is a limit of this crate's own, below the standard's (5.2.1.1).
#![tactic(auto)]

mod counter;
mod hash;
mod key;
mod product;
mod seal;
#[cfg(test)]
mod tests;

pub use hash::ghash;
pub use key::GhashKey;
pub use product::product_of_sums;
pub use seal::{GcmRefused, gcm_open, gcm_seal, gcm_tag};

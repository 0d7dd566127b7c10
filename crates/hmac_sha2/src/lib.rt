//! Keyed hashes of messages in pieces: HMAC (FIPS 198-1) over SHA-256 and SHA-512.
#![tactic(auto)]

mod hash;
mod hmac;
#[cfg(test)]
mod tests;

pub use hash::BlockHash;
pub use hmac::{Hmac, HmacSha256, HmacSha512, values_are_hmac};

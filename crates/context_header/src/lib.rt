//! The context header of an algorithm: bytes that its choice of cipher, hash and sizes determines, and
//! that go into each derivation of keys under it.
#![tactic(auto)]

mod header;
mod keys;
#[cfg(test)]
mod tests;

pub use header::{Header, header_of};
pub use keys::{Keys, key_len, mac_len};

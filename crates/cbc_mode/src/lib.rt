//! Cipher block chaining (SP 800-38A, 6.2) of padded texts (RFC 5652, 6.3), over any block cipher.
#![tactic(auto)]

mod chain;
mod pad;
mod seal;
#[cfg(test)]
mod tests;

pub use seal::{CbcRefused, cbc_open, cbc_seal};

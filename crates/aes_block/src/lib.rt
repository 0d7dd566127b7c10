//! AES, the block cipher of FIPS 197, under keys of 16, 24 and 32 bytes.
#![tactic(auto)]

mod aes;
mod expansion;
mod inv_tables;
mod rounds;
mod s_box;
mod tables;
#[cfg(test)]
mod tests;

pub use aes::{Aes, BadKeyLength};
pub use s_box::bytes_have_inverses;

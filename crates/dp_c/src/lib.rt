//! AES and its modes, keyed hashes, derivation, and bodies of payloads for programs in C: a thin static
//! library on numbers and byte slices. include/dp_c.h declares it for C and C++. C passes a slice as a
//! pointer and then its length, and nothing for the allocator.
#![tactic(auto)]

mod aes;
mod answer;
mod body;
mod cbc;
mod derivation;
mod digest;
mod gcm;
mod keyed_hash;
mod room;
#[cfg(test)]
mod tests;

//! Sealing and opening of the bodies of payloads, under keys that are derived for each body.
#![tactic(auto)]

mod encryptor;
mod forms;
mod law;
mod table;
#[cfg(test)]
mod tests;

pub use encryptor::{BodyRefused, Encryptor};
pub use law::opening_undoes_sealing;
pub use table::HeaderTable;

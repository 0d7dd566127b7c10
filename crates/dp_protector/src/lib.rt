//! Protecting and unprotecting by a ring: bytes, texts, and payloads that expire. A ring seals under
//! its default key, and opens what a key that it holds has sealed for the same chain of purposes.
#![tactic(auto)]

mod law;
mod opened;
mod protect;
mod refused;
mod seal;
#[cfg(test)]
mod tests;
mod text;
mod timed;
mod unprotect;

pub use law::{
    default_key_is_sound, revoked_stays_shut, same_bytes_at_every_node, texts_are_exact,
};
pub use opened::{Opened, OpenedText, OpenedTimed};
pub use protect::{MAX_PLAIN, protect_with};
pub use refused::{ProtectRefused, TextRefused, TimedOpenRefused, UnprotectRefused};
pub use text::{MAX_TEXT, open_text, payload_of, protect_text, unprotect_text};
pub use timed::{MAX_TIMED, protect_timed, unprotect_timed};
pub use unprotect::unprotect_with;

//! Views of payloads and of their bodies: each part is a slice of the input, and none is copied.
#![tactic(auto)]

mod body;
mod head;
#[cfg(test)]
mod tests;

pub use body::BodyView;
pub use head::{HeadRefused, PayloadView};

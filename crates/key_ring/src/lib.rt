//! The ring that a list of elements gives at a moment: its keys, which of them protects, and the
//! listing that shows them.
#![tactic(auto)]

mod due;
mod elements;
mod keys;
mod listing;
mod named;
mod revoked;
mod ring;

pub use due::{EXTENSION, Why};
pub use listing::LISTING_LIMIT;
pub use revoked::revoked_stays;
pub use ring::{KeyState, Ring};

#[cfg(test)]
mod tests;

//! One repository that many nodes share.
//!
//! Behind a lock lies a shelf: a keeper and the history that was loaded from it. Each link has seen
//! a front of that one history. The lock is a word of a table, and the shelf lies in a slot of it,
//! so that the rule of the table speaks of what is locked.
#![tactic(auto)]

mod board;
mod calling;
mod closing;
mod handles;
mod law;
mod link;
mod locking;
mod making;
mod meeting;
mod plays;
mod shelf;
#[cfg(test)]
mod tests;

pub use closing::{CloseRefused, close};
pub use handles::{Link, SharedRepo};
pub use law::marks_tell_links;
pub use meeting::meet;
pub use shelf::Shelf;

//! How a session ends.

use crate::status::Status;
use dp_answer::Trace;
use key_elements::ElementRefused;

/// What is wrong with input.
#[derive(Clone, Copy, Debug, PartialEq, Eq)]
pub enum BadWhy {
    /// An element is refused.
    Element(ElementRefused),
    /// As many elements as a list may have were read, and bytes are left.
    TooMany,
    /// A frame has no body.
    Zero,
    /// A frame's body is longer than it may be.
    TooLarge { len: u32 },
    /// The input ends in a frame: how many bytes of it came, with those of its length, and how many
    /// it needs; 4 where its length didn't come whole.
    Cut { have: u64, want: u64 },
}

/// Where input is wrong: the place, in bytes from 0, of the element or frame that is refused, or of
/// the first byte that is left of a list.
#[derive(Clone, Copy, Debug, PartialEq, Eq)]
pub struct BadPlace {
    pub place: u64,
    pub why: BadWhy,
}

/// How a session ended, and what its requests used.
#[derive(Debug, Drop)]
pub struct SessionEnd {
    pub status: Status,
    /// Where the input was wrong, at the status of bad input alone.
    pub bad: Option<BadPlace>,
    pub trace: Trace,
}

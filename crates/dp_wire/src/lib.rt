//! The wire: frames, the bodies of requests, and replies (docs/FORMATS.md, "Frames and requests",
//! "Replies").
#![tactic(auto)]

mod chain;
mod frame;
mod kinds;
mod purposes;
mod reading;
mod reply;
mod request;

pub use chain::{ChainView, MAX_WIRE_CHAIN, MAX_WIRE_PURPOSES};
pub use frame::{FrameRefused, MAX_BODY, frame_len, no_frame_begins_another};
pub use purposes::PurposeIter;
pub use reply::{Reply, no_memory_frame, put_reply};
pub use request::{BadRequest, RequestView};

#[cfg(test)]
mod tests;

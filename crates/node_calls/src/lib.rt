//! The calls of a pass of a node, over any host and any repository: a pass comes to a ring by a
//! lawful path, and appends elements to what it has seen.
#![tactic(auto)]

mod acts;
mod call;
mod error;
mod gather;
mod host;
mod lent;
mod now;
mod open;
mod place;
mod settle;
mod sight;

pub use acts::Acts;
pub use call::{At, ring_for};
pub use error::{Fork, NodeError, ToldRefused};
pub use flight_turn::Busy;
pub use host::{Host, HostView, NodeFacts};
pub use lent::Lent;
pub use now::{NowRefused, ring_now};
pub use open::{OpenRefused, first_ring};
pub use place::{Placed, revoke, revoke_before, roll};
pub use sight::{fork, look_step};

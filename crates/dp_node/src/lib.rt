//! The nodes: of one thread, with a pass that is alone, and of many, with passes that share a ring.
//! The calls of a pass are those of `node_calls`.
#![tactic(auto)]

mod cell_ring;
mod node;
mod pass;
mod solo;
mod witness;

pub use node::Node;
pub use node_calls::{
    At, Busy, Fork, Host, HostView, Lent, NodeError, NodeFacts, NowRefused, OpenRefused, Placed,
    ToldRefused, revoke, revoke_before, ring_for, ring_now, roll,
};
pub use pass::Pass;
pub use solo::Solo;

#[cfg(test)]
mod pass_tests;
#[cfg(test)]
mod tests;

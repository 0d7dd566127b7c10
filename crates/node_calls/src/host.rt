//! A pass of a node.

ghost use Rattle.std.specs.Prelude.{◌≡◌, true, false, IfOk, OnOk, OnErr};
ghost use Rattle.key_elements.specs.Lists.{Extends};
ghost use Rattle.ring_world.specs.declared.step.Step.TheVariants.{Want};
ghost use Rattle.node_calls.specs.HostState.{HostState, Told, acted, looked_at, published, gave, raised, MayShow, MayWant, Takes};

use crate::error::ToldRefused;
use default_key::Options;
use dp_base::Memory;
use flight_turn::Busy;
use key_elements::ElementList;
use key_ring::Ring;
use std::alloc::Global;

/// Which pass of which node it is, from 0, and what holds of the node.
#[derive(Clone, Copy, Debug, PartialEq, Eq)]
pub struct NodeFacts {
    pub node: u32,
    pub pass: u32,
    /// The moment at which the node was opened, in ticks.
    pub opened_at: u64,
    pub options: Options,
}

/// A pass, without its publications. No call of it waits.
pub trait HostView {
    // What it knows, and its last acts.
    ghost state: { Self → HostState };

    fn facts(&self) -> &NodeFacts
        ensures { result.now ≡ (state self.now).facts };

    /// The list that the pass has seen.
    fn own(&self) -> &ElementList
        ensures { result.now ≡ (state self.now).own };

    /// Tells the pass a list that somebody has seen: it has seen the longer of the two.
    fn told(&mut self, list: &ElementList) -> Result<(), ToldRefused>
        ensures { Told list.now result (state self.old) (state self.new) };

    /// Makes the list the one that the pass has seen.
    fn keep(&mut self, list: ElementList)
        requires { Extends list (state self.old).own }
        ensures { state self.new ≡ record (state self.old) { own = list } };

    /// The ring of the node.
    fn look(&mut self) -> Result<Ring, Memory>
        ensures ring { IfOk result (λ ring. MayShow ring (state self.old)) }
        ensures ok { IfOk result (λ ring. state self.new ≡ looked_at ring (state self.old)) }
        ensures err { OnErr result (state self.new ≡ state self.old) };

    /// The want number of the node: how many elements its ring is to have.
    fn want(&mut self) -> u64
        ensures number { MayWant result (state self.old) }
        ensures act { state self.new ≡ acted (Want result) (state self.old) };

    /// Makes the want number the greater of itself and `n`.
    fn raise_want(&mut self, n: u64)
        ensures { state self.new ≡ raised n (state self.old) };

    /// Takes the turn, where it is free.
    fn try_take(&mut self) -> Result<(), Busy>
        requires { (state self.old).held ≡ false }
        ensures { Takes result (state self.old) (state self.new) };

    /// Whether the pass holds the turn.
    fn held(&self) -> bool
        ensures { result ≡ (state self.now).held };

    /// Gives the turn back.
    fn give(&mut self)
        requires { (state self.old).held ≡ true }
        ensures { state self.new ≡ gave (state self.old) };
}

/// A pass, for callers with the right `W` to wait.
pub trait Host<W>: HostView {
    /// Makes the ring the node's.
    fn publish(&mut self, w: &mut W, alloc: Global, ring: Ring) -> Result<(), Memory>
        requires held { (Self.state self.old).held ≡ true }
        requires extends { Extends ring.list (Self.state self.old).floor }
        ensures ok { OnOk result (Self.state self.new ≡ published ring (Self.state self.old)) }
        ensures err { OnErr result (Self.state self.new ≡ Self.state self.old) };
}

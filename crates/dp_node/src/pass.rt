//! A pass of a node that many threads share.

ghost use Rattle.std.specs.Prelude.{◌≡◌, ◌+◌, Some, is_some};
ghost use Rattle.std.specs.Arc.{arc_value};
ghost use Rattle.key_elements.specs.Lists.{Extends};
ghost use Rattle.key_ring.specs.Ring.{RingOf};
ghost use Rattle.swap_cell.specs.declared.handles.Setter.{Setter};
ghost use Rattle.swap_cell.specs.Cells.{setter_cell, viewer_cell};
ghost use Rattle.flight_turn.specs.Seats.{IsSeatOf, holds, number, turn_mark};
ghost use Rattle.dp_node.specs.Floor.{floor_of, IsLedBy};

use crate::cell_ring::{CellRing, look_at};
use crate::witness::Witness;
use dp_base::{Grows, Memory};
use flight_turn::{Busy, Turn, TurnSeat};
use key_elements::ElementList;
use key_ring::Ring;
use node_calls::{Acts, Host, HostView, NodeFacts, ToldRefused, fork, look_step};
use ring_world::Step;
use std::alloc::Global;
use std::sync::{Arc, Wait};
use swap_cell::{Setter, Viewer};

/// What a pass notes: its facts, the list that it has seen, and its last acts.
#[derive(Drop)]
pub(crate) struct Notes {
    pub facts: NodeFacts,
    pub own: ElementList,
    // The ring last looked at or published.
    pub looked: Witness<Ring>,
    pub acts: Acts,
}

/// A pass of a node. It looks by an end of the node's cell, and while it holds the turn it has the
/// end that sets.
#[derive(Drop)]
pub struct Pass {
    pub(crate) notes: Notes,
    pub(crate) viewer: Viewer<CellRing>,
    pub(crate) turn: Arc<Turn<Setter<CellRing>>>,
    pub(crate) seat: TurnSeat<Setter<CellRing>>,
    // The flight, while the turn is held.
    pub(crate) setter: Option<Setter<CellRing>>,
    ghost seated: { IsSeatOf setter_cell (arc_value turn) seat },
    ghost numbered: { number seat ≡ notes.facts.pass + 1 },
    ghost cell: { turn_mark setter_cell (arc_value turn) ≡ viewer_cell viewer },
    ghost line: { Extends (floor_of viewer) notes.looked.value.list },
    ghost holds: { holds seat ≡ is_some setter },
    ghost leads: { (s : Setter RingOf) → setter ≡ Some s → IsLedBy viewer s },
}

impl Pass {
    ghost use Rattle.std.specs.Prelude.{IfOk, Some, false, ◌∷◌, []};
    ghost use Rattle.swap_cell.specs.Cells.{known};
    ghost use Rattle.node_calls.specs.HostState.{opened_over};
    ghost use Rattle.dp_node.specs.Passes.{state_of, at_turn, set_last, LeadsNode};

    /// Each later look extends the ring last looked at or published, and, while the turn is held,
    /// the ring last published at the node. Nothing is done.
    pub fn leads(&self)
        ensures line { Extends (state_of self.now).floor (state_of self.now).looked.list }
        ensures leads { LeadsNode self.now }
    {}

    // A pass over the ring that its node's cell has alone, whose list it has seen.
    pub(crate) fn over(
        facts: NodeFacts,
        ring: &Ring,
        turn: &Arc<Turn<Setter<CellRing>>>,
        viewer: Viewer<CellRing>,
        seat: TurnSeat<Setter<CellRing>>,
    ) -> Result<Pass, Memory>
        requires cell { turn_mark setter_cell (arc_value turn.now) ≡ viewer_cell viewer }
        requires known { known viewer ≡ ring.now ∷ [] }
        requires seat { IsSeatOf setter_cell (arc_value turn.now) seat }
        requires free { holds seat ≡ false }
        requires number { number seat ≡ facts.pass + 1 }
        ensures { IfOk result (λ pass. state_of pass ≡ opened_over facts (Some (at_turn seat)) ring.now) }
    {
        Ok(Pass {
            notes: Notes {
                facts,
                own: ring.list().share()?,
                looked: Witness::of(ring),
                acts: Acts::new(),
            },
            viewer,
            turn: Arc::try_clone(turn)?,
            seat,
            setter: None,
        })
    }
}

impl HostView for Pass {
    ghost use Rattle.std.specs.Prelude.{◌≢◌, ◌+◌, ◌≤◌, IfErr, false};
    ghost use Rattle.ring_world.specs.declared.step.Step.TheVariants.{Want};
    ghost use Rattle.node_calls.specs.HostState.{acted, raised, MayWant, Takes};
    ghost use Rattle.dp_node.specs.Passes.{state_of, want_recorded};

    ghost state = { state_of };

    fn facts(&self) -> &NodeFacts {
        &self.notes.facts
    }

    fn own(&self) -> &ElementList {
        &self.notes.own
    }

    fn told(&mut self, list: &ElementList) -> Result<(), ToldRefused> {
        if let Some(at) = self.notes.own.first_difference(list) {
            return Err(ToldRefused::Forked(fork(at, &self.notes.own, list)?));
        }
        if self.notes.own.len() < list.len() {
            self.notes.own = list.share()?;
        }
        Ok(())
    }

    fn keep(&mut self, list: ElementList) {
        self.notes.own = list;
    }

    fn look(&mut self) -> Result<Ring, Memory> {
        match look_at(&mut self.viewer) {
            Ok(ring) => {
                self.notes.looked = Witness::of(&ring);
                self.notes.acts.push(look_step(&ring));
                Ok(ring)
            }
            Err(why) => Err(why),
        }
    }

    fn want(&mut self) -> u64
        ensures number { MayWant result (state_of self.old) }
        ensures act { state_of self.new ≡ acted (Want result) (state_of self.old) }
        ensures word { result ≡ want_recorded self.new }
    {
        let n = self.turn.want(&mut self.seat);
        self.notes.acts.push(Step::Want { n });
        n
    }

    fn raise_want(&mut self, n: u64)
        ensures act { state_of self.new ≡ raised n (state_of self.old) }
        ensures word { n ≤ want_recorded self.new }
    {
        self.turn.raise_want(&mut self.seat, n);
        self.notes.acts.push(Step::RaiseWant { n });
    }

    fn try_take(&mut self) -> Result<(), Busy>
        requires { (state_of self.old).held ≡ false }
        ensures takes { Takes result (state_of self.old) (state_of self.new) }
        ensures another { IfErr result (λ b. b.holder ≢ (state_of self.new).facts.pass + 1) }
    {
        match self.turn.try_take(&mut self.seat) {
            Ok(mut setter) => {
                self.viewer.learn(setter.tell());
                self.setter = Some(setter);
                self.notes.acts.push(Step::Take);
                Ok(())
            }
            Err(busy) => {
                let holder = busy.holder;
                self.notes.acts.push(Step::Busy { holder });
                Err(Busy { holder })
            }
        }
    }

    fn held(&self) -> bool {
        self.setter.is_some()
    }

    fn give(&mut self) {
        let Some(setter) = self.setter.take() else {
            unreachable!()
        };
        self.turn.give(&mut self.seat, setter);
        self.notes.acts.push(Step::Give);
    }
}

impl<W: Wait> Host<W> for Pass {
    ghost use Rattle.std.specs.Prelude.{OnOk, OnErr, true};
    ghost use Rattle.node_calls.specs.HostState.{published};
    ghost use Rattle.dp_node.specs.Passes.{state_of, set_last};

    fn publish(&mut self, w: &mut W, _alloc: Global, ring: Ring) -> Result<(), Memory>
        requires held { (state_of self.old).held ≡ true }
        requires extends { Extends ring.list (state_of self.old).floor }
        ensures ok { OnOk result (state_of self.new ≡ published ring (state_of self.old)) }
        ensures err { OnErr result (state_of self.new ≡ state_of self.old) }
        ensures set { OnOk result (set_last self.new ≡ Some ring) }
        ensures unset { OnErr result (set_last self.new ≡ set_last self.old) }
    {
        let Some(setter) = &mut self.setter else {
            unreachable!()
        };
        let looked = Witness::of(&ring);
        let act = Step::Publish {
            front: ring.list().len(),
            until: ring.until(),
        };
        match setter.set(w, CellRing { ring }) {
            Ok(()) => {
                self.viewer.learn(setter.tell());
                self.notes.looked = looked;
                self.notes.acts.push(act);
                Ok(())
            }
            Err(_back) => Err(Memory),
        }
    }
}

//! The opening of a node of many passes.

ghost use Rattle.std.specs.Prelude.{◌≡◌, ◌≤◌, All, IfOk, length};
ghost use Rattle.std.specs.Arc.{arc_value};
ghost use Rattle.dp_base.specs.declared.ticks.TheConstants.{LAST};
ghost use Rattle.swap_cell.specs.Cells.{setter_cell};
ghost use Rattle.flight_turn.specs.Seats.{IsSeatOf, AreNew};
ghost use Rattle.node_calls.specs.Opening.{Opens};
ghost use Rattle.dp_node.specs.NodeOpening.{IsEndOf, IsNode, ArePasses, facts_of};

use crate::cell_ring::CellRing;
use crate::pass::Pass;
use default_key::Options;
use dp_base::{Draw, Grows, Memory};
use flight_turn::{Turn, TurnSeat};
use key_ring::Ring;
use node_calls::{NodeFacts, OpenRefused, first_ring};
use repo_keeper::Repo;
use std::alloc::Global;
use std::sync::{Arc, Wait};
use swap_cell::{Setter, Viewer, cell};

/// A node that many threads share, each by a pass of its own.
pub struct Node;

// The passes over the ends of one cell and the seats of one turn, the last seat first.
fn seat_all(
    alloc: Global,
    facts: NodeFacts,
    ring: &Ring,
    turn: &Arc<Turn<Setter<CellRing>>>,
    mut viewers: Vec<Viewer<CellRing>>,
    mut seats: Vec<TurnSeat<Setter<CellRing>>>,
) -> Result<Vec<Pass>, Memory>
    requires count { length viewers.items ≡ length seats.items }
    requires few { length seats.items ≤ 64 }
    requires viewers { All (IsEndOf (arc_value turn.now) ring.now) viewers.items }
    requires seats { All (IsSeatOf setter_cell (arc_value turn.now)) seats.items }
    requires fresh { AreNew seats.items }
    ensures passes { IfOk result (λ passes. ArePasses facts ring.now (length seats.items) passes.items) }
{
    let mut passes = Vec::with_capacity(alloc, seats.len())?;
    while let Some(seat) = seats.pop() {
        let Some(viewer) = viewers.pop() else {
            unreachable!()
        };
        let pass = seats.len() as u32;
        let facts = NodeFacts { pass, ..facts };
        passes.push(Pass::over(facts, ring, turn, viewer, seat)?)?;
    }
    Ok(passes)
}

// The passes of a node over the ring.
fn passes_over(
    alloc: Global,
    facts: NodeFacts,
    ring: Ring,
    passes: u32,
) -> Result<Vec<Pass>, Memory>
    requires { (1 ≤ passes) × (passes ≤ 64) }
    ensures { IfOk result (λ made. ArePasses facts ring passes made.items) }
{
    let shown = ring.share()?;
    let (setter, viewers) = cell(alloc, CellRing { ring }, passes)?;
    let (turn, seats) = Turn::new(alloc, setter, passes)?;
    let turn = Arc::new(alloc, turn)?;
    seat_all(alloc, facts, &shown, &turn, viewers, seats)
}

impl Node {
    /// Opens a node at the moment, in ticks, over all that the repository holds, with so many
    /// passes, of which the first is the last of the answer. Where a key is due and keys are made
    /// automatically, one is made; where the repository has no place for it, the ring is made
    /// without it.
    pub fn open<W: Wait, R: Repo<W>, D: Draw>(
        w: &mut W,
        alloc: Global,
        repo: &mut R,
        draw: &mut D,
        now: u64,
        node: u32,
        passes: u32,
        options: Options,
    ) -> Result<Vec<Pass>, OpenRefused>
        requires moment { now ≤ LAST }
        requires passes { (1 ≤ passes) × (passes ≤ 64) }
        ensures opened { Opens now options (IsNode (facts_of node now options) passes) result
            (R.store repo.old) (R.store repo.new) (D.draws draw.old) (D.draws draw.new) }
    {
        let ring = first_ring(w, alloc, repo, draw, now, options)?;
        let facts = NodeFacts {
            node,
            pass: 0,
            opened_at: now,
            options,
        };
        Ok(passes_over(alloc, facts, ring, passes)?)
    }
}

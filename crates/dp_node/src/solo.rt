//! The pass of a node of one thread.

ghost use Rattle.std.specs.Prelude.{◌≡◌, ◌≤◌, IfOk};
ghost use Rattle.dp_base.specs.declared.ticks.TheConstants.{LAST};
ghost use Rattle.node_calls.specs.Opening.{Opens};
ghost use Rattle.dp_node.specs.SoloOpening.{IsSolo, first_facts, solo_of};

use default_key::Options;
use dp_base::{Draw, Grows, Memory};
use key_elements::ElementList;
use key_ring::Ring;
use node_calls::{
    Acts, Busy, Host, HostView, NodeFacts, OpenRefused, ToldRefused, first_ring, fork, look_step,
};
use repo_keeper::Repo;
use ring_world::Step;
use std::alloc::Global;
use std::marker::Model;

/// A pass that is alone at its node. It tells what it shows.
#[derive(Debug, Drop)]
pub struct Solo {
    facts: NodeFacts,
    own: ElementList,
    ring: Ring,
    want: u64,
    held: bool,
    acts: Acts,
}

impl Model for Solo {
    ghost use Rattle.std.specs.Prelude.{Some, None};
    ghost use Rattle.node_calls.specs.HostState.{HostState};

    ghost Value = { HostState };

    ghost view = { λ s. record {
      facts = s.facts;
      own = s.own;
      looked = s.ring;
      held = s.held;
      floor = s.ring.list;
      acts = s.acts;
      single = Some (record { want = s.want; ring = s.ring });
      turn = None;
    } };
}

impl Solo {
    /// Opens a node at the moment, in ticks, over all that the repository holds. Where a key is due
    /// and keys are made automatically, one is made; where the repository has no place for it, the
    /// ring is made without it.
    pub fn open<R: Repo<()>, D: Draw>(
        alloc: Global,
        repo: &mut R,
        draw: &mut D,
        now: u64,
        options: Options,
    ) -> Result<Solo, OpenRefused>
        requires moment { now ≤ LAST }
        ensures opened { Opens now options (IsSolo (first_facts now options)) result
            (R.store repo.old) (R.store repo.new) (D.draws draw.old) (D.draws draw.new) }
    {
        let ring = first_ring(&mut (), alloc, repo, draw, now, options)?;
        let facts = NodeFacts {
            node: 0,
            pass: 0,
            opened_at: now,
            options,
        };
        Ok(Solo::over(facts, ring)?)
    }

    // The pass of a node over a ring whose list it has seen.
    fn over(facts: NodeFacts, ring: Ring) -> Result<Solo, Memory>
        ensures { IfOk result (λ solo. solo ≡ solo_of facts ring) }
    {
        Ok(Solo {
            facts,
            own: ring.list().share()?,
            ring,
            want: 0,
            held: false,
            acts: Acts::new(),
        })
    }
}

impl HostView for Solo {
    ghost state = { λ s. s };

    fn facts(&self) -> &NodeFacts {
        &self.facts
    }

    fn own(&self) -> &ElementList {
        &self.own
    }

    fn told(&mut self, list: &ElementList) -> Result<(), ToldRefused> {
        if let Some(at) = self.own.first_difference(list) {
            return Err(ToldRefused::Forked(fork(at, &self.own, list)?));
        }
        if self.own.len() < list.len() {
            self.own = list.share()?;
        }
        Ok(())
    }

    fn keep(&mut self, list: ElementList) {
        self.own = list;
    }

    fn look(&mut self) -> Result<Ring, Memory> {
        let ring = self.ring.share()?;
        self.acts.push(look_step(&ring));
        Ok(ring)
    }

    fn want(&mut self) -> u64 {
        self.acts.push(Step::Want { n: self.want });
        self.want
    }

    fn raise_want(&mut self, n: u64) {
        self.want = self.want.max(n);
        self.acts.push(Step::RaiseWant { n });
    }

    fn try_take(&mut self) -> Result<(), Busy> {
        self.held = true;
        self.acts.push(Step::Take);
        Ok(())
    }

    fn held(&self) -> bool {
        self.held
    }

    fn give(&mut self) {
        self.held = false;
        self.acts.push(Step::Give);
    }
}

impl<W> Host<W> for Solo {
    fn publish(&mut self, _w: &mut W, _alloc: Global, ring: Ring) -> Result<(), Memory> {
        self.acts.push(Step::Publish {
            front: ring.list().len(),
            until: ring.until(),
        });
        self.ring = ring;
        Ok(())
    }
}

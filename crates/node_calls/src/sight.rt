//! What a pass sees of its node at one asking.

ghost use Rattle.std.specs.Prelude.{◌≡◌, ◌+◌, ◌≤◌, ◌++◌, length, IfOk, IfErr, OnOk, OnErr};
ghost use Rattle.key_elements.specs.Lists.{Agree, Extends};
ghost use Rattle.ring_world.specs.declared.step.TheConstants.{MAX_STEPS};
ghost use Rattle.ring_world.specs.Flight.{look_step, sight_steps};
ghost use Rattle.ring_world.specs.Path.{is_enough_for};
ghost use Rattle.node_calls.specs.Sight.{sight_of, sighted, SeenBy, LookRefused};

use crate::error::{Fork, NodeError};
use crate::host::HostView;
use dp_base::{Grows, Memory};
use key_elements::ElementList;
use key_ring::Ring;
use ring_world::{Step, StepList};

/// The want number, and the ring that was looked at.
#[derive(Debug, Drop)]
pub(crate) struct Sight {
    pub want: u64,
    pub ring: Ring,
}

impl Sight {
    /// Whether the ring isn't due, and has as many elements.
    pub fn is_enough(&self, now: u64, target: u64) -> bool
        ensures { result ≡ is_enough_for now target (sight_of self.now) }
    {
        self.ring.due(now, self.want).is_none() && target <= self.ring.list().len()
    }
}

/// The step that a look at the ring is.
pub fn look_step(ring: &Ring) -> Step
    ensures { result ≡ look_step ring.now }
{
    Step::Look {
        front: ring.list().len(),
        made_at: ring.made_at(),
        until: ring.until(),
        excused: ring.excused(),
    }
}

/// Both lists, which differ at the place.
pub fn fork(at: u64, own: &ElementList, other: &ElementList) -> Result<Fork, Memory>
    ensures { IfOk result (λ fork. fork ≡ record { at = at; left = own.now; right = other.now }) }
{
    Ok(Fork {
        at,
        left: own.share()?,
        right: other.share()?,
    })
}

/// The pass has seen the list, which extends what it had seen. A list as long is that one, so no
/// share is made of it.
pub(crate) fn keep_list<H: HostView>(host: &mut H, list: &ElementList) -> Result<(), Memory>
    requires { Extends list.now (H.state host.old).own }
    ensures ok { OnOk result (H.state host.new ≡ record (H.state host.old) { own = list.now }) }
    ensures err { OnErr result (H.state host.new ≡ H.state host.old) }
{
    if host.own().len() < list.len() {
        let shared = list.share()?;
        host.keep(shared);
    }
    Ok(())
}

/// Asks the want number and looks, once each. A ring whose list differs from the own one is
/// refused.
pub(crate) fn look_once<H: HostView>(host: &mut H, steps: &mut StepList) -> Result<Sight, NodeError>
    requires { length steps.old + 2 ≤ MAX_STEPS }
    ensures host { IfOk result (λ s. H.state host.new ≡ sighted (sight_of s) (H.state host.old)) }
    ensures steps { IfOk result (λ s. steps.new ≡ steps.old ++ sight_steps (sight_of s)) }
    ensures shows { IfOk result (λ s. SeenBy (sight_of s) (H.state host.old)) }
    ensures in_line { IfOk result (λ s. Agree (H.state host.old).own s.ring.list) }
    ensures err { IfErr result (λ why. LookRefused why (H.state host.old)
        (H.state host.new) steps.old steps.new) }
{
    let want = host.want();
    steps.push(Step::Want { n: want });
    let ring = host.look()?;
    steps.push(look_step(&ring));
    match host.own().first_difference(ring.list()) {
        Some(at) => Err(NodeError::Forked(fork(at, host.own(), ring.list())?)),
        None => Ok(Sight { want, ring }),
    }
}

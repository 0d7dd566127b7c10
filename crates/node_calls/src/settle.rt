//! The one more try for a key that is missing.

ghost use Rattle.std.specs.Prelude.{◌≡◌, ◌+◌, ◌≤◌, false, true, length, IfOk, Option, List, nat_lt};
ghost use Rattle.dp_base.specs.declared.key_id.KeyId.{KeyId};
ghost use Rattle.dp_base.specs.declared.ticks.TheConstants.{LAST};
ghost use Rattle.key_elements.specs.declared.element.Element.{Element};
ghost use Rattle.key_elements.specs.Lists.{Extends};
ghost use Rattle.repo_keeper.specs.Store.{Grows};
ghost use Rattle.ring_world.specs.declared.step.TheConstants.{MAX_STEPS, SECOND_TRY_SPAN};
ghost use Rattle.ring_world.specs.Settle.{reads, any_reads, lacks, lacks_named, misses, SecondGives, SettleGives};
ghost use Rattle.node_calls.specs.HostState.{HostState, Steady};
ghost use Rattle.node_calls.specs.Books.{Does};
ghost use Rattle.node_calls.specs.Lent.{SameLoans, books_of};
ghost use Rattle.node_calls.specs.Gather.{in_paths};
ghost use Rattle.node_calls.specs.Calls.{call, is_private};

use crate::call::At;
use crate::error::NodeError;
use crate::host::{Host, HostView, NodeFacts};
use crate::lent::Lent;
use crate::sight::look_once;
use dp_base::{Draw, KeyId};
use key_ring::Ring;
use repo_keeper::Repo;
use ring_world::{SECOND_TRY_SPAN, Step};

// Whether a step read the repository's list.
fn reads(step: &Step) -> bool
    ensures { result ≡ reads step.now }
{
    match step {
        Step::Read { .. } => true,
        Step::PrivateRead { .. } => true,
        _ => false,
    }
}

// Whether one of the steps did.
fn any_reads(steps: &[Step]) -> bool
    ensures { result ≡ any_reads steps.now }
{
    steps.iter().any(|step| reads(step))
}

// Whether the ring has no key of the id.
fn lacks(ring: &Ring, id: &KeyId) -> bool
    ensures { result ≡ lacks id.now ring.now.list }
{
    ring.lookup(id).is_none()
}

// Whether a key is named, and the ring lacks it.
fn lacks_named(ring: &Ring, missing: Option<KeyId>) -> bool
    ensures { result ≡ lacks_named missing ring.now.list }
{
    match missing {
        Some(id) => lacks(ring, &id),
        None => false,
    }
}

// Whether the node was opened less than two minutes before the moment, or after it.
fn is_young(facts: &NodeFacts, now: u64) -> bool
    ensures { result ≡ nat_lt now (facts.now.opened_at + SECOND_TRY_SPAN) }
{
    now.saturating_sub(facts.opened_at) < SECOND_TRY_SPAN
}

// Whether a call that made these steps and has this ring at hand tries once more.
fn misses(facts: &NodeFacts, at: At, missing: Option<KeyId>, found: &Ring, steps: &[Step]) -> bool
    ensures { (host : HostState) (before told : Option (List Element)) → host.facts ≡ facts.now
        → result ≡ misses (call at missing host before told) steps.now found.now }
{
    lacks_named(found, missing) && is_young(facts, at.now) && !any_reads(steps)
}

impl<W, H: Host<W>, R: Repo<W>, D: Draw> Lent<'_, '_, '_, '_, '_, W, H, R, D> {
    // The try itself: what the holder of the turn does.
    fn fly_again(&mut self, at: At) -> Result<Ring, NodeError>
        requires moment { at.now ≤ LAST }
        requires held { (H.state self.old.host.now).held ≡ true }
        requires room { length self.old.steps.now + 7 ≤ MAX_STEPS }
        ensures did { (missing : Option KeyId) (before : Option (List Element)) →
            Grows before (R.store self.old.repo.now).list → Does (SecondGives (call at missing
            (H.state self.old.host.now) before (R.store self.new.repo.now).list) (in_paths result))
            (books_of H.state R.store D.draws self.old)
            (books_of H.state R.store D.draws self.new) }
        ensures steady { Steady (H.state self.old.host.now) (H.state self.new.host.now) }
        ensures extends { IfOk result (λ ring. Extends ring.list
            (H.state self.old.host.now).own) }
        ensures looked { IfOk result (λ ring. (H.state self.new.host.now).looked ≡ ring) }
        ensures room { length self.new.steps.now ≤ length self.old.steps.now + 7 }
        ensures loans { SameLoans self.old self.new }
    {
        let sight = look_once(self.host, self.steps)?;
        self.flight(at, &sight)
    }

    /// Step 12: the ring that was found, or that of one more try for a key that it lacks.
    pub(crate) fn settle(
        &mut self,
        at: At,
        missing: Option<KeyId>,
        found: Ring,
    ) -> Result<Ring, NodeError>
        requires moment { at.now ≤ LAST }
        requires free { (H.state self.old.host.now).held ≡ false }
        requires extends { Extends found.list (H.state self.old.host.now).own }
        requires looked { is_private self.old.steps.now ≡ false →
            (H.state self.old.host.now).looked ≡ found }
        requires room { length self.old.steps.now + 9 ≤ MAX_STEPS }
        ensures did { (before : Option (List Element)) →
            Grows before (R.store self.old.repo.now).list → Does (SettleGives (call at missing
            (H.state self.old.host.now) before (R.store self.new.repo.now).list)
            self.old.steps.now found (in_paths result))
            (books_of H.state R.store D.draws self.old)
            (books_of H.state R.store D.draws self.new) }
        ensures kept { (before : Option (List Element)) → misses (call at missing
            (H.state self.old.host.now) before (R.store self.new.repo.now).list)
            self.old.steps.now found ≡ false →
            self.new.repo.now ≡ self.old.repo.now }
        ensures steady { Steady (H.state self.old.host.now) (H.state self.new.host.now) }
        ensures extends { IfOk result (λ ring. Extends ring.list
            (H.state self.old.host.now).own) }
        ensures looked { IfOk result (λ ring. is_private self.new.steps.now ≡ false →
            (H.state self.new.host.now).looked ≡ ring) }
        ensures room { length self.new.steps.now ≤ length self.old.steps.now + 9 }
        ensures loans { SameLoans self.old self.new }
    {
        if !misses(
            self.host.facts(),
            at,
            missing,
            &found,
            self.steps.as_slice(),
        ) {
            return Ok(found);
        }
        match self.host.try_take() {
            Err(busy) => {
                self.steps.push(Step::Busy {
                    holder: busy.holder,
                });
                Ok(found)
            }
            Ok(()) => {
                self.steps.push(Step::Take);
                let again = self.fly_again(at);
                self.host.give();
                self.steps.push(Step::Give);
                again
            }
        }
    }
}

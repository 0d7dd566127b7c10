//! A call that needs a ring.

ghost use Rattle.std.specs.Prelude.{◌≡◌, ◌+◌, ◌≤◌, false, true, List, [], length, max, IfOk, Option};
ghost use Rattle.dp_base.specs.declared.key_id.KeyId.{KeyId};
ghost use Rattle.dp_base.specs.declared.ticks.TheConstants.{LAST};
ghost use Rattle.key_elements.specs.declared.element.Element.{Element};
ghost use Rattle.key_elements.specs.Lists.{Extends, Agree};
ghost use Rattle.repo_keeper.specs.Store.{Grows};
ghost use Rattle.ring_world.specs.declared.step.TheConstants.{MAX_STEPS};
ghost use Rattle.ring_world.specs.Lists.{longer};
ghost use Rattle.ring_world.specs.Flight.{FlightGives};
ghost use Rattle.ring_world.specs.Path.{TurnGives, PathGives};
ghost use Rattle.ring_world.specs.Way.{CallPath};
ghost use Rattle.node_calls.specs.HostState.{Steady};
ghost use Rattle.node_calls.specs.Sight.{sight_of};
ghost use Rattle.node_calls.specs.Books.{books, Does};
ghost use Rattle.node_calls.specs.Lent.{SameLoans, books_of};
ghost use Rattle.node_calls.specs.Gather.{is_memory, refusal, in_paths};
ghost use Rattle.node_calls.specs.Calls.{call, terms, is_private};
ghost use Rattle.node_calls.specs.Stale.{IsStale, FoundTaken};

use crate::error::NodeError;
use crate::gather::read_on;
use crate::host::{Host, HostView};
use crate::lent::{Lent, Sources};
use crate::sight::{Sight, keep_list, look_once};
use dp_base::{Draw, Grows, KeyId};
use key_elements::ElementList;
use key_ring::Ring;
use repo_keeper::Repo;
use ring_world::{Step, StepList};
use std::alloc::Global;

/// When a call comes, in ticks, and how many elements its ring needs.
#[derive(Clone, Copy, Debug, PartialEq, Eq)]
pub struct At {
    pub now: u64,
    pub need: u64,
}

// The longer list; of two as long the first.
fn longer<'a>(own: &'a ElementList, list: &'a ElementList) -> &'a ElementList
    ensures { result.now ≡ longer own.now list.now }
{
    if list.len() <= own.len() { own } else { list }
}

// Whether memory wanted.
fn is_memory(why: &NodeError) -> bool
    ensures { result ≡ is_memory (refusal why.now) }
{
    match why {
        NodeError::Memory => true,
        _ => false,
    }
}

// The steps of a call that needs a ring. Its target is the greater of what it needs and of what the
// pass has seen. After each look, a ring whose list differs from what the pass has seen is refused.
//
// 1. Ask the want number and look. Where the ring isn't due and has the target's elements, answer
//    by it.
// 2. Otherwise try to take the turn.
// 3. Where somebody else holds it and the ring has the target's elements, answer by it, though it
//    is due.
// 4. Where somebody else holds it and the ring is shorter, read on from the longer of the two
//    lists, and make a ring of one's own, without a jitter. Nothing is published, and no key is
//    made.
// 5. With the turn, ask the want number and look once more. Where the ring is enough, give the turn
//    back and answer by it.
// 6. Otherwise begin a flight, on the longer of the two lists.
// 7. Read on from there. Draw eight bytes for the jitter.
// 8. Where a key is due, keys are made automatically and there is room, draw eighty bytes for a key
//    and append it. Where the repository is full, go on without it.
// 9. Publish the ring of the list, give the turn back, and answer by it.
// 10. Where a call of the flight fails or finds fewer elements, publish the ring last looked at,
//     extended, give the turn back, and answer the refusal.
// 11. The pass has seen the list of the ring that answers. Where that is shorter than what was
//     needed, the answer says so.
// 12. Where a key is named that the ring which would answer doesn't hold, within two minutes of the
//     node's opening, and the call has read nothing, it makes one more try: it tries to take the
//     turn. Where somebody else holds it, answer by the ring at hand. With the turn, ask the want
//     number and look once more and, whether or not the ring is enough, go on with step 6.
//
// Want of memory while the turn is held gives it back, and publishes nothing more.

impl<W, H: Host<W>, R: Repo<W>, D: Draw> Lent<'_, '_, '_, '_, '_, W, H, R, D> {
    /// Steps 6 to 10.
    pub(crate) fn flight(&mut self, at: At, sight: &Sight) -> Result<Ring, NodeError>
        requires moment { at.now ≤ LAST }
        requires held { (H.state self.old.host.now).held ≡ true }
        requires floor { (H.state self.old.host.now).floor ≡ sight.now.ring.list }
        requires looked { (H.state self.old.host.now).looked ≡ sight.now.ring }
        requires in_line { Agree (H.state self.old.host.now).own sight.now.ring.list }
        requires room { length self.old.steps.now + 5 ≤ MAX_STEPS }
        ensures did { (before : Option (List Element)) →
            Grows before (R.store self.old.repo.now).list →
            Does (FlightGives (terms at.now (H.state self.old.host.now).facts.options
            false before (R.store self.new.repo.now).list) (longer (H.state self.old.host.now).own
            sight.now.ring.list) (sight_of sight.now) (in_paths result))
            (books_of H.state R.store D.draws self.old)
            (books_of H.state R.store D.draws self.new) }
        ensures steady { Steady (H.state self.old.host.now) (H.state self.new.host.now) }
        ensures extends { IfOk result (λ ring. Extends ring.list
            (H.state self.old.host.now).own) }
        ensures looked { IfOk result (λ ring. (H.state self.new.host.now).looked ≡ ring) }
        ensures room { length self.new.steps.now ≤ length self.old.steps.now + 5 }
        ensures loans { SameLoans self.old self.new }
    {
        let alloc = self.alloc;
        let base = longer(self.host.own(), sight.ring.list());
        let options = self.host.facts().options;
        let mut sources = Sources {
            w: &mut *self.w,
            alloc,
            repo: &mut *self.repo,
            draw: &mut *self.draw,
            steps: &mut *self.steps,
        };
        match sources.gather(base, at.now, &options, false) {
            Ok(ring) => {
                self.host.publish(self.w, alloc, ring.share()?)?;
                self.steps.push(Step::Publish {
                    front: ring.list().len(),
                    until: ring.until(),
                });
                Ok(ring)
            }
            Err(why) => {
                if is_memory(&why) {
                    return Err(why);
                }
                let ring = sight.ring.extended(at.now, sight.want)?;
                let step = Step::Extend {
                    until: ring.until(),
                    excused: ring.excused(),
                };
                self.host.publish(self.w, alloc, ring)?;
                self.steps.push(step);
                Err(why)
            }
        }
    }

    // Steps 5 to 10: what the holder of the turn does.
    fn under_turn(&mut self, at: At, target: u64) -> Result<Ring, NodeError>
        requires moment { at.now ≤ LAST }
        requires held { (H.state self.old.host.now).held ≡ true }
        requires target { target ≡ max at.need (length (H.state self.old.host.now).own) }
        requires room { length self.old.steps.now + 7 ≤ MAX_STEPS }
        ensures did { (missing : Option KeyId) (before : Option (List Element)) →
            Grows before (R.store self.old.repo.now).list → Does (TurnGives (call at missing
            (H.state self.old.host.now) before (R.store self.new.repo.now).list) (in_paths result))
            (books_of H.state R.store D.draws self.old)
            (books_of H.state R.store D.draws self.new) }
        ensures steady { Steady (H.state self.old.host.now) (H.state self.new.host.now) }
        ensures extends { IfOk result (λ ring. Extends ring.list
            (H.state self.old.host.now).own) }
        ensures looked { IfOk result (λ ring. (H.state self.new.host.now).looked ≡ ring) }
        ensures room { length self.new.steps.now ≤ length self.old.steps.now + 7 }
        ensures loans { SameLoans self.old self.new }
    {
        let sight = look_once(self.host, self.steps)?;
        if sight.is_enough(at.now, target) {
            return Ok(sight.ring);
        }
        self.flight(at, &sight)
    }

    // Steps 1 to 10: the way to a ring.
    fn find(&mut self, at: At, target: u64) -> Result<Ring, NodeError>
        requires moment { at.now ≤ LAST }
        requires free { (H.state self.old.host.now).held ≡ false }
        requires target { target ≡ max at.need (length (H.state self.old.host.now).own) }
        requires room { self.old.steps.now ≡ [] }
        ensures did { (missing : Option KeyId) → Does (PathGives (call at missing
            (H.state self.old.host.now) (R.store self.old.repo.now).list
            (R.store self.new.repo.now).list) (in_paths result))
            (books_of H.state R.store D.draws self.old)
            (books_of H.state R.store D.draws self.new) }
        ensures steady { Steady (H.state self.old.host.now) (H.state self.new.host.now) }
        ensures extends { IfOk result (λ ring. Extends ring.list
            (H.state self.old.host.now).own) }
        ensures looked { IfOk result (λ ring. is_private self.new.steps.now ≡ false →
            (H.state self.new.host.now).looked ≡ ring) }
        ensures room { length self.new.steps.now ≤ 11 }
        ensures loans { SameLoans self.old self.new }
    {
        let sight = look_once(self.host, self.steps)?;
        if sight.is_enough(at.now, target) {
            return Ok(sight.ring);
        }
        match self.host.try_take() {
            Err(busy) => {
                self.steps.push(Step::Busy {
                    holder: busy.holder,
                });
                if target <= sight.ring.list().len() {
                    return Ok(sight.ring);
                }
                let alloc = self.alloc;
                let base = longer(self.host.own(), sight.ring.list());
                let list = read_on(self.w, alloc, self.repo, base, true, self.steps)?;
                let options = self.host.facts().options;
                Ok(Ring::of(alloc, list, at.now, 0, &options)?)
            }
            Ok(()) => {
                self.steps.push(Step::Take);
                let found = self.under_turn(at, target);
                self.host.give();
                self.steps.push(Step::Give);
                found
            }
        }
    }

    /// Steps 1 to 12: what the function `ring_for` does.
    pub fn ring_for(&mut self, at: At, missing: Option<KeyId>) -> Result<Ring, NodeError>
        requires moment { at.now ≤ LAST }
        requires free { (H.state self.old.host.now).held ≡ false }
        requires room { self.old.steps.now ≡ [] }
        ensures path { Does (CallPath (call at missing (H.state self.old.host.now)
            (R.store self.old.repo.now).list (R.store self.new.repo.now).list) (in_paths result)
            (H.state self.new.host.now).own)
            (books [] (H.state self.old.host.now) (R.store self.old.repo.now)
            (D.draws self.old.draw.now)) (books_of H.state R.store D.draws self.new) }
        ensures free { (H.state self.new.host.now).held ≡ false }
        ensures grows { Extends (H.state self.new.host.now).own (H.state self.old.host.now).own }
        ensures enough { IfOk result (λ ring. at.need ≤ length ring.list) }
        ensures looked { IfOk result (λ ring. is_private self.new.steps.now ≡ false →
            (H.state self.new.host.now).looked ≡ ring) }
        ensures stale { IfOk result (λ ring. IsStale at.now (max at.need
            (length (H.state self.old.host.now).own)) self.new.steps.now ring →
            FoundTaken self.new.steps.now (H.state self.new.host.now).turn) }
        ensures few { length self.new.steps.now ≤ MAX_STEPS }
        ensures loans { SameLoans self.old self.new }
    {
        let target = at.need.max(self.host.own().len());
        let found = self.find(at, target)?;
        let ring = self.settle(at, missing, found)?;
        keep_list(self.host, ring.list())?;
        self.steps.push(Step::Answer);
        let have = ring.list().len();
        if have < at.need {
            return Err(NodeError::Behind {
                have,
                need: at.need,
            });
        }
        Ok(ring)
    }
}

/// A ring that isn't older than what the pass has seen, with as many elements as needed. It is made
/// by a lawful path, whose steps are recorded. Where it should hold the key `missing` and doesn't,
/// a young node reads once more for it; whether it then holds the key is for the caller to see. A
/// ring that was looked at and is due is used only where this call found the turn taken.
pub fn ring_for<W, H: Host<W>, R: Repo<W>, D: Draw>(
    w: &mut W,
    alloc: Global,
    host: &mut H,
    repo: &mut R,
    draw: &mut D,
    at: At,
    missing: Option<KeyId>,
    steps: &mut StepList,
) -> Result<Ring, NodeError>
    requires moment { at.now ≤ LAST }
    requires free { (H.state host.old).held ≡ false }
    requires room { steps.old ≡ [] }
    ensures path { Does (CallPath (call at missing (H.state host.old) (R.store repo.old).list
        (R.store repo.new).list) (in_paths result) (H.state host.new).own)
        (books [] (H.state host.old) (R.store repo.old) (D.draws draw.old))
        (books steps.new (H.state host.new) (R.store repo.new) (D.draws draw.new)) }
    ensures free { (H.state host.new).held ≡ false }
    ensures grows { Extends (H.state host.new).own (H.state host.old).own }
    ensures enough { IfOk result (λ ring. at.need ≤ length ring.list) }
    ensures looked { IfOk result (λ ring. is_private steps.new ≡ false →
        (H.state host.new).looked ≡ ring) }
    ensures stale { IfOk result (λ ring. IsStale at.now (max at.need (length (H.state host.old).own))
        steps.new ring → FoundTaken steps.new (H.state host.new).turn) }
    ensures few { length steps.new ≤ MAX_STEPS }
{
    let mut lent = Lent {
        w,
        alloc,
        host,
        repo,
        draw,
        steps,
    };
    lent.ring_for(at, missing)
}

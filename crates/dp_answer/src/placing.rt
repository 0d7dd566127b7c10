//! Requests whose element is appended to what the pass has seen.

ghost use Rattle.std.specs.Prelude.{◌≡◌, ◌≤◌, false, ℕ, List, [], Some, Ok, IfOk};
ghost use Rattle.dp_base.specs.declared.ticks.TheConstants.{LAST};
ghost use Rattle.dp_base.specs.Codes.{IsCode};
ghost use Rattle.key_elements.specs.Lists.{Extends};
ghost use Rattle.key_elements.specs.Reason.{IsReason};
ghost use Rattle.node_calls.specs.Books.{books};
ghost use Rattle.node_calls.specs.Lent.{SameLoans, books_of};
ghost use Rattle.dp_wire.specs.Replies.{reply_body};
ghost use Rattle.dp_wire.specs.Request.{Roll, Revoke, RevokeBefore};
ghost use Rattle.dp_answer.specs.declared.trace.Used.TheVariants as used;
ghost use Rattle.dp_answer.specs.Replies.{FitsFrame};
ghost use Rattle.dp_answer.specs.Serving.{IsAnswer, Served};

use crate::response::{Response, framed, refused};
use crate::trace::Used;
use dp_base::{Draw, Grows, KeyId, Memory, alg_of};
use dp_wire::Reply;
use key_elements::{Reason, TooLong};
use node_calls::{Host, HostView, Lent, revoke, revoke_before, roll};
use repo_keeper::Repo;
use std::alloc::Global;

// The answer that an element was placed, at the end of what the pass has seen.
fn placed<H: HostView>(
    alloc: Global,
    host: &H,
    place: u64,
    reply: &Reply<'_>,
) -> Result<Response, Memory>
    requires { FitsFrame reply.now }
    ensures { IsAnswer (used.Placed place) (reply_body reply.now) (Some (H.state host.now).own)
        result }
{
    Ok(Response {
        used: Used::Placed { place },
        reply: framed(alloc, reply)?,
        list: Some(host.own().share()?),
    })
}

// A copy of a reason.
fn kept(alloc: Global, reason: &str) -> Result<Reason, Memory>
    requires { IsReason reason.now }
    ensures value { IfOk result (λ kept. kept ≡ reason.now) }
{
    match Reason::new(alloc, reason) {
        Ok(reason) => Ok(reason),
        Err(TooLong::TooLong) => unreachable!(),
        Err(TooLong::Memory) => Err(Memory),
    }
}

/// A new key of these dates, in ticks.
pub(crate) fn place_key<W, H: Host<W>, R: Repo<W>, D: Draw>(
    lent: &mut Lent<'_, '_, '_, '_, '_, W, H, R, D>,
    now: u64,
    activation: u64,
    expiration: u64,
    code: u8,
) -> Result<Response, Memory>
    requires moment { now ≤ LAST }
    requires code { IsCode code }
    requires free { (H.state lent.old.host.now).held ≡ false }
    requires room { lent.old.steps.now ≡ [] }
    ensures served { (app : List ℕ) → (drawn : List ℕ) × Served app
        (Ok (Roll activation expiration code)) now result drawn
        (books [] (H.state lent.old.host.now) (R.store lent.old.repo.now)
        (D.draws lent.old.draw.now)) (books_of H.state R.store D.draws lent.new) }
    ensures free { (H.state lent.new.host.now).held ≡ false }
    ensures grows { Extends (H.state lent.new.host.now).own (H.state lent.old.host.now).own }
    ensures loans { SameLoans lent.old lent.new }
{
    let Some(alg) = alg_of(code) else {
        unreachable!()
    };
    let alloc = lent.alloc;
    match roll(
        lent.w, alloc, lent.host, lent.repo, lent.draw, now, activation, expiration, alg,
        lent.steps,
    ) {
        Ok(key) => {
            let front = lent.host.own().len();
            let reply = Reply::Rolled { front, id: key.id };
            placed(alloc, lent.host, key.place, &reply)
        }
        Err(why) => refused(alloc, why),
    }
}

/// The revocation of a key.
pub(crate) fn place_revocation<W, H: Host<W>, R: Repo<W>, D: Draw>(
    lent: &mut Lent<'_, '_, '_, '_, '_, W, H, R, D>,
    now: u64,
    id: KeyId,
    reason: &str,
) -> Result<Response, Memory>
    requires moment { now ≤ LAST }
    requires reason { IsReason reason.now }
    requires free { (H.state lent.old.host.now).held ≡ false }
    requires room { lent.old.steps.now ≡ [] }
    ensures served { (app : List ℕ) → (drawn : List ℕ) × Served app
        (Ok (Revoke id.0 reason.now)) now result drawn
        (books [] (H.state lent.old.host.now) (R.store lent.old.repo.now)
        (D.draws lent.old.draw.now)) (books_of H.state R.store D.draws lent.new) }
    ensures free { (H.state lent.new.host.now).held ≡ false }
    ensures grows { Extends (H.state lent.new.host.now).own (H.state lent.old.host.now).own }
    ensures loans { SameLoans lent.old lent.new }
{
    let alloc = lent.alloc;
    let reason = kept(alloc, reason)?;
    match revoke(
        lent.w, alloc, lent.host, lent.repo, now, id, reason, lent.steps,
    ) {
        Ok(place) => {
            let front = lent.host.own().len();
            placed(alloc, lent.host, place, &Reply::Revoked { front })
        }
        Err(why) => refused(alloc, why),
    }
}

/// The revocation of all keys made before a date, in ticks.
pub(crate) fn place_mass_revocation<W, H: Host<W>, R: Repo<W>, D: Draw>(
    lent: &mut Lent<'_, '_, '_, '_, '_, W, H, R, D>,
    now: u64,
    date: u64,
    reason: &str,
) -> Result<Response, Memory>
    requires reason { IsReason reason.now }
    requires free { (H.state lent.old.host.now).held ≡ false }
    requires room { lent.old.steps.now ≡ [] }
    ensures served { (app : List ℕ) → (drawn : List ℕ) × Served app
        (Ok (RevokeBefore date reason.now)) now result drawn
        (books [] (H.state lent.old.host.now) (R.store lent.old.repo.now)
        (D.draws lent.old.draw.now)) (books_of H.state R.store D.draws lent.new) }
    ensures free { (H.state lent.new.host.now).held ≡ false }
    ensures grows { Extends (H.state lent.new.host.now).own (H.state lent.old.host.now).own }
    ensures loans { SameLoans lent.old lent.new }
{
    let alloc = lent.alloc;
    let reason = kept(alloc, reason)?;
    match revoke_before(
        lent.w, alloc, lent.host, lent.repo, date, reason, lent.steps,
    ) {
        Ok(place) => {
            let front = lent.host.own().len();
            placed(alloc, lent.host, place, &Reply::RevokedBefore { front })
        }
        Err(why) => refused(alloc, why),
    }
}

//! One request: its call, and the reply to it.

ghost use Rattle.std.specs.Prelude.{◌≡◌, ◌<◌, ◌≤◌, ◌^◌, false, true, ℕ, List, [], Ok, length, IfOk, IfSome};
ghost use Rattle.dp_base.specs.declared.ticks.TheConstants.{LAST};
ghost use Rattle.dp_base.specs.Draws.{DrawState};
ghost use Rattle.dp_base.specs.Readers.{seen};
ghost use Rattle.key_elements.specs.Lists.{Extends};
ghost use Rattle.node_calls.specs.Books.{books};
ghost use Rattle.node_calls.specs.Lent.{SameLoans, books_of};
ghost use Rattle.dp_wire.specs.Request.{request_of, IsRequest, Ring as RingRequest};
ghost use Rattle.dp_answer.specs.Needs.{HasBadDates, IsShort, needs_ring};
ghost use Rattle.dp_answer.specs.Responding.{Responds};
ghost use Rattle.dp_answer.specs.Serving.{Served};
ghost use Rattle.dp_answer.specs.Sought.{IsSought};

use crate::app::Setting;
use crate::needs::{Sought, need_of, seek};
use crate::opening::{opened, opened_text, opened_timed};
use crate::placing::{place_key, place_mass_revocation, place_revocation};
use crate::protecting::{protected, protected_text, protected_timed};
use crate::response::{Response, bad_request, by_ring, refused};
use dp_base::{Draw, MAX_TICKS, Memory};
use dp_wire::{BadRequest, Reply, RequestView};
use key_ring::Ring;
use node_calls::{At, Host, HostView, Lent, NodeError};
use repo_keeper::Repo;
use std::alloc::Global;

// The listing of a ring.
#[tactic(auto, unfolding(dp_wire::specs::Replies::reply_body))]
fn listed(alloc: Global, ring: &Ring) -> Result<Response, Memory>
    ensures { (app : List ℕ) (now need : ℕ) (draws : DrawState) → Responds app now
        (RingRequest need) ring.now result draws draws }
{
    let front = ring.list().len();
    let text = ring.listing(alloc)?;
    let listing = text.as_str();
    by_ring(alloc, ring, &Reply::Ring { front, listing })
}

// The answer by a ring to a request that needs one.
fn respond<D: Draw>(
    alloc: Global,
    setting: Setting<'_>,
    ring: &Ring,
    draw: &mut D,
    now: u64,
    view: RequestView<'_>,
    sought: &Sought,
) -> Result<Response, Memory>
    requires short { IsShort (request_of view) }
    requires needs { needs_ring (request_of view) ≡ true }
    requires dates { HasBadDates (request_of view) now → ⊥ }
    requires sought { IsSought (request_of view) sought.now }
    requires kept { IfSome sought.now.payload (λ v. length v.items < 2 ^ 32) }
    ensures { Responds setting.entry.app.now now (request_of view.entry) ring.now result
        (D.draws draw.old) (D.draws draw.new) }
{
    match view {
        RequestView::Ring { .. } => listed(alloc, ring),
        RequestView::Protect { chain, plain, .. } => {
            protected(alloc, setting, ring, draw, &chain, plain)
        }
        RequestView::Unprotect {
            allow_revoked,
            chain,
            payload,
            ..
        } => opened(alloc, setting, ring, &chain, payload, allow_revoked),
        RequestView::ProtectText { chain, text, .. } => {
            protected_text(alloc, setting, ring, draw, &chain, text)
        }
        RequestView::UnprotectText {
            allow_revoked,
            chain,
            ..
        } => opened_text(alloc, setting, ring, &chain, &sought.payload, allow_revoked),
        RequestView::ProtectTimed {
            chain,
            expiry,
            plain,
            ..
        } => protected_timed(alloc, setting, ring, draw, &chain, expiry, plain),
        RequestView::UnprotectTimed {
            allow_revoked,
            chain,
            payload,
            ..
        } => opened_timed(alloc, setting, ring, &chain, payload, allow_revoked, now),
        RequestView::Roll { .. } | RequestView::Revoke { .. } | RequestView::RevokeBefore { .. } =>
            { unreachable!() }
    }
}

// Serves a request that needs a ring.
fn answer_by_ring<W, H: Host<W>, R: Repo<W>, D: Draw>(
    lent: &mut Lent<'_, '_, '_, '_, '_, W, H, R, D>,
    setting: Setting<'_>,
    now: u64,
    view: RequestView<'_>,
) -> Result<Response, Memory>
    requires moment { now ≤ LAST }
    requires short { IsShort (request_of view) }
    requires needs { needs_ring (request_of view) ≡ true }
    requires dates { HasBadDates (request_of view) now → ⊥ }
    requires free { (H.state lent.old.host.now).held ≡ false }
    requires room { lent.old.steps.now ≡ [] }
    ensures served { (drawn : List ℕ)
        × Served setting.entry.app.now (Ok (request_of view.entry)) now result drawn
        (books [] (H.state lent.old.host.now) (R.store lent.old.repo.now)
        (D.draws lent.old.draw.now)) (books_of H.state R.store D.draws lent.new) }
    ensures free { (H.state lent.new.host.now).held ≡ false }
    ensures grows { Extends (H.state lent.new.host.now).own (H.state lent.old.host.now).own }
    ensures loans { SameLoans lent.old lent.new }
{
    let alloc = lent.alloc;
    let sought = seek(alloc, view)?;
    let at = At {
        now,
        need: need_of(Ok(view)),
    };
    match lent.ring_for(at, sought.missing) {
        Ok(ring) => respond(alloc, setting, &ring, lent.draw, now, view, &sought),
        Err(why) => refused(alloc, why),
    }
}

// Serves a request that was read.
fn answer_view<W, H: Host<W>, R: Repo<W>, D: Draw>(
    lent: &mut Lent<'_, '_, '_, '_, '_, W, H, R, D>,
    setting: Setting<'_>,
    now: u64,
    view: RequestView<'_>,
) -> Result<Response, Memory>
    requires moment { now ≤ LAST }
    requires request { IsRequest (request_of view) }
    requires short { IsShort (request_of view) }
    requires free { (H.state lent.old.host.now).held ≡ false }
    requires room { lent.old.steps.now ≡ [] }
    ensures served { (drawn : List ℕ)
        × Served setting.entry.app.now (Ok (request_of view.entry)) now result drawn
        (books [] (H.state lent.old.host.now) (R.store lent.old.repo.now)
        (D.draws lent.old.draw.now)) (books_of H.state R.store D.draws lent.new) }
    ensures free { (H.state lent.new.host.now).held ≡ false }
    ensures grows { Extends (H.state lent.new.host.now).own (H.state lent.old.host.now).own }
    ensures loans { SameLoans lent.old lent.new }
{
    match view {
        RequestView::Roll {
            activation,
            expiration,
            alg,
        } => place_key(lent, now, activation, expiration, alg),
        RequestView::Revoke { id, reason } => { place_revocation(lent, now, id, reason) }
        RequestView::RevokeBefore { date, reason } => {
            place_mass_revocation(lent, now, date, reason)
        }
        RequestView::ProtectTimed { expiry, .. } if expiry > MAX_TICKS => {
            refused(lent.alloc, NodeError::BadDates)
        }
        _ => answer_by_ring(lent, setting, now, view),
    }
}

/// Serves a request at the moment, in ticks: by a lawful path to a ring or to a place, or refuses it.
pub fn answer<W, H: Host<W>, R: Repo<W>, D: Draw>(
    lent: &mut Lent<'_, '_, '_, '_, '_, W, H, R, D>,
    setting: Setting<'_>,
    now: u64,
    request: Result<RequestView<'_>, BadRequest>,
) -> Result<Response, Memory>
    requires moment { now ≤ LAST }
    requires request { IfOk request (λ view. IsRequest (request_of view)) }
    requires short { IfOk request (λ view. IsShort (request_of view)) }
    requires free { (H.state lent.old.host.now).held ≡ false }
    requires room { lent.old.steps.now ≡ [] }
    ensures served { (drawn : List ℕ)
        × Served setting.entry.app.now (seen request_of request.entry) now result drawn
        (books [] (H.state lent.old.host.now) (R.store lent.old.repo.now)
        (D.draws lent.old.draw.now)) (books_of H.state R.store D.draws lent.new) }
    ensures free { (H.state lent.new.host.now).held ≡ false }
    ensures grows { Extends (H.state lent.new.host.now).own (H.state lent.old.host.now).own }
    ensures loans { SameLoans lent.old lent.new }
{
    match request {
        Ok(view) => answer_view(lent, setting, now, view),
        Err(why) => bad_request(lent.alloc, why),
    }
}

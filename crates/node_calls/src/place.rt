//! Calls that append an element to what a pass has seen.

ghost use Rattle.std.specs.Prelude.{◌≡◌, ◌↔◌, ◌+◌, ◌<◌, ◌≤◌, false, true, [], length, IfOk, Err, OnErr};
ghost use Rattle.dp_base.specs.declared.ticks.TheConstants.{LAST, MAX_TICKS};
ghost use Rattle.dp_base.specs.Codes.{code_of};
ghost use Rattle.dp_base.specs.Draws.{DrawState};
ghost use Rattle.key_elements.specs.declared.element.Element.TheVariants.{RevokeKey, RevokeBefore};
ghost use Rattle.key_elements.specs.Record.{IsElement};
ghost use Rattle.key_elements.specs.Lists.{Extends};
ghost use Rattle.repo_keeper.specs.Store.{EndsWith};
ghost use Rattle.repo_keeper.specs.Made.{key_of_draw, AreBadDates};
ghost use Rattle.ring_world.specs.declared.step.TheConstants.{MAX_STEPS};
ghost use Rattle.ring_world.specs.Placing.{PlacePath};
ghost use Rattle.node_calls.specs.declared.error.NodeError.TheVariants.{BadDates};
ghost use Rattle.node_calls.specs.Books.{books, Does};
ghost use Rattle.node_calls.specs.Gather.{IsKeyElement, in_paths};
ghost use Rattle.node_calls.specs.Places.{asked, placed, EndsWithKey, IsIdOf};

use crate::error::NodeError;
use crate::gather::{append_on, draw_key};
use crate::host::{Host, HostView};
use dp_base::{Alg, Draw, KeyId};
use key_elements::{Element, Reason};
use repo_keeper::{Repo, mass_revocation, revocation};
use ring_world::{Step, StepList};
use std::alloc::Global;

/// Where a key was placed, from 0, and its id.
#[derive(Clone, Copy, Debug, PartialEq, Eq)]
pub struct Placed {
    pub place: u64,
    pub id: KeyId,
}

// Appends the element to what the pass has seen, which then is that and what the repository holds
// beyond it, and raises the want number to its length.
fn place_on<W, H: Host<W>, R: Repo<W>>(
    w: &mut W,
    alloc: Global,
    host: &mut H,
    repo: &mut R,
    element: &Element,
    steps: &mut StepList,
) -> Result<u64, NodeError>
    requires room { length steps.old + 3 ≤ MAX_STEPS }
    requires element { IsElement element.now }
    ensures did { (draws : DrawState) → Does (PlacePath (asked (H.state host.old).own false
        (λ _. element.now) (R.store repo.new).list) (in_paths result) (H.state host.new).own)
        (books steps.old (H.state host.old) (R.store repo.old) draws)
        (books steps.new (H.state host.new) (R.store repo.new) draws) }
    ensures last { IfOk result (λ _. EndsWith element.now (H.state host.new).own) }
    ensures unchanged { OnErr result (host.new ≡ host.old) }
    ensures held { (H.state host.new).held ≡ (H.state host.old).held }
    ensures grows { Extends (H.state host.new).own (H.state host.old).own }
    ensures room { length steps.new ≤ length steps.old + 3 }
{
    let list = append_on(w, alloc, repo, host.own(), element, steps)?;
    let count = list.len();
    host.keep(list);
    host.raise_want(count);
    steps.push(Step::RaiseWant { n: count });
    steps.push(Step::Answer);
    Ok(count - 1)
}

// The id of a key.
fn id_of(element: &Element) -> KeyId
    requires { IsKeyElement element.now }
    ensures { IsIdOf result element.now }
{
    match element {
        Element::Key(record) => record.id,
        Element::RevokeKey { .. } | Element::RevokeBefore { .. } => unreachable!(),
    }
}

/// Makes a key, and appends it to what the pass has seen. Its dates, in ticks, are tested before
/// anything else is done.
pub fn roll<W, H: Host<W>, R: Repo<W>, D: Draw>(
    w: &mut W,
    alloc: Global,
    host: &mut H,
    repo: &mut R,
    draw: &mut D,
    now: u64,
    activation: u64,
    expiration: u64,
    alg: Alg,
    steps: &mut StepList,
) -> Result<Placed, NodeError>
    requires moment { now ≤ LAST }
    requires room { steps.old ≡ [] }
    ensures path { (AreBadDates now activation expiration → ⊥) → Does (PlacePath (asked
        (H.state host.old).own true (λ b. key_of_draw b now activation expiration (code_of alg))
        (R.store repo.new).list) (placed result) (H.state host.new).own)
        (books [] (H.state host.old) (R.store repo.old) (D.draws draw.old))
        (books steps.new (H.state host.new) (R.store repo.new) (D.draws draw.new)) }
    ensures bad_dates { (result ≡ Err BadDates) ↔ AreBadDates now activation expiration }
    ensures untouched { AreBadDates now activation expiration → (host.new ≡ host.old) ×
        (repo.new ≡ repo.old) × (draw.new ≡ draw.old) × (steps.new ≡ []) }
    ensures id { IfOk result (λ placed. EndsWithKey placed.id (H.state host.new).own) }
    ensures unchanged { OnErr result (host.new ≡ host.old) }
    ensures held { (H.state host.new).held ≡ (H.state host.old).held }
    ensures grows { Extends (H.state host.new).own (H.state host.old).own }
    ensures few { length steps.new ≤ MAX_STEPS }
{
    let key = draw_key(draw, now, activation, expiration, alg, steps)?;
    let id = id_of(&key);
    let place = place_on(w, alloc, host, repo, &key, steps)?;
    Ok(Placed { place, id })
}

/// Revokes the key with the id, whether or not there is one, and gives the place of the revocation,
/// from 0.
pub fn revoke<W, H: Host<W>, R: Repo<W>>(
    w: &mut W,
    alloc: Global,
    host: &mut H,
    repo: &mut R,
    now: u64,
    id: KeyId,
    reason: Reason,
    steps: &mut StepList,
) -> Result<u64, NodeError>
    requires moment { now ≤ LAST }
    requires room { steps.old ≡ [] }
    ensures path { (draws : DrawState) → Does (PlacePath (asked (H.state host.old).own false
        (λ _. RevokeKey id now reason) (R.store repo.new).list) (in_paths result)
        (H.state host.new).own)
        (books [] (H.state host.old) (R.store repo.old) draws)
        (books steps.new (H.state host.new) (R.store repo.new) draws) }
    ensures unchanged { OnErr result (host.new ≡ host.old) }
    ensures held { (H.state host.new).held ≡ (H.state host.old).held }
    ensures grows { Extends (H.state host.new).own (H.state host.old).own }
    ensures few { length steps.new ≤ MAX_STEPS }
{
    let Ok(element) = revocation(id, now, reason) else {
        unreachable!()
    };
    place_on(w, alloc, host, repo, &element, steps)
}

/// Revokes all keys that were made before the date, in ticks, and gives the place of the
/// revocation, from 0.
pub fn revoke_before<W, H: Host<W>, R: Repo<W>>(
    w: &mut W,
    alloc: Global,
    host: &mut H,
    repo: &mut R,
    date: u64,
    reason: Reason,
    steps: &mut StepList,
) -> Result<u64, NodeError>
    requires room { steps.old ≡ [] }
    ensures path { (date ≤ MAX_TICKS) → (draws : DrawState) → Does (PlacePath (asked
        (H.state host.old).own false (λ _. RevokeBefore date reason) (R.store repo.new).list)
        (in_paths result) (H.state host.new).own)
        (books [] (H.state host.old) (R.store repo.old) draws)
        (books steps.new (H.state host.new) (R.store repo.new) draws) }
    ensures bad_dates { (result ≡ Err BadDates) ↔ (MAX_TICKS < date) }
    ensures untouched { MAX_TICKS < date → (host.new ≡ host.old) × (repo.new ≡ repo.old) ×
        (steps.new ≡ []) }
    ensures unchanged { OnErr result (host.new ≡ host.old) }
    ensures held { (H.state host.new).held ≡ (H.state host.old).held }
    ensures grows { Extends (H.state host.new).own (H.state host.old).own }
    ensures few { length steps.new ≤ MAX_STEPS }
{
    match mass_revocation(date, reason) {
        Ok(element) => place_on(w, alloc, host, repo, &element, steps),
        Err(_) => Err(NodeError::BadDates),
    }
}

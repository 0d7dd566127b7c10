//! What a flight reads, draws and appends.

ghost use Rattle.std.specs.Prelude.{◌/◌, Bool, ◌≡◌, ◌↔◌, ◌+◌, ◌-◌, ◌<◌, ◌≤◌, ◌++◌, ℕ, List, length, Err, IfOk, Option};
ghost use Rattle.std.specs.List.{AllByRecursion};
ghost use Rattle.default_key.specs.declared.options.Options.{Options};
ghost use Rattle.dp_base.specs.Draws.{DrawState};
ghost use Rattle.dp_base.specs.declared.ticks.TheConstants.{LAST};
ghost use Rattle.dp_base.specs.Codes.{code_of};
ghost use Rattle.key_elements.specs.declared.element.Element.{Element};
ghost use Rattle.key_elements.specs.declared.list.TheConstants.{MAX_ELEMENTS};
ghost use Rattle.key_elements.specs.Record.{IsElement};
ghost use Rattle.key_elements.specs.Lists.{Extends};
ghost use Rattle.key_ring.specs.Ring.{preferred_key};
ghost use Rattle.repo_keeper.specs.Store.{Store, Grows};
ghost use Rattle.repo_keeper.specs.Made.{key_of_draw, AreBadDates};
ghost use Rattle.ring_world.specs.declared.step.TheConstants.{MAX_STEPS};
ghost use Rattle.ring_world.specs.Flight.{Gathers, activation_of, jitter_of, makes_key};
ghost use Rattle.node_calls.specs.declared.error.NodeError.TheVariants.{BadDates};
ghost use Rattle.node_calls.specs.HostState.{HostState};
ghost use Rattle.node_calls.specs.Books.{books, Does};
ghost use Rattle.node_calls.specs.Calls.{terms};
ghost use Rattle.node_calls.specs.Lent.{SameSources, books_by};
ghost use Rattle.node_calls.specs.Gather.{IsKeyElement, goes_on, refusal, refused_as, refusal_steps, read_step, in_paths, ReadGives, DrawGives, KeyGives, AppendGives};

use crate::error::NodeError;
use crate::lent::Sources;
use default_key::Options;
use dp_base::{Alg, Draw, Memory};
use key_elements::{Element, ElementList, MAX_ELEMENTS};
use key_ring::Ring;
use repo_keeper::{MakeRefused, Repo, RepoError, new_key};
use ring_world::{Step, StepList};
use std::alloc::Global;

// The list with a tail that fits.
fn grown(alloc: Global, list: &ElementList, tail: Vec<Element>) -> Result<ElementList, Memory>
    requires few { length list.now + length tail.items ≤ MAX_ELEMENTS }
    requires elements { AllByRecursion IsElement tail.items }
    ensures { IfOk result (λ grown. grown ≡ list.now ++ tail.items) }
{
    match list.extended(alloc, tail) {
        Ok(grown) => Ok(grown),
        Err(_) => Err(Memory),
    }
}

// Records the step that a refusal of the repository is, and gives the error.
fn refused(known: u64, why: RepoError, failed: Step, steps: &mut StepList) -> NodeError
    requires { length steps.old + 1 ≤ MAX_STEPS }
    ensures error { refusal result ≡ refused_as known why }
    ensures steps { steps.new ≡ steps.old ++ refusal_steps known failed why }
    ensures room { length steps.new ≤ length steps.old + 1 }
{
    match why {
        RepoError::Failed => {
            steps.push(failed);
            NodeError::StoreFault
        }
        RepoError::Short { have } => {
            steps.push(Step::WentBack {
                had: known,
                got: have,
            });
            NodeError::WentBack {
                had: known,
                got: have,
            }
        }
        RepoError::Full { count } => {
            steps.push(Step::AppendFull);
            NodeError::Full { count }
        }
        RepoError::Memory => NodeError::Memory,
    }
}

// The step that a read of a list is.
fn read_step(private: bool, front: u64) -> Step
    ensures { result ≡ read_step private front }
{
    if private {
        Step::PrivateRead { front }
    } else {
        Step::Read { front }
    }
}

/// Reads on from the base. The step is recorded before memory is taken for the list.
pub(crate) fn read_on<W, R: Repo<W>>(
    w: &mut W,
    alloc: Global,
    repo: &mut R,
    base: &ElementList,
    private: bool,
    steps: &mut StepList,
) -> Result<ElementList, NodeError>
    requires { length steps.old + 1 ≤ MAX_STEPS }
    ensures did { (host : HostState) (draws : DrawState) → Does (ReadGives private
        (R.store repo.new).list base.now (in_paths result))
        (books steps.old host (R.store repo.old) draws) (books steps.new host
        (R.store repo.new) draws) }
    ensures room { length steps.new ≤ length steps.old + 1 }
    ensures extends { IfOk result (λ list. Extends list base.now) }
{
    match repo.read(w, alloc, base.len()) {
        Ok(tail) => {
            steps.push(read_step(private, base.len() + tail.len() as u64));
            Ok(grown(alloc, base, tail)?)
        }
        Err(why) => Err(refused(base.len(), why, Step::ReadFailed, steps)),
    }
}

/// Draws the eight bytes of a jitter.
pub(crate) fn draw_word<D: Draw>(draw: &mut D, steps: &mut StepList) -> Result<[u8; 8], NodeError>
    requires { length steps.old + 1 ≤ MAX_STEPS }
    ensures did { (host : HostState) (store : Store) → Does (DrawGives 8 (in_paths result))
        (books steps.old host store (D.draws draw.old)) (books steps.new host store
        (D.draws draw.new)) }
    ensures room { length steps.new ≤ length steps.old + 1 }
{
    let mut word = [0; 8];
    match draw.fill(&mut word) {
        Ok(()) => {
            steps.push(Step::Drawn { bytes: 8 });
            Ok(word)
        }
        Err(_) => {
            steps.push(Step::DrawFailed);
            Err(NodeError::DrawFault)
        }
    }
}

/// Appends an element to the list, and gives the list with it. The step is recorded before memory
/// is taken for the list.
pub(crate) fn append_on<W, R: Repo<W>>(
    w: &mut W,
    alloc: Global,
    repo: &mut R,
    list: &ElementList,
    element: &Element,
    steps: &mut StepList,
) -> Result<ElementList, NodeError>
    requires room { length steps.old + 1 ≤ MAX_STEPS }
    requires element { IsElement element.now }
    ensures did { (host : HostState) (draws : DrawState) → Does (AppendGives
        (R.store repo.new).list list.now element.now (in_paths result))
        (books steps.old host (R.store repo.old) draws) (books steps.new host
        (R.store repo.new) draws) }
    ensures room { length steps.new ≤ length steps.old + 1 }
    ensures extends { IfOk result (λ grown. Extends grown list.now) }
{
    match repo.append(w, alloc, list.len(), element) {
        Ok(tail) => {
            steps.push(Step::Appended {
                place: list.len() + tail.len() as u64 - 1,
            });
            Ok(grown(alloc, list, tail)?)
        }
        Err(why) => Err(refused(list.len(), why, Step::AppendFailed, steps)),
    }
}

// The jitter of eight bytes drawn, in ticks.
fn jitter_of(word: [u8; 8], options: &Options) -> u64
    ensures value { result ≡ jitter_of word }
    ensures bound { result ≤ options.now.period / 5 }
{
    u64::from_be_bytes(word) % (options.period / 5 + 1)
}

// When a key made for the ring's list is activated: where the preferred key expires, or at once.
fn activation_of(ring: &Ring, now: u64) -> u64
    requires { ring.now.made_at ≡ now }
    ensures { result ≡ activation_of now (preferred_key ring.now.list now) }
{
    match ring.preferred_id() {
        Some(id) => match ring.lookup(&id) {
            Some(state) => state.key.expiration,
            None => now,
        },
        None => now,
    }
}

/// Draws the eighty bytes of a key, and makes it. Its dates are tested before anything is drawn.
pub(crate) fn draw_key<D: Draw>(
    draw: &mut D,
    creation: u64,
    activation: u64,
    expiration: u64,
    alg: Alg,
    steps: &mut StepList,
) -> Result<Element, NodeError>
    requires room { length steps.old + 1 ≤ MAX_STEPS }
    ensures did { (AreBadDates creation activation expiration → ⊥) → (host : HostState)
        (store : Store) → Does (KeyGives
        (λ b. key_of_draw b creation activation expiration (code_of alg)) (in_paths result))
        (books steps.old host store (D.draws draw.old)) (books steps.new host store
        (D.draws draw.new)) }
    ensures bad_dates { (result ≡ Err BadDates) ↔ AreBadDates creation activation expiration }
    ensures untouched { AreBadDates creation activation expiration → (draw.new ≡ draw.old) ×
        (steps.new ≡ steps.old) }
    ensures room { length steps.new ≤ length steps.old + 1 }
    ensures element { IfOk result IsElement }
    ensures key { IfOk result IsKeyElement }
{
    match new_key(draw, creation, activation, expiration, alg) {
        Ok(key) => {
            steps.push(Step::Drawn { bytes: 80 });
            Ok(key)
        }
        Err(MakeRefused::DrawFault) => {
            steps.push(Step::DrawFailed);
            Err(NodeError::DrawFault)
        }
        Err(MakeRefused::BadDates) => Err(NodeError::BadDates),
    }
}

// Whether a flight that read the ring's list makes a key.
fn makes_key(ring: &Ring, options: &Options) -> bool
    ensures { (now : ℕ) (opening : Bool) (before told : Option (List Element)) →
        ring.now.made_at ≡ now → result ≡ makes_key (terms now options.now opening before told)
        ring.now.list }
{
    options.auto && ring.renew() && ring.list().len() < MAX_ELEMENTS
}

// Whether the flight goes on without the key whose append was refused.
fn goes_on(opening: bool, why: &NodeError) -> bool
    ensures { result ≡ goes_on opening (refusal why.now) }
{
    match why {
        NodeError::Full { .. } => true,
        NodeError::WentBack { .. } => opening,
        _ => false,
    }
}

impl<W, R: Repo<W>, D: Draw> Sources<'_, '_, '_, '_, W, R, D> {
    /// Reads on from the base, draws the jitter, and makes a ring; a key is made and appended where
    /// one is due.
    pub(crate) fn gather(
        &mut self,
        base: &ElementList,
        now: u64,
        options: &Options,
        opening: bool,
    ) -> Result<Ring, NodeError>
        requires room { length self.old.steps.now + 4 ≤ MAX_STEPS }
        requires moment { now ≤ LAST }
        ensures did { (host : HostState) (before : Option (List Element)) →
            Grows before (R.store self.old.repo.now).list → Does (Gathers (terms now options.now
            opening before (R.store self.new.repo.now).list) base.now (in_paths result))
            (books_by R.store D.draws host self.old) (books_by R.store D.draws host self.new) }
        ensures room { length self.new.steps.now ≤ length self.old.steps.now + 4 }
        ensures extends { IfOk result (λ ring. Extends ring.list base.now) }
        ensures loans { SameSources self.old self.new }
    {
        let list = read_on(self.w, self.alloc, self.repo, base, false, self.steps)?;
        let word = draw_word(self.draw, self.steps)?;
        let jitter = jitter_of(word, options);
        let ring = Ring::of(self.alloc, list, now, jitter, options)?;
        if !makes_key(&ring, options) {
            return Ok(ring);
        }
        let activation = activation_of(&ring, now);
        let expiration = now + options.lifetime;
        let key = draw_key(
            self.draw,
            now,
            activation,
            expiration,
            options.new_alg,
            self.steps,
        )?;
        match append_on(self.w, self.alloc, self.repo, ring.list(), &key, self.steps) {
            Ok(grown) => Ok(Ring::of(self.alloc, grown, now, jitter, options)?),
            Err(why) => {
                if goes_on(opening, &why) {
                    return Ok(ring);
                }
                Err(why)
            }
        }
    }
}

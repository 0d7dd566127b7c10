//! The elements that a node makes: keys, and revocations.

ghost use Rattle.std.specs.Prelude.{◌≡◌, ◌<◌, ◌↔◌, ℕ, List, [], length, Err, IfOk, IsErr, IsTrue};
ghost use Rattle.dp_base.specs.declared.ticks.TheConstants.{MAX_TICKS};
ghost use Rattle.dp_base.specs.Codes.{code_of};
ghost use Rattle.dp_base.specs.Draws.{Draws};
ghost use Rattle.key_elements.specs.declared.element.Element.TheVariants.{RevokeKey, RevokeBefore};
ghost use Rattle.key_elements.specs.Record.{IsElement};
ghost use Rattle.repo_keeper.specs.Made.{key_of_draw, AreBadDates};
ghost use Rattle.repo_keeper.specs.declared.make.MakeRefused.TheVariants as refused;

use dp_base::{Alg, Draw, KeyId, MAX_TICKS, code_of, key_id_of_draw};
use key_elements::{Element, KeyRecord, Reason};
use thiserror::Error;

/// The bytes that a key is drawn from: sixteen for its id, and its material.
pub const KEY_DRAW: usize = 80;

const _: () = prove!(KEY_DRAW == 16 + 64);

/// Why no key is made.
#[derive(Clone, Copy, Debug, PartialEq, Eq, Error)]
pub enum MakeRefused {
    /// It would expire before it is activated, or a date is above the greatest.
    #[error("the dates of a key are out of order or too late")]
    BadDates,
    /// The draw failed.
    #[error("drawing random bytes failed")]
    DrawFault,
}

/// A date is above the greatest.
#[derive(Clone, Copy, Debug, PartialEq, Eq, Error)]
#[error("a date is too late")]
pub struct BadDates;

/// A key of drawn id and material, with its dates in ticks. It draws 80 bytes at once, and nothing
/// where the dates are bad.
pub fn new_key<D: Draw>(
    draw: &mut D,
    creation: u64,
    activation: u64,
    expiration: u64,
    alg: Alg,
) -> Result<Element, MakeRefused>
    ensures made { IfOk result (λ key. (bytes : List ℕ) × (length bytes ≡ 80)
        × Draws 0 bytes (D.draws draw.old) (D.draws draw.new)
        × (key ≡ key_of_draw bytes creation activation expiration (code_of alg)) × IsElement key) }

    // The dates are tested first.
    ensures bad_dates { (result ≡ Err refused.BadDates)
        ↔ AreBadDates creation activation expiration }
    ensures untouched { result ≡ Err refused.BadDates → draw.new ≡ draw.old }
    ensures draw_fault { result ≡ Err refused.DrawFault
        → Draws 1 [] (D.draws draw.old) (D.draws draw.new) }
{
    if are_bad(creation, activation, expiration) {
        return Err(MakeRefused::BadDates);
    }
    let mut bytes = [0; KEY_DRAW];
    match draw.fill(&mut bytes) {
        Ok(()) => Ok(key_of_draw(&bytes, creation, activation, expiration, alg)),
        Err(_) => Err(MakeRefused::DrawFault),
    }
}

// Whether a key of these dates would end before it begins, or a date is above the greatest.
fn are_bad(creation: u64, activation: u64, expiration: u64) -> bool
    ensures { IsTrue result ↔ AreBadDates creation activation expiration }
{
    activation >= expiration || creation > MAX_TICKS || expiration > MAX_TICKS
}

// The key of eighty bytes drawn.
fn key_of_draw(
    bytes: &[u8; KEY_DRAW],
    creation: u64,
    activation: u64,
    expiration: u64,
    alg: Alg,
) -> Element
    requires { ¬ AreBadDates creation activation expiration }
    ensures value { result ≡ key_of_draw bytes.now creation activation expiration (code_of alg) }
    ensures element { IsElement result }
{
    let (mut id, mut material) = ([0; 16], [0; 64]);
    id.copy_from_slice(&bytes[..16]);
    material.copy_from_slice(&bytes[16..]);
    Element::Key(KeyRecord {
        id: key_id_of_draw(&id),
        creation,
        activation,
        expiration,
        alg: code_of(alg),
        material,
    })
}

/// The revocation of a key by its id, whether or not the key was made yet. The date, in ticks, says
/// when it was revoked.
pub fn revocation(id: KeyId, date: u64, reason: Reason) -> Result<Element, BadDates>
    ensures made { IfOk result (λ e. (e ≡ RevokeKey id date reason) × IsElement e) }
    ensures bad_dates { IsErr result ↔ (MAX_TICKS < date) }
{
    if date > MAX_TICKS {
        return Err(BadDates);
    }
    Ok(Element::RevokeKey { id, date, reason })
}

/// The revocation of every key that was made before a date, in ticks.
pub fn mass_revocation(date: u64, reason: Reason) -> Result<Element, BadDates>
    ensures made { IfOk result (λ e. (e ≡ RevokeBefore date reason) × IsElement e) }
    ensures bad_dates { IsErr result ↔ (MAX_TICKS < date) }
{
    if date > MAX_TICKS {
        return Err(BadDates);
    }
    Ok(Element::RevokeBefore { date, reason })
}

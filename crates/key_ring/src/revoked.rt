//! Which keys a list revokes, and the greatest date of its mass revocations.

ghost use Rattle.std.specs.Prelude.{◌≡◌, ℕ, List, IsTrue};
ghost use Rattle.key_elements.specs.declared.element.Element.{Element};
ghost use Rattle.key_elements.specs.declared.element.KeyRecord.{KeyRecord};
ghost use Rattle.key_elements.specs.Lists.{Extends};
ghost use Rattle.key_ring.specs.Keys.{revokes, is_revoked, is_named};
ghost use Rattle.key_ring.specs.Listing.{mass_date, later, with_mass_date};

use crate::elements::element_at;
use key_elements::{Element, ElementList, KeyRecord};

// Whether the element revokes the key: by its id, or by a date strictly above its creation.
fn revokes(element: &Element, key: &KeyRecord) -> bool
    ensures { result ≡ revokes key.now element.now }
{
    match element {
        Element::Key(_) => false,
        Element::RevokeKey { id, .. } => id.0 == key.id.0,
        Element::RevokeBefore { date, .. } => key.creation < *date,
    }
}

// Whether some element of the list revokes the key.
pub(crate) fn is_revoked(list: &ElementList, key: &KeyRecord) -> bool
    ensures { result ≡ is_revoked list.now key.now }
{
    for place in 0..list.len() {
        if revokes(element_at(list, place), key) {
            return true;
        }
    }
    false
}

// The greater of a date and one that there may be.
fn later(date: Option<u64>, other: u64) -> Option<u64>
    ensures { result ≡ later date other }
{
    match date {
        Some(date) => Some(date.max(other)),
        None => Some(other),
    }
}

// The greatest date with one element more.
fn with_mass_date(greatest: Option<u64>, element: &Element) -> Option<u64>
    ensures { result ≡ with_mass_date greatest element.now }
{
    match element {
        Element::Key(_) | Element::RevokeKey { .. } => greatest,
        Element::RevokeBefore { date, .. } => later(greatest, *date),
    }
}

// The greatest date of the list's mass revocations.
pub(crate) fn mass_date(list: &ElementList) -> Option<u64>
    ensures { result ≡ mass_date list.now }
{
    let mut greatest = None;
    for place in 0..list.len() {
        greatest = with_mass_date(greatest, element_at(list, place));
    }
    greatest
}

/// What revokes a key revokes it for good: in every list that extends this one. A key that is
/// revoked by its id is so whichever record it has there.
pub fn revoked_stays()
    ensures record { (es grown : List Element) (k : KeyRecord) → Extends grown es
        → IsTrue (is_revoked es k) → IsTrue (is_revoked grown k) }
    ensures id { (es grown : List Element) (id : ℕ) → Extends grown es → IsTrue (is_named es id)
        → (k : KeyRecord) → k.id.0 ≡ id → IsTrue (is_revoked grown k) }
{}

//! The keys of a list, by one walk over it.

ghost use Rattle.std.specs.Prelude.{◌≡◌, OnOk, IfOk, map};
ghost use Rattle.std.specs.Option.{option_copied};
ghost use Rattle.key_ring.specs.Put.{put_record};
ghost use Rattle.key_ring.specs.Keys.{key_in, keys_of, ring_keys, fact_of, is_usable};

use crate::elements::element_at;
use crate::revoked::is_revoked;
use default_key::KeyFacts;
use dp_base::{Memory, alg_of};
use key_elements::{Element, ElementList, KeyRecord};
use std::alloc::Global;

// A key of a ring.
#[derive(Clone, Copy, Debug)]
pub(crate) struct RingKey {
    pub(crate) key: KeyRecord,
    pub(crate) revoked: bool,
}

// Puts a record in the place of its key, or at the end where its key is new.
fn put_record(keys: &mut Vec<KeyRecord>, latest: &KeyRecord) -> Result<(), Memory>
    ensures { OnOk result (keys.new.items ≡ put_record latest.now keys.old.items) }
{
    for place in 0..keys.len() {
        if keys[place].id.0 == latest.id.0 {
            keys[place] = *latest;
            return Ok(());
        }
    }
    keys.push(*latest)?;
    Ok(())
}

// The key of an element that is one.
fn key_in(element: &Element) -> Option<&KeyRecord>
    ensures { option_copied result ≡ key_in element.now }
{
    match element {
        Element::Key(key) => Some(key),
        Element::RevokeKey { .. } | Element::RevokeBefore { .. } => None,
    }
}

// The last record of each key, in order of first appearance.
fn keys_of(alloc: Global, list: &ElementList) -> Result<Vec<KeyRecord>, Memory>
    ensures { IfOk result (λ keys. keys.items ≡ keys_of list.now) }
{
    let mut keys = Vec::new(alloc);
    for place in 0..list.len() {
        if let Some(key) = key_in(element_at(list, place)) {
            put_record(&mut keys, key)?;
        }
    }
    Ok(keys)
}

// The keys of a list, each with whether it is revoked.
#[tactic(auto, unfolding(crate::specs::Keys::ring_keys))]
pub(crate) fn ring_keys(alloc: Global, list: &ElementList) -> Result<Vec<RingKey>, Memory>
    ensures { IfOk result (λ keys. keys.items ≡ ring_keys list.now) }
{
    let records = keys_of(alloc, list)?;
    let records = records.as_slice();
    let mut keys = Vec::new(alloc);
    for key in records {
        keys.push(RingKey {
            key: *key,
            revoked: is_revoked(list, key),
        })?;
    }
    Ok(keys)
}

// Whether the key's algorithm is known.
pub(crate) fn is_usable(key: &KeyRecord) -> bool
    ensures { result ≡ is_usable key.now }
{
    alg_of(key.alg).is_some()
}

// What the policy knows of the keys.
pub(crate) fn facts_of(alloc: Global, keys: &[RingKey]) -> Result<Vec<KeyFacts>, Memory>
    ensures { IfOk result (λ facts. facts.items ≡ map fact_of keys.now) }
{
    let mut facts = Vec::new(alloc);
    for entry in keys {
        let key = &entry.key;
        facts.push(KeyFacts {
            id: key.id,
            creation: key.creation,
            activation: key.activation,
            expiration: key.expiration,
            usable: is_usable(key),
            revoked: entry.revoked,
        })?;
    }
    Ok(facts)
}

//! The lines of a listing (docs/FORMATS.md, "Listing").

ghost use Rattle.std.specs.Prelude.{◌≡◌, ◌<◌, ◌++◌, IfOk, OnOk, length, string_bytes};
ghost use Rattle.std.specs.List.{flat_map};
ghost use Rattle.std.specs.Option.{option_copied};
ghost use Rattle.key_elements.specs.Record.{AreListed};
ghost use Rattle.key_ring.specs.Keys.{ring_keys};
ghost use Rattle.key_ring.specs.Listing.{head_line, mass_date, mass_line, state_of, dates_text, key_line, chosen_line, default_line, renew_line, lines};

use crate::keys::{RingKey, is_usable};
use crate::named::chosen;
use crate::revoked::mass_date;
use default_key::Policy;
use dp_base::{Memory, key_id_text};
use key_elements::{ElementList, KeyRecord};
use std::alloc::Global;

/// More bytes than any listing has.
pub const LISTING_LIMIT: usize = 2_400_000;

const _: () = prove!(LISTING_LIMIT == 2_400_000);

// How many elements, and the moment.
#[tactic(auto, unfolding(crate::specs::Listing::head_line))]
fn head_line(alloc: Global, list: &ElementList, made_at: u64) -> Result<String, Memory>
    ensures value { IfOk result (λ text. string_bytes text ≡ head_line list.now made_at) }
    ensures listed { AreListed list.now }
{
    let count = list.len();
    Ok(format!(in alloc; "ring {count} elements at {made_at}\n")?)
}

// The greatest date of a mass revocation.
fn mass_line(alloc: Global, date: Option<u64>) -> Result<String, Memory>
    ensures { IfOk result (λ text. string_bytes text ≡ mass_line date) }
{
    match date {
        Some(date) => Ok(format!(in alloc; "mass {date}\n")?),
        None => Ok(String::from_str(alloc, "mass none\n")?),
    }
}

// The first of the states that holds.
#[tactic(auto, unfolding(crate::specs::Listing::state_of))]
fn state_of(key: &KeyRecord, revoked: bool, made_at: u64) -> &'static str
    ensures { result.now ≡ state_of made_at revoked key.now }
{
    if revoked {
        "revoked"
    } else if !is_usable(key) {
        "unusable"
    } else if key.expiration <= made_at {
        "expired"
    } else if made_at < key.activation {
        "pending"
    } else {
        "active"
    }
}

// The dates of a key and its code.
#[tactic(auto, unfolding(crate::specs::Listing::dates_text))]
fn dates_text(alloc: Global, key: &KeyRecord) -> Result<String, Memory>
    ensures { IfOk result (λ text. string_bytes text ≡ dates_text key.now) }
{
    let creation = key.creation;
    let activation = key.activation;
    let expiration = key.expiration;
    let alg = key.alg;
    Ok(format!(in alloc;
        "created {creation} activates {activation} expires {expiration} alg {alg}"
    )?)
}

#[tactic(auto, unfolding(crate::specs::Listing::key_line))]
fn key_line(alloc: Global, key: &KeyRecord, revoked: bool, made_at: u64) -> Result<String, Memory>
    ensures { IfOk result (λ text. string_bytes text ≡ key_line made_at revoked key.now) }
{
    let id = key_id_text(alloc, &key.id)?;
    let dates = dates_text(alloc, key)?;
    let state = state_of(key, revoked, made_at);
    Ok(format!(in alloc; "key {id} {dates} {state}\n")?)
}

// Adds a line for each key.
fn push_key_lines(
    alloc: Global,
    text: &mut String,
    keys: &[RingKey],
    made_at: u64,
) -> Result<(), Memory>
    ensures { OnOk result (string_bytes text.new
        ≡ string_bytes text.old ++ flat_map (λ k. key_line made_at k.revoked k.key) keys.now) }
{
    for entry in keys {
        text.push_str(key_line(alloc, &entry.key, entry.revoked, made_at)?.as_str())?;
    }
    Ok(())
}

// The key that protects, and why.
#[tactic(auto, unfolding(crate::specs::Listing::chosen_line))]
fn chosen_line(alloc: Global, key: &KeyRecord, why: &str) -> Result<String, Memory>
    ensures { IfOk result (λ text. string_bytes text ≡ chosen_line key.now why.now) }
{
    let id = key_id_text(alloc, &key.id)?;
    Ok(format!(in alloc; "default {id} by {why}\n")?)
}

fn default_line(
    alloc: Global,
    preferred: Option<&KeyRecord>,
    fallback: Option<&KeyRecord>,
) -> Result<String, Memory>
    ensures { IfOk result (λ text. string_bytes text
        ≡ default_line (option_copied preferred.entry) (option_copied fallback.entry)) }
{
    match (preferred, fallback) {
        (Some(key), _) => chosen_line(alloc, key, "preference"),
        (None, Some(key)) => chosen_line(alloc, key, "fallback"),
        (None, None) => Ok(String::from_str(alloc, "default none\n")?),
    }
}

fn renew_line(renew: bool) -> &'static str
    ensures { result.now ≡ renew_line renew }
{
    if renew { "renew yes\n" } else { "renew no\n" }
}

// The lines of a list with its keys and their policy at the moment.
#[tactic(auto, unfolding(crate::specs::Listing::lines))]
pub(crate) fn text_of(
    alloc: Global,
    list: &ElementList,
    keys: &[RingKey],
    policy: Policy,
    made_at: u64,
) -> Result<String, Memory>
    requires keys { keys.now ≡ ring_keys list.now }
    ensures value { IfOk result (λ text. string_bytes text
        ≡ lines list.now keys.now policy made_at) }
    ensures short { IfOk result (λ text. length (string_bytes text) < LISTING_LIMIT) }
{
    let mut text = head_line(alloc, list, made_at)?;
    text.push_str(mass_line(alloc, mass_date(list))?.as_str())?;
    push_key_lines(alloc, &mut text, keys, made_at)?;
    let preferred = chosen(keys, policy.preferred);
    let fallback = chosen(keys, policy.fallback);
    text.push_str(default_line(alloc, preferred, fallback)?.as_str())?;
    text.push_str(renew_line(policy.renew))?;
    Ok(text)
}

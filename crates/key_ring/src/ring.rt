//! A ring.

ghost use Rattle.std.specs.Prelude.{◌≡◌, ◌<◌, ◌≤◌, ◌/◌, ◌==◌, IfOk, find, length, option_map, string_bytes};
ghost use Rattle.std.specs.Arc.{arc_value};
ghost use Rattle.std.specs.Option.{option_copied};
ghost use Rattle.dp_base.specs.declared.ticks.TheConstants.{LAST};
ghost use Rattle.key_ring.specs.Ring.{IsRing, ring_of, until_with, due, extended, policy_at, preferred_key, default_key};
ghost use Rattle.key_ring.specs.Keys.{ring_keys};
ghost use Rattle.key_ring.specs.State.{key_state, has_id, lookup_of};
ghost use Rattle.key_ring.specs.Listing.{listing};
ghost use Rattle.key_ring.specs.declared.listing.TheConstants.{LISTING_LIMIT};

use crate::due::{EXTENSION, Why};
use crate::keys::{RingKey, facts_of, is_usable, ring_keys};
use crate::listing::text_of;
use crate::named::{chosen, default_of};
use default_key::{Options, Policy, resolve};
use dp_base::{Grows, KeyId, Memory};
use key_elements::{ElementList, KeyRecord};
use std::alloc::Global;
use std::marker::Model;
use std::sync::Arc;

/// What a ring says of one of its keys.
#[derive(Clone, Copy, Debug)]
pub struct KeyState<'a> {
    pub key: &'a KeyRecord,
    pub revoked: bool,
    pub usable: bool,
    pub is_default: bool,
}

// What the shares of a ring have in common.
#[derive(Debug, Drop)]
struct Body {
    list: ElementList,
    keys: Arc<Vec<RingKey>>,
}

/// The ring of a list of elements at a moment, in ticks. Rings share their lists and keys, and none
/// is copied.
#[derive(Debug, Drop)]
pub struct Ring {
    body: Arc<Body>,
    policy: Policy,
    made_at: u64,
    until: u64,
    excused: u64,
}

impl Model for Ring {
    ghost use Rattle.std.specs.Arc.{arc_value};
    ghost use Rattle.key_ring.specs.Ring.{RingOf, IsRing};

    ghost Value = { RingOf };

    ghost view = { λ r. record {
      list = (arc_value r.body).list;
      made_at = r.made_at;
      until = r.until;
      excused = r.excused;
    } };

    ghost invariant = { λ r. IsRing (arc_value r.body).list r.made_at
        (arc_value (arc_value r.body).keys).items r.policy };
}

// The key with the id.
fn key_with<'a>(keys: &'a [RingKey], id: &KeyId) -> Option<&'a RingKey>
    ensures { option_copied result ≡ find (λ k. k.key.id.0 == id.now.0) keys.now }
{
    keys.iter().find(|entry| entry.key.id.0 == id.0)
}

// Whether there is a key, and it has the id.
fn is_of(key: Option<&KeyRecord>, id: &KeyId) -> bool
    ensures { result ≡ has_id id.now.0 (option_copied key.entry) }
{
    match key {
        Some(key) => key.id.0 == id.0,
        None => false,
    }
}

// The end of the period, or the default key's expiration where that is still to come and earlier.
fn until_of(key: Option<&KeyRecord>, now: u64, end: u64) -> u64
    ensures { result ≡ until_with (option_copied key.entry) now end }
{
    match key {
        Some(key) if now < key.expiration && key.expiration < end => key.expiration,
        _ => end,
    }
}

impl Ring {
    fn keys(&self) -> &[RingKey]
        ensures { result.now ≡ ring_keys self.now.list }
    {
        self.body.keys.as_slice()
    }

    fn preferred_key(&self) -> Option<&KeyRecord>
        ensures { option_copied result ≡ preferred_key self.now.list self.now.made_at }
    {
        chosen(self.keys(), self.policy.preferred)
    }

    fn default_key(&self) -> Option<&KeyRecord>
        ensures { option_copied result ≡ default_key self.now.list self.now.made_at }
    {
        default_of(self.keys(), self.policy)
    }

    /// The ring of the list at the moment. It is due a period after it, less the jitter, or where
    /// its default key expires before that. All are ticks.
    pub fn of(
        alloc: Global,
        list: ElementList,
        now: u64,
        jitter: u64,
        options: &Options,
    ) -> Result<Ring, Memory>
        requires moment { now ≤ LAST }
        requires jitter { jitter ≤ options.now.period / 5 }
        ensures { IfOk result (λ ring. ring ≡ ring_of list now jitter) }
    {
        let keys = ring_keys(alloc, &list)?;
        let facts = facts_of(alloc, keys.as_slice())?;
        let policy = resolve(facts.as_slice(), now, options);
        let end = now + options.period - jitter;
        let until = until_of(default_of(keys.as_slice(), policy), now, end);
        let keys = Arc::new(alloc, keys)?;
        let body = Arc::new(alloc, Body { list, keys })?;
        Ok(Ring::from_parts(body, policy, now, until))
    }

    // A ring that nothing is excused of, of a list and what follows from it at the moment.
    fn from_parts(body: Arc<Body>, policy: Policy, made_at: u64, until: u64) -> Ring
        requires { IsRing (arc_value body).list made_at (arc_value (arc_value body).keys).items
            policy }
        ensures { result ≡ record {
          list = (arc_value body).list;
          made_at = made_at;
          until = until;
          excused = 0;
        } }
    {
        Ring {
            body,
            policy,
            made_at,
            until,
            excused: 0,
        }
    }

    /// The list.
    pub fn list(&self) -> &ElementList
        ensures { result.now ≡ self.now.list }
    {
        &self.body.list
    }

    /// The moment at which the ring was made, in ticks.
    pub fn made_at(&self) -> u64
        ensures { result ≡ self.now.made_at }
    {
        self.made_at
    }

    /// The moment at which the ring is due, in ticks.
    pub fn until(&self) -> u64
        ensures { result ≡ self.now.until }
    {
        self.until
    }

    /// The length up to which a wanted list is excused, after a refresh that failed; 0 in a new ring.
    pub fn excused(&self) -> u64
        ensures { result ≡ self.now.excused }
    {
        self.excused
    }

    /// Why the ring is due at the moment, in ticks, for a list of `want` elements. It answers for
    /// its own list, and for what is excused. It is never `Short`.
    #[tactic(auto, unfolding(crate::specs::Ring::due))]
    pub fn due(&self, now: u64, want: u64) -> Option<Why>
        ensures { result ≡ due self.now now want }
    {
        let held = self.body.list.len().max(self.excused);
        if self.until <= now {
            Some(Why::Ended {
                until: self.until,
                now,
            })
        } else if want > held {
            Some(Why::Wanted { want, held })
        } else {
            None
        }
    }

    /// The ring with an end two minutes after the moment, and the wanted length excused: what is
    /// used after a refresh that failed.
    pub fn extended(&self, now: u64, want: u64) -> Result<Ring, Memory>
        requires { now ≤ LAST }
        ensures { IfOk result (λ ring. ring ≡ extended self.now now want) }
    {
        Ok(Ring {
            body: Arc::try_clone(&self.body)?,
            policy: self.policy,
            made_at: self.made_at,
            until: now + EXTENSION,
            excused: self.excused.max(want),
        })
    }

    /// The same ring, with a count of owners of its own. Whoever shares and drops it writes nothing
    /// that the owners of other rings read.
    pub fn apart(&self, alloc: Global) -> Result<Ring, Memory>
        ensures { IfOk result (λ ring. ring ≡ self.now) }
    {
        let list = self.body.list.share()?;
        let keys = Arc::try_clone(&self.body.keys)?;
        Ok(Ring {
            body: Arc::new(alloc, Body { list, keys })?,
            policy: self.policy,
            made_at: self.made_at,
            until: self.until,
            excused: self.excused,
        })
    }

    /// The id of the key that protects, if there is one.
    pub fn default_id(&self) -> Option<KeyId>
        ensures { result ≡ option_map (λ k. k.id) (default_key self.now.list self.now.made_at) }
    {
        Some(self.default_key()?.id)
    }

    /// The id of the preferred key, if there is one.
    pub fn preferred_id(&self) -> Option<KeyId>
        ensures { result ≡ option_map (λ k. k.id) (preferred_key self.now.list self.now.made_at) }
    {
        Some(self.preferred_key()?.id)
    }

    /// Whether a new key is due.
    pub fn renew(&self) -> bool
        ensures { result ≡ (policy_at self.now.list self.now.made_at).renew }
    {
        self.policy.renew
    }

    /// What the ring says of the key with the id.
    pub fn lookup(&self, id: &KeyId) -> Option<KeyState<'_>>
        ensures { option_map key_state result ≡ lookup_of self.now.list self.now.made_at id.now.0 }
    {
        let found = key_with(self.keys(), id)?;
        let key = &found.key;
        Some(KeyState {
            key,
            revoked: found.revoked,
            usable: is_usable(key),
            is_default: is_of(self.default_key(), &key.id),
        })
    }

    /// The ring as text: a line on its list, one on mass revocation, one for each key, one on its
    /// default key and one on renewal.
    pub fn listing(&self, alloc: Global) -> Result<String, Memory>
        ensures value { IfOk result (λ text. string_bytes text
            ≡ listing self.now.list self.now.made_at) }
        ensures short { IfOk result (λ text. length (string_bytes text) < LISTING_LIMIT) }
    {
        text_of(alloc, self.list(), self.keys(), self.policy, self.made_at)
    }
}

impl Grows for Ring {
    ghost use Rattle.key_ring.specs.Ring.{ExtendsRing};
    ghost use Rattle.key_ring.specs.Growth.{ExtendsRing-reflexive, ExtendsRing-transitive};

    ghost extends = { ExtendsRing };

    fn share(&self) -> Result<Ring, Memory> {
        Ok(Ring {
            body: Arc::try_clone(&self.body)?,
            policy: self.policy,
            made_at: self.made_at,
            until: self.until,
            excused: self.excused,
        })
    }

    ghost reflexive = { ExtendsRing-reflexive };

    ghost transitive = { ExtendsRing-transitive };
}

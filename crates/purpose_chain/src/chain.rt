//! Chains of purposes (docs/FORMATS.md, "Authenticated data").

ghost use Rattle.std.specs.Prelude.{◌≡◌, ◌≢◌, ◌↔◌, ◌+◌, ◌<◌, ◌≤◌, ◌++◌, ◌∷◌, [], length, map, string_bytes, IfOk, OnOk, OnErr, Err};
ghost use Rattle.std.specs.List.{flat_map};
ghost use Rattle.purpose_chain.specs.Chain.{IsChain, aad, bytes_of, purpose_field};
ghost use Rattle.purpose_chain.specs.declared.chain.ChainRefused.TheVariants as refused;

use dp_base::{KeyId, Memory, be32, guid_bytes, put_7bit};
use std::alloc::{AllocError, AllocFailed, Global};
use std::marker::Model;
use thiserror::Error;

/// The most purposes of a chain.
pub const MAX_PURPOSES: usize = 64;

const _: () = prove!(MAX_PURPOSES == 64);

/// The most bytes of all purposes of a chain together.
pub const MAX_CHAIN: usize = 16_384;

const _: () = prove!(MAX_CHAIN == 16_384);

// What every authenticated data begins with, as a payload does.
const FIRST: [u8; 4] = [0x09, 0xf0, 0xc9, 0xf0];

/// Why a purpose makes no chain.
#[derive(Clone, Copy, Debug, PartialEq, Eq, Error)]
pub enum ChainRefused {
    /// There would be more than `MAX_PURPOSES`.
    #[error("a chain has too many purposes")]
    TooMany,
    /// The purposes would have more than `MAX_CHAIN` bytes together.
    #[error("the purposes of a chain are too long")]
    TooLong,
    /// No memory was found for the chain.
    #[error("no memory")]
    Memory,
}

impl From<AllocError> for ChainRefused {
    ghost use Rattle.std.specs.Prelude.{◌≡◌};
    ghost use Rattle.purpose_chain.specs.declared.chain.ChainRefused.TheVariants.{Memory};

    ghost from_gives = { λ _ refused. refused ≡ Memory };

    fn from(_: AllocError) -> ChainRefused {
        ChainRefused::Memory
    }
}

impl<T: Drop> From<AllocFailed<T>> for ChainRefused {
    ghost use Rattle.std.specs.Prelude.{◌≡◌};
    ghost use Rattle.purpose_chain.specs.declared.chain.ChainRefused.TheVariants.{Memory};

    ghost from_gives = { λ _ refused. refused ≡ Memory };

    fn from(_: AllocFailed<T>) -> ChainRefused {
        ChainRefused::Memory
    }
}

/// A chain of 1 to `MAX_PURPOSES` purposes, texts of at most `MAX_CHAIN` bytes together, from the
/// general one to the special one. A purpose may be empty.
#[derive(Debug, Drop)]
pub struct Chain {
    purposes: Vec<String>,
    // The bytes of all purposes together.
    len: usize,
}

// Clauses see the bytes of each purpose.
impl Model for Chain {
    ghost use Rattle.std.specs.Prelude.{◌≡◌, List, ℕ, map, string_bytes};
    ghost use Rattle.purpose_chain.specs.Chain.{IsChain, bytes_of};

    ghost Value = { List (List ℕ) };

    ghost view = { λ c. map string_bytes c.purposes.items };

    ghost invariant = { λ c. IsChain (map string_bytes c.purposes.items)
        × (c.len ≡ bytes_of (map string_bytes c.purposes.items)) };
}

impl Chain {
    /// The chain of one purpose.
    pub fn new(alloc: Global, first: &str) -> Result<Chain, ChainRefused>
        ensures value { IfOk result (λ chain. chain ≡ first.now ∷ []) }
        ensures too_many { result ≢ Err refused.TooMany }
        ensures too_long { (result ≡ Err refused.TooLong) ↔ (MAX_CHAIN < length first.now) }
    {
        if first.len() > MAX_CHAIN {
            return Err(ChainRefused::TooLong);
        }
        let mut purposes = Vec::new(alloc);
        purposes.push(String::from_str(alloc, first)?)?;
        Ok(Chain {
            purposes,
            len: first.len(),
        })
    }

    // Tests whether a purpose of so many bytes may follow. Too many purposes are told before too long
    // ones.
    fn may_follow(&self, more: usize) -> Result<(), ChainRefused>
        ensures ok { OnOk result ((length self.now < MAX_PURPOSES)
            × (bytes_of self.now + more ≤ MAX_CHAIN)) }
        ensures too_many { (result ≡ Err refused.TooMany) ↔ (MAX_PURPOSES ≤ length self.now) }
        ensures too_long { (result ≡ Err refused.TooLong)
            ↔ ((length self.now < MAX_PURPOSES) × (MAX_CHAIN < bytes_of self.now + more)) }
        ensures no_memory { result ≢ Err refused.Memory }
    {
        if self.purposes.len() >= MAX_PURPOSES {
            return Err(ChainRefused::TooMany);
        }
        if more > MAX_CHAIN - self.len {
            return Err(ChainRefused::TooLong);
        }
        Ok(())
    }

    /// The chain with a purpose more, which this one doesn't share. Too many purposes are told before
    /// too long ones, and both before memory is asked for.
    pub fn child(&self, alloc: Global, purpose: &str) -> Result<Chain, ChainRefused>
        ensures value { IfOk result (λ chain. chain ≡ self.now ++ purpose.now ∷ []) }
        ensures too_many { (result ≡ Err refused.TooMany) ↔ (MAX_PURPOSES ≤ length self.now) }
        ensures too_long { (result ≡ Err refused.TooLong) ↔ ((length self.now < MAX_PURPOSES)
            × (MAX_CHAIN < bytes_of self.now + length purpose.now)) }
    {
        self.may_follow(purpose.len())?;
        let mut purposes = copies(alloc, self.purposes.as_slice())?;
        purposes.push(String::from_str(alloc, purpose)?)?;
        Ok(Chain {
            purposes,
            len: self.len + purpose.len(),
        })
    }

    /// Adds a purpose at the end, for whoever makes a chain of many. After a refusal, which comes as
    /// for `child`, the chain is as it was.
    pub fn push(&mut self, alloc: Global, purpose: &str) -> Result<(), ChainRefused>
        ensures ok { OnOk result (self.new ≡ self.old ++ purpose.now ∷ []) }
        ensures err { OnErr result (self.new ≡ self.old) }
        ensures too_many { (result ≡ Err refused.TooMany) ↔ (MAX_PURPOSES ≤ length self.old) }
        ensures too_long { (result ≡ Err refused.TooLong) ↔ ((length self.old < MAX_PURPOSES)
            × (MAX_CHAIN < bytes_of self.old + length purpose.now)) }
    {
        self.may_follow(purpose.len())?;
        self.purposes.push(String::from_str(alloc, purpose)?)?;
        self.len += purpose.len();
        Ok(())
    }

    /// How many purposes there are.
    pub fn count(&self) -> usize
        ensures value { result ≡ length self.now }
        ensures chain { IsChain self.now }
    {
        self.purposes.len()
    }

    /// How many bytes all purposes have together.
    pub fn bytes(&self) -> usize
        ensures { result ≡ bytes_of self.now }
    {
        self.len
    }

    /// What is authenticated with each payload of the key and the chain: the bytes that a payload
    /// begins with, the id, the number of purposes, and each with its length.
    #[tactic(auto, unfolding(crate::specs::Chain::aad))]
    pub fn aad(&self, alloc: Global, id: &KeyId) -> Result<Vec<u8>, Memory>
        ensures { IfOk result (λ v. v.items ≡ aad id.now.0 self.now) }
    {
        let mut out = Vec::new(alloc);
        out.extend_from_slice(&FIRST)?;
        out.extend_from_slice(&guid_bytes(id))?;
        out.extend_from_slice(&be32(self.count() as u32))?;
        put_purposes(self.purposes.as_slice(), &mut out)?;
        Ok(out)
    }
}

// Copies of texts.
fn copies(alloc: Global, texts: &[String]) -> Result<Vec<String>, AllocError>
    ensures { IfOk result (λ v. map string_bytes v.items ≡ map string_bytes texts.now) }
{
    let mut purposes = Vec::with_capacity(alloc, texts.len())?;
    for text in texts {
        purposes.push(String::from_str(alloc, text.as_str())?)?;
    }
    Ok(purposes)
}

// Adds the length and the bytes of a purpose.
fn put_purpose(purpose: &str, out: &mut Vec<u8>) -> Result<(), Memory>
    requires { length purpose.now ≤ MAX_CHAIN }
    ensures { OnOk result (out.new.items ≡ out.old.items ++ purpose_field purpose.now) }
{
    put_7bit(purpose.len() as u32, out)?;
    out.extend_from_slice(purpose.as_bytes())?;
    Ok(())
}

// Adds each purpose, in order.
fn put_purposes(purposes: &[String], out: &mut Vec<u8>) -> Result<(), Memory>
    requires { bytes_of (map string_bytes purposes.now) ≤ MAX_CHAIN }
    ensures { OnOk result (out.new.items
        ≡ out.old.items ++ flat_map purpose_field (map string_bytes purposes.now)) }
{
    for purpose in purposes {
        put_purpose(purpose.as_str(), out)?;
    }
    Ok(())
}

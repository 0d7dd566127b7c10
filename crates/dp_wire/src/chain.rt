//! Chains of purposes in requests (docs/FORMATS.md, "Frames and requests").

ghost use Rattle.std.specs.Prelude.{◌≡◌, ◌≢◌, ◌≤◌, ◌∷◌, length, IfOk};
ghost use Rattle.purpose_chain.specs.Chain.{bytes_of};
ghost use Rattle.dp_wire.specs.Chains.{IsChainField, chain_of, used_chain};
ghost use Rattle.dp_wire.specs.Purposes.{purposes_left};

use crate::purposes::PurposeIter;
use dp_base::{Memory, take_be32};
use purpose_chain::{Chain, ChainRefused};
use std::alloc::Global;

/// The most purposes of a request's chain.
pub const MAX_WIRE_PURPOSES: u32 = 60;

const _: () = prove!(MAX_WIRE_PURPOSES == 60);

/// The most bytes of all purposes of a request's chain together.
pub const MAX_WIRE_CHAIN: usize = 15_000;

const _: () = prove!(MAX_WIRE_CHAIN == 15_000);

/// The chain of a request: 1 to `MAX_WIRE_PURPOSES` texts of at most `MAX_WIRE_CHAIN` bytes together,
/// as they stand in the body.
#[derive(Clone, Copy, Debug, PartialEq, Eq)]
pub struct ChainView<'a> {
    bytes: &'a [u8],
    ghost lawful: { IsChainField bytes.now },
}

impl<'a> ChainView<'a> {
    // The chain in the bytes of one.
    pub(crate) fn new(bytes: &'a [u8]) -> ChainView<'a>
        requires { IsChainField bytes.now }
        ensures { result.bytes.now ≡ bytes.now }
    {
        ChainView { bytes }
    }

    /// From the count to the end of the last purpose.
    pub fn as_bytes(&self) -> &'a [u8]
        ensures value { result.now ≡ self.now.bytes.now }
        ensures chain { IsChainField result.now }
    {
        self.bytes
    }

    /// The purposes, from the general one to the special one.
    #[tactic(auto, unfolding(crate::specs::Chains::chain_of))]
    pub fn purposes(&self) -> PurposeIter<'a>
        ensures { purposes_left result ≡ chain_of self.now.bytes.now }
    {
        match take_be32(self.bytes) {
            Some(count) => PurposeIter::new(count, &self.bytes[4..]),
            None => PurposeIter::none(),
        }
    }

    /// The chain that is used: this one, behind the name of the application where that isn't empty.
    /// It has room for a further purpose.
    pub fn to_chain(&self, alloc: Global, app: &str) -> Result<Chain, Memory>
        requires { length app.now ≤ 256 }
        ensures value { IfOk result (λ c. c ≡ used_chain app.now (chain_of self.now.bytes.now)) }
        ensures room { IfOk result (λ c. (length c ≤ 61) × (bytes_of c ≤ 15256)) }
    {
        let mut purposes = self.purposes();
        if !app.is_empty() {
            return joined(alloc, app, purposes);
        }
        match purposes.next() {
            Some(first) => joined(alloc, first, purposes),
            None => unreachable!(),
        }
    }
}

// What is told where a chain can be refused for want of memory alone.
fn memory_alone(refused: ChainRefused) -> Memory
    requires few { refused ≢ ChainRefused.TooMany }
    requires short { refused ≢ ChainRefused.TooLong }
{
    match refused {
        ChainRefused::Memory => Memory,
        ChainRefused::TooMany | ChainRefused::TooLong => unreachable!(),
    }
}

// The chain of a purpose and the others, which are few and short enough.
fn joined(alloc: Global, first: &str, others: PurposeIter<'_>) -> Result<Chain, Memory>
    requires few { length (first.now ∷ purposes_left others) ≤ 61 }
    requires short { bytes_of (first.now ∷ purposes_left others) ≤ 15256 }
    ensures { IfOk result (λ c. c ≡ first.now ∷ purposes_left others.entry) }
{
    let mut chain = match Chain::new(alloc, first) {
        Ok(chain) => chain,
        Err(refused) => return Err(memory_alone(refused)),
    };
    for purpose in others {
        match chain.push(alloc, purpose) {
            Ok(()) => {}
            Err(refused) => return Err(memory_alone(refused)),
        }
    }
    Ok(chain)
}

//! Derivation, block by block (SP 800-108, 4.1).

ghost use Rattle.std.specs.Prelude.{◌≡◌, ◌↔◌, ◌<◌, ◌≤◌, ◌∷◌, [], ◌++◌, length, take, OnOk, OnErr, IsErr};
ghost use Rattle.std.specs.Int.{w32, to_be_bytes};
ghost use Rattle.kdf_ctr.specs.Kdf.{block, kdf};

use dp_base::{Prf, be32};
use thiserror::Error;

/// The most bytes that are derived at once.
pub const MAX_DERIVED: usize = 1024;

const _: () = prove!(MAX_DERIVED == 1_024);

// The most bytes that a value of a `Prf` has.
const MAX_VALUE: usize = 64;

/// More bytes were asked for than `MAX_DERIVED`.
#[derive(Clone, Copy, Debug, PartialEq, Eq, Error)]
#[error("more than 1,024 bytes to derive")]
pub struct TooLong;

/// Fills `out` with bytes that the key, the label, the context and their number determine. Takes no
/// memory.
pub fn derive<P: Prf>(
    key: &[u8],
    label: &[u8],
    context: &[u8],
    out: &mut [u8],
) -> Result<(), TooLong>
    ensures value { OnOk result
        (out.new ≡ kdf P.value P.value_len key.now label.now context.now (length out.old)) }
    ensures too_long { IsErr result ↔ (MAX_DERIVED < length out.old) }
    ensures unchanged { OnErr result (out.new ≡ out.old) }
{
    if MAX_DERIVED < out.len() {
        return Err(TooLong);
    }
    let bits = 8 * out.len() as u32;
    let mut at = 0;
    let mut number = 1;
    while at < out.len() {
        let end = out.len().min(at + P::size());
        write_block::<P>(key, number, label, context, bits, &mut out[at..end]);
        at = end;
        number += 1;
    }
    Ok(())
}

// Writes the front of the block of the number.
fn write_block<P: Prf>(
    key: &[u8],
    number: u32,
    label: &[u8],
    context: &[u8],
    bits: u32,
    out: &mut [u8],
)
    requires { length out.old ≤ P.value_len }
    ensures { out.new ≡ take (length out.old) (block P.value key.now
        (label.now ++ 0 ∷ [] ++ context.now ++ to_be_bytes w32 bits) number) }
{
    let mut prf = P::new(key);
    prf.update(&be32(number));
    prf.update(label);
    prf.update(&[0]);
    prf.update(context);
    prf.update(&be32(bits));
    let mut room = [0; MAX_VALUE];
    let value = &mut room[..P::size()];
    prf.finish(value);
    out.copy_from_slice(&value[..out.len()]);
}

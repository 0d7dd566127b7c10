//! Protecting by a ring.

ghost use Rattle.std.specs.Prelude.{◌≡◌, ◌↔◌, ◌⊎◌, ◌<◌, ◌≤◌, ℕ, [], length, None, Err, IfOk};
ghost use Rattle.dp_base.specs.Draws.{Draws};
ghost use Rattle.key_ring.specs.Ring.{default_key};
ghost use Rattle.dp_protector.specs.Protect.{Drew, IsEarly, Sealed, draw_len, protects};
ghost use Rattle.dp_protector.specs.declared.refused.ProtectRefused.TheVariants as refused;

use crate::refused::ProtectRefused;
use crate::seal::sealed;
use dp_base::Draw;
use dp_encryptor::HeaderTable;
use key_ring::Ring;
use purpose_chain::Chain;
use std::alloc::Global;

/// The most bytes that are protected.
pub const MAX_PLAIN: usize = 1_000_000;

const _: () = prove!(MAX_PLAIN == 1_000_000);

/// The payload of a plaintext under the ring's default key, for a chain of purposes. Calls of the draw
/// give the 16 bytes of its modifier and then its vector.
pub fn protect_with<D: Draw>(
    alloc: Global,
    ring: &Ring,
    headers: &HeaderTable,
    chain: &Chain,
    draw: &mut D,
    plain: &[u8],
) -> Result<Vec<u8>, ProtectRefused>
    ensures made { IfOk result (λ v. Sealed (draw_len ring.now)
        (λ drawn. protects ring.now chain.now drawn plain.now)
        (D.draws draw.old) (D.draws draw.new) v.items) }

    // What is too long is told first, and both before anything is drawn.
    ensures too_long { (len : ℕ) → (result ≡ Err (refused.TooLong len))
        ↔ ((MAX_PLAIN < length plain.now) × (len ≡ length plain.now)) }
    ensures no_default_key { (result ≡ Err refused.NoDefaultKey)
        ↔ ((length plain.now ≤ MAX_PLAIN)
        × (default_key ring.now.list ring.now.made_at ≡ None)) }
    ensures untouched { IsEarly result → draw.new ≡ draw.old }

    // A draw that failed gave nothing; where no memory was found it wasn't asked, or gave its bytes.
    ensures draw_fault { result ≡ Err refused.DrawFault
        → Draws 1 [] (D.draws draw.old) (D.draws draw.new) }
    ensures memory { result ≡ Err refused.Memory → (draw.new ≡ draw.old)
        ⊎ Drew (draw_len ring.now) (D.draws draw.old) (D.draws draw.new) }
{
    if plain.len() > MAX_PLAIN {
        return Err(ProtectRefused::TooLong {
            len: plain.len() as u64,
        });
    }
    sealed(alloc, ring, headers, chain, draw, plain)
}

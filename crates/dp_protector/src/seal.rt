//! Sealing under the default key of a ring (docs/FORMATS.md, "Payload").

ghost use Rattle.std.specs.Prelude.{◌≡◌, ◌↔◌, ◌≢◌, ◌⊎◌, ◌+◌, ◌<◌, ◌^◌, ℕ, [], ◌++◌, length, take, drop, None, Some, Err, IfOk, IfSome, IsNone, OnErr, OnOk};
ghost use Rattle.std.specs.Option.{option_copied};
ghost use Rattle.dp_base.specs.Blocks.{AreBytes};
ghost use Rattle.dp_base.specs.Draws.{Draws};
ghost use Rattle.dp_base.specs.Lengths.{iv_len};
ghost use Rattle.dp_base.specs.Guid.{guid};
ghost use Rattle.payload_view.specs.Payload.{joined};
ghost use Rattle.dp_encryptor.specs.Body.{sealed};
ghost use Rattle.purpose_chain.specs.Chain.{first_bytes};
ghost use Rattle.key_ring.specs.Ring.{default_key};
ghost use Rattle.dp_protector.specs.Algorithms.{alg_of};
ghost use Rattle.dp_protector.specs.Protect.{Drew, IsEarly, Sealed, draw_len, sealing};
ghost use Rattle.dp_protector.specs.declared.refused.ProtectRefused.TheVariants as refused;

use crate::refused::ProtectRefused;
use dp_base::{Alg, Draw, Failed, KeyId, Memory, guid_bytes, iv_len};
use dp_encryptor::{Encryptor, HeaderTable};
use key_elements::KeyRecord;
use key_ring::Ring;
use purpose_chain::Chain;
use std::alloc::Global;

// The first four bytes of a payload, of the version 0.
const FIRST: [u8; 4] = [0x09, 0xf0, 0xc9, 0xf0];

// The bytes of the head of a payload.
const HEAD_LEN: usize = 20;

// The bytes of a modifier.
const MODIFIER_LEN: usize = 16;

// The most bytes that a payload draws: its modifier and the vector of a block.
const MAX_DRAW: usize = 32;

/// The algorithm of the key, where its code has one.
pub(crate) fn alg_of(key: &KeyRecord) -> Option<Alg>
    ensures { result ≡ alg_of key.now.alg }
{
    dp_base::alg_of(key.alg)
}

// The key with which the ring protects.
fn default_key(ring: &Ring) -> Option<&KeyRecord>
    ensures { option_copied result ≡ default_key ring.now.list ring.now.made_at }
{
    let id = ring.default_id()?;
    let state = ring.lookup(&id)?;
    Some(state.key)
}

// The key with which the ring protects, and its algorithm. Each default key has one.
fn protecting(ring: &Ring) -> Option<(&KeyRecord, Alg)>
    ensures none { IsNone result ↔ (default_key ring.now.list ring.now.made_at ≡ None) }
    ensures some { IfSome result (λ found.
        (default_key ring.now.list ring.now.made_at ≡ Some found.0.now)
        × (alg_of found.0.now.alg ≡ Some found.1)) }
{
    let key = default_key(ring)?;
    let alg = alg_of(key)?;
    Some((key, alg))
}

// Draws what a payload of the algorithm needs.
fn fill_drawn<D: Draw>(draw: &mut D, alg: Alg, out: &mut [u8]) -> Result<(), Failed>
    requires { length out.old ≡ 16 + iv_len alg }
    ensures len { length out.new ≡ 16 + iv_len alg }
    ensures bytes { AreBytes out.new }
    ensures ok { OnOk result (Draws 0 out.new (D.draws draw.old) (D.draws draw.new)) }
    ensures err { OnErr result (Draws 1 [] (D.draws draw.old) (D.draws draw.new)) }
{
    draw.fill(out)
}

// The payload of a text, by what was drawn for it.
fn payload(
    alloc: Global,
    encryptor: &Encryptor,
    id: &KeyId,
    aad: &[u8],
    drawn: &[u8],
    plain: &[u8],
) -> Result<Vec<u8>, Memory>
    requires drawn { length drawn.now ≡ 16 + iv_len encryptor.now.alg }
    requires short { length plain.now < 2 ^ 32 }
    ensures { IfOk result (λ v. v.items ≡ first_bytes ++ guid id.now.0 ++ joined
        (sealed encryptor.now aad.now (take 16 drawn.now) (drop 16 drawn.now) plain.now)) }
{
    let mut modifier = [0; MODIFIER_LEN];
    modifier.copy_from_slice(&drawn[..MODIFIER_LEN]);
    let body = encryptor.seal(alloc, aad, &modifier, &drawn[MODIFIER_LEN..], plain)?;
    let mut out = Vec::with_capacity(alloc, HEAD_LEN + body.len())?;
    out.extend_from_slice(&FIRST)?;
    out.extend_from_slice(&guid_bytes(id))?;
    out.extend_from_slice(&body)?;
    Ok(out)
}

/// The payload of a text of any length under the ring's default key. Its modifier and its vector are
/// drawn after all else that may be refused but the room of the payload.
pub(crate) fn sealed<D: Draw>(
    alloc: Global,
    ring: &Ring,
    headers: &HeaderTable,
    chain: &Chain,
    draw: &mut D,
    plain: &[u8],
) -> Result<Vec<u8>, ProtectRefused>
    requires { length plain.now < 2 ^ 32 }
    ensures made { IfOk result (λ v. Sealed (draw_len ring.now)
        (λ drawn. sealing ring.now chain.now drawn plain.now)
        (D.draws draw.old) (D.draws draw.new) v.items) }
    ensures never_long { (len : ℕ) → result ≢ Err (refused.TooLong len) }
    ensures no_default_key { (result ≡ Err refused.NoDefaultKey)
        ↔ (default_key ring.now.list ring.now.made_at ≡ None) }
    ensures untouched { IsEarly result → draw.new ≡ draw.old }
    ensures draw_fault { result ≡ Err refused.DrawFault
        → Draws 1 [] (D.draws draw.old) (D.draws draw.new) }
    ensures memory { result ≡ Err refused.Memory → (draw.new ≡ draw.old)
        ⊎ Drew (draw_len ring.now) (D.draws draw.old) (D.draws draw.new) }
{
    let (key, alg) = match protecting(ring) {
        Some(found) => found,
        None => return Err(ProtectRefused::NoDefaultKey),
    };
    let encryptor = Encryptor::new(alloc, alg, &key.material, headers);
    let aad = chain.aad(alloc, &key.id)?;
    let mut room = [0; MAX_DRAW];
    let drawn = &mut room[..MODIFIER_LEN + iv_len(alg)];
    match fill_drawn(draw, alg, drawn) {
        Ok(()) => Ok(payload(alloc, &encryptor, &key.id, &aad, drawn, plain)?),
        Err(_) => Err(ProtectRefused::DrawFault),
    }
}

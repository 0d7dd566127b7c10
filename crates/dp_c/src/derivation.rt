//! Key derivation in counter mode over HMAC with SHA-512, and context headers.

ghost use Rattle.std.specs.Prelude.{◌≡◌, ◌≢◌, ◌<◌, ◌≤◌, ◌⊎◌, ◌↔◌, length, take, drop};
ghost use Rattle.sha2.specs.Sha512.{sha512};
ghost use Rattle.dp_base.specs.Codes.{IsCode, code_of};
ghost use Rattle.dp_base.specs.declared.alg.Alg.{Alg};
ghost use Rattle.hmac_sha2.specs.Hmac.{hmac};
ghost use Rattle.kdf_ctr.specs.Kdf.{kdf};
ghost use Rattle.context_header.specs.Header.{context_header};
ghost use Rattle.dp_c.specs.declared.answer.TheConstants.{BAD_CODE, DONE, NO_ROOM, TOO_LONG};

use crate::answer::{BAD_CODE, DONE, TOO_LONG};
use crate::room::hand_out;
use context_header::header_of;
use dp_base::alg_of;
use hmac_sha2::HmacSha512;
use kdf_ctr::derive;

/// Fills `out` with the bytes that the key, the label, the context and their number determine (SP
/// 800-108, 4.1). It writes only where it is done.
#[unsafe(no_mangle)]
pub extern "C" fn dp_derive(key: &[u8], label: &[u8], context: &[u8], out: &mut [u8]) -> u32
    ensures done { result ≡ DONE
        → out.new ≡ kdf (hmac sha512 128) 64 key.now label.now context.now (length out.old) }
    ensures too_long { (result ≡ TOO_LONG) ↔ (1024 < length out.old) }
    ensures unchanged { result ≢ DONE → out.new ≡ out.old }
    ensures others { (result ≡ DONE) ⊎ (result ≡ TOO_LONG) }
{
    match derive::<HmacSha512>(key, label, context, out) {
        Ok(()) => DONE,
        Err(_) => TOO_LONG,
    }
}

/// Writes the context header of the algorithm into the front of `out`, and tells how many bytes it
/// wrote: 66 for the codes 1 to 3, 98 for 4 to 6, 34 for 7 to 9. It writes only where it is done.
#[unsafe(no_mangle)]
pub extern "C" fn dp_context_header(code: u8, out: &mut [u8], written: &mut usize) -> u32
    ensures done { (alg : Alg) → code_of alg ≡ code → result ≡ DONE
        → (written.new ≤ length out.new) × (take written.new out.new ≡ context_header alg) }
    ensures behind { result ≡ DONE → drop written.new out.new ≡ drop written.new out.old }
    ensures bad_code { (result ≡ BAD_CODE) ↔ ¬ (IsCode code) }
    ensures no_room { (alg : Alg) → code_of alg ≡ code
        → (result ≡ NO_ROOM) ↔ (length out.old < length (context_header alg)) }
    ensures unchanged { result ≢ DONE → (out.new ≡ out.old) × (written.new ≡ written.old) }
    ensures others { (result ≡ DONE) ⊎ (result ≡ BAD_CODE) ⊎ (result ≡ NO_ROOM) }
{
    match alg_of(code) {
        Some(alg) => hand_out(header_of(alg).bytes(), out, written),
        None => BAD_CODE,
    }
}

//! The caller's room, and limits on what a call takes.

ghost use Rattle.std.specs.Prelude.{◌≡◌, ◌⊎◌, ◌<◌, ◌≤◌, ◌↔◌, ◌^◌, length, take, drop, IsTrue};
ghost use Rattle.dp_c.specs.declared.answer.TheConstants.{DONE, NO_ROOM};

use crate::answer::{DONE, NO_ROOM};

// Copies the bytes to the front of the room.
pub fn hand_out(bytes: &[u8], out: &mut [u8], written: &mut usize) -> u32
    ensures done { (result ≡ DONE) ⊎ ((result ≡ NO_ROOM) × (length out.old < length bytes.now)) }
    ensures bytes { result ≡ DONE
        → (written.new ≤ length out.new) × (take written.new out.new ≡ bytes.now) }
    ensures behind { result ≡ DONE → drop written.new out.new ≡ drop written.new out.old }
    ensures unchanged { result ≡ NO_ROOM → (out.new ≡ out.old) × (written.new ≡ written.old) }
{
    if out.len() < bytes.len() {
        return NO_ROOM;
    }
    out[..bytes.len()].copy_from_slice(bytes);
    *written = bytes.len();
    DONE
}

// Whether there are too many bytes for a count of 32 bits.
pub fn is_long(bytes: &[u8]) -> bool
    ensures { IsTrue result ↔ (2 ^ 32 ≤ length bytes.now) }
{
    bytes.len() > 0xffff_ffff
}

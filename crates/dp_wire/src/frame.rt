//! Frames (docs/FORMATS.md, "Frames and requests").

ghost use Rattle.std.specs.Prelude.{◌≡◌, ◌<◌, ◌↔◌, ◌++◌, ℕ, List, ◌^◌, length, IfOk, IsOk, Err};
ghost use Rattle.std.specs.Int.{w32, from_be_bytes};
ghost use Rattle.dp_wire.specs.Frame.{frame, IsBodyLen};
ghost use Rattle.dp_wire.specs.declared.frame.FrameRefused.TheVariants as refused;

use thiserror::Error;

/// The most bytes of a request's body.
pub const MAX_BODY: u32 = 1_048_576;

const _: () = prove!(MAX_BODY == 1_048_576);

/// Why a length begins no request.
#[derive(Clone, Copy, Debug, PartialEq, Eq, Error)]
pub enum FrameRefused {
    /// It is 0.
    #[error("a frame has no body")]
    Zero,
    /// It is above `MAX_BODY`.
    #[error("a frame has a body of {len} bytes")]
    TooLarge { len: u32 },
}

/// The length of a request's body, by the first four bytes of its frame.
pub fn frame_len(head: &[u8; 4]) -> Result<u32, FrameRefused>
    ensures value { IfOk result (λ n. n ≡ from_be_bytes w32 head.now) }
    ensures ok { IsOk result ↔ IsBodyLen (from_be_bytes w32 head.now) }
    ensures zero { (result ≡ Err refused.Zero) ↔ (from_be_bytes w32 head.now ≡ 0) }
    ensures too_large { (n : ℕ) → (result ≡ Err (refused.TooLarge n))
        ↔ ((n ≡ from_be_bytes w32 head.now) × (MAX_BODY < n)) }
{
    let len = u32::from_be_bytes(*head);
    if len == 0 {
        return Err(FrameRefused::Zero);
    }
    if len > MAX_BODY {
        return Err(FrameRefused::TooLarge { len });
    }
    Ok(len)
}

/// No frame begins another: where one follows from the first byte, no other does.
pub fn no_frame_begins_another()
    ensures { (a b x y : List ℕ) → length a < 2 ^ 32 → length b < 2 ^ 32
        → frame a ++ x ≡ frame b ++ y → (a ≡ b) × (x ≡ y) }
{}

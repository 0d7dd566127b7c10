//! Padding to blocks of 16 bytes (RFC 5652, 6.3).

ghost use Rattle.std.specs.Prelude.{◌≡◌, IfOk, IfSome, IfNone};
ghost use Rattle.cbc_mode.specs.Pad.{pad, last_byte, IsPadded};

use std::alloc::{AllocError, Global};

// A padded copy of the text.
pub fn padded(alloc: Global, text: &[u8]) -> Result<Vec<u8>, AllocError>
    ensures { IfOk result (λ v. v.items ≡ pad text.now) }
{
    let count = 16 - (text.len() % 16) as u8;
    let whole = text.len() + usize::from(count);
    let mut copy = Vec::with_capacity(alloc, whole)?;
    copy.extend_from_slice(text)?;
    copy.resize(whole, count)?;
    Ok(copy)
}

// How many bytes of padding stand at the end, if the text is padded.
pub fn padding_len(text: &[u8]) -> Option<usize>
    ensures some { IfSome result (λ count. (count ≡ last_byte text.now) × IsPadded text.now) }
    ensures none { IfNone result (¬ (IsPadded text.now)) }
{
    let last = *text.last()?;
    let count = usize::from(last);
    if count == 0 || 16 < count || text.len() < count {
        return None;
    }
    let tail = &text[text.len() - count..];
    tail.iter().all(|byte| *byte == last).then_some(count)
}

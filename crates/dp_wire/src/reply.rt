//! Replies (docs/FORMATS.md, "Replies").

ghost use Rattle.std.specs.Prelude.{◌≡◌, ◌<◌, ◌^◌, ◌++◌, ◌∷◌, length, OnOk, OnErr};
ghost use Rattle.std.specs.Int.{w64, to_be_bytes};
ghost use Rattle.dp_wire.specs.declared.reply.Reply.TheVariants as replies;
ghost use Rattle.dp_wire.specs.Frame.{frame};
ghost use Rattle.dp_wire.specs.Replies.{flags, reply_body, reply_code, reply_fields};

use dp_base::{KeyId, Memory, be32, be64, guid_bytes};
use std::alloc::Global;

/// A reply. `front` is how many elements the list has that answers; after a new element it is the
/// element's place plus 1. `default_changed` says that the key isn't the default key.
#[derive(Clone, Copy, Debug, PartialEq, Eq)]
pub enum Reply<'a> {
    Ring {
        front: u64,
        listing: &'a str,
    },
    Rolled {
        front: u64,
        id: KeyId,
    },
    Revoked {
        front: u64,
    },
    RevokedBefore {
        front: u64,
    },
    Protected {
        front: u64,
        payload: &'a [u8],
    },
    ProtectedText {
        front: u64,
        text: &'a str,
    },
    ProtectedTimed {
        front: u64,
        payload: &'a [u8],
    },
    Unprotected {
        front: u64,
        revoked: bool,
        default_changed: bool,
        plain: &'a [u8],
    },
    UnprotectedText {
        front: u64,
        revoked: bool,
        default_changed: bool,
        text: &'a str,
    },
    UnprotectedTimed {
        front: u64,
        revoked: bool,
        default_changed: bool,
        expiry: u64,
        plain: &'a [u8],
    },
    /// The offset in the body of the first field that is wrong.
    BadRequest {
        place: u32,
    },
    NoMemory,
    StoreFault,
    DrawFault,
    /// How many elements were known, and how many the repository has.
    WentBack {
        had: u64,
        got: u64,
    },
    /// How many elements there are, and how many were asked for.
    Behind {
        have: u64,
        need: u64,
    },
    /// The first place at which two lists differ.
    Forked {
        at: u64,
    },
    Full {
        count: u64,
    },
    BadDates,
    BadHeader {
        front: u64,
    },
    BadVersion {
        front: u64,
    },
    KeyNotFound {
        front: u64,
        id: KeyId,
    },
    KeyRevoked {
        front: u64,
        id: KeyId,
    },
    KeyUnusable {
        front: u64,
        id: KeyId,
    },
    Tampered {
        front: u64,
    },
    Invalid {
        front: u64,
    },
    /// The moment of expiry.
    Expired {
        front: u64,
        at: u64,
    },
    NoDefaultKey {
        front: u64,
    },
    /// How many bytes were to be protected.
    TooLong {
        front: u64,
        len: u64,
    },
    /// The text is none that a payload is written in.
    BadText {
        front: u64,
    },
    /// The plaintext is no text.
    NotText {
        front: u64,
    },
}

// The first byte.
fn code_of(reply: &Reply<'_>) -> u8
    ensures { result ≡ reply_code reply.now }
{
    match reply {
        Reply::Ring { .. }
        | Reply::Rolled { .. }
        | Reply::Revoked { .. }
        | Reply::RevokedBefore { .. }
        | Reply::Protected { .. }
        | Reply::ProtectedText { .. }
        | Reply::ProtectedTimed { .. }
        | Reply::Unprotected { .. }
        | Reply::UnprotectedText { .. }
        | Reply::UnprotectedTimed { .. } => 0x00,
        Reply::BadRequest { .. } => 0x01,
        Reply::NoMemory => 0x02,
        Reply::StoreFault => 0x03,
        Reply::DrawFault => 0x04,
        Reply::WentBack { .. } => 0x05,
        Reply::Behind { .. } => 0x06,
        Reply::Forked { .. } => 0x07,
        Reply::Full { .. } => 0x08,
        Reply::BadDates => 0x09,
        Reply::BadHeader { .. } => 0x0a,
        Reply::BadVersion { .. } => 0x0b,
        Reply::KeyNotFound { .. } => 0x0c,
        Reply::KeyRevoked { .. } => 0x0d,
        Reply::KeyUnusable { .. } => 0x0e,
        Reply::Tampered { .. } => 0x0f,
        Reply::Invalid { .. } => 0x10,
        Reply::Expired { .. } => 0x11,
        Reply::NoDefaultKey { .. } => 0x12,
        Reply::TooLong { .. } => 0x13,
        Reply::BadText { .. } => 0x14,
        Reply::NotText { .. } => 0x15,
    }
}

fn flags(revoked: bool, default_changed: bool) -> u8
    ensures { result ≡ flags revoked default_changed }
{
    let first = if revoked { 1 } else { 0 };
    let second = if default_changed { 2 } else { 0 };
    first + second
}

// Adds a number.
fn put_number(number: u64, out: &mut Vec<u8>) -> Result<(), Memory>
    ensures { OnOk result (out.new.items ≡ out.old.items ++ to_be_bytes w64 number) }
{
    out.extend_from_slice(&be64(number))?;
    Ok(())
}

// Adds two numbers.
fn put_two(first: u64, second: u64, out: &mut Vec<u8>) -> Result<(), Memory>
    ensures { OnOk result (out.new.items
        ≡ out.old.items ++ (to_be_bytes w64 first ++ to_be_bytes w64 second)) }
{
    put_number(first, out)?;
    put_number(second, out)
}

// Adds a number and bytes.
fn put_with(number: u64, bytes: &[u8], out: &mut Vec<u8>) -> Result<(), Memory>
    ensures { OnOk result (out.new.items
        ≡ out.old.items ++ (to_be_bytes w64 number ++ bytes.now)) }
{
    put_number(number, out)?;
    out.extend_from_slice(bytes)?;
    Ok(())
}

// Adds a number, a byte and bytes.
fn put_opened(front: u64, flags: u8, bytes: &[u8], out: &mut Vec<u8>) -> Result<(), Memory>
    ensures { OnOk result (out.new.items
        ≡ out.old.items ++ (to_be_bytes w64 front ++ flags ∷ bytes.now)) }
{
    put_number(front, out)?;
    out.push(flags)?;
    out.extend_from_slice(bytes)?;
    Ok(())
}

// Adds a number, a byte, a number and bytes.
fn put_timed(
    front: u64,
    flags: u8,
    expiry: u64,
    bytes: &[u8],
    out: &mut Vec<u8>,
) -> Result<(), Memory>
    ensures { OnOk result (out.new.items ≡ out.old.items
        ++ (to_be_bytes w64 front ++ flags ∷ (to_be_bytes w64 expiry ++ bytes.now))) }
{
    put_number(front, out)?;
    out.push(flags)?;
    put_with(expiry, bytes, out)
}

// Adds what stands behind the code.
fn put_fields(reply: &Reply<'_>, out: &mut Vec<u8>) -> Result<(), Memory>
    ensures { OnOk result (out.new.items ≡ out.old.items ++ reply_fields reply.now) }
{
    match reply {
        Reply::NoMemory | Reply::StoreFault | Reply::DrawFault | Reply::BadDates => Ok(()),
        Reply::BadRequest { place } => {
            out.extend_from_slice(&be32(*place))?;
            Ok(())
        }
        Reply::Revoked { front: number }
        | Reply::RevokedBefore { front: number }
        | Reply::Forked { at: number }
        | Reply::Full { count: number }
        | Reply::BadHeader { front: number }
        | Reply::BadVersion { front: number }
        | Reply::Tampered { front: number }
        | Reply::Invalid { front: number }
        | Reply::NoDefaultKey { front: number }
        | Reply::BadText { front: number }
        | Reply::NotText { front: number } => put_number(*number, out),
        Reply::WentBack { had: a, got: b }
        | Reply::Behind { have: a, need: b }
        | Reply::Expired { front: a, at: b }
        | Reply::TooLong { front: a, len: b } => put_two(*a, *b, out),
        Reply::Rolled { front, id }
        | Reply::KeyNotFound { front, id }
        | Reply::KeyRevoked { front, id }
        | Reply::KeyUnusable { front, id } => put_with(*front, &guid_bytes(id), out),
        Reply::Ring {
            front,
            listing: text,
        }
        | Reply::ProtectedText { front, text } => { put_with(*front, text.as_bytes(), out) }
        Reply::Protected { front, payload } | Reply::ProtectedTimed { front, payload } => {
            put_with(*front, payload, out)
        }
        Reply::Unprotected {
            front,
            revoked,
            default_changed,
            plain,
        } => { put_opened(*front, flags(*revoked, *default_changed), plain, out) }
        Reply::UnprotectedText {
            front,
            revoked,
            default_changed,
            text,
        } => {
            put_opened(
                *front,
                flags(*revoked, *default_changed),
                text.as_bytes(),
                out,
            )
        }
        Reply::UnprotectedTimed {
            front,
            revoked,
            default_changed,
            expiry,
            plain,
        } => {
            put_timed(
                *front,
                flags(*revoked, *default_changed),
                *expiry,
                plain,
                out,
            )
        }
    }
}

/// Adds the frame of a reply. Where no memory is found, nothing is added.
#[tactic(auto, unfolding(crate::specs::Frame::frame, crate::specs::Replies::reply_body))]
pub fn put_reply(alloc: Global, reply: &Reply<'_>, out: &mut Vec<u8>) -> Result<(), Memory>
    requires { length (reply_body reply.now) < 2 ^ 32 }
    ensures ok { OnOk result (out.new.items ≡ out.old.items ++ frame (reply_body reply.now)) }
    ensures err { OnErr result (out.new.items ≡ out.old.items) }
{
    let mut body = Vec::new(alloc);
    body.push(code_of(reply))?;
    put_fields(reply, &mut body)?;
    let mut framed = Vec::new(alloc);
    framed.extend_from_slice(&be32(body.len() as u32))?;
    framed.extend_from_slice(body.as_slice())?;
    out.extend_from_slice(framed.as_slice())?;
    Ok(())
}

/// The frame of the reply that no memory was found. It takes none.
#[tactic(auto, unfolding(crate::specs::Frame::frame, crate::specs::Replies::reply_body))]
pub fn no_memory_frame() -> [u8; 5]
    ensures { result ≡ frame (reply_body replies.NoMemory) }
{
    [0, 0, 0, 1, 2]
}

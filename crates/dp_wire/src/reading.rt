//! Reading the fields of a request's body.

ghost use Rattle.std.specs.Prelude.{◌≡◌, ◌≤◌, length, IfOk};
ghost use Rattle.dp_base.specs.Readers.{seen};
ghost use Rattle.dp_wire.specs.Request.{request_of};
ghost use Rattle.dp_wire.specs.Chains.{chain_of};
ghost use Rattle.dp_wire.specs.Reading.{wrong, bytes_at, number_at, code_at, text_at, count_at, purpose_at, purposes_at, chain_at, flag_at, whole_text_at, ends};

use crate::chain::{ChainView, MAX_WIRE_CHAIN, MAX_WIRE_PURPOSES};
use crate::purposes::purpose_front;
use crate::request::{BadRequest, RequestView};
use dp_base::{take_be32, take_be64};
use key_elements::read_reason;

// The field that begins where these bytes of a body of the length are left is wrong.
fn wrong(len: u32, rest: &[u8]) -> BadRequest
    ensures { result ≡ wrong len rest.now }
{
    BadRequest {
        place: (len as usize).saturating_sub(rest.len()) as u32,
    }
}

/// A field of N bytes, and the rest.
pub fn bytes_at<const N: usize>(len: u32, rest: &[u8]) -> Result<([u8; N], &[u8]), BadRequest>
    ensures { seen (λ x. (x.0, x.1.now)) result ≡ bytes_at len N rest.now }
{
    if rest.len() < N {
        return Err(wrong(len, rest));
    }
    let (front, rest) = rest.split_at(N);
    let mut bytes = [0; N];
    bytes.copy_from_slice(front);
    Ok((bytes, rest))
}

/// A number of eight bytes, and the rest.
#[tactic(auto, unfolding(crate::specs::Reading::number_at))]
pub fn number_at(len: u32, rest: &[u8]) -> Result<(u64, &[u8]), BadRequest>
    ensures { seen (λ x. (x.0, x.1.now)) result ≡ number_at len rest.now }
{
    match take_be64(rest) {
        Some(number) => Ok((number, &rest[8..])),
        None => Err(wrong(len, rest)),
    }
}

/// A code of an algorithm, and the rest.
#[tactic(auto, unfolding(crate::specs::Reading::code_at))]
pub fn code_at(len: u32, rest: &[u8]) -> Result<(u8, &[u8]), BadRequest>
    ensures { seen (λ x. (x.0, x.1.now)) result ≡ code_at len rest.now }
{
    match rest {
        [code, rest @ ..] if 1 <= *code && *code <= 9 => Ok((*code, rest)),
        _ => Err(wrong(len, rest)),
    }
}

/// The text of a reason, and the rest.
#[tactic(auto, unfolding(crate::specs::Reading::text_at))]
pub fn text_at(len: u32, rest: &[u8]) -> Result<(&str, &[u8]), BadRequest>
    ensures { seen (λ x. (x.0.now, x.1.now)) result ≡ text_at len rest.now }
{
    match read_reason(rest) {
        Ok(found) => Ok(found),
        Err(_) => Err(wrong(len, rest)),
    }
}

// The number of purposes of a chain, and the rest.
#[tactic(auto, unfolding(crate::specs::Reading::count_at))]
fn count_at(len: u32, rest: &[u8]) -> Result<(u32, &[u8]), BadRequest>
    ensures { seen (λ x. (x.0, x.1.now)) result ≡ count_at len rest.now }
{
    match take_be32(rest) {
        Some(count) if 1 <= count && count <= MAX_WIRE_PURPOSES => Ok((count, &rest[4..])),
        _ => Err(wrong(len, rest)),
    }
}

// A purpose of a chain that has room for so many bytes more, and the rest.
#[tactic(auto, unfolding(crate::specs::Reading::purpose_at))]
fn purpose_at(len: u32, room: usize, rest: &[u8]) -> Result<(&str, &[u8]), BadRequest>
    ensures told { seen (λ x. (x.0.now, x.1.now)) result ≡ purpose_at len room rest.now }
    ensures fits { IfOk result (λ x. length x.0.now ≤ room) }
{
    match purpose_front(rest) {
        Some((purpose, after)) if purpose.len() <= room => Ok((purpose, after)),
        _ => Err(wrong(len, rest)),
    }
}

// What follows so many purposes.
fn purposes_at(len: u32, count: u32, rest: &[u8]) -> Result<&[u8], BadRequest>
    ensures { seen (λ x. x.now) result
        ≡ seen (λ x. x.1) (purposes_at len MAX_WIRE_CHAIN count rest.now) }
{
    let mut room = MAX_WIRE_CHAIN;
    let mut left = count;
    let mut after = rest;
    while left > 0 {
        let (purpose, rest) = purpose_at(len, room, after)?;
        room -= purpose.len();
        left -= 1;
        after = rest;
    }
    Ok(after)
}

/// A chain, and the rest.
#[tactic(auto, unfolding(crate::specs::Reading::chain_at))]
pub fn chain_at<'a>(len: u32, rest: &'a [u8]) -> Result<(ChainView<'a>, &'a [u8]), BadRequest>
    ensures { seen (λ x. (chain_of x.0.bytes.now, x.1.now)) result ≡ chain_at len rest.now }
{
    let (count, purposes) = count_at(len, rest)?;
    let after = purposes_at(len, count, purposes)?;
    let chain = ChainView::new(&rest[..rest.len() - after.len()]);
    Ok((chain, after))
}

/// Whether revoked keys are allowed, and the rest.
#[tactic(auto, unfolding(crate::specs::Reading::flag_at))]
pub fn flag_at(len: u32, rest: &[u8]) -> Result<(bool, &[u8]), BadRequest>
    ensures { seen (λ x. (x.0, x.1.now)) result ≡ flag_at len rest.now }
{
    match rest {
        [0, rest @ ..] => Ok((false, rest)),
        [1, rest @ ..] => Ok((true, rest)),
        _ => Err(wrong(len, rest)),
    }
}

/// All that is left, which is a text.
#[tactic(auto, unfolding(crate::specs::Reading::whole_text_at))]
pub fn whole_text_at(len: u32, rest: &[u8]) -> Result<&str, BadRequest>
    ensures { seen (λ x. x.now) result ≡ whole_text_at len rest.now }
{
    match str::from_utf8(rest) {
        Ok(text) => Ok(text),
        Err(_) => Err(wrong(len, rest)),
    }
}

/// The request, where nothing follows.
#[tactic(auto, unfolding(crate::specs::Reading::ends))]
pub fn ends<'a>(len: u32, view: RequestView<'a>, rest: &[u8]) -> Result<RequestView<'a>, BadRequest>
    ensures { seen request_of result ≡ ends len (request_of view.entry) rest.now }
{
    match rest {
        [] => Ok(view),
        _ => Err(wrong(len, rest)),
    }
}

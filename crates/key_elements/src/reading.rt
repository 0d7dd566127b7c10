//! Reading records (docs/FORMATS.md, "Element records").

ghost use Rattle.std.specs.Prelude.{◌≡◌, ◌≢◌, ◌≤◌, ◌++◌, ℕ, List, length, slice_index, take, drop, IfOk, IfErr, MatchResult, Ok, Err};
ghost use Rattle.dp_base.specs.Readers.{seen};
ghost use Rattle.key_elements.specs.declared.element.Element.{Element};
ghost use Rattle.key_elements.specs.declared.refused.ElementRefused.TheVariants as elements;
ghost use Rattle.key_elements.specs.declared.refused.ListRefused.TheVariants as lists;
ghost use Rattle.key_elements.specs.Record.{IsElement, IsRecord, IsList, record_of};
ghost use Rattle.key_elements.specs.Reading.{bytes_at, date_at, length_at, reason_at, key_at, revocation_at, mass_revocation_at, element_at};
ghost use Rattle.key_elements.specs.Refusals.{Explains, Answers, refused_at};

use crate::element::{Element, KeyRecord};
use crate::list::{ElementList, MAX_ELEMENTS};
use crate::reason::{MAX_REASON, Reason, TooLong};
use crate::refused::{ElementRefused, ListRefused};
use dp_base::{MAX_TICKS, SevenBit, key_id_from_guid, take_7bit, take_be64};
use std::alloc::Global;
use std::sync::Arc;

// The n bytes at the front, and the rest.
fn bytes_at(n: usize, bytes: &[u8]) -> Result<(&[u8], &[u8]), ElementRefused>
    ensures { seen (λ x. (x.0.now, x.1.now)) result ≡ bytes_at n bytes.now }
{
    if bytes.len() < n {
        return Err(ElementRefused::Cut);
    }
    Ok(bytes.split_at(n))
}

// A field of N bytes, and the rest.
fn field_at<const N: usize>(bytes: &[u8]) -> Result<([u8; N], &[u8]), ElementRefused>
    ensures { seen (λ x. (x.0, x.1.now)) result ≡ bytes_at N bytes.now }
{
    if bytes.len() < N {
        return Err(ElementRefused::Cut);
    }
    let (front, rest) = bytes.split_at(N);
    let mut field = [0; N];
    field.copy_from_slice(front);
    Ok((field, rest))
}

#[tactic(auto, unfolding(crate::specs::Reading::date_at))]
fn date_at(bytes: &[u8]) -> Result<(u64, &[u8]), ElementRefused>
    ensures { seen (λ x. (x.0, x.1.now)) result ≡ date_at bytes.now }
{
    let date = match take_be64(bytes) {
        Some(date) => date,
        None => return Err(ElementRefused::Cut),
    };
    if date > MAX_TICKS {
        return Err(ElementRefused::BadDate);
    }
    Ok((date, &bytes[8..]))
}

// The length of a reason, and the rest.
#[tactic(auto, unfolding(crate::specs::Reading::length_at))]
fn length_at(bytes: &[u8]) -> Result<(usize, &[u8]), ElementRefused>
    ensures { seen (λ x. (x.0, x.1.now)) result ≡ length_at bytes.now }
{
    let (len, count) = match take_7bit(bytes) {
        Ok(found) => found,
        Err(SevenBit::Cut) => return Err(ElementRefused::Cut),
        Err(SevenBit::Overlong) => return Err(ElementRefused::BadReason),
    };
    if len as usize > MAX_REASON {
        return Err(ElementRefused::BadReason);
    }
    Ok((len as usize, &bytes[count..]))
}

/// Reads the text of a reason at the front, its length before it, and answers the rest too. No byte
/// is copied.
#[tactic(auto, unfolding(crate::specs::Reading::reason_at))]
pub fn read_reason(bytes: &[u8]) -> Result<(&str, &[u8]), ElementRefused>
    ensures { seen (λ x. (x.0.now, x.1.now)) result ≡ reason_at bytes.now }
{
    let (len, rest) = length_at(bytes)?;
    let (text, rest) = bytes_at(len, rest)?;
    match str::from_utf8(text) {
        Ok(text) => Ok((text, rest)),
        Err(_) => Err(ElementRefused::BadReason),
    }
}

// A reason, and the rest.
fn reason_at(alloc: Global, bytes: &[u8]) -> Result<(Reason, &[u8]), ElementRefused>
    ensures { Answers (λ x. (x.0, x.1.now)) result (reason_at bytes.now) }
{
    let (text, rest) = read_reason(bytes)?;
    match Reason::new(alloc, text) {
        Ok(reason) => Ok((reason, rest)),
        Err(TooLong::TooLong) => Err(ElementRefused::BadReason),
        Err(TooLong::Memory) => Err(ElementRefused::Memory),
    }
}

// The fields behind the kind of a key.
#[tactic(auto, unfolding(crate::specs::Reading::key_at))]
fn key_at(bytes: &[u8]) -> Result<(KeyRecord, &[u8]), ElementRefused>
    ensures { seen (λ x. (x.0, x.1.now)) result ≡ key_at bytes.now }
{
    let (id, rest) = field_at::<16>(bytes)?;
    let (creation, rest) = date_at(rest)?;
    let (activation, rest) = date_at(rest)?;
    let (expiration, rest) = date_at(rest)?;
    let ([alg], rest) = field_at::<1>(rest)?;
    let (material, rest) = field_at::<64>(rest)?;
    let key = KeyRecord {
        id: key_id_from_guid(&id),
        creation,
        activation,
        expiration,
        alg,
        material,
    };
    Ok((key, rest))
}

// The fields behind the kind of a key's revocation.
#[tactic(auto, unfolding(crate::specs::Reading::revocation_at))]
fn revocation_at(alloc: Global, bytes: &[u8]) -> Result<(Element, &[u8]), ElementRefused>
    ensures { Answers (λ x. (x.0, x.1.now)) result (revocation_at bytes.now) }
{
    let (id, rest) = field_at::<16>(bytes)?;
    let (date, rest) = date_at(rest)?;
    let (reason, rest) = reason_at(alloc, rest)?;
    let id = key_id_from_guid(&id);
    Ok((Element::RevokeKey { id, date, reason }, rest))
}

// The fields behind the kind of a mass revocation.
#[tactic(auto, unfolding(crate::specs::Reading::mass_revocation_at))]
fn mass_revocation_at(alloc: Global, bytes: &[u8]) -> Result<(Element, &[u8]), ElementRefused>
    ensures { Answers (λ x. (x.0, x.1.now)) result (mass_revocation_at bytes.now) }
{
    let (date, rest) = date_at(bytes)?;
    let (reason, rest) = reason_at(alloc, rest)?;
    Ok((Element::RevokeBefore { date, reason }, rest))
}

// The element at the front, and the bytes after its record.
#[tactic(auto, unfolding(crate::specs::Reading::element_at))]
fn element_at(alloc: Global, bytes: &[u8]) -> Result<(Element, &[u8]), ElementRefused>
    ensures answers { Answers (λ x. (x.0, x.1.now)) result (element_at bytes.now) }
    ensures key { slice_index bytes.now 0 ≡ 1 → result ≢ Err elements.Memory }
{
    match bytes {
        [] => Err(ElementRefused::Cut),
        [1, rest @ ..] => {
            let (key, rest) = key_at(rest)?;
            Ok((Element::Key(key), rest))
        }
        [2, rest @ ..] => revocation_at(alloc, rest),
        [3, rest @ ..] => mass_revocation_at(alloc, rest),
        [_, ..] => Err(ElementRefused::UnknownKind),
    }
}

/// Reads the element at the front, and answers the length of its record in bytes. Bytes may follow
/// the record.
pub fn read_element(alloc: Global, bytes: &[u8]) -> Result<(Element, usize), ElementRefused>
    ensures found { IfOk result (λ r.
        (r.1 ≤ length bytes.now) × IsRecord (take r.1 bytes.now) r.0) }

    // A record at the front is read, unless there is no memory for its reason. A key has none.
    ensures only { (e : Element) (n : ℕ) → n ≤ length bytes.now → IsRecord (take n bytes.now) e
        → MatchResult result (λ r. r ≡ (e, n)) (λ refused. refused ≡ elements.Memory) }
    ensures key { slice_index bytes.now 0 ≡ 1 → result ≢ Err elements.Memory }

    // Else the first field that is wrong decides.
    ensures exact { Answers (λ r. (r.0, drop r.1 bytes.now)) result (element_at bytes.now) }
{
    let (element, rest) = element_at(alloc, bytes)?;
    Ok((element, bytes.len() - rest.len()))
}

// What is told of a list where the element that begins at the place is refused.
fn refused_at(place: u64, why: ElementRefused) -> ListRefused
    ensures { result ≡ refused_at place why }
{
    match why {
        ElementRefused::Memory => ListRefused::Memory,
        ElementRefused::Cut
        | ElementRefused::UnknownKind
        | ElementRefused::BadDate
        | ElementRefused::BadReason => ListRefused::At { place, why },
    }
}

/// Reads a list of elements: records one after the other, with nothing before, between or after
/// them.
pub fn read_list(alloc: Global, bytes: &[u8]) -> Result<ElementList, ListRefused>
    ensures found { IfOk result (λ list. IsList bytes.now list) }

    // A list is read, unless there is no memory for it.
    ensures only { (es : List Element) → IsList bytes.now es
        → MatchResult result (λ list. list ≡ es) (λ refused. refused ≡ lists.Memory) }
    ensures refused { IfErr result (Explains bytes.now) }
{
    let mut items = Vec::new(alloc);
    let mut at = 0;
    while at < bytes.len() {
        let place = at as u64;
        if items.len() as u64 == MAX_ELEMENTS {
            return Err(ListRefused::TooMany { place });
        }
        match read_element(alloc, &bytes[at..]) {
            Ok((element, len)) => {
                items.push(Arc::new(alloc, element)?)?;
                at += len;
            }
            Err(why) => return Err(refused_at(place, why)),
        }
    }
    Ok(ElementList::of(alloc, items)?)
}

/// No record begins another: where one follows from the first byte, no other does.
pub fn no_record_begins_another()
    ensures { (a b : Element) (x y : List ℕ) → IsElement a → IsElement b
        → record_of a ++ x ≡ record_of b ++ y → (a ≡ b) × (x ≡ y) }
{}

//! Writing records (docs/FORMATS.md, "Element records").

ghost use Rattle.std.specs.Prelude.{◌≡◌, ◌++◌, List, OnOk, OnErr};
ghost use Rattle.key_elements.specs.Record.{date, key_fields, reason_field, record_of, IsElement, Adds};

use crate::element::{Element, KeyRecord};
use crate::reason::Reason;
use dp_base::{Memory, be64, guid_bytes, put_7bit};
use std::alloc::Global;

// Adds a reason.
#[tactic(auto, unfolding(crate::specs::Record::reason_field))]
fn put_reason(reason: &Reason, out: &mut Vec<u8>) -> Result<(), Memory>
    ensures { OnOk result (out.new.items ≡ out.old.items ++ reason_field reason.now) }
{
    let text = reason.as_str();
    put_7bit(text.len() as u32, out)?;
    out.extend_from_slice(text.as_bytes())?;
    Ok(())
}

// Adds the fields behind the kind of a key.
#[tactic(auto, unfolding(crate::specs::Record::key_fields))]
fn put_key(key: &KeyRecord, out: &mut Vec<u8>) -> Result<(), Memory>
    ensures { OnOk result (out.new.items ≡ out.old.items ++ key_fields key.now) }
{
    out.extend_from_slice(&guid_bytes(&key.id))?;
    out.extend_from_slice(&be64(key.creation))?;
    out.extend_from_slice(&be64(key.activation))?;
    out.extend_from_slice(&be64(key.expiration))?;
    out.push(key.alg)?;
    out.extend_from_slice(&key.material)?;
    Ok(())
}

// Adds a whole record.
fn put_record(e: &Element, out: &mut Vec<u8>) -> Result<(), Memory>
    ensures { OnOk result (out.new.items ≡ out.old.items ++ record_of e.now) }
{
    match e {
        Element::Key(key) => {
            out.push(1)?;
            put_key(key, out)
        }
        Element::RevokeKey { id, date, reason } => {
            out.push(2)?;
            out.extend_from_slice(&guid_bytes(id))?;
            out.extend_from_slice(&be64(*date))?;
            put_reason(reason, out)
        }
        Element::RevokeBefore { date, reason } => {
            out.push(3)?;
            out.extend_from_slice(&be64(*date))?;
            put_reason(reason, out)
        }
    }
}

/// Adds the record of the element. Where no memory is found, nothing is added.
///
/// An element with a date above the greatest has no record: its bytes are added and can't be read.
pub fn encode(alloc: Global, e: &Element, out: &mut Vec<u8>) -> Result<(), Memory>
    ensures ok { OnOk result (out.new.items ≡ out.old.items ++ record_of e.now) }
    ensures record { IsElement e.now → OnOk result (Adds out.old.items out.new.items e.now) }
    ensures err { OnErr result (out.new.items ≡ out.old.items) }
{
    let mut record = Vec::new(alloc);
    put_record(e, &mut record)?;
    out.extend_from_slice(record.as_slice())?;
    Ok(())
}

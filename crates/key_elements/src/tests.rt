use super::*;
use dp_base::{Grows, KeyId};
use std::alloc::Global;
use std::test::Fail;

// A day number of the samples, in ticks.
fn day(n: u64) -> u64 {
    638_000_000_000_000_000u64.saturating_add(n.saturating_mul(864_000_000_000))
}

const K1: KeyId = KeyId(0x0c81_9c80_6619_4019_9536_53f8_aaff_ee57);

// The id 00000000-0000-4000-8000-00000000000b.
const B: KeyId = KeyId(0x4000_8000_0000_0000_000b);

fn key() -> Element {
    Element::Key(KeyRecord {
        id: K1,
        creation: day(0),
        activation: day(0),
        expiration: day(90),
        alg: 3,
        material: [0; 64],
    })
}

fn revocation(alloc: Global, text: &str) -> Result<Element, Fail> {
    Ok(Element::RevokeKey {
        id: B,
        date: day(100),
        reason: Reason::new(alloc, text)?,
    })
}

fn mass_revocation(alloc: Global) -> Result<Element, Fail> {
    Ok(Element::RevokeBefore {
        date: day(50),
        reason: Reason::new(alloc, "leak")?,
    })
}

// docs/FORMATS.md, "Element records": the record of one key, without its material of 64 zero bytes.
const KEY_HEAD: [u8; 42] = [
    0x01, 0x80, 0x9c, 0x81, 0x0c, 0x19, 0x66, 0x19, 0x40, 0x95, 0x36, 0x53, 0xf8, 0xaa, 0xff, 0xee,
    0x57, 0x08, 0xda, 0xa1, 0x9e, 0xa6, 0xb3, 0x00, 0x00, 0x08, 0xda, 0xa1, 0x9e, 0xa6, 0xb3, 0x00,
    0x00, 0x08, 0xda, 0xe8, 0x57, 0x8f, 0xe0, 0x80, 0x00, 0x03,
];

const REVOCATION: [u8; 37] = [
    0x02, 0x00, 0x00, 0x00, 0x00, 0x00, 0x00, 0x00, 0x40, 0x80, 0x00, 0x00, 0x00, 0x00, 0x00, 0x00,
    0x0b, 0x08, 0xda, 0xf0, 0x33, 0x38, 0x02, 0x00, 0x00, 0x0b, 0x6c, 0x6f, 0x73, 0x74, 0x20, 0x6c,
    0x61, 0x70, 0x74, 0x6f, 0x70,
];

fn key_record(alloc: Global) -> Result<Vec<u8>, Fail> {
    let mut bytes = KEY_HEAD.to_vec(alloc)?;
    bytes.extend_from_slice(&[0; 64])?;
    Ok(bytes)
}

// docs/FORMATS.md, "Element records".
#[test]
fn records(rt: HostRuntime) -> Result<(), Fail> {
    let alloc = rt.alloc();
    let table = [
        (key(), key_record(alloc)?),
        (revocation(alloc, "lost laptop")?, REVOCATION.to_vec(alloc)?),
    ];
    for (element, bytes) in table {
        let mut out = Vec::new(alloc);
        encode(alloc, &element, &mut out)?;
        assert_eq!(rt; out.as_slice(), bytes.as_slice());
        out.push(0xff)?;
        let (read, len) = read_element(alloc, out.as_slice())?;
        assert!(rt; read == element);
        assert_eq!(rt; len, bytes.len());
    }
    let mut out = Vec::new(alloc);
    encode(alloc, &mass_revocation(alloc)?, &mut out)?;
    assert_eq!(rt; out.len(), 14);
    Ok(())
}

// The greatest record has a reason of 1,024 bytes, of which `e9` is no text by itself.
#[test]
fn reasons(rt: HostRuntime) -> Result<(), Fail> {
    let alloc = rt.alloc();
    let mut text = String::new(alloc);
    for _ in 0..512u32 {
        text.push_str("\u{e9}")?;
    }
    let mut out = Vec::new(alloc);
    encode(alloc, &revocation(alloc, text.as_str())?, &mut out)?;
    assert_eq!(rt; out.len(), MAX_RECORD);
    assert!(rt; read_element(alloc, out.as_slice()).is_ok());
    text.push_str("!")?;
    assert!(rt; Reason::new(alloc, text.as_str()).err() == Some(TooLong::TooLong));
    Ok(())
}

// The byte that is changed at a place of a record, and what is then told.
#[test]
fn refusals(rt: HostRuntime) -> Result<(), Fail> {
    let alloc = rt.alloc();
    let keys = [
        (0, 0x00, ElementRefused::UnknownKind),
        (0, 0x04, ElementRefused::UnknownKind),
        (17, 0x80, ElementRefused::BadDate),
        (25, 0x80, ElementRefused::BadDate),
        (33, 0x80, ElementRefused::BadDate),
    ];
    for (place, byte, why) in keys {
        let mut bytes = key_record(alloc)?;
        assert_eq!(rt; bytes.len(), 106);
        bytes[place] = byte;
        assert!(rt;
            read_element(alloc, bytes.as_slice()).err() == Some(why),
            "byte {place}"
        );
    }
    let revocations = [
        (0, 0x01, ElementRefused::Cut),
        (17, 0x80, ElementRefused::BadDate),
        (25, 0x0c, ElementRefused::Cut),
        (25, 0x80, ElementRefused::BadReason),
        (26, 0xe9, ElementRefused::BadReason),
    ];
    for (place, byte, why) in revocations {
        let mut bytes = REVOCATION;
        bytes[place] = byte;
        assert!(rt;
            read_element(alloc, &bytes).err() == Some(why),
            "byte {place}"
        );
    }
    for len in [0, 1, 16, 17, 24, 25, 36] {
        assert!(rt;
            read_element(alloc, &REVOCATION[..len]).err() == Some(ElementRefused::Cut),
            "{len} bytes"
        );
    }
    Ok(())
}

// A length of two bytes that is too great, one that isn't in its shortest form, and one that is cut.
#[test]
fn lengths(rt: HostRuntime) -> Result<(), Fail> {
    let alloc = rt.alloc();
    let table: [(&[u8], ElementRefused); 4] = [
        (&[0x81, 0x08], ElementRefused::BadReason),
        (&[0x80, 0x00], ElementRefused::BadReason),
        (&[0x80], ElementRefused::Cut),
        (&[0x80, 0x08], ElementRefused::Cut),
    ];
    for (len, why) in table {
        let mut bytes = Vec::new(alloc);
        bytes.extend_from_slice(&[3, 0, 0, 0, 0, 0, 0, 0, 0])?;
        bytes.extend_from_slice(len)?;
        assert!(rt;
            read_element(alloc, bytes.as_slice()).err() == Some(why),
            "{len:?}"
        );
    }
    Ok(())
}

// A second record is cut, and one element too many.
#[test]
fn places(rt: HostRuntime) -> Result<(), Fail> {
    let alloc = rt.alloc();
    let mut bytes = key_record(alloc)?;
    bytes.push(1)?;
    let refused = ListRefused::At {
        place: 106,
        why: ElementRefused::Cut,
    };
    assert!(rt; read_list(alloc, bytes.as_slice()).err() == Some(refused));
    let mut most = Vec::new(alloc);
    for _ in 0..16_384u32 {
        most.extend_from_slice(&REVOCATION)?;
    }
    let list = read_list(alloc, most.as_slice())?;
    assert_eq!(rt; list.len(), 16_384);
    most.push(1)?;
    let refused = ListRefused::TooMany { place: 606_208 };
    assert!(rt; read_list(alloc, most.as_slice()).err() == Some(refused));
    let refused = with_one(alloc, &list, &REVOCATION).err();
    assert!(rt; refused == Some(TooMany::TooMany));
    Ok(())
}

// The list with the element of a record behind it.
fn with_one(alloc: Global, list: &ElementList, bytes: &[u8]) -> Result<ElementList, TooMany> {
    let mut tail = Vec::new(alloc);
    if let Ok((element, _)) = read_element(alloc, bytes) {
        tail.push(element)?;
    }
    list.extended(alloc, tail)
}

// Lists that share their first element and then differ.
#[test]
fn lists(rt: HostRuntime) -> Result<(), Fail> {
    let alloc = rt.alloc();
    let empty = ElementList::empty();
    assert!(rt; empty.is_empty() && empty.share()?.is_empty());
    let bytes = key_record(alloc)?;
    let one = with_one(alloc, &empty, bytes.as_slice())?;
    let left = with_one(alloc, &one.share()?, &REVOCATION)?;
    let right = with_one(alloc, &one, bytes.as_slice())?;
    assert_eq!(rt; (one.len(), left.len(), right.len()), (1, 2, 2));
    assert!(rt; left.get(0) == Some(&key()) && right.get(1) == Some(&key()));
    assert!(rt; left.get(1) == Some(&revocation(alloc, "lost laptop")?));
    assert!(rt; left.get(2).is_none());
    assert_eq!(rt; left.first_difference(&one), None);
    assert_eq!(rt; left.first_difference(&right), Some(1));
    Ok(())
}

#[test]
fn phrases(rt: HostRuntime) -> Result<(), Fail> {
    let alloc = rt.alloc();
    let elements = [
        (ElementRefused::Cut, "the input ends in an element"),
        (
            ElementRefused::UnknownKind,
            "an element is of no known kind",
        ),
        (ElementRefused::BadDate, "a date is above the greatest"),
        (ElementRefused::BadReason, "a reason is too long or no text"),
        (ElementRefused::Memory, "no memory"),
    ];
    for (why, phrase) in elements {
        assert_eq!(rt; format!(in alloc; "{why}")?.as_str(), phrase);
    }
    let why = ElementRefused::Cut;
    let lists = [
        (
            ListRefused::At { place: 7, why },
            "at byte 7: the input ends in an element",
        ),
        (
            ListRefused::TooMany { place: 7 },
            "at byte 7: a list has too many elements",
        ),
        (ListRefused::Memory, "no memory"),
    ];
    for (refused, phrase) in lists {
        assert_eq!(rt; format!(in alloc; "{refused}")?.as_str(), phrase);
    }
    let long = [
        (TooLong::TooLong, "a reason is too long"),
        (TooLong::Memory, "no memory"),
    ];
    for (refused, phrase) in long {
        assert_eq!(rt; format!(in alloc; "{refused}")?.as_str(), phrase);
    }
    let many = [
        (TooMany::TooMany, "a list has too many elements"),
        (TooMany::Memory, "no memory"),
    ];
    for (refused, phrase) in many {
        assert_eq!(rt; format!(in alloc; "{refused}")?.as_str(), phrase);
    }
    Ok(())
}

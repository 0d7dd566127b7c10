use super::*;
use default_key::Options;
use dp_base::{Grows, KeyId, LAST};
use key_elements::{Element, KeyRecord, Reason, encode, read_list};
use std::alloc::Global;
use std::test::Fail;

// A day number of the samples, in ticks.
fn day(n: u64) -> u64 {
    638_000_000_000_000_000u64.saturating_add(n.saturating_mul(864_000_000_000))
}

// The ids 00000000-0000-4000-8000-00000000000a to c.
const A: KeyId = KeyId(0x4000_8000_0000_0000_000a);

const B: KeyId = KeyId(0x4000_8000_0000_0000_000b);

const C: KeyId = KeyId(0x4000_8000_0000_0000_000c);

// An element in short: a key that is made, activated and expires on these days under a code, and
// revocations by an id and by a date alone.
#[derive(Clone, Copy)]
enum Row {
    Key(KeyId, [u64; 3], u8),
    Revoked(KeyId, u64),
    RevokedBefore(u64),
}

// A key with a material of zeros.
fn key(id: KeyId, days: [u64; 3], alg: u8) -> Element {
    let [creation, activation, expiration] = days;
    Element::Key(KeyRecord {
        id,
        creation: day(creation),
        activation: day(activation),
        expiration: day(expiration),
        alg,
        material: [0; 64],
    })
}

fn element(alloc: Global, row: Row) -> Result<Element, Fail> {
    match row {
        Row::Key(id, days, alg) => Ok(key(id, days, alg)),
        Row::Revoked(id, date) => {
            let reason = Reason::new(alloc, "lost laptop")?;
            Ok(Element::RevokeKey { id, date, reason })
        }
        Row::RevokedBefore(date) => {
            let reason = Reason::new(alloc, "")?;
            Ok(Element::RevokeBefore { date, reason })
        }
    }
}

fn bytes_of(alloc: Global, rows: &[Row]) -> Result<Vec<u8>, Fail> {
    let mut bytes = Vec::new(alloc);
    for row in rows {
        encode(alloc, &element(alloc, *row)?, &mut bytes)?;
    }
    Ok(bytes)
}

fn ring_of(alloc: Global, rows: &[Row], now: u64) -> Result<Ring, Fail> {
    let list = read_list(alloc, bytes_of(alloc, rows)?.as_slice())?;
    Ok(Ring::of(alloc, list, now.min(LAST), 0, &Options::default())?)
}

// The preferred key, the one that protects, and whether a new one is wanted.
fn choice(ring: &Ring) -> (Option<KeyId>, Option<KeyId>, bool) {
    (ring.preferred_id(), ring.default_id(), ring.renew())
}

// docs/FORMATS.md, "Listing": of two keys that are activated together the smaller id is preferred; a
// key of a mass revocation's own date stays; and the fallback.
#[test]
fn choices(rt: HostRuntime) -> Result<(), Fail> {
    let a = Row::Key(A, [0, 0, 90], 3);
    let b = Row::Key(B, [0, 0, 90], 3);
    let later = Row::Key(B, [1, 10, 100], 3);
    let after = day(0).saturating_add(1);
    let table = [
        ([b, a, a], day(0), (Some(A), Some(A), false)),
        (
            [a, a, Row::RevokedBefore(day(0))],
            day(0),
            (Some(A), Some(A), false),
        ),
        (
            [a, a, Row::RevokedBefore(after)],
            day(0),
            (None, None, true),
        ),
        (
            [a, later, Row::Revoked(B, day(10))],
            day(10),
            (None, Some(A), true),
        ),
    ];
    for (rows, now, chosen) in table {
        let ring = ring_of(rt.alloc(), &rows, now)?;
        assert_eq!(rt; choice(&ring), chosen);
    }
    Ok(())
}

// Whether the key of an id is revoked, usable and the one that protects.
fn found(ring: &Ring, id: KeyId) -> Option<[bool; 3]> {
    let state = ring.lookup(&id)?;
    Some([state.revoked, state.usable, state.is_default])
}

#[test]
fn lookups(rt: HostRuntime) -> Result<(), Fail> {
    let rows = [
        Row::Key(A, [0, 0, 90], 3),
        Row::RevokedBefore(day(1)),
        Row::Key(B, [1, 1, 90], 3),
        Row::Key(C, [1, 1, 90], 200),
    ];
    let ring = ring_of(rt.alloc(), &rows, day(1))?;
    let table = [
        (A, Some([true, true, false])),
        (B, Some([false, true, true])),
        (C, Some([false, false, false])),
        (KeyId(0), None),
    ];
    for (id, state) in table {
        assert_eq!(rt; found(&ring, id), state, "{}", id.0);
    }
    Ok(())
}

// docs/FORMATS.md, "Listing": the five records.
const FIVE_RECORDS: &str = "ring 5 elements at 638103680000000000\n\
    mass 638043200000000000\n\
    key 00000000-0000-4000-8000-00000000000a created 638000000000000000 activates 638000000000000000 expires 638077760000000000 alg 3 revoked\n\
    key 00000000-0000-4000-8000-00000000000b created 638076032000000000 activates 638077760000000000 expires 638153792000000000 alg 3 revoked\n\
    key 00000000-0000-4000-8000-00000000000c created 638086400000000000 activates 638086400000000000 expires 638164160000000000 alg 3 active\n\
    default 00000000-0000-4000-8000-00000000000c by preference\n\
    renew no\n";

// An unknown code with a later record of a key.
const UNKNOWN_CODE: &str = "ring 3 elements at 638000000000000000\n\
    mass none\n\
    key 00000000-0000-4000-8000-00000000000a created 638000000000000000 activates 638000000000000000 expires 638077760000000000 alg 200 unusable\n\
    key 00000000-0000-4000-8000-00000000000b created 638000000000000000 activates 638000864000000000 expires 638077760000000000 alg 3 pending\n\
    default 00000000-0000-4000-8000-00000000000b by fallback\n\
    renew yes\n";

#[test]
fn listings(rt: HostRuntime) -> Result<(), Fail> {
    let five = [
        Row::Key(A, [0, 0, 90], 3),
        Row::Key(B, [88, 90, 178], 3),
        Row::RevokedBefore(day(50)),
        Row::Revoked(B, day(100)),
        Row::Key(C, [100, 100, 190], 3),
    ];
    let unknown = [
        Row::Key(A, [0, 0, 90], 3),
        Row::Key(B, [0, 1, 90], 3),
        Row::Key(A, [0, 0, 90], 200),
    ];
    let table = [
        (five.as_slice(), day(120), FIVE_RECORDS),
        (unknown.as_slice(), day(0), UNKNOWN_CODE),
    ];
    for (rows, now, text) in table {
        let ring = ring_of(rt.alloc(), rows, now)?;
        assert_eq!(rt; ring.listing(rt.alloc())?.as_str(), text);
    }
    Ok(())
}

// A ring is due at its end, or for a longer list.
#[test]
fn dues(rt: HostRuntime) -> Result<(), Fail> {
    let ring = ring_of(rt.alloc(), &[Row::Key(A, [0, 0, 90], 3)], day(0))?;
    let ended = Why::Ended {
        until: day(1),
        now: day(1),
    };
    let table = [
        (day(0), 1, None),
        (day(0), 2, Some(Why::Wanted { want: 2, held: 1 })),
        (day(1), 2, Some(ended)),
    ];
    for (now, want, why) in table {
        assert_eq!(rt; ring.due(now, want), why, "want {want}");
    }
    Ok(())
}

// Until when a ring is used, when it was made, what it is excused for, and how long its list is.
fn span(ring: &Ring) -> [u64; 4] {
    [
        ring.until(),
        ring.made_at(),
        ring.excused(),
        ring.list().len(),
    ]
}

// A wanted list is excused, for the time of an extension.
#[test]
fn extensions(rt: HostRuntime) -> Result<(), Fail> {
    let ring = ring_of(rt.alloc(), &[Row::Key(A, [0, 0, 90], 3)], day(0))?;
    assert_eq!(rt; span(&ring), [day(1), day(0), 0, 1]);
    let later = ring.extended(day(0).min(LAST), 2)?.share()?;
    let until = day(0).saturating_add(EXTENSION);
    assert_eq!(rt; span(&later), [until, day(0), 2, 1]);
    assert_eq!(rt; (later.default_id(), later.due(day(0), 2)), (Some(A), None));
    Ok(())
}

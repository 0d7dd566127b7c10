//! Payloads, texts and payloads that expire (docs/FORMATS.md, "Payload" and the parts behind it).

ghost use Rattle.std.specs.Prelude.{◌≡◌, ◌<◌, ◌^◌, IsTrue, length};
ghost use Rattle.dp_protector.specs.Timed.{HasRoom};

use super::*;
use base64::engine::general_purpose::URL_SAFE_NO_PAD;
use default_key::Options;
use dp_base::{KeyId, MemDraw};
use dp_encryptor::HeaderTable;
use key_elements::{Element, ElementList, KeyRecord, Reason, encode, read_list};
use key_ring::Ring;
use purpose_chain::{Chain, MAX_CHAIN, MAX_PURPOSES};
use std::alloc::{AllocError, Global};
use std::test::Fail;

// The moment at which the keys are made and the rings are.
const NOW: u64 = 638_000_000_000_000_000;

const DAY: u64 = 864_000_000_000;

// 0c819c80-6619-4019-9536-53f8aaffee57, and another.
const ID: KeyId = KeyId(0x0c81_9c80_6619_4019_9536_53f8_aaff_ee57);

const OTHER: KeyId = KeyId(0x4000_8000_0000_0000_000b);

// A modifier and a vector of a block, or the nonce of GCM.
const DRAWN: &[u8] = b"a modifier of 16a vector of 16 b";

const DRAWN_GCM: &[u8] = b"a modifier of 16a nonce 12 b";

const PLAIN: &[u8] = b"thirty-three bytes of plain text.";

fn drawn_for(code: u8) -> &'static [u8] {
    if code < 7 { DRAWN } else { DRAWN_GCM }
}

// A key of a material of zeros.
fn key(id: KeyId, activation: u64, alg: u8) -> Element {
    Element::Key(KeyRecord {
        id,
        creation: NOW,
        activation,
        expiration: NOW + 90 * DAY,
        alg,
        material: [0; 64],
    })
}

fn revocation(alloc: Global, id: KeyId) -> Result<Element, Fail> {
    let reason = Reason::new(alloc, "lost laptop")?;
    Ok(Element::RevokeKey {
        id,
        date: NOW,
        reason,
    })
}

fn ring_of(alloc: Global, elements: &[Element]) -> Result<Ring, Fail> {
    let mut bytes = Vec::new(alloc);
    for element in elements {
        encode(alloc, element, &mut bytes)?;
    }
    let list: ElementList = read_list(alloc, bytes.as_slice())?;
    Ok(Ring::of(alloc, list, NOW, 0, &Options::default())?)
}

// A ring whose key of that code is revoked, or stands beside another that protects by now.
fn ring_with(alloc: Global, code: u8, revoked: bool) -> Result<Ring, Fail> {
    if revoked {
        let revoked = revocation(alloc, ID)?;
        return ring_of(alloc, &[key(ID, NOW, code), revoked]);
    }
    ring_of(alloc, &[key(ID, NOW, code), key(OTHER, NOW + 1, 3)])
}

fn draw_of(alloc: Global, bytes: &[u8]) -> Result<MemDraw, AllocError> {
    Ok(MemDraw::new(bytes.to_vec(alloc)?, Vec::new(alloc)))
}

// So many bytes of one value.
fn filled(alloc: Global, byte: u8, count: usize) -> Result<Vec<u8>, Fail> {
    let mut bytes = Vec::new(alloc);
    for _ in 0..count {
        bytes.push(byte)?;
    }
    Ok(bytes)
}

// The bytes with some bits of one turned.
fn altered(alloc: Global, bytes: &[u8], at: usize, bits: u8) -> Result<Vec<u8>, Fail> {
    let mut bytes = bytes.to_vec(alloc)?;
    if at < bytes.len() {
        bytes[at] ^= bits;
    }
    Ok(bytes)
}

// The first so many bytes, where there are so many.
fn first(bytes: &[u8], count: usize) -> &[u8] {
    if count <= bytes.len() {
        &bytes[..count]
    } else {
        bytes
    }
}

// Whether payloads that expire have a chain of their own.
fn has_room(chain: &Chain) -> bool
    ensures { IsTrue result → HasRoom chain.now }
{
    chain.count() < MAX_PURPOSES && chain.bytes() + 63 <= MAX_CHAIN
}

// Whether the calls that open take so many bytes.
fn is_short(bytes: &[u8]) -> bool
    ensures { IsTrue result → length bytes.now < 2 ^ 32 }
{
    bytes.len() < 2_000_000
}

// A ring with what its calls take. The methods are the crate's calls with nothing required and nothing
// promised, so that a test's proof stays small: what a call isn't for is told as a want of memory, which
// no test wants.
#[derive(Drop)]
struct Bench {
    alloc: Global,
    headers: HeaderTable,
    chain: Chain,
    ring: Ring,
}

impl Bench {
    fn of(alloc: Global, ring: Ring) -> Result<Bench, Fail> {
        let chain = Chain::new(alloc, "a")?;
        let headers = HeaderTable::new(alloc);
        Ok(Bench {
            alloc,
            headers,
            chain,
            ring,
        })
    }

    // The ring has one key, of that code.
    fn new(alloc: Global, code: u8) -> Result<Bench, Fail> {
        Bench::of(alloc, ring_of(alloc, &[key(ID, NOW, code)])?)
    }

    // Another ring, by the same headers.
    fn hold(&mut self, code: u8) -> Result<(), Fail> {
        self.ring = ring_of(self.alloc, &[key(ID, NOW, code)])?;
        Ok(())
    }

    fn protect_by(&self, draw: &mut MemDraw, plain: &[u8]) -> Result<Vec<u8>, ProtectRefused> {
        protect_with(
            self.alloc,
            &self.ring,
            &self.headers,
            &self.chain,
            draw,
            plain,
        )
    }

    fn protect(&self, drawn: &[u8], plain: &[u8]) -> Result<Vec<u8>, ProtectRefused> {
        let mut draw = draw_of(self.alloc, drawn)?;
        self.protect_by(&mut draw, plain)
    }

    fn protect_for(&self, chain: &Chain, plain: &[u8]) -> Result<Vec<u8>, ProtectRefused> {
        let mut draw = draw_of(self.alloc, DRAWN)?;
        protect_with(
            self.alloc,
            &self.ring,
            &self.headers,
            chain,
            &mut draw,
            plain,
        )
    }

    fn protect_text(&self, drawn: &[u8], text: &str) -> Result<String, ProtectRefused> {
        let mut draw = draw_of(self.alloc, drawn)?;
        protect_text(
            self.alloc,
            &self.ring,
            &self.headers,
            &self.chain,
            &mut draw,
            text,
        )
    }

    fn protect_timed(&self, drawn: &[u8], plain: &[u8]) -> Result<Vec<u8>, ProtectRefused> {
        if !has_room(&self.chain) {
            return Err(ProtectRefused::Memory);
        }
        let mut draw = draw_of(self.alloc, drawn)?;
        protect_timed(
            self.alloc,
            &self.ring,
            &self.headers,
            &self.chain,
            &mut draw,
            NOW,
            plain,
        )
    }

    fn open_for(
        &self,
        chain: &Chain,
        payload: &[u8],
        allow_revoked: bool,
    ) -> Result<Opened, UnprotectRefused> {
        if !is_short(payload) {
            return Err(UnprotectRefused::Memory);
        }
        unprotect_with(
            self.alloc,
            &self.ring,
            &self.headers,
            chain,
            payload,
            allow_revoked,
        )
    }

    fn open(&self, payload: &[u8]) -> Result<Opened, UnprotectRefused> {
        self.open_for(&self.chain, payload, false)
    }

    fn open_text(&self, text: &[u8]) -> Result<OpenedText, TextRefused> {
        if !is_short(text) {
            return Err(TextRefused::Body(UnprotectRefused::Memory));
        }
        unprotect_text(
            self.alloc,
            &self.ring,
            &self.headers,
            &self.chain,
            text,
            false,
        )
    }

    fn open_timed(&self, payload: &[u8], now: u64) -> Result<OpenedTimed, TimedOpenRefused> {
        if !is_short(payload) || !has_room(&self.chain) {
            return Err(TimedOpenRefused::Body(UnprotectRefused::Memory));
        }
        unprotect_timed(
            self.alloc,
            &self.ring,
            &self.headers,
            &self.chain,
            payload,
            false,
            now,
        )
    }
}

// Worked out by Python's `cryptography` and `hmac`, apart from this repository
// (tests/vectors/payloads.py).
#[test]
fn known_payloads(rt: HostRuntime) -> Result<(), Fail> {
    let cases: [(u8, &[u8], &[u8], &[u8]); 3] = [
        (
            3,
            DRAWN,
            b"",
            b"\x09\xf0\xc9\xf0\x80\x9c\x81\x0c\x19\x66\x19\x40\x95\x36\x53\xf8\
                \xaa\xff\xee\x57\x61\x20\x6d\x6f\x64\x69\x66\x69\x65\x72\x20\x6f\
                \x66\x20\x31\x36\x61\x20\x76\x65\x63\x74\x6f\x72\x20\x6f\x66\x20\
                \x31\x36\x20\x62\xce\x6e\x69\xd7\x00\x72\x1b\xc2\x33\x2b\x83\xd1\
                \xcd\xee\x2f\xcc\xc8\xb4\xcf\xe3\xf6\xac\xb0\x39\xdc\x3c\x16\x60\
                \xcf\x48\x46\x5a\x02\x12\xe0\xb6\x10\xbc\x31\xac\x1e\x09\xb6\xe0\
                \xb8\x81\xc3\xcb",
        ),
        (
            5,
            DRAWN,
            b"thirty-three bytes of plain text.",
            b"\x09\xf0\xc9\xf0\x80\x9c\x81\x0c\x19\x66\x19\x40\x95\x36\x53\xf8\
                \xaa\xff\xee\x57\x61\x20\x6d\x6f\x64\x69\x66\x69\x65\x72\x20\x6f\
                \x66\x20\x31\x36\x61\x20\x76\x65\x63\x74\x6f\x72\x20\x6f\x66\x20\
                \x31\x36\x20\x62\x6e\xc2\x49\x77\x1a\xc2\x3c\xc6\xdd\x62\xf1\xc5\
                \x6f\xbe\xd0\x2d\xb0\x71\x3e\x79\xfd\x4f\xaa\xf5\xf1\x26\xe3\x0d\
                \x19\x98\x4d\xbf\x42\xd8\x2e\xc0\xaa\xab\xfb\x39\xf9\x87\x14\xba\
                \xf0\x94\x74\xb1\x1e\x72\x6d\xea\x80\xb5\xe1\x10\x3a\xd8\x81\x14\
                \x88\x18\x70\x6c\x09\x01\x0a\xe6\xe5\x5c\xe0\xe3\x5d\xa7\x0f\xa9\
                \x83\x70\x72\x85\xc8\xca\x7a\x0c\x73\xb9\xe5\x61\xe0\x5f\x6c\x67\
                \x43\x77\xbc\xf4\x5e\x26\xcc\x55\x0c\x8a\xff\x66\xe3\xf8\xcc\xa4\
                \x2e\xeb\x72\x3c",
        ),
        (
            9,
            DRAWN_GCM,
            b"",
            b"\x09\xf0\xc9\xf0\x80\x9c\x81\x0c\x19\x66\x19\x40\x95\x36\x53\xf8\
                \xaa\xff\xee\x57\x61\x20\x6d\x6f\x64\x69\x66\x69\x65\x72\x20\x6f\
                \x66\x20\x31\x36\x61\x20\x6e\x6f\x6e\x63\x65\x20\x31\x32\x20\x62\
                \x98\x10\xb1\xe9\x0d\x09\x21\xb6\xbc\x1e\x9e\x01\x5f\xd2\x3d\x28",
        ),
    ];
    let mut bench = Bench::new(rt.alloc(), 1)?;
    for (code, drawn, plain, payload) in cases {
        bench.hold(code)?;
        let given = bench.protect(drawn, plain)?;
        assert_eq!(rt; given.as_slice(), payload, "code {code}");
        let opened = bench.open(&given)?;
        assert_eq!(rt; opened.plain.as_slice(), plain, "code {code}");
        assert!(rt; !opened.revoked && !opened.default_changed);
    }
    Ok(())
}

#[test]
fn each_code(rt: HostRuntime) -> Result<(), Fail> {
    let mut bench = Bench::new(rt.alloc(), 1)?;
    let longer = bench.chain.child(rt.alloc(), "b")?;
    for code in 1..10u8 {
        bench.hold(code)?;
        let payload = bench.protect(drawn_for(code), PLAIN)?;
        let opened = bench.open(&payload)?;
        assert_eq!(rt; opened.plain.as_slice(), PLAIN, "code {code}");
        let other = bench.open_for(&longer, &payload, false).err();
        assert_eq!(rt; other, Some(UnprotectRefused::Tampered), "code {code}");
    }
    Ok(())
}

#[test]
fn each_draw(rt: HostRuntime) -> Result<(), Fail> {
    let mut bench = Bench::new(rt.alloc(), 1)?;
    for code in 1..10u8 {
        bench.hold(code)?;
        let mut draw = draw_of(rt.alloc(), drawn_for(code))?;
        bench.protect_by(&mut draw, PLAIN)?;
        // Nothing is left to draw.
        let again = bench.protect_by(&mut draw, PLAIN).err();
        assert_eq!(rt; again, Some(ProtectRefused::DrawFault), "code {code}");
    }
    Ok(())
}

#[test]
fn refused_heads(rt: HostRuntime) -> Result<(), Fail> {
    let bench = Bench::new(rt.alloc(), 3)?;
    let payload = bench.protect(DRAWN, b"")?;
    let version = altered(rt.alloc(), &payload, 3, 1)?;
    // The first byte of the id is 0xff.
    let id = altered(rt.alloc(), &payload, 4, 0x7f)?;
    let unknown = KeyId((ID.0 & !(0xff << 96)) | (0xff << 96));
    let magic = altered(rt.alloc(), &payload, 0, 1)?;
    let cases = [
        (first(&payload, 19), UnprotectRefused::BadHeader),
        (magic.as_slice(), UnprotectRefused::BadHeader),
        (version.as_slice(), UnprotectRefused::BadVersion),
        (id.as_slice(), UnprotectRefused::KeyNotFound { id: unknown }),
    ];
    for (bytes, told) in cases {
        assert_eq!(rt; bench.open(bytes).err(), Some(told), "{bytes:?}");
    }
    Ok(())
}

#[test]
fn tampered_payloads(rt: HostRuntime) -> Result<(), Fail> {
    let bench = Bench::new(rt.alloc(), 3)?;
    let payload = bench.protect(DRAWN, b"")?;
    assert_eq!(rt; payload.len(), 100);
    let last = altered(rt.alloc(), &payload, 99, 1)?;
    for bytes in [last.as_slice(), first(&payload, 20), first(&payload, 83)] {
        let told = bench.open(bytes).err();
        assert_eq!(rt; told, Some(UnprotectRefused::Tampered), "{bytes:?}");
    }
    let told = bench.open(&payload[1..]).err();
    assert_eq!(rt; told, Some(UnprotectRefused::BadHeader));
    Ok(())
}

// A revoked key opens where that is allowed.
#[test]
fn keys_that_open(rt: HostRuntime) -> Result<(), Fail> {
    let payload = Bench::new(rt.alloc(), 3)?.protect(DRAWN, b"text")?;
    for (revoked, allow) in [(false, false), (false, true), (true, true)] {
        let bench = Bench::of(rt.alloc(), ring_with(rt.alloc(), 3, revoked)?)?;
        let opened = bench.open_for(&bench.chain, &payload, allow)?;
        assert_eq!(rt; opened.plain.as_slice(), b"text".as_slice());
        assert_eq!(rt; opened.revoked, revoked, "allowed: {allow}");
        assert!(rt; opened.default_changed, "revoked: {revoked}");
    }
    Ok(())
}

// An unusable key never opens. That a key is revoked is told first.
#[test]
fn keys_that_stay_shut(rt: HostRuntime) -> Result<(), Fail> {
    let payload = Bench::new(rt.alloc(), 3)?.protect(DRAWN, b"text")?;
    let revoked_key = UnprotectRefused::KeyRevoked { id: ID };
    let unusable_key = UnprotectRefused::KeyUnusable { id: ID };
    let cases = [
        (3, true, false, revoked_key),
        (200, false, false, unusable_key),
        (200, false, true, unusable_key),
        (200, true, false, revoked_key),
        (200, true, true, unusable_key),
    ];
    for (code, revoked, allow, told) in cases {
        let bench = Bench::of(rt.alloc(), ring_with(rt.alloc(), code, revoked)?)?;
        let given = bench.open_for(&bench.chain, &payload, allow).err();
        assert_eq!(rt; given, Some(told), "code {code}");
    }
    Ok(())
}

#[test]
fn texts_too_long(rt: HostRuntime) -> Result<(), Fail> {
    let bench = Bench::of(rt.alloc(), ring_of(rt.alloc(), &[])?)?;
    let long = filled(rt.alloc(), 0, 1_000_001)?;
    let told = bench.protect(b"", &long).err();
    assert_eq!(rt; told, Some(ProtectRefused::TooLong { len: 1_000_001 }));
    let told = bench.protect_timed(b"", first(&long, 999_993)).err();
    assert_eq!(rt; told, Some(ProtectRefused::TooLong { len: 999_993 }));
    let text = std::str::from_utf8(first(&long, 750_001)).expect(&rt, "a text");
    let told = bench.protect_text(b"", text).err();
    assert_eq!(rt; told, Some(ProtectRefused::TooLong { len: 750_001 }));
    Ok(())
}

#[test]
fn nothing_to_protect_with(rt: HostRuntime) -> Result<(), Fail> {
    let bench = Bench::of(rt.alloc(), ring_of(rt.alloc(), &[])?)?;
    let told = bench.protect(b"", b"").err();
    assert_eq!(rt; told, Some(ProtectRefused::NoDefaultKey));
    let bench = Bench::new(rt.alloc(), 9)?;
    let told = bench.protect(b"", b"").err();
    assert_eq!(rt; told, Some(ProtectRefused::DrawFault));
    Ok(())
}

#[test]
fn longest_text(rt: HostRuntime) -> Result<(), Fail> {
    let bench = Bench::new(rt.alloc(), 9)?;
    let long = filled(rt.alloc(), 0, 1_000_000)?;
    let payload = bench.protect(DRAWN_GCM, &long)?;
    assert_eq!(rt; payload.len(), 1_000_064);
    let opened = bench.open(&payload)?;
    assert_eq!(rt; opened.plain.len(), 1_000_000);
    Ok(())
}

#[test]
fn texts(rt: HostRuntime) -> Result<(), Fail> {
    let bench = Bench::new(rt.alloc(), 3)?;
    let text = bench.protect_text(DRAWN, "text")?;
    let known = "CfDJ8ICcgQwZZhlAlTZT-Kr_7ldhIG1vZGlmaWVyIG9mIDE2YSB2ZWN0b3Igb2Yg\
        MTYgYiR0YGjAuia04RG3w_c6Q_wnqba-Po0sx36oiJl3DtCWeoWbLN_gfkgBoAh7LvPiMA";
    assert_eq!(rt; text.as_str(), known);
    let opened = bench.open_text(known.as_bytes())?;
    assert_eq!(rt; opened.text.as_str(), "text");
    assert!(rt; !opened.revoked && !opened.default_changed);
    Ok(())
}

#[test]
fn letters(rt: HostRuntime) -> Result<(), Fail> {
    let bench = Bench::new(rt.alloc(), 3)?;
    let letters = filled(rt.alloc(), b'p', 600)?;
    let letters = std::str::from_utf8(&letters).expect(&rt, "a text");
    let text = bench.protect_text(DRAWN, letters)?;
    assert_eq!(rt; text.len(), 923);
    assert!(rt; text.as_str().starts_with("CfDJ8"));
    let opened = bench.open_text(text.as_bytes())?;
    assert_eq!(rt; opened.text.as_str(), letters);
    Ok(())
}

#[test]
fn bad_texts(rt: HostRuntime) -> Result<(), Fail> {
    let bench = Bench::new(rt.alloc(), 9)?;
    let payload = bench.protect(DRAWN_GCM, b"\xff")?;
    assert_eq!(rt; payload.len(), 65);
    let text = URL_SAFE_NO_PAD.encode(rt.alloc(), &payload)?;
    assert_eq!(rt; text.len(), 87);
    let mut padded = text.as_bytes().to_vec(rt.alloc())?;
    padded.push(b'=')?;
    let mut standard = text.as_bytes().to_vec(rt.alloc())?;
    standard[86] = b'+';
    // The bits behind the last byte are set: it decodes to the same bytes, but isn't their text.
    let mut other = text.as_bytes().to_vec(rt.alloc())?;
    other[86] = other[86].wrapping_add(1);
    let shorter = first(text.as_bytes(), 85);
    for bytes in [
        padded.as_slice(),
        standard.as_slice(),
        other.as_slice(),
        shorter,
    ] {
        let told = bench.open_text(bytes).err();
        assert_eq!(rt; told, Some(TextRefused::BadText), "{bytes:?}");
    }
    Ok(())
}

#[test]
fn texts_of_other_payloads(rt: HostRuntime) -> Result<(), Fail> {
    let bench = Bench::new(rt.alloc(), 9)?;
    let payload = bench.protect(DRAWN_GCM, b"\xff")?;
    let text = URL_SAFE_NO_PAD.encode(rt.alloc(), &payload)?;
    let cases = [
        (text.as_bytes(), TextRefused::NotText),
        (
            first(text.as_bytes(), 84),
            TextRefused::Body(UnprotectRefused::Tampered),
        ),
        (b"", TextRefused::Body(UnprotectRefused::BadHeader)),
    ];
    for (bytes, told) in cases {
        assert_eq!(rt; bench.open_text(bytes).err(), Some(told), "{bytes:?}");
    }
    Ok(())
}

#[test]
fn expiries(rt: HostRuntime) -> Result<(), Fail> {
    let bench = Bench::new(rt.alloc(), 3)?;
    let payload = bench.protect_timed(DRAWN, b"text")?;
    // Worked out by tests/vectors/payloads.py.
    let known = b"\x09\xf0\xc9\xf0\x80\x9c\x81\x0c\x19\x66\x19\x40\x95\x36\x53\xf8\
            \xaa\xff\xee\x57\x61\x20\x6d\x6f\x64\x69\x66\x69\x65\x72\x20\x6f\
            \x66\x20\x31\x36\x61\x20\x76\x65\x63\x74\x6f\x72\x20\x6f\x66\x20\
            \x31\x36\x20\x62\x07\xff\xb8\x40\x4d\xfa\x6c\x1d\x81\xdb\xfd\xfc\
            \xa1\xad\x89\x1e\xf4\x95\xea\xe5\xcb\x9e\x73\x46\xa0\xbd\xcf\xef\
            \xdd\x00\xf7\x56\xaa\xbd\xee\xb2\xf1\x96\xdf\x10\x76\xc5\x57\x1c\
            \x43\x93\xe4\xe8"
        .as_slice();
    assert_eq!(rt; payload.as_slice(), known);
    let opened = bench.open_timed(known, NOW)?;
    assert_eq!(rt; opened.plain.as_slice(), b"text".as_slice());
    assert_eq!(rt; opened.expiry, NOW);
    let late = bench.open_timed(known, NOW + 1).err();
    assert_eq!(rt; late, Some(TimedOpenRefused::Expired { at: NOW }));
    // Not for the chain itself.
    let plain = bench.open(known).err();
    assert_eq!(rt; plain, Some(UnprotectRefused::Tampered));
    Ok(())
}

#[test]
fn refused_expiries(rt: HostRuntime) -> Result<(), Fail> {
    let bench = Bench::new(rt.alloc(), 3)?;
    let purpose = "Microsoft.AspNetCore.DataProtection.TimeLimitedDataProtector.v1";
    assert_eq!(rt; purpose.len(), 63);
    let child = bench.chain.child(rt.alloc(), purpose)?;
    let tampered = TimedOpenRefused::Body(UnprotectRefused::Tampered);
    let cases: [(&Chain, &[u8], TimedOpenRefused); 4] = [
        // 2^63 ticks, and seven bytes.
        (&child, b"\x80\0\0\0\0\0\0\0text", TimedOpenRefused::Invalid),
        (&child, b"\0\0\0\0\0\0\0", TimedOpenRefused::Invalid),
        (
            &child,
            b"\0\0\0\0\0\0\0\x05",
            TimedOpenRefused::Expired { at: 5 },
        ),
        // Sealed for the chain itself.
        (&bench.chain, b"\0\0\0\0\0\0\0\x05", tampered),
    ];
    for (sealed_for, plain, told) in cases {
        let payload = bench.protect_for(sealed_for, plain)?;
        assert_eq!(rt;
            bench.open_timed(&payload, NOW).err(),
            Some(told),
            "{plain:?}"
        );
    }
    Ok(())
}

#[test]
fn phrases(rt: HostRuntime) -> Result<(), Fail> {
    let payload = UnprotectRefused::KeyRevoked { id: ID };
    assert_eq!(rt;
        format!(in rt.alloc(); "{payload}")?.as_str(),
        "the key 0c819c80-6619-4019-9536-53f8aaffee57 is revoked"
    );
    let text = TextRefused::Body(UnprotectRefused::Tampered);
    assert_eq!(rt;
        format!(in rt.alloc(); "{text}")?.as_str(),
        "the body was altered, or was sealed otherwise"
    );
    Ok(())
}

#[test]
fn phrases_of_numbers(rt: HostRuntime) -> Result<(), Fail> {
    let timed = TimedOpenRefused::Expired { at: 5 };
    assert_eq!(rt; format!(in rt.alloc(); "{timed}")?.as_str(), "expired at 5");
    let long = ProtectRefused::TooLong { len: 1_000_001 };
    assert_eq!(rt;
        format!(in rt.alloc(); "{long}")?.as_str(),
        "1000001 bytes are too long to be protected"
    );
    Ok(())
}

//! Bodies of each algorithm (docs/FORMATS.md, "Payload").

ghost use Rattle.std.specs.Prelude.{◌≡◌, length};
ghost use Rattle.dp_base.specs.Lengths.{iv_len};

use super::*;
use context_header::header_of;
use dp_base::{AesSize, Alg};
use payload_view::{BodyView, HeadRefused, PayloadView};
use std::test::Fail;

const ALGORITHMS: [Alg; 9] = [
    Alg::Cbc256(AesSize::A128),
    Alg::Cbc256(AesSize::A192),
    Alg::Cbc256(AesSize::A256),
    Alg::Cbc512(AesSize::A128),
    Alg::Cbc512(AesSize::A192),
    Alg::Cbc512(AesSize::A256),
    Alg::Gcm(AesSize::A128),
    Alg::Gcm(AesSize::A192),
    Alg::Gcm(AesSize::A256),
];

const MATERIAL: [u8; 64] = *b"\x00\x01\x02\x03\x04\x05\x06\x07\x08\x09\x0a\x0b\x0c\x0d\x0e\x0f\
    \x10\x11\x12\x13\x14\x15\x16\x17\x18\x19\x1a\x1b\x1c\x1d\x1e\x1f\
    \x20\x21\x22\x23\x24\x25\x26\x27\x28\x29\x2a\x2b\x2c\x2d\x2e\x2f\
    \x30\x31\x32\x33\x34\x35\x36\x37\x38\x39\x3a\x3b\x3c\x3d\x3e\x3f";

const AAD: &[u8] = b"additional data";

const MODIFIER: [u8; 16] = *b"a modifier of 16";

const TEXT: &[u8] = b"thirty-three bytes of plain text.";

// A vector of the algorithm.
fn vector(alg: Alg) -> &'static [u8]
    ensures { length result.now ≡ iv_len alg }
{
    match alg {
        Alg::Cbc256(_) | Alg::Cbc512(_) => b"a vector of 16 b",
        Alg::Gcm(_) => b"a nonce 12 b",
    }
}

// Worked out by Python's `cryptography` and `hmac`, apart from this repository.
#[test]
fn known_bodies(rt: HostRuntime) -> Result<(), Fail> {
    let cases: [(Alg, &[u8]); 3] = [
        (
            Alg::Cbc256(AesSize::A192),
            b"\x61\x20\x6d\x6f\x64\x69\x66\x69\x65\x72\x20\x6f\x66\x20\x31\x36\x61\
                \x20\x76\x65\x63\x74\x6f\x72\x20\x6f\x66\x20\x31\x36\x20\x62\x26\xc0\
                \xd9\xff\x3d\x1c\x0c\x57\xe1\xc3\x57\x17\xf3\xb4\xda\x0f\xb5\x66\x4d\
                \xb6\x3a\x79\xc6\xf8\xa6\xb9\xb8\xac\x55\xe2\x57\x12\x13\xbe\xc4\xd5\
                \x91\xd5\x12\xde\x8f\xb4\x2c\xcd\x6b\x44\x1c\x0a\x5f\x65\xe5\x97\xa2\
                \xeb\x9a\x01\x4f\x2e\xe0\x74\x51\x4a\x86\x03\xb4\x8d\xf2\x55\x0c\xe0\
                \xd5\x6a\xc4\x0a\x23\xca\xd0\x94\x6c\xef",
        ),
        (
            Alg::Cbc512(AesSize::A128),
            b"\x61\x20\x6d\x6f\x64\x69\x66\x69\x65\x72\x20\x6f\x66\x20\x31\x36\x61\
                \x20\x76\x65\x63\x74\x6f\x72\x20\x6f\x66\x20\x31\x36\x20\x62\xd0\x21\
                \x45\x58\x84\x30\x28\xeb\xa5\xa3\x4f\x26\x91\x84\x5d\x42\xe9\xf2\x35\
                \x88\xed\x95\xb3\xcc\x70\x09\x7a\x67\xda\x8f\xf9\xf9\xb0\x39\x4c\x42\
                \xf8\xa3\x50\x6e\xaa\xdd\x53\x46\xec\xfb\x3b\xd3\x22\x35\x07\xef\x17\
                \xd1\xa7\x76\xab\x9a\x14\x65\x45\xd0\x74\xa7\x1d\xb9\xcd\x14\xc8\xe6\
                \x3a\x99\x7a\x39\xea\x21\x08\x08\xd0\xf9\x64\x38\xdc\x05\xbd\x3e\xbc\
                \x6a\xdf\x6d\x6f\x9e\x07\x12\x51\xa2\x4a\x05\x7c\x96\x08\x51\xf8\xf9\
                \x39\xd9\xe5\x91\x7c\xe0\x5e\xe9",
        ),
        (
            Alg::Gcm(AesSize::A256),
            b"\x61\x20\x6d\x6f\x64\x69\x66\x69\x65\x72\x20\x6f\x66\x20\x31\x36\x61\
                \x20\x6e\x6f\x6e\x63\x65\x20\x31\x32\x20\x62\x06\x21\x33\x88\x05\x93\
                \xea\xe2\x35\x1b\xb0\x4a\x6b\x97\x6f\x7e\xc8\x00\x28\x84\x84\xcb\x36\
                \xac\x92\xec\x35\x09\xbe\x7d\xdf\x6d\xf0\x78\x18\xc0\x27\x99\x50\xf5\
                \xb3\x64\x2a\x20\x0e\xf5\x40\x7b\xc0",
        ),
    ];
    let headers = HeaderTable::new(rt.alloc());
    for (alg, body) in cases {
        let encryptor = Encryptor::new(rt.alloc(), alg, &MATERIAL, &headers);
        let sealed = encryptor.seal(rt.alloc(), AAD, &MODIFIER, vector(alg), TEXT)?;
        assert_eq!(rt; sealed.as_slice(), body, "{alg:?}");
    }
    Ok(())
}

#[test]
fn both_ways(rt: HostRuntime) -> Result<(), Fail> {
    let headers = HeaderTable::new(rt.alloc());
    for alg in ALGORITHMS {
        // The cell is empty, and then it isn't.
        let first = headers.get(rt.alloc(), alg);
        let second = headers.get(rt.alloc(), alg);
        assert_eq!(rt; first.bytes(), header_of(alg).bytes(), "{alg:?}");
        assert_eq!(rt; second.bytes(), header_of(alg).bytes(), "{alg:?}");
        let encryptor = Encryptor::new(rt.alloc(), alg, &MATERIAL, &headers);
        for text in [b"".as_slice(), TEXT] {
            let sealed = encryptor.seal(rt.alloc(), AAD, &MODIFIER, vector(alg), text)?;
            assert!(rt; sealed.len() < 200, "{alg:?}");
            let body = BodyView::split(&sealed, alg).expect(&rt, "a body");
            let opened = encryptor.open_body(rt.alloc(), AAD, body)?;
            assert_eq!(rt; opened.as_slice(), text, "{alg:?}");
            let body = BodyView::split(&sealed, alg).expect(&rt, "a body");
            let other = encryptor.open_body(rt.alloc(), b"other data", body);
            assert_eq!(rt; other.err(), Some(BodyRefused::Tampered), "{alg:?}");
        }
    }
    Ok(())
}

// Each bit of a payload of no text, turned, in each form: the head is refused, another id is told, or the
// body was tampered with.
#[test]
fn each_bit(rt: HostRuntime) -> Result<(), Fail> {
    // The bytes of the body, and the bits of the payload.
    let cases: [(Alg, usize, usize); 3] = [
        (Alg::Gcm(AesSize::A256), 44, 512),
        (Alg::Cbc256(AesSize::A256), 80, 800),
        (Alg::Cbc512(AesSize::A128), 112, 1056),
    ];
    let headers = HeaderTable::new(rt.alloc());
    for (alg, len, bits) in cases {
        let encryptor = Encryptor::new(rt.alloc(), alg, &MATERIAL, &headers);
        let sealed = encryptor.seal(rt.alloc(), AAD, &MODIFIER, vector(alg), b"")?;
        assert_eq!(rt; sealed.len(), len, "{alg:?}");
        for bit in 0..bits {
            let mut payload = b"\x09\xf0\xc9\xf0the id of a key.".to_vec(rt.alloc())?;
            payload.extend_from_slice(&sealed)?;
            assert!(rt; bit / 8 < payload.len());
            payload[bit / 8] ^= 0x80 >> (bit % 8);
            let told = match PayloadView::split(&payload) {
                Err(HeadRefused::BadHeader) => bit < 28,
                Err(HeadRefused::BadVersion) => 28 <= bit && bit < 32,
                Ok(view) => {
                    assert!(rt; view.rest().len() < 200);
                    let body = view.body(alg).expect(&rt, "a body");
                    let refused = encryptor.open_body(rt.alloc(), AAD, body).err();
                    let wanted = if bit < 160 {
                        None
                    } else {
                        Some(BodyRefused::Tampered)
                    };
                    32 <= bit && refused == wanted
                }
            };
            assert!(rt; told, "{alg:?}, bit {bit}");
        }
    }
    Ok(())
}

#[test]
fn phrases(rt: HostRuntime) -> Result<(), Fail> {
    let table = [
        (
            BodyRefused::Tampered,
            "the body was altered, or was sealed otherwise",
        ),
        (BodyRefused::Memory, "no memory"),
    ];
    for (refused, phrase) in table {
        assert_eq!(rt; format!(in rt.alloc(); "{refused}")?.as_str(), phrase);
    }
    Ok(())
}

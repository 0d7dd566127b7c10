//! Payloads and bodies whose parts show by their bytes (docs/FORMATS.md, "Payload").

use super::*;
use dp_base::{AesSize, Alg, KeyId};
use std::test::Fail;

// A head, and a body of GCM: sixteen bytes of modifier, twelve of nonce, three enciphered, sixteen of
// tag.
const PAYLOAD: &[u8] =
    b"\x09\xf0\xc9\xf0\x80\x9c\x81\x0c\x19\x66\x19\x40\x95\x36\x53\xf8\xaa\xff\xee\x57\
    a modifier of 16a nonce 12 bxyza tag of 16 byte";

#[test]
fn parts(rt: HostRuntime) {
    let view = PayloadView::split(PAYLOAD).expect(&rt, "a payload");
    assert_eq!(rt;
        view.key_id(),
        KeyId(0x0c81_9c80_6619_4019_9536_53f8_aaff_ee57)
    );
    assert_eq!(rt;
        view.rest(),
        b"a modifier of 16a nonce 12 bxyza tag of 16 byte".as_slice()
    );
    let body = view.body(Alg::Gcm(AesSize::A256)).expect(&rt, "a body");
    assert_eq!(rt; body.modifier(), b"a modifier of 16".as_slice());
    assert_eq!(rt; body.iv(), b"a nonce 12 b".as_slice());
    assert_eq!(rt; body.enciphered(), b"xyz".as_slice());
    assert_eq!(rt; body.tag(), b"a tag of 16 byte".as_slice());
    // There are 47 bytes, and CBC would have 64 and 96 that aren't enciphered.
    assert!(rt; view.body(Alg::Cbc256(AesSize::A128)).is_none());
    assert!(rt; view.body(Alg::Cbc512(AesSize::A128)).is_none());
}

// A body of no enciphered byte, and one that is a byte too short.
#[test]
fn room(rt: HostRuntime) {
    let alg = Alg::Gcm(AesSize::A128);
    assert!(rt; BodyView::split(&[0; 44], alg).is_some());
    assert!(rt; BodyView::split(&[0; 43], alg).is_none());
}

#[test]
fn refusals(rt: HostRuntime) -> Result<(), Fail> {
    let cases: [(&[u8], Option<HeadRefused>, &str); 7] = [
        (b"\x09\xf0\xc9\xf00123456789abcdef", None, "no body"),
        (b"", Some(HeadRefused::BadHeader), "nothing"),
        (
            b"\x09\xf0\xc9\xf00123456789abcde",
            Some(HeadRefused::BadHeader),
            "19 bytes",
        ),
        (
            b"\x09\xf0\xc9\xf10123456789abcdef",
            Some(HeadRefused::BadVersion),
            "version 1",
        ),
        (
            b"\x09\xf0\xc9\xff0123456789abcdef",
            Some(HeadRefused::BadVersion),
            "version 15",
        ),
        (
            b"\x09\xf0\xc9\xe00123456789abcdef",
            Some(HeadRefused::BadHeader),
            "the 28th bit",
        ),
        (
            b"\x89\xf0\xc9\xf10123456789abcdef",
            Some(HeadRefused::BadHeader),
            "the first bit",
        ),
    ];
    for (payload, told, what) in cases {
        assert_eq!(rt; PayloadView::split(payload).err(), told, "{what}");
    }
    let phrases = [
        (
            HeadRefused::BadHeader,
            "no payload: the first bytes are others",
        ),
        (HeadRefused::BadVersion, "a payload of an unknown version"),
    ];
    for (refused, phrase) in phrases {
        assert_eq!(rt; format!(in rt.alloc(); "{refused}")?.as_str(), phrase);
    }
    Ok(())
}

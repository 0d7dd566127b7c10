ghost use Rattle.std.specs.Prelude.{◌<◌, ◌≤◌, ◌^◌, length};
ghost use Rattle.dp_wire.specs.declared.frame.TheConstants.{MAX_BODY};
ghost use Rattle.dp_wire.specs.Replies.{reply_body};

use super::*;
use dp_base::KeyId;
use std::alloc::Global;
use std::process::Abort;
use std::test::Fail;

// docs/FORMATS.md, "Frames and requests".
const ROLL: [u8; 18] = [
    0x02, 0x08, 0xda, 0xa1, 0x9e, 0xa6, 0xb3, 0x00, 0x00, 0x08, 0xda, 0xe8, 0x57, 0x8f, 0xe0, 0x80,
    0x00, 0x03,
];

#[test]
fn lengths(rt: HostRuntime) {
    let table = [
        ([0, 0, 0, 18], Ok(18)),
        ([0, 0x10, 0, 0], Ok(1_048_576)),
        ([0, 0, 0, 0], Err(FrameRefused::Zero)),
        (
            [0, 0x10, 0, 1],
            Err(FrameRefused::TooLarge { len: 1_048_577 }),
        ),
    ];
    for (head, told) in table {
        assert_eq!(rt; frame_len(&head), told, "{head:?}");
    }
}

#[test]
fn requests(rt: HostRuntime) {
    let roll = RequestView::Roll {
        activation: 638_000_000_000_000_000,
        expiration: 638_077_760_000_000_000,
        alg: 3,
    };
    assert_eq!(rt; RequestView::read(&ROLL), Ok(roll));
    let ring = [1, 0, 0, 0, 0, 0, 0, 0, 9];
    assert_eq!(rt; RequestView::read(&ring), Ok(RequestView::Ring { need: 9 }));
    let revoke = [
        3, 0, 0, 0, 0, 0, 0, 0, 0x40, 0x80, 0, 0, 0, 0, 0, 0, 0x0b, 2, b'n', b'o',
    ];
    let id = KeyId(0x0000_0000_0000_4000_8000_0000_0000_000b);
    let view = RequestView::Revoke { id, reason: "no" };
    assert_eq!(rt; RequestView::read(&revoke), Ok(view));
    let before = [4, 0, 0, 0, 0, 0, 0, 0, 5, 0];
    let view = RequestView::RevokeBefore {
        date: 5,
        reason: "",
    };
    assert_eq!(rt; RequestView::read(&before), Ok(view));
}

// The first wrong field: the kind, a cut number, a byte too many, a code of no algorithm, a reason.
#[test]
fn wrong_places(rt: HostRuntime) {
    let mut code = ROLL;
    code[17] = 10;
    let table: [(&[u8], u32); 8] = [
        (&[], 0),
        (&[0x0b], 0),
        (&[5, 0], 1),
        (&[1, 0, 0], 1),
        (&[1, 0, 0, 0, 0, 0, 0, 0, 9, 0], 9),
        (&ROLL[..12], 9),
        (&code, 17),
        (&[4, 0, 0, 0, 0, 0, 0, 0, 5, 1, 0xff], 9),
    ];
    for (body, place) in table {
        assert_eq!(rt;
            RequestView::read(body),
            Err(BadRequest { place }),
            "{body:?}"
        );
    }
}

// Protect nothing, need 0, under the chain of one purpose, `a`.
const PROTECT: &[u8] = b"\x05\0\0\0\0\0\0\0\0\0\0\0\x01\x01\x61";

// The chain of a request that has one.
fn chain_of<'a>(rt: &impl Abort, body: &'a [u8]) -> ChainView<'a>
    requires { length body.now ≤ MAX_BODY }
{
    match RequestView::read(body) {
        Ok(RequestView::Protect { chain, .. }) => chain,
        _ => panic!(rt; "no chain: {body:?}"),
    }
}

// Protect under the count and the purposes.
fn protect(alloc: Global, chain: &[u8]) -> Result<Vec<u8>, Fail> {
    let mut body = PROTECT[..9].to_vec(alloc)?;
    body.extend_from_slice(chain)?;
    Ok(body)
}

#[test]
fn kinds_with_a_chain(rt: HostRuntime) {
    let chain = chain_of(&rt, PROTECT);
    assert_eq!(rt; chain.as_bytes(), b"\0\0\0\x01\x01a".as_slice());
    let table: [(&[u8], RequestView<'_>); 6] = [
        (
            PROTECT,
            RequestView::Protect {
                need: 0,
                chain,
                plain: b"",
            },
        ),
        (
            b"\x06\0\0\0\0\0\0\0\x07\x01\0\0\0\x01\x01a\xff\0",
            RequestView::Unprotect {
                need: 7,
                allow_revoked: true,
                chain,
                payload: b"\xff\0",
            },
        ),
        (
            b"\x07\0\0\0\0\0\0\0\0\0\0\0\x01\x01a\xc3\xa9",
            RequestView::ProtectText {
                need: 0,
                chain,
                text: "é",
            },
        ),
        (
            b"\x08\0\0\0\0\0\0\0\0\0\0\0\0\x01\x01aCfDJ",
            RequestView::UnprotectText {
                need: 0,
                allow_revoked: false,
                chain,
                text: b"CfDJ",
            },
        ),
        (
            b"\x09\0\0\0\0\0\0\0\0\0\0\0\x01\x01a\0\0\0\0\0\0\0\x05p",
            RequestView::ProtectTimed {
                need: 0,
                chain,
                expiry: 5,
                plain: b"p",
            },
        ),
        (
            b"\x0a\0\0\0\0\0\0\0\0\0\0\0\0\x01\x01a",
            RequestView::UnprotectTimed {
                need: 0,
                allow_revoked: false,
                chain,
                payload: b"",
            },
        ),
    ];
    for (body, view) in table {
        assert_eq!(rt; RequestView::read(body), Ok(view), "{body:?}");
        let mut purposes = view.purposes();
        assert_eq!(rt; purposes.next(), Some("a"));
        assert_eq!(rt; purposes.next(), None);
    }
    assert_eq!(rt; RequestView::Ring { need: 1 }.purposes().next(), None);
}

// Each field of a chain, the flag, the text and the expiry.
#[test]
fn wrong_places_in_a_chain(rt: HostRuntime) {
    let table: [(&[u8], u32); 15] = [
        (b"\x05\0\0\0\0\0\0\0\0\0\0\0", 9),
        (b"\x05\0\0\0\0\0\0\0\0\0\0\0\0", 9),
        (b"\x05\0\0\0\0\0\0\0\0\0\0\0\x3d\0", 9),
        (b"\x05\0\0\0\0\0\0\0\0\0\0\0\x01", 13),
        (b"\x05\0\0\0\0\0\0\0\0\0\0\0\x01\x80\0", 13),
        (b"\x05\0\0\0\0\0\0\0\0\0\0\0\x01\x02a", 13),
        (b"\x05\0\0\0\0\0\0\0\0\0\0\0\x01\x01\xff", 13),
        (b"\x05\0\0\0\0\0\0\0\0\0\0\0\x02\x01a\x01", 15),
        (b"\x06\0\0\0\0\0\0\0\0", 9),
        (b"\x06\0\0\0\0\0\0\0\0\x02\0\0\0\x01\x01a", 9),
        (b"\x08\0\0\0\0\0\0\0\0\0\0\0\0\0", 10),
        (b"\x0a\0\0\0\0\0\0\0\0\x01\0\0\0\x01", 14),
        (b"\x07\0\0\0\0\0\0\0\0\0\0\0\x01\x01aok\xff", 15),
        (b"\x09\0\0\0\0\0\0\0\0\0\0\0\x01\x01a\0", 15),
        (b"\x05\0\0\0\0\0\0\0", 1),
    ];
    for (body, place) in table {
        assert_eq!(rt;
            RequestView::read(body),
            Err(BadRequest { place }),
            "{body:?}"
        );
    }
}

// 60 purposes, and one of 128 bytes, whose length is 80 01.
#[test]
fn long_chains(rt: HostRuntime) -> Result<(), Fail> {
    let alloc = rt.alloc();
    let mut body = protect(alloc, b"\0\0\0\x3c")?;
    for _ in 0..60 {
        body.extend_from_slice(b"\x01p")?;
    }
    assert_eq!(rt; body.len(), 133);
    assert_eq!(rt; chain_of(&rt, body.as_slice()).purposes().count(), 60);
    let mut body = protect(alloc, b"\0\0\0\x01\x80\x01")?;
    for _ in 0..128 {
        body.push(b'p')?;
    }
    assert_eq!(rt; body.len(), 143);
    let first = chain_of(&rt, body.as_slice()).purposes().next();
    assert_eq!(rt; first.map(|purpose| purpose.len()), Some(128));
    Ok(())
}

// 15,000 bytes of purposes are the most: 14,999 and one more, but no two.
#[test]
fn longest_chain(rt: HostRuntime) -> Result<(), Fail> {
    let alloc = rt.alloc();
    let mut front = protect(alloc, b"\0\0\0\x02\x97\x75")?;
    for _ in 0..14_999u32 {
        front.push(b'p')?;
    }
    assert_eq!(rt; front.len(), 15_014);
    let mut body = front.clone()?;
    body.extend_from_slice(b"\x01q")?;
    assert_eq!(rt; body.len(), 15_016);
    let last = chain_of(&rt, body.as_slice()).purposes().last();
    assert_eq!(rt; last, Some("q"));
    front.extend_from_slice(b"\x02qr")?;
    assert_eq!(rt; front.len(), 15_017);
    let told = RequestView::read(front.as_slice());
    assert_eq!(rt; told, Err(BadRequest { place: 15_014 }));
    Ok(())
}

// The name of the application comes first, where it isn't empty.
#[test]
fn used_chains(rt: HostRuntime) -> Result<(), Fail> {
    let alloc = rt.alloc();
    let table = [
        ("", b"\0\0\0\x01\x01a".as_slice()),
        ("app", b"\0\0\0\x02\x03app\x01a"),
    ];
    for (app, wanted) in table {
        let chain = chain_of(&rt, PROTECT).to_chain(alloc, app)?;
        let aad = chain.aad(alloc, &KeyId(0))?;
        assert!(rt; aad.len() > 20);
        assert_eq!(rt; &aad[20..], wanted, "{app}");
    }
    Ok(())
}

// The frame of a reply.
fn is_framed(rt: &impl Abort, alloc: Global, reply: &Reply<'_>, wanted: &[u8]) -> Result<(), Fail>
    requires { length (reply_body reply.now) < 2 ^ 32 }
{
    let mut out = Vec::new(alloc);
    put_reply(alloc, reply, &mut out)?;
    assert_eq!(rt; out.as_slice(), wanted, "{reply:?}");
    Ok(())
}

// In .NET's layout: 00 00 00 00 00 00 00 40 80 00 00 00 00 00 00 0b.
const ID: KeyId = KeyId(0x0000_0000_0000_4000_8000_0000_0000_000b);

// docs/FORMATS.md, "Replies": the kinds of OK, by request.
#[test]
#[tactic(auto, unfolding(crate::specs::Replies::reply_body, dp_base::specs::Guid::guid))]
fn replies_of_elements(rt: HostRuntime) -> Result<(), Fail> {
    let alloc = rt.alloc();
    is_framed(
        &rt,
        alloc,
        &Reply::Ring {
            front: 3,
            listing: "abc",
        },
        b"\0\0\0\x0c\0\0\0\0\0\0\0\0\x03abc",
    )?;
    is_framed(
        &rt,
        alloc,
        &Reply::Rolled { front: 4, id: ID },
        b"\0\0\0\x19\0\0\0\0\0\0\0\0\x04\0\0\0\0\0\0\0\x40\x80\0\0\0\0\0\0\x0b",
    )?;
    is_framed(
        &rt,
        alloc,
        &Reply::Revoked { front: 5 },
        b"\0\0\0\x09\0\0\0\0\0\0\0\0\x05",
    )?;
    is_framed(
        &rt,
        alloc,
        &Reply::RevokedBefore { front: 6 },
        b"\0\0\0\x09\0\0\0\0\0\0\0\0\x06",
    )?;
    Ok(())
}

// Flags: 1 for a revoked key, 2 for one that isn't the default key.
#[test]
#[tactic(auto, unfolding(crate::specs::Replies::reply_body, dp_base::specs::Guid::guid))]
fn replies_of_payloads(rt: HostRuntime) -> Result<(), Fail> {
    let alloc = rt.alloc();
    is_framed(
        &rt,
        alloc,
        &Reply::Protected {
            front: 1,
            payload: b"\x09\xf0",
        },
        b"\0\0\0\x0b\0\0\0\0\0\0\0\0\x01\x09\xf0",
    )?;
    is_framed(
        &rt,
        alloc,
        &Reply::ProtectedText {
            front: 2,
            text: "CfDJ",
        },
        b"\0\0\0\x0d\0\0\0\0\0\0\0\0\x02CfDJ",
    )?;
    is_framed(
        &rt,
        alloc,
        &Reply::ProtectedTimed {
            front: 3,
            payload: b"\x09\xf0",
        },
        b"\0\0\0\x0b\0\0\0\0\0\0\0\0\x03\x09\xf0",
    )?;
    is_framed(
        &rt,
        alloc,
        &Reply::Unprotected {
            front: 4,
            revoked: true,
            default_changed: false,
            plain: b"p",
        },
        b"\0\0\0\x0b\0\0\0\0\0\0\0\0\x04\x01p",
    )?;
    is_framed(
        &rt,
        alloc,
        &Reply::UnprotectedText {
            front: 5,
            revoked: false,
            default_changed: true,
            text: "q",
        },
        b"\0\0\0\x0b\0\0\0\0\0\0\0\0\x05\x02q",
    )?;
    is_framed(
        &rt,
        alloc,
        &Reply::UnprotectedTimed {
            front: 6,
            revoked: true,
            default_changed: true,
            expiry: 9,
            plain: b"r",
        },
        b"\0\0\0\x13\0\0\0\0\0\0\0\0\x06\x03\0\0\0\0\0\0\0\x09r",
    )?;
    Ok(())
}

#[test]
#[tactic(auto, unfolding(crate::specs::Replies::reply_body, dp_base::specs::Guid::guid))]
fn refusals_of_a_node(rt: HostRuntime) -> Result<(), Fail> {
    let alloc = rt.alloc();
    is_framed(
        &rt,
        alloc,
        &Reply::BadRequest { place: 258 },
        b"\0\0\0\x05\x01\0\0\x01\x02",
    )?;
    is_framed(&rt, alloc, &Reply::NoMemory, b"\0\0\0\x01\x02")?;
    is_framed(&rt, alloc, &Reply::StoreFault, b"\0\0\0\x01\x03")?;
    is_framed(&rt, alloc, &Reply::DrawFault, b"\0\0\0\x01\x04")?;
    is_framed(
        &rt,
        alloc,
        &Reply::WentBack { had: 2, got: 1 },
        b"\0\0\0\x11\x05\0\0\0\0\0\0\0\x02\0\0\0\0\0\0\0\x01",
    )?;
    is_framed(
        &rt,
        alloc,
        &Reply::Behind { have: 1, need: 9 },
        b"\0\0\0\x11\x06\0\0\0\0\0\0\0\x01\0\0\0\0\0\0\0\x09",
    )?;
    is_framed(
        &rt,
        alloc,
        &Reply::Forked { at: 7 },
        b"\0\0\0\x09\x07\0\0\0\0\0\0\0\x07",
    )?;
    is_framed(
        &rt,
        alloc,
        &Reply::Full { count: 16_384 },
        b"\0\0\0\x09\x08\0\0\0\0\0\0\x40\0",
    )?;
    is_framed(&rt, alloc, &Reply::BadDates, b"\0\0\0\x01\x09")?;
    assert_eq!(rt; no_memory_frame(), [0, 0, 0, 1, 2]);
    Ok(())
}

#[test]
#[tactic(auto, unfolding(crate::specs::Replies::reply_body, dp_base::specs::Guid::guid))]
fn refusals_of_a_payload(rt: HostRuntime) -> Result<(), Fail> {
    let alloc = rt.alloc();
    is_framed(
        &rt,
        alloc,
        &Reply::BadHeader { front: 1 },
        b"\0\0\0\x09\x0a\0\0\0\0\0\0\0\x01",
    )?;
    is_framed(
        &rt,
        alloc,
        &Reply::BadVersion { front: 2 },
        b"\0\0\0\x09\x0b\0\0\0\0\0\0\0\x02",
    )?;
    is_framed(
        &rt,
        alloc,
        &Reply::KeyNotFound { front: 3, id: ID },
        b"\0\0\0\x19\x0c\0\0\0\0\0\0\0\x03\0\0\0\0\0\0\0\x40\x80\0\0\0\0\0\0\x0b",
    )?;
    is_framed(
        &rt,
        alloc,
        &Reply::KeyRevoked { front: 4, id: ID },
        b"\0\0\0\x19\x0d\0\0\0\0\0\0\0\x04\0\0\0\0\0\0\0\x40\x80\0\0\0\0\0\0\x0b",
    )?;
    is_framed(
        &rt,
        alloc,
        &Reply::KeyUnusable { front: 5, id: ID },
        b"\0\0\0\x19\x0e\0\0\0\0\0\0\0\x05\0\0\0\0\0\0\0\x40\x80\0\0\0\0\0\0\x0b",
    )?;
    is_framed(
        &rt,
        alloc,
        &Reply::Tampered { front: 6 },
        b"\0\0\0\x09\x0f\0\0\0\0\0\0\0\x06",
    )?;
    is_framed(
        &rt,
        alloc,
        &Reply::Invalid { front: 7 },
        b"\0\0\0\x09\x10\0\0\0\0\0\0\0\x07",
    )?;
    is_framed(
        &rt,
        alloc,
        &Reply::Expired { front: 8, at: 1 },
        b"\0\0\0\x11\x11\0\0\0\0\0\0\0\x08\0\0\0\0\0\0\0\x01",
    )?;
    is_framed(
        &rt,
        alloc,
        &Reply::NoDefaultKey { front: 9 },
        b"\0\0\0\x09\x12\0\0\0\0\0\0\0\x09",
    )?;
    is_framed(
        &rt,
        alloc,
        &Reply::TooLong {
            front: 1,
            len: 1_000_001,
        },
        b"\0\0\0\x11\x13\0\0\0\0\0\0\0\x01\0\0\0\0\0\x0f\x42\x41",
    )?;
    is_framed(
        &rt,
        alloc,
        &Reply::BadText { front: 2 },
        b"\0\0\0\x09\x14\0\0\0\0\0\0\0\x02",
    )?;
    is_framed(
        &rt,
        alloc,
        &Reply::NotText { front: 3 },
        b"\0\0\0\x09\x15\0\0\0\0\0\0\0\x03",
    )?;
    Ok(())
}

#[test]
fn phrases(rt: HostRuntime) -> Result<(), Fail> {
    let alloc = rt.alloc();
    let zero = format!(in alloc; "{}", FrameRefused::Zero)?;
    assert_eq!(rt; zero.as_str(), "a frame has no body");
    let large = format!(in alloc; "{}", FrameRefused::TooLarge { len: 7 })?;
    assert_eq!(rt; large.as_str(), "a frame has a body of 7 bytes");
    let bad = format!(in alloc; "{}", BadRequest { place: 9 })?;
    assert_eq!(rt; bad.as_str(), "a request is wrong at byte 9");
    Ok(())
}

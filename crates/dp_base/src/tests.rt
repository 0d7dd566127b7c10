use super::*;
use std::str::FromStr;
use std::test::Fail;

// docs/FORMATS.md, "Ids": the text of an id beside its layout.
const K1: [u8; 16] = [
    0x80, 0x9c, 0x81, 0x0c, 0x19, 0x66, 0x19, 0x40, 0x95, 0x36, 0x53, 0xf8, 0xaa, 0xff, 0xee, 0x57,
];

#[test]
fn ids(rt: HostRuntime) -> Result<(), Fail> {
    let id = KeyId(0x0c81_9c80_6619_4019_9536_53f8_aaff_ee57);
    assert_eq!(rt; guid_bytes(&id), K1);
    assert_eq!(rt; key_id_from_guid(&K1), id);
    let text = key_id_text(rt.alloc(), &id)?;
    assert_eq!(rt; text.as_str(), "0c819c80-6619-4019-9536-53f8aaffee57");
    assert_eq!(rt; KeyId::from_str(text.as_str()).ok(), Some(id));
    assert_eq!(rt; KeyId::from_str("0c819c80").ok(), None);
    Ok(())
}

#[test]
fn big_endian_fields(rt: HostRuntime) {
    assert_eq!(rt; be32(0x0102_0304), [1, 2, 3, 4]);
    assert_eq!(rt; be64(0x0102_0304_0506_0708), [1, 2, 3, 4, 5, 6, 7, 8]);
    assert_eq!(rt; take_be32(&[1, 2, 3, 4, 9]), Some(0x0102_0304));
    assert_eq!(rt; take_be32(&[1, 2, 3]), None);
    assert_eq!(rt;
        take_be64(&[1, 2, 3, 4, 5, 6, 7, 8, 9]),
        Some(0x0102_0304_0506_0708)
    );
    assert_eq!(rt; take_be64(&[1, 2, 3, 4, 5, 6, 7]), None);
}

// docs/FORMATS.md, "Algorithm codes".
#[test]
fn codes(rt: HostRuntime) {
    let table = [
        (1, Alg::Cbc256(AesSize::A128)),
        (2, Alg::Cbc256(AesSize::A192)),
        (3, Alg::Cbc256(AesSize::A256)),
        (4, Alg::Cbc512(AesSize::A128)),
        (5, Alg::Cbc512(AesSize::A192)),
        (6, Alg::Cbc512(AesSize::A256)),
        (7, Alg::Gcm(AesSize::A128)),
        (8, Alg::Gcm(AesSize::A192)),
        (9, Alg::Gcm(AesSize::A256)),
    ];
    for (code, alg) in table {
        assert_eq!(rt; alg_of(code), Some(alg), "code {code}");
        assert_eq!(rt; code_of(alg), code, "code {code}");
        assert_eq!(rt; Alg::try_from(code), Ok(alg), "code {code}");
    }
    for code in [0, 10, 200, 255] {
        assert_eq!(rt; alg_of(code), None, "code {code}");
    }
}

// Two bytes a call; the call with number 1 fails and leaves what is left.
#[test]
fn reading_in_pieces(rt: HostRuntime) -> Result<(), Fail> {
    let bytes = [1, 2, 3].to_vec(rt.alloc())?;
    let mut source = MemSource::new(bytes, 2, [1].to_vec(rt.alloc())?);
    let mut buffer = [0; 4];
    assert_eq!(rt; source.read(&mut buffer), Ok(2));
    assert_eq!(rt; buffer, [1, 2, 0, 0]);
    assert_eq!(rt; source.read(&mut buffer), Err(Failed));
    assert_eq!(rt; source.read(&mut buffer), Ok(1));
    assert_eq!(rt; buffer, [3, 2, 0, 0]);
    assert_eq!(rt; source.read(&mut buffer), Ok(0));
    Ok(())
}

// Two bytes a call; the call with number 1 fails and takes nothing.
#[test]
fn writing_in_pieces(rt: HostRuntime) -> Result<(), Fail> {
    let mut sink = MemSink::new(rt.alloc(), 2, [1].to_vec(rt.alloc())?);
    assert_eq!(rt; sink.write(&[1, 2, 3]), Ok(2));
    assert_eq!(rt; sink.write(&[3]), Err(Failed));
    assert_eq!(rt; sink.write(&[3]), Ok(1));
    assert_eq!(rt; sink.write(&[]), Ok(0));
    assert_eq!(rt; sink.into_bytes().as_slice(), [1, 2, 3].as_slice());
    Ok(())
}

// docs/FORMATS.md, "Algorithm codes".
#[test]
fn lengths(rt: HostRuntime) {
    let table = [
        (Alg::Cbc256(AesSize::A128), 16, 32),
        (Alg::Cbc512(AesSize::A192), 16, 64),
        (Alg::Gcm(AesSize::A256), 12, 16),
    ];
    for (alg, iv, tag) in table {
        assert_eq!(rt; iv_len(alg), iv, "{alg:?}");
        assert_eq!(rt; tag_len(alg), tag, "{alg:?}");
    }
}

#[test]
fn sum_of_bytes(rt: HostRuntime) {
    let mut bytes = [0x0f, 0xff, 0x80];
    xor_into(&mut bytes, &[0xff, 0xff, 0x01, 0x55]);
    assert_eq!(rt; bytes, [0xf0, 0x00, 0x81]);
}

// The bytes in order; the call with number 1 fails, and one that asks for too many.
#[test]
fn drawing_from_memory(rt: HostRuntime) -> Result<(), Fail> {
    let bytes = [1, 2, 3].to_vec(rt.alloc())?;
    let mut draw = MemDraw::new(bytes, [1].to_vec(rt.alloc())?);
    let mut out = [0; 2];
    let mut taped = Taped::new(&mut draw);
    assert_eq!(rt; taped.fill(&mut out), Ok(()));
    assert_eq!(rt; out, [1, 2]);
    assert_eq!(rt; taped.fill(&mut out[..1]), Err(Failed));
    assert_eq!(rt; taped.fill(&mut out[..1]), Ok(()));
    assert_eq!(rt; taped.fill(&mut out[..1]), Err(Failed));
    assert_eq!(rt; taped.bytes(), [1, 2, 3].as_slice());
    Ok(())
}

// RFC 8439, appendix A.1, test vector #1: the key stream under a key of zeros, at counter 0.
#[test]
fn drawing_from_chacha(rt: HostRuntime) {
    let mut draw = ChaChaDraw::new([0; 32], 0);
    let mut out = [0; 6];
    assert_eq!(rt; draw.fill(&mut out), Ok(()));
    assert_eq!(rt; out, [0x76, 0xb8, 0xe0, 0xad, 0xa0, 0xf1]);
    let mut next = [0; 4];
    assert_eq!(rt; draw.fill(&mut next), Ok(()));
    assert_eq!(rt; next, [0x40, 0x5d, 0x6a, 0xe5]);
}

// Each moment, and then the last one again.
#[test]
fn moments_from_memory(rt: HostRuntime) -> Result<(), Fail> {
    let mut clock = MemClock::new([5, 7].to_vec(rt.alloc())?);
    let shown = [clock.now(), clock.now(), clock.now()];
    assert_eq!(rt; shown, [5, 7, 7]);
    let mut none = MemClock::new(Vec::new(rt.alloc()));
    assert_eq!(rt; none.now(), 0);
    Ok(())
}

// The clock of the system is past 2025, and two draws of the system differ.
#[test]
fn system_clock_and_draws(rt: HostRuntime) {
    let mut clock = SystemClock::new(&rt);
    assert!(rt; clock.now() > 638_700_000_000_000_000);
    let mut draw = OsDraw::new(&rt);
    let (mut first, mut second) = ([0; 16], [0; 16]);
    assert_eq!(rt; draw.fill(&mut first), Ok(()));
    assert_eq!(rt; draw.fill(&mut second), Ok(()));
    assert!(rt; first != second);
}

// docs/FORMATS.md, "Ids": the id of sixteen zero bytes.
#[test]
fn drawn_ids(rt: HostRuntime) -> Result<(), Fail> {
    let id = key_id_of_draw(&[0; 16]);
    let text = format!(in rt.alloc(); "{id}")?;
    assert_eq!(rt; text.as_str(), "00000000-0000-4000-8000-000000000000");
    let other = key_id_of_draw(&[0xff; 16]);
    let text = format!(in rt.alloc(); "{other}")?;
    assert_eq!(rt; text.as_str(), "ffffffff-ffff-4fff-bfff-ffffffffffff");
    Ok(())
}

#[test]
fn phrases(rt: HostRuntime) -> Result<(), Fail> {
    let failed = format!(in rt.alloc(); "{Failed}")?;
    assert_eq!(rt; failed.as_str(), "the call failed");
    let code = format!(in rt.alloc(); "{BadCode}")?;
    assert_eq!(rt; code.as_str(), "no algorithm has this code");
    let memory = format!(in rt.alloc(); "{Memory}")?;
    assert_eq!(rt; memory.as_str(), "no memory");
    Ok(())
}

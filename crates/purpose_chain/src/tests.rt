//! Chains at their limits, and the data of some (docs/FORMATS.md, "Authenticated data").

ghost use Rattle.std.specs.Prelude.{◌≤◌, length};

use super::*;
use dp_base::KeyId;
use std::alloc::Global;
use std::test::Fail;

const ID: KeyId = KeyId(0x0c81_9c80_6619_4019_9536_53f8_aaff_ee57);

// The first bytes and the id, in .NET's layout.
const HEAD: &[u8] =
    b"\x09\xf0\xc9\xf0\x80\x9c\x81\x0c\x19\x66\x19\x40\x95\x36\x53\xf8\xaa\xff\xee\x57";

// A text of so many letters.
fn letters(alloc: Global, count: usize) -> Result<String, Fail> {
    let mut text = String::new(alloc);
    for _ in 0..count {
        text.push('p')?;
    }
    Ok(text)
}

#[test]
fn data(rt: HostRuntime) -> Result<(), Fail> {
    let cases = [
        ("a", "bc", b"\x00\x00\x00\x02\x01a\x02bc".as_slice()),
        ("ab", "c", b"\x00\x00\x00\x02\x02ab\x01c"),
        ("", "", b"\x00\x00\x00\x02\x00\x00"),
        ("é", "c", b"\x00\x00\x00\x02\x02\xc3\xa9\x01c"),
    ];
    for (first, second, rest) in cases {
        let chain = Chain::new(rt.alloc(), first)?.child(rt.alloc(), second)?;
        let aad = chain.aad(rt.alloc(), &ID)?;
        assert!(rt; aad.len() > 20);
        assert_eq!(rt; &aad[..20], HEAD, "{first} {second}");
        assert_eq!(rt; &aad[20..], rest, "{first} {second}");
        assert_eq!(rt; chain.count(), 2);
    }
    Ok(())
}

// A purpose of 128 bytes has a length of two groups.
#[test]
fn long_purpose(rt: HostRuntime) -> Result<(), Fail> {
    let chain = Chain::new(rt.alloc(), letters(rt.alloc(), 128)?.as_str())?;
    let aad = chain.aad(rt.alloc(), &ID)?;
    assert_eq!(rt; aad.len(), 20 + 4 + 2 + 128);
    assert_eq!(rt; &aad[20..27], b"\x00\x00\x00\x01\x80\x01p".as_slice());
    Ok(())
}

#[test]
fn counts(rt: HostRuntime) -> Result<(), Fail> {
    let mut chain = Chain::new(rt.alloc(), "p")?;
    for count in 1..64usize {
        assert_eq!(rt; chain.count(), count);
        chain = chain.child(rt.alloc(), "p")?;
    }
    assert_eq!(rt;
        chain.child(rt.alloc(), "p").err(),
        Some(ChainRefused::TooMany)
    );
    // Too many is told first.
    let long = letters(rt.alloc(), 16_385)?;
    assert_eq!(rt;
        chain.child(rt.alloc(), long.as_str()).err(),
        Some(ChainRefused::TooMany)
    );
    assert_eq!(rt;
        chain.push(rt.alloc(), long.as_str()),
        Err(ChainRefused::TooMany)
    );
    assert_eq!(rt; chain.count(), 64);
    assert_eq!(rt; chain.bytes(), 64);
    Ok(())
}

#[test]
fn lengths(rt: HostRuntime) -> Result<(), Fail> {
    let long = letters(rt.alloc(), 16_385)?;
    let told = Chain::new(rt.alloc(), long.as_str()).err();
    assert_eq!(rt; told, Some(ChainRefused::TooLong));
    let full = letters(rt.alloc(), 16_384)?;
    let chain = Chain::new(rt.alloc(), full.as_str())?;
    assert_eq!(rt;
        chain.child(rt.alloc(), "p").err(),
        Some(ChainRefused::TooLong)
    );
    // An empty purpose takes no bytes.
    assert_eq!(rt; chain.child(rt.alloc(), "")?.bytes(), 16_384);
    let most = letters(rt.alloc(), 16_380)?;
    let mut chain = Chain::new(rt.alloc(), most.as_str())?;
    assert_eq!(rt; chain.push(rt.alloc(), "pqrst"), Err(ChainRefused::TooLong));
    assert_eq!(rt; chain.count(), 1);
    chain.push(rt.alloc(), "pqrs")?;
    assert_eq!(rt; chain.count(), 2);
    assert_eq!(rt; chain.bytes(), 16_384);
    Ok(())
}

#[test]
fn phrases(rt: HostRuntime) -> Result<(), Fail> {
    let table = [
        (ChainRefused::TooMany, "a chain has too many purposes"),
        (
            ChainRefused::TooLong,
            "the purposes of a chain are too long",
        ),
        (ChainRefused::Memory, "no memory"),
    ];
    for (refused, phrase) in table {
        assert_eq!(rt; format!(in rt.alloc(); "{refused}")?.as_str(), phrase);
    }
    Ok(())
}

//! Rows worked out by hand. Moments are days after 638,000,000,000,000,000 ticks.

use super::*;
use dp_base::{AesSize, Alg, KeyId};
use std::test::Fail;

// Made and active at day 0, and expired at day 90.
const A: KeyFacts = KeyFacts {
    id: KeyId(0x00000000_0000_4000_8000_00000000000a),
    creation: 638_000_000_000_000_000,
    activation: 638_000_000_000_000_000,
    expiration: 638_077_760_000_000_000,
    usable: true,
    revoked: false,
};

// The same dates under a greater id.
const B: KeyFacts = KeyFacts {
    id: KeyId(0x00000000_0000_4000_8000_00000000000b),
    creation: 638_000_000_000_000_000,
    activation: 638_000_000_000_000_000,
    expiration: 638_077_760_000_000_000,
    usable: true,
    revoked: false,
};

// Made at day 1, active at day 10 and expired at day 100, and revoked.
const REVOKED_B: KeyFacts = KeyFacts {
    id: KeyId(0x00000000_0000_4000_8000_00000000000b),
    creation: 638_000_864_000_000_000,
    activation: 638_008_640_000_000_000,
    expiration: 638_086_400_000_000_000,
    usable: true,
    revoked: true,
};

// Made and active at day 100, and expired at day 190.
const C: KeyFacts = KeyFacts {
    id: KeyId(0x00000000_0000_4000_8000_00000000000c),
    creation: 638_086_400_000_000_000,
    activation: 638_086_400_000_000_000,
    expiration: 638_164_160_000_000_000,
    usable: true,
    revoked: false,
};

// A alone: a new key is due 2 days before it expires.
#[test]
fn renewal(rt: HostRuntime) {
    let options = Options::default();
    let rows = [
        (638_000_000_000_000_000, Some(0), false, None),
        (638_076_031_999_999_999, Some(0), false, None),
        (638_076_032_000_000_000, Some(0), true, None),
        (638_077_759_999_999_999, Some(0), true, None),
        (638_077_760_000_000_000, None, true, Some(0)),
    ];
    for (now, preferred, renew, fallback) in rows {
        assert!(rt; now <= 638_077_760_000_000_000);
        let wanted = Policy {
            preferred,
            renew,
            fallback,
        };
        assert_eq!(rt; resolve(&[A], now, &options), wanted, "at {now}");
    }
}

// At day 120 the key made last is preferred, and lives on past the next two days.
#[test]
fn latest(rt: HostRuntime) {
    let wanted = Policy {
        preferred: Some(2),
        renew: false,
        fallback: None,
    };
    let told = resolve(
        &[A, REVOKED_B, C],
        638_103_680_000_000_000,
        &Options::default(),
    );
    assert_eq!(rt; told, wanted);
}

// Of two keys of one activation the one of the smaller id is preferred.
#[test]
fn preference(rt: HostRuntime) {
    let told = resolve(&[B, A], 638_000_000_000_000_000, &Options::default());
    assert_eq!(rt; told.preferred, Some(1));
    assert_eq!(rt; told.fallback, None);
}

// The later key is dropped, and the older one isn't preferred: it is fallen back on.
#[test]
fn fallback(rt: HostRuntime) {
    let told = resolve(
        &[A, REVOKED_B],
        638_008_640_000_000_000,
        &Options::default(),
    );
    assert_eq!(rt; told.preferred, None);
    assert!(rt; told.renew);
    assert_eq!(rt; told.fallback, Some(0));
}

// A key that is revoked, or whose algorithm is unknown, leaves nothing to fall back on.
#[test]
fn no_key(rt: HostRuntime) {
    let options = Options::default();
    let wanted = Policy {
        preferred: None,
        renew: true,
        fallback: None,
    };
    let revoked = KeyFacts { revoked: true, ..A };
    let unusable = KeyFacts { usable: false, ..A };
    assert_eq!(rt; resolve(&[], 0, &options), wanted, "no key");
    assert_eq!(rt;
        resolve(&[revoked], 638_000_000_000_000_000, &options),
        wanted,
        "revoked"
    );
    assert_eq!(rt;
        resolve(&[unusable], 638_000_000_000_000_000, &options),
        wanted,
        "unusable"
    );
}

#[test]
fn lifetimes(rt: HostRuntime) {
    let rows = [
        (6, None),
        (7, Some(6_048_000_000_000)),
        (3650, Some(3_153_600_000_000_000)),
        (3651, None),
    ];
    for (days, wanted) in rows {
        let told = match Options::new(days, false, Alg::Gcm(AesSize::A128)) {
            Ok(options) => Some(options.lifetime),
            Err(BadLifetime) => None,
        };
        assert_eq!(rt; told, wanted, "{days} days");
    }
}

#[test]
fn standard_options(rt: HostRuntime) {
    let options = Options::default();
    assert_eq!(rt; options.skew, 3_000_000_000);
    assert_eq!(rt; options.propagation, 1_728_000_000_000);
    assert_eq!(rt; options.period, 864_000_000_000);
    assert_eq!(rt; options.lifetime, 77_760_000_000_000);
    assert!(rt; options.auto);
    assert_eq!(rt; options.new_alg, Alg::Cbc256(AesSize::A256));
}

#[test]
fn phrases(rt: HostRuntime) -> Result<(), Fail> {
    let lifetime = format!(in rt.alloc(); "{BadLifetime}")?;
    assert_eq!(rt;
        lifetime.as_str(),
        "the lifetime isn't one of 7 to 3650 days"
    );
    Ok(())
}

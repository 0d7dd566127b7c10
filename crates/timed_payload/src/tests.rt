//! Expiries at their limits (docs/FORMATS.md, "Timed plaintexts").

use super::*;
use dp_base::MAX_TICKS;
use std::test::Fail;

#[test]
fn in_front(rt: HostRuntime) -> Result<(), Fail> {
    let cases: [(u64, &[u8], &[u8]); 3] = [
        (0, b"", b"\x00\x00\x00\x00\x00\x00\x00\x00"),
        (
            638_000_000_000_000_000,
            b"text",
            b"\x08\xda\xa1\x9e\xa6\xb3\x00\x00text",
        ),
        (MAX_TICKS, b"\xff", b"\x2b\xca\x28\x75\xf4\x37\x3f\xff\xff"),
    ];
    for (expiry, plain, bytes) in cases {
        let timed = with_expiry(rt.alloc(), expiry, plain)?;
        assert_eq!(rt; timed.as_slice(), bytes, "{expiry}");
        assert_eq!(rt;
            split_expiry(&timed, expiry),
            Ok((expiry, plain)),
            "{expiry}"
        );
    }
    Ok(())
}

#[test]
fn refusals(rt: HostRuntime) {
    let cases: [(&[u8], u64, TimedRefused); 6] = [
        (b"", 0, TimedRefused::Invalid),
        (b"\x00\x00\x00\x00\x00\x00\x00", 0, TimedRefused::Invalid),
        // 2^63 ticks, and one above the greatest.
        (
            b"\x80\x00\x00\x00\x00\x00\x00\x00text",
            0,
            TimedRefused::Invalid,
        ),
        (
            b"\x2b\xca\x28\x75\xf4\x37\x40\x00",
            MAX_TICKS,
            TimedRefused::Invalid,
        ),
        // A tick later than the expiry.
        (
            b"\x00\x00\x00\x00\x00\x00\x00\x05text",
            6,
            TimedRefused::Expired { at: 5 },
        ),
        (
            b"\x00\x00\x00\x00\x00\x00\x00\x00",
            MAX_TICKS,
            TimedRefused::Expired { at: 0 },
        ),
    ];
    for (bytes, now, told) in cases {
        assert_eq!(rt; split_expiry(bytes, now), Err(told), "{bytes:?} at {now}");
    }
}

#[test]
fn phrases(rt: HostRuntime) -> Result<(), Fail> {
    let table = [
        (TimedRefused::Invalid, "no expiry stands in front"),
        (TimedRefused::Expired { at: 12 }, "expired at 12"),
    ];
    for (refused, phrase) in table {
        assert_eq!(rt; format!(in rt.alloc(); "{refused}")?.as_str(), phrase);
    }
    Ok(())
}

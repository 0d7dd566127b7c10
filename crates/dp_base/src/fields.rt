//! Numbers of fixed width in records and on the wire, high byte first.

ghost use Rattle.std.specs.Prelude.{◌≡◌, ◌<◌, ◌↔◌, IfSome, IsNone, length, take};
ghost use Rattle.std.specs.Int.{w32, w64, from_be_bytes, to_be_bytes};

/// The four bytes of a number.
pub fn be32(n: u32) -> [u8; 4]
    ensures { result ≡ to_be_bytes w32 n }
{
    n.to_be_bytes()
}

/// The eight bytes of a number.
pub fn be64(n: u64) -> [u8; 8]
    ensures { result ≡ to_be_bytes w64 n }
{
    n.to_be_bytes()
}

/// The number in the first four bytes; more may follow.
pub fn take_be32(bytes: &[u8]) -> Option<u32>
    ensures few { IsNone result ↔ (length bytes.now < 4) }
    ensures value { IfSome result (λ n. n ≡ from_be_bytes w32 (take 4 bytes.now)) }
{
    match bytes {
        [a, b, c, d, ..] => Some(u32::from_be_bytes([*a, *b, *c, *d])),
        _ => None,
    }
}

/// The number in the first eight bytes; more may follow.
pub fn take_be64(bytes: &[u8]) -> Option<u64>
    ensures few { IsNone result ↔ (length bytes.now < 8) }
    ensures value { IfSome result (λ n. n ≡ from_be_bytes w64 (take 8 bytes.now)) }
{
    match bytes {
        [a, b, c, d, e, f, g, h, ..] => {
            Some(u64::from_be_bytes([*a, *b, *c, *d, *e, *f, *g, *h]))
        }
        _ => None,
    }
}

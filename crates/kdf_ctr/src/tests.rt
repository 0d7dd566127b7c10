//! Derivation over a function that anybody can work out: the sum of all bytes of the key and of the
//! message.

ghost use Rattle.std.specs.Prelude.{◌≡◌, bit_xor};
ghost use Rattle.std.specs.List.{fold};

use super::*;
use dp_base::Prf;
use std::test::Fail;

// The xor of the bytes so far.
#[derive(Drop)]
struct Sum {
    sum: u8,
}

impl Prf for Sum {
    ghost use Rattle.std.specs.Prelude.{◌≡◌, ◌∷◌, [], bit_xor};
    ghost use Rattle.std.specs.List.{fold};
    ghost use Rattle.std.proofs.Common.{lit≤, refl};

    ghost value = { λ key message. fold bit_xor (fold bit_xor 0 key) message ∷ [] };

    ghost value_len = { 1 };

    ghost holds = { λ s key message. s.sum ≡ fold bit_xor (fold bit_xor 0 key) message };

    ghost some = { lit≤ tt };

    ghost at_most = { lit≤ tt };

    ghost has_len = { λ _ _. refl };

    fn size() -> usize {
        1
    }

    fn new(key: &[u8]) -> Sum {
        Sum { sum: added(0, key) }
    }

    fn update(&mut self, piece: &[u8]) {
        self.sum = added(self.sum, piece);
    }

    fn finish(self, out: &mut [u8]) {
        out[0] = self.sum;
    }
}

// The sum and each of the bytes.
fn added(sum: u8, bytes: &[u8]) -> u8
    ensures { result ≡ fold bit_xor sum bytes.now }
{
    bytes.iter().fold(sum, |sum, byte| sum ^ byte)
}

#[test]
fn three_blocks(rt: HostRuntime) {
    let mut out = [0; 3];
    assert_eq!(rt;
        derive::<Sum>(b"\x81", b"\x40\x02", b"\x20", &mut out),
        Ok(())
    );
    // 81 ^ 40 ^ 02 ^ 20 ^ 18, where 18 is the length in bits, and the numbers of the blocks.
    assert_eq!(rt; out, [0xfa, 0xf9, 0xf8]);
}

#[test]
fn most_bytes(rt: HostRuntime) -> Result<(), Fail> {
    let mut out = Vec::from_elem(rt.alloc(), 0x55, MAX_DERIVED + 1)?;
    assert_eq!(rt; derive::<Sum>(b"", b"", b"", &mut out), Err(TooLong));
    assert!(rt; out.iter().all(|byte| *byte == 0x55));
    out.truncate(MAX_DERIVED);
    assert_eq!(rt; derive::<Sum>(b"", b"", b"", &mut out), Ok(()));
    assert_eq!(rt;
        format!(in rt.alloc(); "{TooLong}")?.as_str(),
        "more than 1,024 bytes to derive"
    );
    Ok(())
}

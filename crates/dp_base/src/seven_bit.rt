//! Numbers in groups of 7 bits (docs/FORMATS.md, "Numbers in groups of 7 bits").

ghost use Rattle.std.specs.Prelude.{◌≡◌, ℕ, ◌<◌, ◌≤◌, ◌^◌, ◌↔◌, List, ◌++◌, length, take, drop, IfOk, Ok, Err, OnOk, OnErr};
ghost use Rattle.dp_base.specs.SevenBit.{seven, seven_at, IsCut};
ghost use Rattle.dp_base.specs.Readers.{seen};
ghost use Rattle.dp_base.specs.declared.seven_bit.SevenBit.TheVariants.{Cut};

use crate::Memory;
use thiserror::Error;

/// Why bytes begin with no number in groups of 7 bits.
#[derive(Clone, Copy, Debug, PartialEq, Eq, Error)]
pub enum SevenBit {
    /// The input ends before the number does.
    #[error("the input ends in a number")]
    Cut,
    /// The number is 2^32 or more, or is written in more groups than it needs.
    #[error("a number is too large or not in its shortest form")]
    Overlong,
}

/// Adds the groups of the number, 1 to 5 bytes. Where no memory is found, nothing is added.
pub fn put_7bit(n: u32, out: &mut Vec<u8>) -> Result<(), Memory>
    ensures ok { OnOk result (out.new.items ≡ out.old.items ++ seven n) }
    ensures err { OnErr result (out.new.items ≡ out.old.items) }
{
    let mut groups = [0; 5];
    let mut count = 0;
    let mut left = n;
    while left >= 128 {
        groups[count] = (left % 128) as u8 + 128;
        left /= 128;
        count += 1;
    }
    groups[count] = left as u8;
    out.extend_from_slice(&groups[..count + 1])?;
    Ok(())
}

// The number at the front, and the bytes after it.
fn number_at(bytes: &[u8]) -> Result<(u32, &[u8]), SevenBit>
    ensures { seen (λ x. (x.0, x.1.now)) result ≡ seven_at bytes.now }
{
    let mut value = 0;
    let mut unit = 1;
    for place in 0..5 {
        if place == bytes.len() {
            return Err(SevenBit::Cut);
        }
        let group = bytes[place];
        if group < 128 {
            if (place == 4 && group > 15) || (place > 0 && group == 0) {
                return Err(SevenBit::Overlong);
            }
            let number: u64 = value + group as u64 * unit;
            return Ok((number as u32, &bytes[place + 1..]));
        }
        value += (group - 128) as u64 * unit;
        unit *= 128;
    }
    Err(SevenBit::Overlong)
}

/// Reads the number at the front, and answers how many bytes it has, 1 to 5. More bytes may follow.
pub fn take_7bit(bytes: &[u8]) -> Result<(u32, usize), SevenBit>
    ensures found { IfOk result (λ r. (r.1 ≤ length bytes.now) × (take r.1 bytes.now ≡ seven r.0)) }

    // A number at the front is read.
    ensures only { (n : ℕ) (rest : List ℕ) → n < 2 ^ 32 → bytes.now ≡ seven n ++ rest
        → result ≡ Ok (n, length (seven n)) }

    // Fewer than five bytes, each of which says that another follows; else the number is overlong.
    ensures cut { (result ≡ Err Cut) ↔ IsCut bytes.now }
    ensures exact { seen (λ r. (r.0, drop r.1 bytes.now)) result ≡ seven_at bytes.now }
{
    let (number, rest) = number_at(bytes)?;
    Ok((number, bytes.len() - rest.len()))
}

/// No number begins another: where the groups of one stand, those of no other do.
pub fn no_7bit_begins_another()
    ensures { (a b : ℕ) (x y : List ℕ) → a < 2 ^ 32 → b < 2 ^ 32
        → seven a ++ x ≡ seven b ++ y → (a ≡ b) × (x ≡ y) }
{}

#[cfg(test)]
mod tests {
    use super::*;
    use std::test::Fail;

    // docs/FORMATS.md, "Numbers in groups of 7 bits".
    #[test]
    fn numbers(rt: HostRuntime) -> Result<(), Fail> {
        let table: [(u32, &[u8]); 6] = [
            (0, &[0x00]),
            (127, &[0x7f]),
            (128, &[0x80, 0x01]),
            (16_383, &[0xff, 0x7f]),
            (16_384, &[0x80, 0x80, 0x01]),
            (u32::MAX, &[0xff, 0xff, 0xff, 0xff, 0x0f]),
        ];
        for (n, bytes) in table {
            let mut out = [9].to_vec(rt.alloc())?;
            put_7bit(n, &mut out)?;
            out.push(0xff)?;
            assert_eq!(rt; out.len(), bytes.len().saturating_add(2), "{n}");
            assert_eq!(rt; take_7bit(&out[1..]), Ok((n, bytes.len())), "{n}");
            assert!(rt;
                out.as_slice().starts_with(&[9]) && out[1..].starts_with(bytes),
                "{n}"
            );
        }
        Ok(())
    }

    #[test]
    fn refusals(rt: HostRuntime) {
        let table: [(&[u8], SevenBit); 7] = [
            (&[], SevenBit::Cut),
            (&[0x80, 0x80, 0x80, 0x80], SevenBit::Cut),
            (&[0x80, 0x80, 0x80, 0x80, 0x80], SevenBit::Overlong),
            (&[0x80, 0x80, 0x80, 0x80, 0x80, 0x01], SevenBit::Overlong),
            (&[0x80, 0x80, 0x80, 0x80, 0x10], SevenBit::Overlong),
            (&[0x80, 0x00], SevenBit::Overlong),
            (&[0xff, 0xff, 0xff, 0xff, 0x00], SevenBit::Overlong),
        ];
        for (bytes, why) in table {
            assert_eq!(rt; take_7bit(bytes), Err(why), "{bytes:?}");
        }
    }

    #[test]
    fn phrases(rt: HostRuntime) -> Result<(), Fail> {
        let table = [
            (SevenBit::Cut, "the input ends in a number"),
            (
                SevenBit::Overlong,
                "a number is too large or not in its shortest form",
            ),
        ];
        for (why, phrase) in table {
            assert_eq!(rt; format!(in rt.alloc(); "{why}")?.as_str(), phrase);
        }
        Ok(())
    }
}

//! Purposes one after the other.

ghost use Rattle.std.specs.Prelude.{◌≡◌, ◌-◌, [], option_map};
ghost use Rattle.dp_base.specs.Readers.{seen};
ghost use Rattle.dp_base.specs.SevenBit.{seven_at};
ghost use Rattle.dp_wire.specs.Chains.{purpose_front};

use dp_base::{SevenBit, take_7bit};

/// The purposes of a chain, from the general one to the special one. They are slices of the body.
#[derive(Debug, Drop)]
pub struct PurposeIter<'a> {
    // How many are left.
    count: u32,
    rest: &'a [u8],
}

// The number of bytes of the purpose at the front, and the rest.
fn length_front(bytes: &[u8]) -> Result<(u32, &[u8]), SevenBit>
    ensures { seen (λ x. (x.0, x.1.now)) result ≡ seven_at bytes.now }
{
    let (len, count) = take_7bit(bytes)?;
    Ok((len, &bytes[count..]))
}

// The purpose at the front, and the rest.
#[tactic(auto, unfolding(crate::specs::Chains::purpose_front))]
pub(crate) fn purpose_front(bytes: &[u8]) -> Option<(&str, &[u8])>
    ensures { option_map (λ x. (x.0.now, x.1.now)) result ≡ purpose_front bytes.now }
{
    let (len, rest) = match length_front(bytes) {
        Ok(found) => found,
        Err(_) => return None,
    };
    if rest.len() < len as usize {
        return None;
    }
    let (purpose, rest) = rest.split_at(len as usize);
    match str::from_utf8(purpose) {
        Ok(purpose) => Some((purpose, rest)),
        Err(_) => None,
    }
}

impl<'a> PurposeIter<'a> {
    ghost use Rattle.dp_wire.specs.Chains.{purposes_of};
    ghost use Rattle.dp_wire.specs.Purposes.{purposes_left};

    // The first purposes in the bytes.
    pub(crate) fn new(count: u32, rest: &'a [u8]) -> PurposeIter<'a>
        ensures { purposes_left result ≡ purposes_of count rest.now }
    {
        PurposeIter { count, rest }
    }

    // No purposes.
    pub(crate) fn none() -> PurposeIter<'a>
        ensures { purposes_left result ≡ [] }
    {
        PurposeIter {
            count: 0,
            rest: &[],
        }
    }
}

impl<'a> Iterator for PurposeIter<'a> {
    ghost use Rattle.std.specs.Iterator.{YieldsFirstBy, item_count};
    ghost use Rattle.dp_wire.specs.Purposes.{purposes_left};

    type Item = &'a str;

    ghost next_gives = { YieldsFirstBy (λ x. x.now) purposes_left };

    ghost remaining = { item_count purposes_left };

    fn next(&mut self) -> Option<&'a str> {
        if self.count == 0 {
            return None;
        }
        match purpose_front(self.rest) {
            Some((purpose, rest)) => {
                self.count -= 1;
                self.rest = rest;
                Some(purpose)
            }
            None => {
                self.count = 0;
                None
            }
        }
    }
}

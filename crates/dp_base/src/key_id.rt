//! Ids of keys: 128-bit numbers, their .NET layout and their text.

ghost use Rattle.std.specs.Prelude.{◌≡◌, ℕ, ◌<◌, ◌^◌, IfOk, Some, string_bytes};
ghost use Rattle.dp_base.specs.Guid.{guid, id_of_guid, key_text, drawn_id};

use crate::Memory;
use std::alloc::Global;
use std::fmt;
use std::fmt::Display;
use std::str::FromStr;
use uuid::{Builder, Uuid};

/// The id of a key: the number of its canonical bytes, high byte first. Ids are ordered as numbers.
#[derive(Clone, Copy, Debug, PartialEq, Eq, PartialOrd, Ord)]
pub struct KeyId(pub u128);

/// The sixteen bytes in .NET's layout: the canonical bytes, with the first 4, the next 2 and the
/// next 2 each in reverse.
pub fn guid_bytes(id: &KeyId) -> [u8; 16]
    ensures { result ≡ guid id.now.0 }
{
    Uuid::from_u128(id.0).to_bytes_le()
}

/// The id whose bytes in .NET's layout these are.
pub fn key_id_from_guid(bytes: &[u8; 16]) -> KeyId
    ensures value { result.0 ≡ id_of_guid bytes.now }
    ensures undoes { guid result.0 ≡ bytes.now }
{
    KeyId(Uuid::from_bytes_le(*bytes).as_u128())
}

/// Two ids of one layout are one id.
pub fn guid_one_to_one()
    ensures { (a b : ℕ) → a < 2 ^ 128 → b < 2 ^ 128 → guid a ≡ guid b → a ≡ b }
{}

/// The id of sixteen drawn bytes, a random one by RFC 9562, section 5.4.
#[tactic(auto, unfolding(crate::specs::Guid::drawn_id))]
pub fn key_id_of_draw(bytes: &[u8; 16]) -> KeyId
    ensures value { result.0 ≡ drawn_id bytes.now }
    ensures bound { result.0 < 2 ^ 128 }
{
    KeyId(Builder::from_random_bytes(*bytes).into_uuid().as_u128())
}

/// Reads an id in each text form that `uuid` reads, the hyphenated one among them.
impl FromStr for KeyId {
    ghost use Rattle.std.specs.Prelude.{◌≡◌, ◌↔◌, ℕ, List, Some, IsOk, IfOk};
    ghost use Rattle.std.specs.Int.{w128, from_be_bytes};
    ghost use Rattle.uuid.specs.Text.{parsed};

    type Err = uuid::Error;

    ghost from_str_gives = { λ text result. (IsOk result ↔ ((u : List ℕ) × (parsed text ≡ Some u)))
        × IfOk result (λ id. (u : List ℕ) × (parsed text ≡ Some u)
        × (id.0 ≡ from_be_bytes w128 u)) };

    fn from_str(text: &str) -> Result<KeyId, uuid::Error> {
        match Uuid::parse_str(text) {
            Ok(uuid) => Ok(KeyId(uuid.as_u128())),
            Err(error) => Err(error),
        }
    }
}

impl Display for KeyId {
    ghost output = { λ id. Some (key_text id.0) };

    #[tactic(auto, unfolding(crate::specs::Guid::key_text))]
    fn fmt<W: fmt::Write>(&self, f: &mut fmt::Formatter<W>) -> fmt::Result {
        Display::fmt(&Uuid::from_u128(self.0), f)
    }
}

/// The hyphenated text in lower case: 36 bytes.
pub fn key_id_text(alloc: Global, id: &KeyId) -> Result<String, Memory>
    ensures { IfOk result (λ text. string_bytes text ≡ key_text id.now.0) }
{
    let mut buffer = Uuid::encode_buffer();
    let text = Uuid::from_u128(id.0).hyphenated().encode_lower(&mut buffer);
    Ok(String::from_str(alloc, text)?)
}

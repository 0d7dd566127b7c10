//! The algorithms of a key, and their codes in records.

ghost use Rattle.std.specs.Prelude.{◌≡◌, ◌↔◌, IsNone, IsErr, IfOk, IfSome};
ghost use Rattle.dp_base.specs.Codes.{IsCode, code_of, size_place};
ghost use Rattle.dp_base.specs.Lengths.{iv_len, tag_len};

use thiserror::Error;

/// The size of an AES key (FIPS 197, section 5).
#[derive(Clone, Copy, Debug, PartialEq, Eq)]
pub enum AesSize {
    A128,
    A192,
    A256,
}

/// Encryption with validation.
#[derive(Clone, Copy, Debug, PartialEq, Eq)]
pub enum Alg {
    /// CBC with HMAC over SHA-256.
    Cbc256(AesSize),
    /// CBC with HMAC over SHA-512.
    Cbc512(AesSize),
    /// GCM, whose tag validates.
    Gcm(AesSize),
}

/// The algorithm of a code of 1 to 9; every other code has none.
pub fn alg_of(code: u8) -> Option<Alg>
    ensures none { IsNone result ↔ ¬ IsCode code }
    ensures value { IfSome result (λ alg. code_of alg ≡ code) }
{
    match code {
        1 => Some(Alg::Cbc256(AesSize::A128)),
        2 => Some(Alg::Cbc256(AesSize::A192)),
        3 => Some(Alg::Cbc256(AesSize::A256)),
        4 => Some(Alg::Cbc512(AesSize::A128)),
        5 => Some(Alg::Cbc512(AesSize::A192)),
        6 => Some(Alg::Cbc512(AesSize::A256)),
        7 => Some(Alg::Gcm(AesSize::A128)),
        8 => Some(Alg::Gcm(AesSize::A192)),
        9 => Some(Alg::Gcm(AesSize::A256)),
        _ => None,
    }
}

/// A code of no algorithm.
#[derive(Clone, Copy, Debug, PartialEq, Eq, Error)]
#[error("no algorithm has this code")]
pub struct BadCode;

impl TryFrom<u8> for Alg {
    type Error = BadCode;

    ghost try_from_gives = { λ code result.
        (IsErr result ↔ ¬ IsCode code) × IfOk result (λ alg. code_of alg ≡ code) };

    fn try_from(code: u8) -> Result<Alg, BadCode> {
        match alg_of(code) {
            Some(alg) => Ok(alg),
            None => Err(BadCode),
        }
    }
}

/// The code of an algorithm, 1 to 9.
pub fn code_of(alg: Alg) -> u8
    ensures { result ≡ code_of alg }
{
    match alg {
        Alg::Cbc256(size) => place_of(size),
        Alg::Cbc512(size) => 3 + place_of(size),
        Alg::Gcm(size) => 6 + place_of(size),
    }
}

/// The bytes of an initialization vector: a block for CBC (SP 800-38A, 5.3), and for GCM the nonce of
/// 96 bits (SP 800-38D, 5.2.1.1).
pub fn iv_len(alg: Alg) -> usize
    ensures { result ≡ iv_len alg }
{
    match alg {
        Alg::Cbc256(_) | Alg::Cbc512(_) => 16,
        Alg::Gcm(_) => 12,
    }
}

/// The bytes of a tag: those of a whole HMAC (FIPS 198-1) over the hash function, or GCM's 128 bits.
pub fn tag_len(alg: Alg) -> usize
    ensures { result ≡ tag_len alg }
{
    match alg {
        Alg::Cbc256(_) => 32,
        Alg::Cbc512(_) => 64,
        Alg::Gcm(_) => 16,
    }
}

// The place of a size among the three, from 1.
fn place_of(size: AesSize) -> u8
    ensures { result ≡ size_place size }
{
    match size {
        AesSize::A128 => 1,
        AesSize::A192 => 2,
        AesSize::A256 => 3,
    }
}

//! The rounds of the cipher (FIPS 197, 5.1) and of the equivalent inverse cipher (5.3.5) over a
//! schedule. A state is four words, one for each column, whose high byte is in the first row.
//!
//! A round here goes from before one AddRoundKey to before the next, and two rounds make a turn: a turn
//! that ends with the key has the compiler pack the columns into one vector, which costs a third.

ghost use Rattle.std.specs.Prelude.{◌≡◌, ◌+◌, ◌%◌, ◌<◌, ◌≤◌, [], ◌∷◌};
ghost use Rattle.std.specs.Int.{w32, to_be_bytes};
ghost use Rattle.aes_block.specs.Cipher.{add_round_key, cipher, inv_mix_columns, inv_shift_rows, inv_sub_bytes, mix_columns, shift_rows, sub_bytes};
ghost use Rattle.aes_block.specs.Columns.{state_bytes};
ghost use Rattle.aes_block.specs.Equivalent.{eq_inv_cipher};
ghost use Rattle.aes_block.specs.Field.{inv_sub_byte, sub_byte};

use crate::expansion::Schedule;
use crate::inv_tables::inv_mix_substituted;
use crate::s_box::{inv_sub_byte, sub_byte};
use crate::tables::mix_substituted;

// Enciphers a block.
pub(crate) fn cipher(block: &mut [u8; 16], words: &Schedule, rounds: usize)
    requires even { rounds % 2 ≡ 0 }
    requires some { 2 ≤ rounds }
    requires few { rounds < 15 }
    ensures { block.new ≡ cipher block.old rounds words.now }
{
    let mut state = columns(block);
    for turn in 0..rounds / 2 - 1 {
        state = round(round(state, words, 2 * turn), words, 2 * turn + 1);
    }
    let mixed = round(state, words, rounds - 2);
    let shifted = last_round(mixed, words, rounds - 1);
    let enciphered = bytes(add_round_key(shifted, words, rounds));
    *block = enciphered;
}

// Deciphers a block by the inverse schedule.
pub(crate) fn eq_inv_cipher(block: &mut [u8; 16], inverse: &Schedule, rounds: usize)
    requires even { rounds % 2 ≡ 0 }
    requires some { 2 ≤ rounds }
    requires few { rounds < 15 }
    ensures { block.new ≡ eq_inv_cipher block.old rounds inverse.now }
{
    let mut state = columns(block);
    for turn in 0..rounds / 2 - 1 {
        let above = rounds - 2 * turn;
        state = inv_round(inv_round(state, inverse, above), inverse, above - 1);
    }
    let mixed = inv_round(state, inverse, 2);
    let shifted = last_inv_round(mixed, inverse, 1);
    let deciphered = bytes(add_round_key(shifted, inverse, 0));
    *block = deciphered;
}

// A column takes row j from j columns to the right, as ShiftRows moves it.
#[inline(always)]
fn round(state: [u32; 4], words: &Schedule, r: usize) -> [u32; 4]
    requires { r < 15 }
    ensures { state_bytes result
        ≡ mix_columns (shift_rows (sub_bytes (add_round_key (state_bytes state) words.now r))) }
{
    let keyed = add_round_key(state, words, r);
    let d = keyed[3].to_be_bytes();
    let c = keyed[2].to_be_bytes();
    let b = keyed[1].to_be_bytes();
    let a = keyed[0].to_be_bytes();
    let last = mix_substituted(d[0], a[1], b[2], c[3]);
    let third = mix_substituted(c[0], d[1], a[2], b[3]);
    let second = mix_substituted(b[0], c[1], d[2], a[3]);
    let first = mix_substituted(a[0], b[1], c[2], d[3]);
    [first, second, third, last]
}

// The last round has no MixColumns.
#[inline(always)]
fn last_round(state: [u32; 4], words: &Schedule, r: usize) -> [u32; 4]
    requires { r < 15 }
    ensures { state_bytes result
        ≡ shift_rows (sub_bytes (add_round_key (state_bytes state) words.now r)) }
{
    let keyed = add_round_key(state, words, r);
    let d = keyed[3].to_be_bytes();
    let c = keyed[2].to_be_bytes();
    let b = keyed[1].to_be_bytes();
    let a = keyed[0].to_be_bytes();
    [
        substituted(a[0], b[1], c[2], d[3]),
        substituted(b[0], c[1], d[2], a[3]),
        substituted(c[0], d[1], a[2], b[3]),
        substituted(d[0], a[1], b[2], c[3]),
    ]
}

// A column takes row j from j columns to the left, as InvShiftRows moves it.
#[inline(always)]
fn inv_round(state: [u32; 4], inverse: &Schedule, r: usize) -> [u32; 4]
    requires { r < 15 }
    ensures { state_bytes result ≡ inv_mix_columns
        (inv_shift_rows (inv_sub_bytes (add_round_key (state_bytes state) inverse.now r))) }
{
    let keyed = add_round_key(state, inverse, r);
    let d = keyed[3].to_be_bytes();
    let c = keyed[2].to_be_bytes();
    let b = keyed[1].to_be_bytes();
    let a = keyed[0].to_be_bytes();
    let last = inv_mix_substituted(d[0], c[1], b[2], a[3]);
    let third = inv_mix_substituted(c[0], b[1], a[2], d[3]);
    let second = inv_mix_substituted(b[0], a[1], d[2], c[3]);
    let first = inv_mix_substituted(a[0], d[1], c[2], b[3]);
    [first, second, third, last]
}

// The last round of the inverse has no InvMixColumns.
#[inline(always)]
fn last_inv_round(state: [u32; 4], inverse: &Schedule, r: usize) -> [u32; 4]
    requires { r < 15 }
    ensures { state_bytes result
        ≡ inv_shift_rows (inv_sub_bytes (add_round_key (state_bytes state) inverse.now r)) }
{
    let keyed = add_round_key(state, inverse, r);
    let d = keyed[3].to_be_bytes();
    let c = keyed[2].to_be_bytes();
    let b = keyed[1].to_be_bytes();
    let a = keyed[0].to_be_bytes();
    [
        inv_substituted(a[0], d[1], c[2], b[3]),
        inv_substituted(b[0], a[1], d[2], c[3]),
        inv_substituted(c[0], b[1], a[2], d[3]),
        inv_substituted(d[0], c[1], b[2], a[3]),
    ]
}

// AddRoundKey, with the words 4 r to 4 r + 3 of a schedule.
#[inline(always)]
fn add_round_key(state: [u32; 4], words: &Schedule, r: usize) -> [u32; 4]
    requires { r < 15 }
    ensures { state_bytes result ≡ add_round_key (state_bytes state) words.now r }
{
    [
        state[0] ^ words[4 * r],
        state[1] ^ words[4 * r + 1],
        state[2] ^ words[4 * r + 2],
        state[3] ^ words[4 * r + 3],
    ]
}

// SubBytes of a column, from the bytes in its rows.
#[inline(always)]
fn substituted(a: u8, b: u8, c: u8, d: u8) -> u32
    ensures { to_be_bytes w32 result ≡ sub_byte a ∷ sub_byte b ∷ sub_byte c ∷ sub_byte d ∷ [] }
{
    u32::from_be_bytes([sub_byte(a), sub_byte(b), sub_byte(c), sub_byte(d)])
}

// InvSubBytes of a column, from the bytes in its rows.
#[inline(always)]
fn inv_substituted(a: u8, b: u8, c: u8, d: u8) -> u32
    ensures { to_be_bytes w32 result
        ≡ inv_sub_byte a ∷ inv_sub_byte b ∷ inv_sub_byte c ∷ inv_sub_byte d ∷ [] }
{
    u32::from_be_bytes([
        inv_sub_byte(a),
        inv_sub_byte(b),
        inv_sub_byte(c),
        inv_sub_byte(d),
    ])
}

// The columns of a block.
#[inline(always)]
fn columns(block: &[u8; 16]) -> [u32; 4]
    ensures { state_bytes result ≡ block.now }
{
    [
        u32::from_be_bytes([block[0], block[1], block[2], block[3]]),
        u32::from_be_bytes([block[4], block[5], block[6], block[7]]),
        u32::from_be_bytes([block[8], block[9], block[10], block[11]]),
        u32::from_be_bytes([block[12], block[13], block[14], block[15]]),
    ]
}

// The bytes of the columns. Whole words are copied, since bytes would be stored one by one.
#[inline(always)]
fn bytes(state: [u32; 4]) -> [u8; 16]
    ensures { result ≡ state_bytes state }
{
    let mut block = [0; 16];
    block[..4].copy_from_slice(&state[0].to_be_bytes());
    block[4..8].copy_from_slice(&state[1].to_be_bytes());
    block[8..12].copy_from_slice(&state[2].to_be_bytes());
    block[12..].copy_from_slice(&state[3].to_be_bytes());
    block
}

//! The key expansion (FIPS 197, 5.2) into words, each with its high byte first, and that of the
//! equivalent inverse cipher (5.3.5).

ghost use Rattle.std.specs.Prelude.{◌≡◌, ◌+◌, ◌*◌, ◌<◌, ◌≤◌, length, take};
ghost use Rattle.std.specs.Int.{w32, to_be_bytes};
ghost use Rattle.aes_block.specs.Columns.{column_product};
ghost use Rattle.aes_block.specs.Equivalent.{IsInverseSchedule};
ghost use Rattle.aes_block.specs.KeyExpansion.{IsKeyLength, added_word, key_expansion, next_word, rcon, round_count, sub_word};

use crate::inv_tables::inv_mix_substituted;
use crate::s_box::sub_byte;

// The words of a key's rounds, in front of words that no round takes.
pub(crate) type Schedule = [u32; 60];

// Rcon 1, …, Rcon 10 (FIPS 197, 5.2, table 5).
#[rattlefmt::skip]
const RCON: [u32; 10] = [
    0x0100_0000, 0x0200_0000, 0x0400_0000, 0x0800_0000, 0x1000_0000,
    0x2000_0000, 0x4000_0000, 0x8000_0000, 0x1b00_0000, 0x3600_0000,
];

fn rcon(j: usize) -> u32
    requires low { 1 ≤ j }
    requires high { j ≤ 10 }
    ensures { result ≡ rcon j }
{
    RCON[j - 1]
}

// SubWord.
fn sub_word(word: u32) -> u32
    ensures { result ≡ sub_word word }
{
    let b = word.to_be_bytes();
    u32::from_be_bytes([
        sub_byte(b[0]),
        sub_byte(b[1]),
        sub_byte(b[2]),
        sub_byte(b[3]),
    ])
}

// What word i adds to the word `key_words` before it, from the word before it.
fn added_word(key_words: usize, i: usize, before: u32) -> u32
    requires some { 0 < key_words }
    requires begun { key_words ≤ i }
    requires within { i < 11 * key_words }
    ensures { result ≡ added_word key_words i before }
{
    if i % key_words == 0 {
        sub_word(before.rotate_left(8)) ^ rcon(i / key_words)
    } else if key_words > 6 && i % key_words == 4 {
        sub_word(before)
    } else {
        before
    }
}

// Word i, from the words before it.
fn next_word(key: &[u8], words: &Schedule, i: usize) -> u32
    requires sized { IsKeyLength (length key.now) }
    requires within { i < 4 * (round_count key.now + 1) }
    ensures { result ≡ next_word key.now words.now i }
{
    let key_words = key.len() / 4;
    if i < key_words {
        u32::from_be_bytes([key[4 * i], key[4 * i + 1], key[4 * i + 2], key[4 * i + 3]])
    } else {
        words[i - key_words] ^ added_word(key_words, i, words[i - 1])
    }
}

// The schedule of a key with so many rounds.
pub(crate) fn key_expansion(key: &[u8], rounds: usize) -> Schedule
    requires sized { IsKeyLength (length key.now) }
    requires counted { rounds ≡ round_count key.now }
    ensures { take (4 * (rounds + 1)) result ≡ key_expansion key.now }
{
    let mut words = [0; 60];
    for i in 0..4 * (rounds + 1) {
        words[i] = next_word(key, &words, i);
    }
    words
}

// InvMixColumns of a column. The table's substitution is undone first.
fn inv_mix_column(word: u32) -> u32
    ensures { to_be_bytes w32 result ≡ column_product 14 9 13 11 (to_be_bytes w32 word) }
{
    let b = word.to_be_bytes();
    inv_mix_substituted(
        sub_byte(b[0]),
        sub_byte(b[1]),
        sub_byte(b[2]),
        sub_byte(b[3]),
    )
}

// The inverse schedule: the round keys between the first and the last are mixed.
pub(crate) fn key_expansion_eic(words: &Schedule, rounds: usize) -> Schedule
    requires some { 1 ≤ rounds }
    requires few { rounds < 15 }
    ensures { IsInverseSchedule words.now result rounds }
{
    let mut inverse = *words;
    for i in 4..4 * rounds {
        inverse[i] = inv_mix_column(words[i]);
    }
    inverse
}

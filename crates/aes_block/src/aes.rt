//! AES under a key.

ghost use Rattle.std.specs.Prelude.{◌≡◌, ◌↔◌, length, IsOk, IfOk};
ghost use Rattle.aes_block.specs.KeyExpansion.{IsKeyLength};

use crate::expansion::{Schedule, key_expansion, key_expansion_eic};
use crate::rounds::{cipher, eq_inv_cipher};
use dp_base::BlockCipher;
use std::marker::Model;
use thiserror::Error;

/// The length of a key isn't 16, 24 or 32 bytes.
#[derive(Clone, Copy, Debug, PartialEq, Eq, Error)]
#[error("a key of AES has 16, 24 or 32 bytes")]
pub struct BadKeyLength;

/// AES under one key (FIPS 197), which is expanded once for each way.
///
/// It reads tables at places that depend on the key and the text, so its time may tell of both to who
/// shares the machine: it doesn't run in constant time.
#[derive(Drop)]
pub struct Aes {
    // The schedule of the key.
    words: Schedule,
    // The schedule of the equivalent inverse cipher.
    inverse: Schedule,
    // 10, 12 or 14.
    rounds: usize,
}

// Clauses see the bytes of the key.
impl Model for Aes {
    ghost use Rattle.std.specs.Prelude.{ℕ, List};
    ghost use Rattle.aes_block.specs.Aes.{IsExpanded, key_of};

    ghost Value = { List ℕ };

    ghost view = { λ a. key_of a.words a.rounds };

    ghost invariant = { λ a. IsExpanded a.words a.inverse a.rounds };
}

impl Aes {
    /// Expands a key of 16, 24 or 32 bytes. Takes no memory.
    pub fn new(key: &[u8]) -> Result<Aes, BadKeyLength>
        ensures ok { IsOk result ↔ IsKeyLength (length key.now) }
        ensures value { IfOk result (λ aes. aes ≡ key.now) }
    {
        match key.len() {
            16 | 24 | 32 => {
                let rounds = key.len() / 4 + 6;
                let words = key_expansion(key, rounds);
                let inverse = key_expansion_eic(&words, rounds);
                Ok(Aes {
                    words,
                    inverse,
                    rounds,
                })
            }
            _ => Err(BadKeyLength),
        }
    }
}

// Both ways are the standard's under the key.
impl BlockCipher for Aes {
    ghost use Rattle.aes_block.specs.Cipher.{aes_cipher, aes_decipher};
    ghost use Rattle.aes_block.specs.Laws.{IsBlock-aes_cipher, IsBlock-aes_decipher, aes_cipher-aes_decipher, aes_decipher-aes_cipher};

    ghost cipher = { aes_cipher };

    ghost decipher = { aes_decipher };

    fn encrypt_block(&self, block: &mut [u8; 16]) {
        cipher(block, &self.words, self.rounds);
    }

    fn decrypt_block(&self, block: &mut [u8; 16]) {
        eq_inv_cipher(block, &self.inverse, self.rounds);
    }

    ghost enciphers = { IsBlock-aes_cipher };

    ghost deciphers = { IsBlock-aes_decipher };

    ghost undoes = { aes_decipher-aes_cipher };

    ghost redoes = { aes_cipher-aes_decipher };
}

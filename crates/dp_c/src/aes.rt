//! AES on one block.

ghost use Rattle.std.specs.Prelude.{◌≡◌, ◌≢◌, ◌↔◌, length};
ghost use Rattle.aes_block.specs.Cipher.{aes_cipher, aes_decipher};
ghost use Rattle.aes_block.specs.KeyExpansion.{IsKeyLength};
ghost use Rattle.dp_c.specs.declared.answer.TheConstants.{BAD_KEY_LENGTH, DONE};

use crate::answer::{BAD_KEY_LENGTH, DONE};
use aes_block::Aes;
use dp_base::BlockCipher;

/// Enciphers the block in place, under a key of 16, 24 or 32 bytes.
#[unsafe(no_mangle)]
pub extern "C" fn dp_aes_encrypt(key: &[u8], block: &mut [u8; 16]) -> u32
    ensures known { (result ≡ DONE) ↔ IsKeyLength (length key.now) }
    ensures bad_key_length { (result ≡ BAD_KEY_LENGTH) ↔ ¬ (IsKeyLength (length key.now)) }
    ensures block { result ≡ DONE → block.new ≡ aes_cipher key.now block.old }
    ensures unchanged { result ≢ DONE → block.new ≡ block.old }
{
    match Aes::new(key) {
        Ok(aes) => {
            aes.encrypt_block(block);
            DONE
        }
        Err(_) => BAD_KEY_LENGTH,
    }
}

/// Deciphers the block in place, under a key of 16, 24 or 32 bytes.
#[unsafe(no_mangle)]
pub extern "C" fn dp_aes_decrypt(key: &[u8], block: &mut [u8; 16]) -> u32
    ensures known { (result ≡ DONE) ↔ IsKeyLength (length key.now) }
    ensures bad_key_length { (result ≡ BAD_KEY_LENGTH) ↔ ¬ (IsKeyLength (length key.now)) }
    ensures block { result ≡ DONE → block.new ≡ aes_decipher key.now block.old }
    ensures unchanged { result ≢ DONE → block.new ≡ block.old }
{
    match Aes::new(key) {
        Ok(aes) => {
            aes.decrypt_block(block);
            DONE
        }
        Err(_) => BAD_KEY_LENGTH,
    }
}

//! Cipher block chaining in place (SP 800-38A, 6.2).

ghost use Rattle.std.specs.Prelude.{◌≡◌, ◌%◌, length};
ghost use Rattle.dp_base.specs.Blocks.{xor_bytes};
ghost use Rattle.cbc_mode.specs.Cbc.{ciphertext, plaintext};

use dp_base::{BlockCipher, xor_into};

// Enciphers whole blocks from the front.
pub fn encrypt_blocks<B: BlockCipher>(cipher: &B, iv: &[u8; 16], bytes: &mut [u8])
    requires { length bytes.old % 16 ≡ 0 }
    ensures { bytes.new ≡ ciphertext (B.cipher cipher.now) iv.now bytes.old }
{
    let mut before = *iv;
    for i in 0..bytes.len() / 16 {
        let block = &mut bytes[16 * i..16 * i + 16];
        encrypt_next(cipher, &mut before, block);
    }
}

// Deciphers whole blocks from the front.
pub fn decrypt_blocks<B: BlockCipher>(cipher: &B, iv: &[u8; 16], bytes: &mut [u8])
    requires { length bytes.old % 16 ≡ 0 }
    ensures { bytes.new ≡ plaintext (B.decipher cipher.now) iv.now bytes.old }
{
    let mut before = *iv;
    for i in 0..bytes.len() / 16 {
        let block = &mut bytes[16 * i..16 * i + 16];
        decrypt_next(cipher, &mut before, block);
    }
}

// Enciphers the block after the block before it, and is then before the next.
fn encrypt_next<B: BlockCipher>(cipher: &B, before: &mut [u8; 16], block: &mut [u8])
    requires { length block.old ≡ 16 }
    ensures block { block.new ≡ B.cipher cipher.now (xor_bytes block.old before.old) }
    ensures before { before.new ≡ block.new }
{
    xor_into(before, block);
    cipher.encrypt_block(before);
    block.copy_from_slice(before);
}

// Deciphers the block after the block before it, which it is then before the next.
fn decrypt_next<B: BlockCipher>(cipher: &B, before: &mut [u8; 16], block: &mut [u8])
    requires { length block.old ≡ 16 }
    ensures block { block.new ≡ xor_bytes (B.decipher cipher.now block.old) before.old }
    ensures before { before.new ≡ block.old }
{
    let mut text = [0; 16];
    text.copy_from_slice(block);
    cipher.decrypt_block(&mut text);
    xor_into(&mut text, before);
    before.copy_from_slice(block);
    block.copy_from_slice(&text);
}

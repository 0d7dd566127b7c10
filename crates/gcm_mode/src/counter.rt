//! Counter mode in place (SP 800-38D, 6.5).

ghost use Rattle.std.specs.Prelude.{◌≡◌, ◌<◌, ◌^◌, length};
ghost use Rattle.gcm_mode.specs.Ctr.{counter_block, ctr};

use dp_base::{BlockCipher, be32, xor_into};

// Enciphers the bytes, or deciphers them, from the counter 2 on.
pub fn encipher<B: BlockCipher>(cipher: &B, nonce: &[u8; 12], bytes: &mut [u8])
    requires { length bytes.old < 2 ^ 32 }
    ensures { bytes.new ≡ ctr (B.cipher cipher.now) nonce.now bytes.old }
{
    let whole = bytes.len() / 16;
    for i in 0..whole {
        let stream = stream_block(cipher, nonce, 2 + i as u32);
        xor_into(&mut bytes[16 * i..16 * i + 16], &stream);
    }
    if 16 * whole < bytes.len() {
        let stream = stream_block(cipher, nonce, 2 + whole as u32);
        xor_into(&mut bytes[16 * whole..], &stream);
    }
}

// What the cipher makes of the counter block of the number.
pub fn stream_block<B: BlockCipher>(cipher: &B, nonce: &[u8; 12], number: u32) -> [u8; 16]
    ensures { result ≡ B.cipher cipher.now (counter_block nonce.now number) }
{
    let mut block = [0; 16];
    block[..12].copy_from_slice(nonce);
    block[12..].copy_from_slice(&be32(number));
    cipher.encrypt_block(&mut block);
    block
}

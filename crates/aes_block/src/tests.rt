//! The example vectors of FIPS 197, appendix C, as the edition of 2001 prints them.

use crate::{Aes, BadKeyLength};
use dp_base::BlockCipher;
use std::test::Fail;

const PLAIN: [u8; 16] = [
    0x00, 0x11, 0x22, 0x33, 0x44, 0x55, 0x66, 0x77, 0x88, 0x99, 0xaa, 0xbb, 0xcc, 0xdd, 0xee, 0xff,
];

// Keys are its first bytes.
const KEY: [u8; 32] = [
    0, 1, 2, 3, 4, 5, 6, 7, 8, 9, 10, 11, 12, 13, 14, 15, 16, 17, 18, 19, 20, 21, 22, 23, 24, 25,
    26, 27, 28, 29, 30, 31,
];

#[test]
fn vectors(rt: HostRuntime) -> Result<(), Fail> {
    let cases = [
        (
            &KEY[..16],
            [
                0x69, 0xc4, 0xe0, 0xd8, 0x6a, 0x7b, 0x04, 0x30, 0xd8, 0xcd, 0xb7, 0x80, 0x70, 0xb4,
                0xc5, 0x5a,
            ],
        ),
        (
            &KEY[..24],
            [
                0xdd, 0xa9, 0x7c, 0xa4, 0x86, 0x4c, 0xdf, 0xe0, 0x6e, 0xaf, 0x70, 0xa0, 0xec, 0x0d,
                0x71, 0x91,
            ],
        ),
        (
            &KEY[..32],
            [
                0x8e, 0xa2, 0xb7, 0xca, 0x51, 0x67, 0x45, 0xbf, 0xea, 0xfc, 0x49, 0x90, 0x4b, 0x49,
                0x60, 0x89,
            ],
        ),
    ];
    for (key, enciphered) in cases {
        let aes = Aes::new(key)?;
        is_shared(&aes);
        let mut block = PLAIN;
        aes.encrypt_block(&mut block);
        assert_eq!(rt; block, enciphered, "enciphered under {} bytes", key.len());
        aes.decrypt_block(&mut block);
        assert_eq!(rt; block, PLAIN, "deciphered under {} bytes", key.len());
    }
    Ok(())
}

// Threads may share a cipher.
fn is_shared<T: Send + Sync>(_: &T) {}

#[test]
fn other_lengths_are_refused(rt: HostRuntime) {
    for key in [&KEY[..0], &KEY[..15], &KEY[..17], &KEY[..31]] {
        assert_eq!(rt;
            Aes::new(key).err(),
            Some(BadKeyLength),
            "{} bytes",
            key.len()
        );
    }
}

#[test]
fn phrases(rt: HostRuntime) -> Result<(), Fail> {
    let phrase = format!(in rt.alloc(); "{BadKeyLength}")?;
    assert_eq!(rt; phrase.as_str(), "a key of AES has 16, 24 or 32 bytes");
    Ok(())
}

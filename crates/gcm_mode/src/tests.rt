//! Published products and hashes, the product by tables beside the standard's, and sealing under a
//! cipher that adds one byte to each, so that a text shows the counters and the tag.

use super::*;
use crate::product::{next_multiple, number_of};
use dp_base::{BlockCipher, xor_into};
use std::test::Fail;

// Each byte of a block xor 66.
struct Masked;

impl BlockCipher for Masked {
    ghost use Rattle.std.proofs.Common.{lit<, refl, replicate};
    ghost use Rattle.dp_base.specs.Blocks.{xor_bytes};
    ghost use Rattle.dp_base.proofs.Parts.{AreBytes-replicate};
    ghost use Rattle.dp_base.proofs.Sums.{IsBlock-xor, xor_bytes-twice};

    ghost cipher = { λ _ block. xor_bytes block (replicate 16 0x66) };

    ghost decipher = { λ _ block. xor_bytes block (replicate 16 0x66) };

    ghost enciphers = { λ _ b is. IsBlock-xor b (replicate 16 0x66) is (refl, AreBytes-replicate 16 0x66 (lit< tt)) };

    ghost deciphers = { λ _ b is. IsBlock-xor b (replicate 16 0x66) is (refl, AreBytes-replicate 16 0x66 (lit< tt)) };

    ghost undoes = { λ _ b is. xor_bytes-twice b (replicate 16 0x66) is.0 };

    ghost redoes = { λ _ b is. xor_bytes-twice b (replicate 16 0x66) is.0 };

    fn encrypt_block(&self, block: &mut [u8; 16]) {
        xor_into(block, &[0x66; 16]);
    }

    fn decrypt_block(&self, block: &mut [u8; 16]) {
        xor_into(block, &[0x66; 16]);
    }
}

const NONCE: [u8; 12] = *b"\xca\xfe\xba\xbe\xfa\xce\xdb\xad\xde\xca\xf8\x88";

const AAD: &[u8] =
    b"\xfe\xed\xfa\xce\xde\xad\xbe\xef\xfe\xed\xfa\xce\xde\xad\xbe\xef\xab\xad\xda\xd2";

// The product as the standard has it (SP 800-38D, 6.3, algorithm 1): bit by bit.
fn product_by_bits(x: u128, y: u128) -> u128 {
    let mut z = 0;
    let mut v = y;
    for i in 0..128u32 {
        if (x >> (127 - i)) % 2 == 1 {
            z ^= v;
        }
        v = next_multiple(v);
    }
    z
}

const H_2: &[u8; 16] = b"\x66\xe9\x4b\xd4\xef\x8a\x2c\x3b\x88\x4c\xfa\x59\xca\x34\x2b\x2e";

// Test case 2 of "The Galois/Counter Mode of Operation (GCM)" by McGrew and Viega: the enciphered block
// times H is X 1, and X 1 xor the lengths, times H, is the hash.
#[test]
fn published_products(rt: HostRuntime) {
    let cases = [
        (
            0x0388_dace_60b6_a392_f328_c2b9_71b2_fe78u128,
            0x5e2e_c746_9170_6288_2c85_b068_5353_deb7u128,
        ),
        (
            0x5e2e_c746_9170_6288_2c85_b068_5353_de37,
            0xf38c_bb1a_d692_23dc_c345_7ae5_b6b0_f885,
        ),
    ];
    let key = GhashKey::new(H_2);
    for (x, product) in cases {
        assert_eq!(rt; key.product(x), product, "{x:x}");
        assert_eq!(rt;
            product_by_bits(x, number_of(H_2)),
            product,
            "{x:x} bit by bit"
        );
    }
}

// Every digit in every place, and products of products.
#[test]
fn products_by_tables(rt: HostRuntime) {
    for h in [H_2, &[0; 16], &[255; 16], b"a block as a key"] {
        let key = GhashKey::new(h);
        let y = number_of(h);
        for place in 0..32u32 {
            for digit in 0..16u32 {
                let x = u128::from(digit) << (4 * place);
                assert_eq!(rt; key.product(x), product_by_bits(x, y), "{digit} at {place}");
            }
        }
        let mut x = 1;
        for turn in 0..64u32 {
            let next = product_by_bits(x, y);
            assert_eq!(rt; key.product(x), next, "turn {turn}");
            x = next ^ u128::from(turn);
        }
    }
}

#[derive(Drop)]
struct Hashed {
    h: &'static [u8; 16],
    aad: &'static [u8],
    text: &'static [u8],
    hash: &'static [u8; 16],
}

// Test cases 1, 2 and 4 of "The Galois/Counter Mode of Operation (GCM)" by McGrew and Viega.
#[test]
fn published_hashes(rt: HostRuntime) {
    let cases = [
        Hashed {
            h: b"\x66\xe9\x4b\xd4\xef\x8a\x2c\x3b\x88\x4c\xfa\x59\xca\x34\x2b\x2e",
            aad: b"",
            text: b"",
            hash: &[0; 16],
        },
        Hashed {
            h: b"\x66\xe9\x4b\xd4\xef\x8a\x2c\x3b\x88\x4c\xfa\x59\xca\x34\x2b\x2e",
            aad: b"",
            text: b"\x03\x88\xda\xce\x60\xb6\xa3\x92\xf3\x28\xc2\xb9\x71\xb2\xfe\x78",
            hash: b"\xf3\x8c\xbb\x1a\xd6\x92\x23\xdc\xc3\x45\x7a\xe5\xb6\xb0\xf8\x85",
        },
        Hashed {
            h: b"\xb8\x3b\x53\x37\x08\xbf\x53\x5d\x0a\xa6\xe5\x29\x80\xd5\x3b\x78",
            aad: AAD,
            text: b"\x42\x83\x1e\xc2\x21\x77\x74\x24\x4b\x72\x21\xb7\x84\xd0\xd4\x9c\
                \xe3\xaa\x21\x2f\x2c\x02\xa4\xe0\x35\xc1\x7e\x23\x29\xac\xa1\x2e\
                \x21\xd5\x14\xb2\x54\x66\x93\x1c\x7d\x8f\x6a\x5a\xac\x84\xaa\x05\
                \x1b\xa3\x0b\x39\x6a\x0a\xac\x97\x3d\x58\xe0\x91",
            hash: b"\x69\x8e\x57\xf7\x0e\x6e\xcc\x7f\xd9\x46\x3b\x72\x60\xa9\xae\x5f",
        },
    ];
    for case in &cases {
        assert_eq!(rt;
            &ghash(case.h, case.aad, case.text),
            case.hash,
            "{:?}",
            case.text
        );
    }
}

#[derive(Drop)]
struct Sealed {
    text: &'static [u8],
    enciphered: &'static [u8],
    tag: &'static [u8; 16],
}

// Worked out by a few lines of Python that agree with its `cryptography` under AES.
#[test]
fn texts(rt: HostRuntime) -> Result<(), Fail> {
    let cases = [
        Sealed {
            text: b"",
            enciphered: b"",
            tag: b"\x37\x09\x1c\x0c\xae\x23\x71\xeb\xa8\xa9\x6d\xac\x9c\x43\x84\x49",
        },
        Sealed {
            text: b"chained blocks, ",
            enciphered: b"\xcf\xf0\xbd\xb1\xf2\xcd\xd9\xeb\xda\xc0\xf1\x8d\x0d\x15\x4a\x44",
            tag: b"\x09\xb0\x3f\x18\x1e\x92\x80\x1b\xd8\xeb\x8c\xc5\x48\xfc\x23\x17",
        },
        Sealed {
            text: b"counter mode, piece after piece, 3",
            enciphered: b"\xcf\xf7\xa9\xb6\xe8\xcd\xcf\xeb\xd5\xc3\xfa\x8b\x4a\x46\x16\x0d\
                \xc9\xfb\xb9\xf8\xfd\xce\xc9\xae\xca\x8c\xee\x87\x03\x05\x03\x49\x8c\xab",
            tag: b"\x7d\xbd\xf8\x07\xbf\x15\x0e\x6d\x3f\x42\xc1\x97\x0b\xe2\xc8\x4a",
        },
    ];
    for case in &cases {
        let text = case.text;
        let enciphered = case.enciphered;
        let tag = case.tag;
        let mut whole = enciphered.to_vec(rt.alloc())?;
        whole.extend_from_slice(tag)?;
        let sealed = gcm_seal(rt.alloc(), &Masked, &NONCE, AAD, text)?;
        assert_eq!(rt; sealed.as_slice(), whole.as_slice(), "sealing {text:?}");
        let opened = gcm_open(rt.alloc(), &Masked, &NONCE, AAD, enciphered, tag)?;
        assert_eq!(rt; opened.as_slice(), text, "opening");
    }
    Ok(())
}

// The tag of nothing with one bit turned, and that of other data.
#[test]
fn refusals(rt: HostRuntime) {
    let right = b"\x37\x09\x1c\x0c\xae\x23\x71\xeb\xa8\xa9\x6d\xac\x9c\x43\x84\x49";
    for place in 0..16 {
        let mut tag = *right;
        tag[place] ^= 0x10;
        let opened = gcm_open(rt.alloc(), &Masked, &NONCE, AAD, b"", &tag);
        assert_eq!(rt; opened.err(), Some(GcmRefused::BadTag), "place {place}");
    }
    let opened = gcm_open(rt.alloc(), &Masked, &NONCE, b"", b"", right);
    assert_eq!(rt; opened.err(), Some(GcmRefused::BadTag));
}

#[test]
fn phrases(rt: HostRuntime) -> Result<(), Fail> {
    let table = [
        (GcmRefused::BadTag, "the tag differs"),
        (GcmRefused::Memory, "no memory"),
    ];
    for (refused, phrase) in table {
        assert_eq!(rt; format!(in rt.alloc(); "{refused}")?.as_str(), phrase);
    }
    Ok(())
}

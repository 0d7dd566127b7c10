//! Published values through the exports, and each answer once but those that need 4 GiB or want of
//! memory. `dp_c.h` and the scripts of tests/vectors try the same calls from C and from Python.

use crate::aes::{dp_aes_decrypt, dp_aes_encrypt};
use crate::answer::{
    BAD_CODE, BAD_KEY_LENGTH, BAD_LENGTH, BAD_PADDING, BAD_TAG, BAD_VECTOR, DONE, NO_ROOM,
    TAMPERED, TOO_LONG,
};
use crate::body::{dp_body_open, dp_body_seal};
use crate::cbc::{dp_cbc_open, dp_cbc_seal};
use crate::derivation::{dp_context_header, dp_derive};
use crate::digest::{dp_sha256, dp_sha512};
use crate::gcm::{dp_gcm_open, dp_gcm_seal};
use crate::keyed_hash::{dp_hmac_sha256, dp_hmac_sha512};
use std::alloc::Global;
use std::test::Fail;

// SP 800-38A, F.2.1: the key, the vector, the first block of the text, and what CBC makes of it.
const KEY: [u8; 16] = *b"\x2b\x7e\x15\x16\x28\xae\xd2\xa6\xab\xf7\x15\x88\x09\xcf\x4f\x3c";

const VECTOR: [u8; 16] = *b"\x00\x01\x02\x03\x04\x05\x06\x07\x08\x09\x0a\x0b\x0c\x0d\x0e\x0f";

const BLOCK: [u8; 16] = *b"\x6b\xc1\xbe\xe2\x2e\x40\x9f\x96\xe9\x3d\x7e\x11\x73\x93\x17\x2a";

// The block of padding behind it was worked out by Python's `cryptography`.
const CHAINED: [u8; 32] = *b"\x76\x49\xab\xac\x81\x19\xb2\x46\xce\xe9\x8e\x9b\x12\xe9\x19\x7d\
    \x89\x64\xe0\xb1\x49\xc1\x0b\x7b\x68\x2e\x6e\x39\xaa\xeb\x73\x1c";

// "The Galois/Counter Mode of Operation (GCM)" by McGrew and Viega, test case 2: a text of zeros.
const COUNTED: [u8; 32] = *b"\x03\x88\xda\xce\x60\xb6\xa3\x92\xf3\x28\xc2\xb9\x71\xb2\xfe\x78\
    \xab\x6e\x47\xd4\x2c\xec\x13\xbd\xf5\x3a\x67\xb2\x12\x57\xbd\xdf";

// Worked out by Python's `cryptography` and `hmac`, apart from this repository: a body of code 9, and
// the context header of code 7.
const BODY: [u8; 59] = *b"\x22\x22\x22\x22\x22\x22\x22\x22\x22\x22\x22\x22\x22\x22\x22\x22\
    \x00\x00\x00\x00\x00\x00\x00\x00\x00\x00\x00\x00\xa6\x90\xe7\x6f\
    \x26\xf9\x8c\x5c\xfa\xca\x29\x85\xed\xfd\xf5\x5c\x0f\xdc\x75\xd0\
    \x84\x1e\xa5\xdd\xf3\x6f\x20\xd3\x2e\x0b\xde";

const HEADER: [u8; 34] = *b"\x00\x01\x00\x00\x00\x10\x00\x00\x00\x0c\x00\x00\x00\x10\x00\x00\
    \x00\x10\x95\x7c\x50\xff\x69\x2e\x38\x8b\x9a\xd5\xc7\x68\x9e\x4b\
    \x9e\x2b";

// FIPS 197, C.1.
#[test]
fn aes(rt: HostRuntime) {
    let text = b"\x00\x11\x22\x33\x44\x55\x66\x77\x88\x99\xaa\xbb\xcc\xdd\xee\xff";
    let enciphered = b"\x69\xc4\xe0\xd8\x6a\x7b\x04\x30\xd8\xcd\xb7\x80\x70\xb4\xc5\x5a";
    let mut block = *text;
    assert_eq!(rt; dp_aes_encrypt(&VECTOR, &mut block), DONE);
    assert_eq!(rt; &block, enciphered);
    assert_eq!(rt; dp_aes_encrypt(&VECTOR[..15], &mut block), BAD_KEY_LENGTH);
    assert_eq!(rt; dp_aes_decrypt(b"", &mut block), BAD_KEY_LENGTH);
    assert_eq!(rt; &block, enciphered);
    assert_eq!(rt; dp_aes_decrypt(&VECTOR, &mut block), DONE);
    assert_eq!(rt; &block, text);
}

// What a call answers, and the number that it leaves where 7 stood.
fn sealed_cbc(alloc: Global, key: &[u8], out: &mut [u8]) -> (u32, usize) {
    let mut written = 7;
    let told = dp_cbc_seal(alloc, key, &VECTOR, &BLOCK, out, &mut written);
    (told, written)
}

fn opened_cbc(alloc: Global, key: &[u8], body: &[u8], out: &mut [u8]) -> (u32, usize) {
    let mut written = 7;
    let told = dp_cbc_open(alloc, key, &VECTOR, body, out, &mut written);
    (told, written)
}

#[test]
fn cbc(rt: HostRuntime) {
    let alloc = rt.alloc();
    let mut small = [0x55; 31];
    assert_eq!(rt;
        sealed_cbc(alloc, b"15 bytes of key", &mut small),
        (BAD_KEY_LENGTH, 7)
    );
    assert_eq!(rt; sealed_cbc(alloc, &KEY, &mut small), (NO_ROOM, 7));
    assert_eq!(rt; small, [0x55; 31]);
    let mut body = [0x55; 33];
    assert_eq!(rt; sealed_cbc(alloc, &KEY, &mut body), (DONE, 32));
    assert!(rt; body.starts_with(&CHAINED) && body.ends_with(&[0x55]));
}

#[test]
fn cbc_back(rt: HostRuntime) {
    let alloc = rt.alloc();
    let mut small = [0x55; 15];
    assert_eq!(rt;
        opened_cbc(alloc, b"", &CHAINED, &mut small),
        (BAD_KEY_LENGTH, 7)
    );
    assert_eq!(rt;
        opened_cbc(alloc, &KEY, &CHAINED[..31], &mut small),
        (BAD_LENGTH, 7)
    );
    assert_eq!(rt; opened_cbc(alloc, &KEY, b"", &mut small), (BAD_LENGTH, 7));
    assert_eq!(rt;
        opened_cbc(alloc, &KEY, &CHAINED[..16], &mut small),
        (BAD_PADDING, 7)
    );
    assert_eq!(rt; opened_cbc(alloc, &KEY, &CHAINED, &mut small), (NO_ROOM, 7));
    assert_eq!(rt; small, [0x55; 15]);
    let mut text = [0x55; 17];
    assert_eq!(rt; opened_cbc(alloc, &KEY, &CHAINED, &mut text), (DONE, 16));
    assert!(rt; text.starts_with(&BLOCK) && text.ends_with(&[0x55]));
}

fn sealed_gcm(alloc: Global, key: &[u8], out: &mut [u8]) -> (u32, usize) {
    let mut written = 7;
    let told = dp_gcm_seal(alloc, key, &[0; 12], b"", &[0; 16], out, &mut written);
    (told, written)
}

fn opened_gcm(alloc: Global, key: &[u8], aad: &[u8], body: &[u8], out: &mut [u8]) -> (u32, usize) {
    let mut written = 7;
    let told = dp_gcm_open(alloc, key, &[0; 12], aad, body, out, &mut written);
    (told, written)
}

#[test]
fn gcm(rt: HostRuntime) {
    let alloc = rt.alloc();
    let mut small = [0x55; 31];
    assert_eq!(rt;
        sealed_gcm(alloc, &[0; 17], &mut small),
        (BAD_KEY_LENGTH, 7)
    );
    assert_eq!(rt; sealed_gcm(alloc, &[0; 16], &mut small), (NO_ROOM, 7));
    assert_eq!(rt; small, [0x55; 31]);
    let mut body = [0x55; 33];
    assert_eq!(rt; sealed_gcm(alloc, &[0; 16], &mut body), (DONE, 32));
    assert!(rt; body.starts_with(&COUNTED) && body.ends_with(&[0x55]));
}

#[test]
fn gcm_back(rt: HostRuntime) {
    let alloc = rt.alloc();
    let mut small = [0x55; 15];
    assert_eq!(rt;
        opened_gcm(alloc, b"", b"", &COUNTED, &mut small),
        (BAD_KEY_LENGTH, 7)
    );
    assert_eq!(rt;
        opened_gcm(alloc, &[0; 16], b"", &COUNTED[..15], &mut small),
        (BAD_LENGTH, 7)
    );
    assert_eq!(rt;
        opened_gcm(alloc, &[0; 16], b"", &COUNTED[..31], &mut small),
        (BAD_TAG, 7)
    );
    assert_eq!(rt;
        opened_gcm(alloc, &[0; 16], b"more", &COUNTED, &mut small),
        (BAD_TAG, 7)
    );
    assert_eq!(rt;
        opened_gcm(alloc, &[0; 16], b"", &COUNTED, &mut small),
        (NO_ROOM, 7)
    );
    assert_eq!(rt; small, [0x55; 15]);
    let mut text = [0x55; 17];
    assert_eq!(rt;
        opened_gcm(alloc, &[0; 16], b"", &COUNTED, &mut text),
        (DONE, 16)
    );
    assert!(rt; text.starts_with(&[0; 16]) && text.ends_with(&[0x55]));
}

// FIPS 180-4's example "abc", and RFC 4231, test case 2.
#[test]
fn hashes(rt: HostRuntime) {
    let mut short = [0; 32];
    dp_sha256(b"abc", &mut short);
    assert!(rt; short.starts_with(b"\xba\x78\x16\xbf"));
    let mut long = [0; 64];
    dp_sha512(b"abc", &mut long);
    assert!(rt; long.starts_with(b"\xdd\xaf\x35\xa1"));
    dp_hmac_sha256(b"Jefe", b"what do ya want ", b"for nothing?", &mut short);
    assert!(rt; short.starts_with(b"\x5b\xdc\xc1\x46"));
    dp_hmac_sha512(b"Jefe", b"what do ya want ", b"for nothing?", &mut long);
    assert!(rt; long.starts_with(b"\x16\x4b\x7a\x7b"));
}

// The bytes were worked out by Python's `hmac`, apart from this repository.
#[test]
fn derivation(rt: HostRuntime) -> Result<(), Fail> {
    let mut out = [0x55; 20];
    assert_eq!(rt; dp_derive(b"key", b"label", b"context", &mut out), DONE);
    assert_eq!(rt; &out, DERIVED);
    let mut long = Vec::from_elem(rt.alloc(), 0x55, 1025)?;
    assert_eq!(rt;
        dp_derive(b"key", b"label", b"context", &mut long),
        TOO_LONG
    );
    assert!(rt; long.iter().all(|byte| *byte == 0x55));
    Ok(())
}

const DERIVED: &[u8; 20] =
    b"\xcd\xae\x65\x0f\xea\xa1\xe2\xfd\x14\x27\xfa\x7f\x54\x60\x58\x7f\x88\x52\xab\xc5";

fn header(code: u8, out: &mut [u8]) -> (u32, usize) {
    let mut written = 7;
    let told = dp_context_header(code, out, &mut written);
    (told, written)
}

#[test]
fn headers(rt: HostRuntime) {
    let mut small = [0x55; 33];
    assert_eq!(rt; header(0, &mut small), (BAD_CODE, 7));
    assert_eq!(rt; header(10, &mut small), (BAD_CODE, 7));
    assert_eq!(rt; header(7, &mut small), (NO_ROOM, 7));
    assert_eq!(rt; small, [0x55; 33]);
    let mut room = [0x55; 35];
    assert_eq!(rt; header(7, &mut room), (DONE, 34));
    assert!(rt; room.starts_with(&HEADER) && room.ends_with(&[0x55]));
}

fn sealed_body(alloc: Global, code: u8, iv: &[u8], out: &mut [u8]) -> (u32, usize) {
    let mut written = 7;
    let told = dp_body_seal(
        alloc,
        code,
        &[0x11; 64],
        b"aad",
        &[0x22; 16],
        iv,
        b"sixteen bytes..",
        out,
        &mut written,
    );
    (told, written)
}

fn opened_body(alloc: Global, code: u8, body: &[u8], out: &mut [u8]) -> (u32, usize) {
    let mut written = 7;
    let told = dp_body_open(alloc, code, &[0x11; 64], b"aad", body, out, &mut written);
    (told, written)
}

#[test]
fn bodies(rt: HostRuntime) {
    let alloc = rt.alloc();
    let mut small = [0x55; 58];
    assert_eq!(rt; sealed_body(alloc, 10, &[0; 12], &mut small), (BAD_CODE, 7));
    assert_eq!(rt;
        sealed_body(alloc, 9, &[0; 16], &mut small),
        (BAD_VECTOR, 7)
    );
    assert_eq!(rt; sealed_body(alloc, 9, &[0; 12], &mut small), (NO_ROOM, 7));
    assert_eq!(rt; small, [0x55; 58]);
    let mut body = [0x55; 60];
    assert_eq!(rt; sealed_body(alloc, 9, &[0; 12], &mut body), (DONE, 59));
    assert!(rt; body.starts_with(&BODY) && body.ends_with(&[0x55]));
}

#[test]
fn bodies_back(rt: HostRuntime) {
    let alloc = rt.alloc();
    let mut small = [0x55; 14];
    assert_eq!(rt; opened_body(alloc, 0, &BODY, &mut small), (BAD_CODE, 7));
    assert_eq!(rt;
        opened_body(alloc, 9, &BODY[..43], &mut small),
        (BAD_LENGTH, 7)
    );
    assert_eq!(rt; opened_body(alloc, 8, &BODY, &mut small), (TAMPERED, 7));
    assert_eq!(rt;
        opened_body(alloc, 9, &BODY[..58], &mut small),
        (TAMPERED, 7)
    );
    assert_eq!(rt; opened_body(alloc, 9, &BODY, &mut small), (NO_ROOM, 7));
    assert_eq!(rt; small, [0x55; 14]);
    let mut text = [0x55; 16];
    assert_eq!(rt; opened_body(alloc, 9, &BODY, &mut text), (DONE, 15));
    assert_eq!(rt; &text, b"sixteen bytes..\x55");
}

//! Examples under a cipher that changes nothing, so that a body shows the chain and the padding.

use super::*;
use dp_base::BlockCipher;
use std::test::Fail;

// A block is its own cipher.
struct Unchanged;

impl BlockCipher for Unchanged {
    ghost use Rattle.std.proofs.Common.{refl};

    ghost cipher = { λ _ block. block };

    ghost decipher = { λ _ block. block };

    ghost enciphers = { λ _ _ is. is };

    ghost deciphers = { λ _ _ is. is };

    ghost undoes = { λ _ _ _. refl };

    ghost redoes = { λ _ _ _. refl };

    fn encrypt_block(&self, _block: &mut [u8; 16]) {}

    fn decrypt_block(&self, _block: &mut [u8; 16]) {}
}

const IV: [u8; 16] = *b"\xf0\xf1\xf2\xf3\xf4\xf5\xf6\xf7\xf8\xf9\xfa\xfb\xfc\xfd\xfe\xff";

// Bodies worked out by a few lines of Python.
#[test]
fn texts(rt: HostRuntime) -> Result<(), Fail> {
    let cases: [(&[u8], &[u8]); 5] = [
        (
            b"",
            b"\xe0\xe1\xe2\xe3\xe4\xe5\xe6\xe7\xe8\xe9\xea\xeb\xec\xed\xee\xef",
        ),
        (
            b"chained blocks,",
            b"\x93\x99\x93\x9a\x9a\x90\x92\xd7\x9a\x95\x95\x98\x97\x8e\xd2\xfe",
        ),
        (
            b"chained blocks, ",
            b"\x93\x99\x93\x9a\x9a\x90\x92\xd7\x9a\x95\x95\x98\x97\x8e\xd2\xdf\
            \x83\x89\x83\x8a\x8a\x80\x82\xc7\x8a\x85\x85\x88\x87\x9e\xc2\xcf",
        ),
        (
            b"chained blocks, e",
            b"\x93\x99\x93\x9a\x9a\x90\x92\xd7\x9a\x95\x95\x98\x97\x8e\xd2\xdf\
            \xf6\x96\x9c\x95\x95\x9f\x9d\xd8\x95\x9a\x9a\x97\x98\x81\xdd\xd0",
        ),
        (
            b"chained blocks, each after the one before it",
            b"\x93\x99\x93\x9a\x9a\x90\x92\xd7\x9a\x95\x95\x98\x97\x8e\xd2\xdf\
            \xf6\xf8\xf0\xf2\xba\xf1\xf4\xa3\xff\xe7\xb5\xec\xff\xeb\xf2\xb0\
            \x98\x9d\xd0\x90\xdf\x97\x9b\xd1\x9a\xc7\xdc\x98\xfb\xef\xf6\xb4",
        ),
    ];
    for (text, body) in cases {
        let sealed = cbc_seal(rt.alloc(), &Unchanged, &IV, text)?;
        assert_eq!(rt; sealed.as_slice(), body, "sealing {text:?}");
        let opened = cbc_open(rt.alloc(), &Unchanged, &IV, body)?;
        assert_eq!(rt; opened.as_slice(), text, "opening {text:?}");
    }
    Ok(())
}

// Bodies of no block and of a part of one; and of texts that end in 0, in 17 bytes of 17, in 3 and 2,
// and in 15 bytes of 16.
#[test]
fn refusals(rt: HostRuntime) {
    let cases: [(&[u8], CbcRefused); 6] = [
        (b"", CbcRefused::BadLength),
        (b"fifteen bytes..", CbcRefused::BadLength),
        (
            b"\x93\x99\x93\x9a\x9a\x90\x92\xd7\x9a\x95\x95\x98\x97\x8e\xd2\xdf\
            \xf6\xf8\xf0\xf2\xba\xf1\xf4\xa3\xff\xe7\xb5\xec\xff\xeb\xf2\xdf",
            CbcRefused::BadPadding,
        ),
        (
            b"\x93\x99\x93\x9a\x9a\x90\x92\xd7\x9a\x95\x95\x98\x97\x8e\xd2\xee\
            \x82\x88\x82\x8b\x8b\x81\x83\xc6\x8b\x84\x84\x89\x86\x9f\xc3\xff",
            CbcRefused::BadPadding,
        ),
        (
            b"\x93\x99\x93\x9a\x9a\x90\x92\xd7\x9a\x95\x95\x98\x97\x8e\xfd\xfd",
            CbcRefused::BadPadding,
        ),
        (
            b"\xff\xe1\xe2\xe3\xe4\xe5\xe6\xe7\xe8\xe9\xea\xeb\xec\xed\xee\xef",
            CbcRefused::BadPadding,
        ),
    ];
    for (body, told) in cases {
        let opened = cbc_open(rt.alloc(), &Unchanged, &IV, body);
        assert_eq!(rt; opened.err(), Some(told), "{body:?}");
    }
}

#[test]
fn phrases(rt: HostRuntime) -> Result<(), Fail> {
    let table = [
        (CbcRefused::BadLength, "a body has no whole blocks"),
        (CbcRefused::BadPadding, "a text has no padding"),
        (CbcRefused::Memory, "no memory"),
    ];
    for (refused, phrase) in table {
        assert_eq!(rt; format!(in rt.alloc(); "{refused}")?.as_str(), phrase);
    }
    Ok(())
}

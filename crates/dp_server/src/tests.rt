use super::*;
use crate::words::{Command, PipeOptions, command_of};
use dp_base::{KeyId, MemClock, MemDraw, MemSink, MemSource};
use dp_session::{BadPlace, BadWhy};
use key_elements::{Element, ElementRefused, KeyRecord, Reason, encode};
use std::alloc::Global;
use std::test::Fail;

const K1: KeyId = KeyId(0x0c81_9c80_6619_4019_9536_53f8_aaff_ee57);

// The ids 00000000-0000-4000-8000-00000000000a to c.
const A: KeyId = KeyId(0x4000_8000_0000_0000_000a);

const B: KeyId = KeyId(0x4000_8000_0000_0000_000b);

const C: KeyId = KeyId(0x4000_8000_0000_0000_000c);

// A day number of the samples, in ticks.
fn day(n: u64) -> u64 {
    638_000_000_000_000_000u64.saturating_add(n.saturating_mul(864_000_000_000))
}

// A key that is made, activated and expires on these days, with a material of zeros.
fn key(id: KeyId, days: [u64; 3], alg: u8) -> Element {
    let [creation, activation, expiration] = days;
    Element::Key(KeyRecord {
        id,
        creation: day(creation),
        activation: day(activation),
        expiration: day(expiration),
        alg,
        material: [0; 64],
    })
}

fn one_key(alloc: Global, code: u8) -> Result<Vec<u8>, Fail> {
    let mut bytes = Vec::new(alloc);
    encode(alloc, &key(K1, [0, 0, 90], code), &mut bytes)?;
    Ok(bytes)
}

// The outside in memory: how many bytes a call moves, and the calls that fail, from 0.
#[derive(Clone, Copy)]
struct Outside<'a> {
    piece: usize,
    fail_reads: &'a [u64],
    fail_writes: &'a [u64],
}

const WELL: Outside<'static> = Outside {
    piece: 4096,
    fail_reads: &[],
    fail_writes: &[],
};

fn empty_repo(alloc: Global) -> OwnRepo<MemKeeper> {
    OwnRepo::new(alloc, MemKeeper::new(ElementList::empty(), Vec::new(alloc)))
}

fn strings(alloc: Global, texts: &[&str]) -> Result<Vec<String>, Fail> {
    let mut words = Vec::new(alloc);
    for text in texts {
        words.push(String::from_str(alloc, text)?)?;
    }
    Ok(words)
}

// How the run ended, and the text written.
fn answer(
    alloc: Global,
    texts: &[&str],
    bytes: Vec<u8>,
    outside: &Outside<'_>,
) -> Result<(Outcome, String), Fail> {
    let words = strings(alloc, texts)?;
    let piece = outside.piece.max(1);
    let mut input = MemSource::new(bytes, piece, outside.fail_reads.to_vec(alloc)?);
    let mut output = MemSink::new(alloc, piece, outside.fail_writes.to_vec(alloc)?);
    let mut repo = empty_repo(alloc);
    let mut draw = MemDraw::new(Vec::new(alloc), Vec::new(alloc));
    let mut clock = MemClock::new(Vec::new(alloc));
    let words = words.as_slice();
    let outcome = run(
        alloc,
        words,
        &mut repo,
        &mut draw,
        &mut clock,
        &mut input,
        &mut output,
    );
    let written = String::from_utf8(output.into_bytes()).ok().ok_or("text")?;
    Ok((outcome, written))
}

// docs/FORMATS.md, "Listing".
#[test]
fn no_keys(rt: HostRuntime) -> Result<(), Fail> {
    let table = [
        ("0", "ring 0 elements at 0\n"),
        ("1000", "ring 0 elements at 1000\n"),
        (
            "3152225375999999999",
            "ring 0 elements at 3152225375999999999\n",
        ),
        (
            "3155378975999999999",
            "ring 0 elements at 3152225375999999999\n",
        ),
    ];
    for (moment, first) in table {
        let alloc = rt.alloc();
        let (end, text) = answer(alloc, &["show", moment], Vec::new(alloc), &WELL)?;
        assert_eq!(rt; end.status, Status::Done, "{moment}");
        let wanted = format!(in alloc; "{first}mass none\ndefault none\nrenew yes\n")?;
        assert_eq!(rt; text.as_str(), wanted.as_str(), "{moment}");
    }
    Ok(())
}

const ONE_KEY: &str = "mass none\n\
    key 0c819c80-6619-4019-9536-53f8aaffee57 created 638000000000000000 \
    activates 638000000000000000 expires 638077760000000000 alg 3 active\n\
    default 0c819c80-6619-4019-9536-53f8aaffee57 by preference\n";

// docs/FORMATS.md, "Listing": two days before it expires another key is due.
#[test]
fn moments(rt: HostRuntime) -> Result<(), Fail> {
    let table = [
        ("638000000000000000", "renew no\n"),
        ("638076031999999999", "renew no\n"),
        ("638076032000000000", "renew yes\n"),
    ];
    for (moment, last) in table {
        for piece in [1, 4096] {
            let alloc = rt.alloc();
            let outside = Outside { piece, ..WELL };
            let bytes = one_key(alloc, 3)?;
            let (end, text) = answer(alloc, &["show", moment], bytes, &outside)?;
            assert_eq!(rt; end.status, Status::Done, "{moment}");
            let wanted = format!(in alloc; "ring 1 elements at {moment}\n{ONE_KEY}{last}")?;
            assert_eq!(rt; text.as_str(), wanted.as_str(), "{moment}");
        }
    }
    Ok(())
}

const UNUSABLE: &str = "ring 1 elements at 638000000000000000\n\
    mass none\n\
    key 0c819c80-6619-4019-9536-53f8aaffee57 created 638000000000000000 \
    activates 638000000000000000 expires 638077760000000000 alg 200 unusable\n\
    default none\n\
    renew yes\n";

const TWO_KEYS: &str = "ring 2 elements at 638000000000000000\n\
    mass none\n\
    key 00000000-0000-4000-8000-00000000000b created 638000000000000000 \
    activates 638000000000000000 expires 638077760000000000 alg 3 active\n\
    key 00000000-0000-4000-8000-00000000000a created 638000000000000000 \
    activates 638000000000000000 expires 638077760000000000 alg 3 active\n\
    default 00000000-0000-4000-8000-00000000000a by preference\n\
    renew no\n";

// docs/FORMATS.md, "Listing": an unknown code, and two keys alike, of which the smaller id protects.
#[test]
fn choices(rt: HostRuntime) -> Result<(), Fail> {
    let alloc = rt.alloc();
    let words = ["show", "638000000000000000"];
    let (_, text) = answer(alloc, &words, one_key(alloc, 200)?, &WELL)?;
    assert_eq!(rt; text.as_str(), UNUSABLE);
    let mut two = Vec::new(alloc);
    encode(alloc, &key(B, [0, 0, 90], 3), &mut two)?;
    encode(alloc, &key(A, [0, 0, 90], 3), &mut two)?;
    let (_, text) = answer(alloc, &words, two, &WELL)?;
    assert_eq!(rt; text.as_str(), TWO_KEYS);
    Ok(())
}

// docs/FORMATS.md, "Words".
#[test]
fn bad_words(rt: HostRuntime) -> Result<(), Fail> {
    let alloc = rt.alloc();
    let table: [&[&str]; 31] = [
        &[],
        &["show"],
        &["--help"],
        &["show", "01"],
        &["show", "+1"],
        &["show", ""],
        &["show", "3155378975999999999 "],
        &["show", "3155378976000000000"],
        &["show", "1", "1"],
        &["show", "1", "--app", "x"],
        &["pipe", "x"],
        &["pipe", ""],
        &["pipe", "--auto"],
        &["pipe", "--"],
        &["pipe", "--no-auto", "--no-auto"],
        &["pipe", "--no-auto", "x"],
        &["pipe", "--no-aut"],
        &["pipe", "--no-auto="],
        &["pipe", "--app"],
        &["pipe", "--app", ""],
        &["pipe", "--app", "-"],
        &["pipe", "--app", "-x"],
        &["pipe", "--app", "--no-auto"],
        &["pipe", "--app", "x", "y"],
        &["pipe", "--app", "x", "--app", "x"],
        &["pipe", "--app", "x", "--app", "y", "--no-auto"],
        &["pipe", "--no-auto", "--app"],
        &["pipe", "--no-auto", "--app", "x", "--no-auto"],
        &["pipe", "--app=x"],
        &["pipe", "--ap", "x"],
        &["--app", "x", "pipe"],
    ];
    for words in table {
        let (end, text) = answer(alloc, words, one_key(alloc, 3)?, &WELL)?;
        assert_eq!(rt; end.status, Status::BadWords, "{words:?}");
        assert_eq!(rt; text.as_str(), "", "{words:?}");
    }
    Ok(())
}

// docs/FORMATS.md, "Words": the options of `pipe` in any order.
#[test]
fn options(rt: HostRuntime) -> Result<(), Fail> {
    let alloc = rt.alloc();
    let table: [(&[&str], bool, &str); 8] = [
        (&["pipe"], true, ""),
        (&["pipe", "--no-auto"], false, ""),
        (&["pipe", "--app", "x"], true, "x"),
        (&["pipe", "--app", "x", "--no-auto"], false, "x"),
        (&["pipe", "--no-auto", "--app", "x"], false, "x"),
        (&["pipe", "--app", "pipe"], true, "pipe"),
        (&["pipe", "--app", " -x=--app"], true, " -x=--app"),
        (&["pipe", "--app", "caf\u{e9}"], true, "caf\u{e9}"),
    ];
    for (texts, auto, app) in table {
        let words = strings(alloc, texts)?;
        let options = PipeOptions { auto, app };
        assert_eq!(rt;
            command_of(words.as_slice()),
            Some(Command::Pipe { options }),
            "{texts:?}"
        );
    }
    let words = strings(alloc, &["show", "7"])?;
    assert_eq!(rt;
        command_of(words.as_slice()),
        Some(Command::Show { moment: 7 })
    );
    Ok(())
}

// docs/FORMATS.md, "Words": a name has at most 256 bytes.
#[test]
fn long_names(rt: HostRuntime) -> Result<(), Fail> {
    let alloc = rt.alloc();
    for (count, lawful) in [(256, true), (257, false)] {
        let name = String::from_utf8(Vec::from_elem(alloc, b'n', count)?)
            .ok()
            .ok_or("text")?;
        let words = strings(alloc, &["pipe", "--app", name.as_str()])?;
        assert_eq!(rt;
            command_of(words.as_slice()).is_some(),
            lawful,
            "{count} bytes"
        );
    }
    Ok(())
}

// Where input is wrong: in its second record, in its first byte, and in the length of a reason.
#[test]
fn bad_input(rt: HostRuntime) -> Result<(), Fail> {
    let alloc = rt.alloc();
    let mut cut = one_key(alloc, 3)?;
    cut.push(2)?;
    let foreign = [9].to_vec(alloc)?;
    let mut long = one_key(alloc, 3)?;
    long.extend_from_slice(&[3, 0, 0, 0, 0, 0, 0, 0, 0, 0x81, 0x08])?;
    let table = [
        (cut, 106, ElementRefused::Cut),
        (foreign, 0, ElementRefused::UnknownKind),
        (long, 106, ElementRefused::BadReason),
    ];
    for (bytes, place, why) in table {
        let (end, text) = answer(alloc, &["show", "1000"], bytes, &WELL)?;
        let why = BadWhy::Element(why);
        assert_eq!(rt; end.status, Status::BadInput);
        assert_eq!(rt; end.bad, Some(BadPlace { place, why }));
        assert_eq!(rt; text.as_str(), "");
    }
    Ok(())
}

const FIVE: &str = "ring 5 elements at 638103680000000000\n\
    mass 638043200000000000\n\
    key 00000000-0000-4000-8000-00000000000a created 638000000000000000 \
    activates 638000000000000000 expires 638077760000000000 alg 3 revoked\n\
    key 00000000-0000-4000-8000-00000000000b created 638076032000000000 \
    activates 638077760000000000 expires 638153792000000000 alg 3 revoked\n\
    key 00000000-0000-4000-8000-00000000000c created 638086400000000000 \
    activates 638086400000000000 expires 638164160000000000 alg 3 active\n\
    default 00000000-0000-4000-8000-00000000000c by preference\n\
    renew no\n";

// docs/FORMATS.md, "Listing": three keys, of which a date and an id revoke one each.
#[test]
fn five_records(rt: HostRuntime) -> Result<(), Fail> {
    let alloc = rt.alloc();
    let id = B;
    let elements = [
        key(A, [0, 0, 90], 3),
        key(B, [88, 90, 178], 3),
        Element::RevokeBefore {
            date: day(50),
            reason: Reason::new(alloc, "leak")?,
        },
        Element::RevokeKey {
            id,
            date: day(100),
            reason: Reason::new(alloc, "lost laptop")?,
        },
        key(C, [100, 100, 190], 3),
    ];
    let mut bytes = Vec::new(alloc);
    for element in &elements {
        encode(alloc, element, &mut bytes)?;
    }
    assert_eq!(rt; bytes.len(), 369);
    let (end, text) = answer(alloc, &["show", "638103680000000000"], bytes, &WELL)?;
    assert_eq!(rt; (end.status, end.bad), (Status::Done, None));
    assert_eq!(rt; text.as_str(), FIVE);
    Ok(())
}

// A failed read leaves no output, and a failed write what the writes before it took.
#[test]
fn faults(rt: HostRuntime) -> Result<(), Fail> {
    let table: [(&[u64], &[u64], Status, &str); 3] = [
        (&[1], &[], Status::ReadFault, ""),
        (&[], &[0], Status::WriteFault, ""),
        (&[], &[2], Status::WriteFault, "ring 1 elements at 6"),
    ];
    for (fail_reads, fail_writes, status, written) in table {
        let alloc = rt.alloc();
        let outside = Outside {
            piece: 10,
            fail_reads,
            fail_writes,
        };
        let words = ["show", "638000000000000000"];
        let (end, text) = answer(alloc, &words, one_key(alloc, 3)?, &outside)?;
        assert_eq!(rt; (end.status, end.bad), (status, None));
        assert_eq!(rt; text.as_str(), written);
    }
    Ok(())
}

// How a session over an empty repository ends, by draws of zeros at day 0, where calls of the keeper
// and of the draw fail, and what it wrote.
fn session(
    alloc: Global,
    input: &[u8],
    keeps: &[u64],
    draws: &[u64],
) -> Result<(Outcome, Vec<u8>), Fail> {
    let words = strings(alloc, &["pipe", "--no-auto"])?;
    let keeper = MemKeeper::new(ElementList::empty(), keeps.to_vec(alloc)?);
    let mut repo = OwnRepo::new(alloc, keeper);
    let mut draw = MemDraw::new(Vec::from_elem(alloc, 0, 1_024)?, draws.to_vec(alloc)?);
    let mut clock = MemClock::new([day(0)].to_vec(alloc)?);
    let mut source = MemSource::new(input.to_vec(alloc)?, 4_096, Vec::new(alloc));
    let mut sink = MemSink::new(alloc, 4_096, Vec::new(alloc));
    let outcome = run(
        alloc,
        words.as_slice(),
        &mut repo,
        &mut draw,
        &mut clock,
        &mut source,
        &mut sink,
    );
    Ok((outcome, sink.into_bytes()))
}

// docs/FORMATS.md, "Frames and requests" and "Replies": a new key, and an opening that fails.
#[test]
fn pipes(rt: HostRuntime) -> Result<(), Fail> {
    let roll = [
        0, 0, 0, 0x12, 0x02, 0x08, 0xda, 0xa1, 0x9e, 0xa6, 0xb3, 0, 0, 0x08, 0xda, 0xe8, 0x57,
        0x8f, 0xe0, 0x80, 0, 0x03,
    ];
    let rolled = [
        0, 0, 0, 0x19, 0, 0, 0, 0, 0, 0, 0, 0, 1, 0, 0, 0, 0, 0, 0, 0, 0x40, 0x80, 0, 0, 0, 0, 0,
        0, 0,
    ];
    let none: &[u64] = &[];
    let nothing: &[u8] = &[];
    let table = [
        (none, none, Status::Done, rolled.as_slice(), 1),
        (&[0], none, Status::StoreFault, nothing, 0),
        (none, &[0], Status::DrawFault, nothing, 0),
    ];
    for (keeps, draws, status, written, entries) in table {
        let alloc = rt.alloc();
        let (end, bytes) = session(alloc, &roll, keeps, draws)?;
        assert_eq!(rt; (end.status, end.bad), (status, None));
        assert_eq!(rt; bytes.as_slice(), written);
        assert_eq!(rt; end.trace.entries.as_slice().len(), entries);
    }
    Ok(())
}

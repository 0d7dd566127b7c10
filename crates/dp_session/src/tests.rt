use super::*;
use default_key::Options;
use dp_base::{AesSize, Alg, Clock, MemClock, MemDraw, MemSink, MemSource};
use dp_encryptor::HeaderTable;
use dp_node::{NodeError, Solo};
use dp_protector::{ProtectRefused, UnprotectRefused};
use key_elements::{Element, ElementList, Reason, encode, read_list};
use key_ring::Why;
use repo_keeper::{MemKeeper, OwnRepo};
use ring_world::Step;
use std::alloc::Global;
use std::cell::Cell;
use std::test::Fail;

pub(crate) const DAY_0: u64 = 638_000_000_000_000_000;

// docs/FORMATS.md, "Frames and requests": a key from day 0 to day 90 under code 3.
const ROLL: &str = "00000012 02 08DAA19EA6B30000 08DAE8578FE08000 03";

const ROLLED: &str = "00000019 00 0000000000000001 00000000000000408000000000000000";

// What stands around a session: the calls of each part that fail, and how many bytes a call moves.
#[derive(Clone, Copy)]
pub(crate) struct Outside<'a> {
    pub(crate) list: usize,
    pub(crate) piece: usize,
    pub(crate) reads: &'a [u64],
    pub(crate) writes: &'a [u64],
    pub(crate) keeps: &'a [u64],
    pub(crate) draws: &'a [u64],
    pub(crate) app: &'a str,
}

pub(crate) const WELL: Outside<'static> = Outside {
    list: 0,
    piece: 4096,
    reads: &[],
    writes: &[],
    keeps: &[],
    draws: &[],
    app: "",
};

fn digit(byte: u8) -> Option<u8> {
    match byte {
        b'0'..=b'9' => Some(byte - b'0'),
        b'A'..=b'F' => Some(byte - b'A' + 10),
        _ => None,
    }
}

// The bytes of a hexadecimal text; other characters are passed over.
pub(crate) fn bytes_of(alloc: Global, text: &str) -> Result<Vec<u8>, Fail> {
    let mut bytes = Vec::new(alloc);
    let mut first = None;
    for byte in text.as_bytes() {
        if let Some(low) = digit(*byte) {
            match first.take() {
                Some(high) => bytes.push((high << 4) | low)?,
                None => first = Some(low),
            }
        }
    }
    Ok(bytes)
}

fn put_revocation(alloc: Global, bytes: &mut Vec<u8>) -> Result<(), Fail> {
    let reason = Reason::new(alloc, "")?;
    let element = Element::RevokeBefore { date: 7, reason };
    Ok(encode(alloc, &element, bytes)?)
}

// So many mass revocations.
pub(crate) fn revocations(alloc: Global, count: usize) -> Result<ElementList, Fail> {
    let mut bytes = Vec::new(alloc);
    for _ in 0..count {
        put_revocation(alloc, &mut bytes)?;
    }
    Ok(read_list(alloc, bytes.as_slice())?)
}

fn no_auto() -> Result<Options, Fail> {
    Options::new(90, false, Alg::Cbc256(AesSize::A256)).map_err(|_| "options".into())
}

pub(crate) fn repo_of(
    alloc: Global,
    list: ElementList,
    fails: &[u64],
) -> Result<OwnRepo<MemKeeper>, Fail> {
    let keeper = MemKeeper::new(list, fails.to_vec(alloc)?);
    Ok(OwnRepo::new(alloc, keeper))
}

pub(crate) fn zeros(alloc: Global, fails: &[u64]) -> Result<MemDraw, Fail> {
    let bytes = Vec::from_elem(alloc, 0, 1_024)?;
    Ok(MemDraw::new(bytes, fails.to_vec(alloc)?))
}

fn setup_of(alloc: Global, app: &str) -> Result<Setup, Fail> {
    let options = no_auto()?;
    let app = AppName::new(alloc, app)?;
    Ok(Setup { options, app })
}

fn source_of(alloc: Global, input: Vec<u8>, outside: &Outside<'_>) -> Result<MemSource, Fail> {
    let fails = outside.reads.to_vec(alloc)?;
    Ok(MemSource::new(input, outside.piece.max(1), fails))
}

fn sink_of(alloc: Global, outside: &Outside<'_>) -> Result<MemSink, Fail> {
    let fails = outside.writes.to_vec(alloc)?;
    Ok(MemSink::new(alloc, outside.piece.max(1), fails))
}

// How a session over the list ends, behind the gate, and what it wrote.
fn session_behind<C: Clock, G: Gate<()>>(
    alloc: Global,
    clock: &mut C,
    gate: &G,
    input: Vec<u8>,
    outside: &Outside<'_>,
) -> Result<(SessionEnd, Vec<u8>), Fail> {
    let mut source = source_of(alloc, input, outside)?;
    let mut sink = sink_of(alloc, outside)?;
    let setup = setup_of(alloc, outside.app)?;
    let mut draw = zeros(alloc, outside.draws)?;
    let mut repo = repo_of(alloc, revocations(alloc, outside.list)?, outside.keeps)?;
    let mut solo = Solo::open(alloc, &mut repo, &mut draw, DAY_0, setup.options)?;
    let headers = HeaderTable::new(alloc);
    let end = serve_session(
        &mut (),
        alloc,
        &mut solo,
        &mut repo,
        &mut draw,
        clock,
        gate,
        7,
        &setup,
        &headers,
        &mut source,
        &mut sink,
    );
    Ok((end, sink.into_bytes()))
}

// The same where nothing is passed, at day 0.
fn session(
    alloc: Global,
    input: Vec<u8>,
    outside: &Outside<'_>,
) -> Result<(SessionEnd, Vec<u8>), Fail> {
    let mut clock = MemClock::new([DAY_0].to_vec(alloc)?);
    session_behind(alloc, &mut clock, &NoGate, input, outside)
}

// How a session ends, and whether it wrote what was wanted.
pub(crate) fn told(
    alloc: Global,
    input: Vec<u8>,
    wanted: &[u8],
    outside: &Outside<'_>,
) -> Result<(Status, Option<BadPlace>, bool), Fail> {
    let (end, written) = session(alloc, input, outside)?;
    Ok((end.status, end.bad, written.as_slice() == wanted))
}

// The bytes of two hexadecimal texts.
fn both(alloc: Global, first: &str, second: &str) -> Result<Vec<u8>, Fail> {
    let mut bytes = bytes_of(alloc, first)?;
    bytes.extend_from_slice(bytes_of(alloc, second)?.as_slice())?;
    Ok(bytes)
}

// The same of texts: two in, and one wanted.
fn told_of(
    alloc: Global,
    first: &str,
    second: &str,
    wanted: &str,
    outside: &Outside<'_>,
) -> Result<(Status, Option<BadPlace>, bool), Fail> {
    let wanted = bytes_of(alloc, wanted)?;
    told(
        alloc,
        both(alloc, first, second)?,
        wanted.as_slice(),
        outside,
    )
}

// docs/FORMATS.md, "Frames and requests" and "Replies", by draws of zeros at day 0.
#[test]
fn replies(rt: HostRuntime) -> Result<(), Fail> {
    let table = [
        ("", ""),
        (ROLL, ROLLED),
        // Equal dates.
        (
            "00000012 02 08DAA19EA6B30000 08DAA19EA6B30000 03",
            "00000001 09",
        ),
        // More elements than there are.
        (
            "00000009 01 0000000000000009",
            "00000011 06 0000000000000000 0000000000000009",
        ),
        // No kind of request, and a byte too many.
        ("00000001 0C", "00000005 01 00000000"),
        ("0000000A 01 0000000000000000 00", "00000005 01 00000009"),
        // The revocation of a key that nobody made, and one of a date above the greatest.
        (
            "00000012 03 00000000000000408000000000000000 00",
            "00000009 00 0000000000000001",
        ),
        ("0000000A 04 2BCA2875F4374000 00", "00000001 09"),
        (
            "0000000A 04 08DAA19EA6B30000 00",
            "00000009 00 0000000000000001",
        ),
    ];
    for (request, reply) in table {
        for piece in [1, 4096] {
            let outside = Outside { piece, ..WELL };
            assert_eq!(rt;
                told_of(rt.alloc(), request, "", reply, &outside)?,
                (Status::Done, None, true),
                "{request}"
            );
        }
    }
    Ok(())
}

// A frame of no body, one that is too long, and an input that ends in a frame, each behind a reply.
#[test]
fn bad_frames(rt: HostRuntime) -> Result<(), Fail> {
    let table = [
        ("00000000", BadWhy::Zero),
        ("00100001", BadWhy::TooLarge { len: 1_048_577 }),
        ("000000", BadWhy::Cut { have: 3, want: 4 }),
        ("00000009 01", BadWhy::Cut { have: 5, want: 13 }),
    ];
    for (rest, why) in table {
        let bad = Some(BadPlace { place: 22, why });
        assert_eq!(rt;
            told_of(rt.alloc(), ROLL, rest, ROLLED, &WELL)?,
            (Status::BadInput, bad, true),
            "{rest}"
        );
    }
    Ok(())
}

// Whether the entry is that of a key that found a full repository.
fn is_full(entry: &Entry) -> bool {
    matches!(
        &entry.used,
        Used::Refused(NodeError::Full { count: 16_384 })
    ) && (entry.now, entry.need, entry.seen) == (DAY_0, 0, 16_384)
        && entry.drawn.as_slice() == [0; 80].as_slice()
}

// A full repository has no place; the entry says so, and what was drawn.
#[test]
fn full(rt: HostRuntime) -> Result<(), Fail> {
    let alloc = rt.alloc();
    let outside = Outside {
        list: 16_384,
        ..WELL
    };
    let (end, written) = session(alloc, bytes_of(alloc, ROLL)?, &outside)?;
    let wanted = [0, 0, 0, 9, 8, 0, 0, 0, 0, 0, 0, 64, 0];
    assert_eq!(rt; written.as_slice(), wanted.as_slice());
    let entries = end.trace.entries.as_slice();
    assert_eq!(rt; entries.len(), 1);
    let entry = entries.first().ok_or("an entry")?;
    assert!(rt; is_full(entry));
    let steps = [Step::Drawn { bytes: 80 }, Step::AppendFull];
    assert_eq!(rt; entry.steps.as_slice(), steps.as_slice());
    Ok(())
}

// Whether the entries are those of a key that is made, and of a ring of it that is asked for.
fn are_of_a_key(entries: &[Entry]) -> bool {
    match entries {
        [first, second] => {
            matches!(&first.used, Used::Placed { place: 0 })
                && matches!(
                    &second.used,
                    Used::Ring {
                        front: 1,
                        made_at: DAY_0
                    }
                )
                && (second.need, second.seen) == (1, 1)
        }
        _ => false,
    }
}

// The trace of a key that is made and asked for: its list, and the front of each entry.
#[test]
fn traced(rt: HostRuntime) -> Result<(), Fail> {
    let alloc = rt.alloc();
    let input = both(alloc, ROLL, "00000009 01 0000000000000001")?;
    let (end, written) = session(alloc, input, &WELL)?;
    let SessionEnd { status, bad, trace } = end;
    let Trace { list, entries } = trace;
    assert_eq!(rt; (status, bad, list.len()), (Status::Done, None, 1));
    assert!(rt; are_of_a_key(entries.as_slice()));
    let front = b"\x00\x00\x00\x00\x00\x00\x00\x00\x01ring 1";
    assert_eq!(rt; written.get(33..48), Some(front.as_slice()));
    assert_eq!(rt; entries.into_inner().len(), 2);
    Ok(())
}

// A call that fails is answered, or ends the session; the next request is served.
#[test]
fn faults(rt: HostRuntime) -> Result<(), Fail> {
    let fault = |keeps, draws, reads, writes| Outside {
        keeps,
        draws,
        reads,
        writes,
        ..WELL
    };
    let store = "00000001 03 00000019 00 0000000000000001 00000000000000408000000000000000";
    let draw = "00000001 04 00000019 00 0000000000000001 00000000000000408000000000000000";
    let none: &[u64] = &[];
    let table = [
        (fault(&[1], none, none, none), Status::Done, store),
        (fault(&[2], none, none, none), Status::Done, store),
        (fault(none, &[1], none, none), Status::Done, draw),
        (fault(none, none, &[0], none), Status::ReadFault, ""),
        (fault(none, none, &[2], none), Status::ReadFault, ROLLED),
        (fault(none, none, none, &[0]), Status::WriteFault, ""),
        (fault(none, none, none, &[1]), Status::WriteFault, ROLLED),
    ];
    for (outside, status, replies) in table {
        assert_eq!(rt;
            told_of(rt.alloc(), ROLL, ROLL, replies, &outside)?,
            (status, None, true),
            "{replies}"
        );
    }
    Ok(())
}

// A gate that counts the calls of worker 7 that pass in order; another one spoils the count.
#[derive(Drop)]
struct Counting<'a> {
    passed: &'a Cell<u64>,
}

impl<W> Gate<W> for Counting<'_> {
    fn pass(&self, _w: &mut W, worker: u32, call: u64) {
        let next = self.passed.get();
        let count = if worker == 7 && call == next {
            next.saturating_add(1)
        } else {
            1_000_000
        };
        self.passed.set(count);
    }
}

// A clock that shows how many calls have passed.
#[derive(Drop)]
struct Passed<'a> {
    passed: &'a Cell<u64>,
}

impl Clock for Passed<'_> {
    ghost use Rattle.std.specs.Prelude.{None};

    ghost moments = { λ _. None };

    fn now(&mut self) -> u64 {
        self.passed.get()
    }
}

// The moment of each entry of a session behind the gate, in order, and how many calls passed.
fn moments_behind(alloc: Global, input: &str) -> Result<(Vec<u64>, u64), Fail> {
    let passed = Cell::new(0);
    let gate = Counting { passed: &passed };
    let mut clock = Passed { passed: &passed };
    let input = bytes_of(alloc, input)?;
    let (end, _written) = session_behind(alloc, &mut clock, &gate, input, &WELL)?;
    let entries = end.trace.entries.as_slice();
    let moments = entries.iter().map(|entry| entry.now).collect(alloc)?;
    Ok((moments, passed.get()))
}

// Each whole frame passes the gate once, in order and before it is served, one that is no request too;
// what is no whole frame doesn't pass.
#[test]
fn gated(rt: HostRuntime) -> Result<(), Fail> {
    let table: [(&str, &[u64]); 4] = [
        ("", &[]),
        ("00000000", &[]),
        ("00000001 0C 00000009 01", &[1]),
        (
            "00000001 0C 00000009 01 0000000000000000 00000001 0C",
            &[1, 2, 3],
        ),
    ];
    for (input, moments) in table {
        let (shown, passed) = moments_behind(rt.alloc(), input)?;
        assert_eq!(rt; shown.as_slice(), moments, "{input}");
        assert_eq!(rt; passed, moments.len() as u64, "{input}");
    }
    Ok(())
}

// docs/FORMATS.md, "Statuses".
#[test]
fn statuses(rt: HostRuntime) {
    let table = [
        (Status::Done, 0, None),
        (Status::BadWords, 2, Some("dp_server: bad words")),
        (Status::BadInput, 3, None),
        (Status::ReadFault, 4, Some("dp_server: reading failed")),
        (Status::WriteFault, 5, Some("dp_server: writing failed")),
        (
            Status::StoreFault,
            6,
            Some("dp_server: the repository failed"),
        ),
        (
            Status::DrawFault,
            7,
            Some("dp_server: drawing random bytes failed"),
        ),
        (Status::NoMemory, 8, Some("dp_server: out of memory")),
        (
            Status::Spent,
            9,
            Some("dp_server: too many requests in one session"),
        ),
        (
            Status::Forked,
            10,
            Some("dp_server: the run differs from its history"),
        ),
    ];
    for (status, number, message) in table {
        assert_eq!(rt; status.number(), number);
        assert_eq!(rt; status.message(), message, "{number}");
    }
}

// The longest name of an application, and one that is longer.
#[test]
fn names(rt: HostRuntime) -> Result<(), Fail> {
    let alloc = rt.alloc();
    for (count, refused) in [(256, None), (257, Some(AppRefused::TooLong))] {
        let name = String::from_utf8(Vec::from_elem(alloc, b'n', count)?)
            .ok()
            .ok_or("text")?;
        match AppName::new(alloc, name.as_str()) {
            Ok(app) => {
                assert_eq!(rt; refused, None, "{count} bytes");
                assert_eq!(rt; app.as_str(), name.as_str());
            }
            Err(why) => assert_eq!(rt; Some(why), refused, "{count} bytes"),
        }
    }
    Ok(())
}

#[test]
fn phrases(rt: HostRuntime) -> Result<(), Fail> {
    let table = [
        (
            CallRefused::Node(NodeError::Full { count: 5 }),
            "the repository is full with 5 elements",
        ),
        (
            CallRefused::Due(Why::Wanted { want: 2, held: 1 }),
            "the ring is due",
        ),
        (
            CallRefused::Protect {
                front: 1,
                why: ProtectRefused::NoDefaultKey,
            },
            "the ring has no key to protect with",
        ),
        (
            CallRefused::Unprotect {
                front: 1,
                why: UnprotectRefused::Tampered,
            },
            "the body was altered, or was sealed otherwise",
        ),
    ];
    for (refused, phrase) in table {
        assert_eq!(rt; format!(in rt.alloc(); "{refused}")?.as_str(), phrase);
    }
    Ok(())
}

#[test]
fn phrases_of_names(rt: HostRuntime) -> Result<(), Fail> {
    let table = [
        (
            AppRefused::TooLong,
            "the name of an application is too long",
        ),
        (AppRefused::Memory, "no memory"),
    ];
    for (refused, phrase) in table {
        assert_eq!(rt; format!(in rt.alloc(); "{refused}")?.as_str(), phrase);
    }
    Ok(())
}

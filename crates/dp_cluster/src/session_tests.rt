// Sessions over passes of one node and links of one repository.
use default_key::Options;
use dp_base::{AesSize, Alg, MemClock, MemDraw, MemSink, MemSource};
use dp_encryptor::HeaderTable;
use dp_node::{HostView, Node, Pass};
use dp_session::{AppName, NoGate, Setup, Status, serve_session};
use key_elements::ElementList;
use repo_keeper::{MemKeeper, OwnRepo};
use repo_shared::{Link, SharedRepo};
use std::alloc::Global;
use std::sync::Wait;
use std::test::Fail;

const DAY_0: u64 = 638_000_000_000_000_000;

// docs/FORMATS.md, "Frames and requests": a key from day 0 to day 90 under code 3, whose draws are
// zeros, and its reply.
const ROLL: [u8; 22] = [
    0, 0, 0, 18, 2, 0x08, 0xDA, 0xA1, 0x9E, 0xA6, 0xB3, 0, 0, 0x08, 0xDA, 0xE8, 0x57, 0x8F, 0xE0,
    0x80, 0, 3,
];

const ROLLED: [u8; 29] = [
    0, 0, 0, 25, 0, 0, 0, 0, 0, 0, 0, 0, 1, 0, 0, 0, 0, 0, 0, 0, 0x40, 0x80, 0, 0, 0, 0, 0, 0, 0,
];

// A ring of nine elements is asked for, of a repository of one.
const RING: [u8; 13] = [0, 0, 0, 9, 1, 0, 0, 0, 0, 0, 0, 0, 9];

const BEHIND: [u8; 21] = [
    0, 0, 0, 17, 6, 0, 0, 0, 0, 0, 0, 0, 1, 0, 0, 0, 0, 0, 0, 0, 9,
];

// A pass and its link.
type End = (Pass, Link<MemKeeper>);

// The options of a node that makes no keys.
fn options() -> Result<Options, Fail> {
    Options::new(90, false, Alg::Cbc256(AesSize::A256)).map_err(|_| "options".into())
}

fn zeros(alloc: Global) -> Result<MemDraw, Fail> {
    Ok(MemDraw::new(Vec::from_elem(alloc, 0, 1_024)?, Vec::new(alloc)))
}

// The two passes of a node over an empty repository, each with its link.
fn ends<W: Wait>(w: &mut W, alloc: Global) -> Result<(End, End), Fail> {
    let keeper = MemKeeper::new(ElementList::empty(), Vec::new(alloc));
    let mut repo = OwnRepo::new(alloc, keeper);
    let mut draw = zeros(alloc)?;
    let mut passes = Node::open(w, alloc, &mut repo, &mut draw, DAY_0, 0, 2, options()?)?;
    let (_shared, mut links) = SharedRepo::open(alloc, repo.into_keeper(), 2)?;
    match (passes.pop(), passes.pop(), links.pop(), links.pop()) {
        (Some(first), Some(second), Some(one), Some(other)) => Ok(((first, one), (second, other))),
        _ => Err("two ends".into()),
    }
}

// How the session of one request ends, on day 0, and what it writes.
fn session<W: Wait>(
    w: &mut W,
    alloc: Global,
    end: &mut End,
    request: &[u8],
) -> Result<(Status, Vec<u8>), Fail> {
    if end.0.held() {
        return Err("the turn is held".into());
    }
    let mut clock = MemClock::new(Vec::from_elem(alloc, DAY_0, 1)?);
    let mut draw = zeros(alloc)?;
    let setup = Setup {
        options: options()?,
        app: AppName::new(alloc, "")?,
    };
    let headers = HeaderTable::new(alloc);
    let mut input = MemSource::new(request.to_vec(alloc)?, 4_096, Vec::new(alloc));
    let mut output = MemSink::new(alloc, 4_096, Vec::new(alloc));
    let (pass, link) = end;
    let ended = serve_session(
        w,
        alloc,
        pass,
        link,
        &mut draw,
        &mut clock,
        &NoGate,
        0,
        &setup,
        &headers,
        &mut input,
        &mut output,
    );
    Ok((ended.status, output.into_bytes()))
}

// A key that one session makes is in the ring of another.
#[test]
fn sessions_over_passes(mut rt: HostRuntime) -> Result<(), Fail> {
    let alloc = rt.alloc();
    let (mut one, mut other) = ends(&mut rt, alloc)?;
    let made = session(&mut rt, alloc, &mut one, &ROLL)?;
    assert_eq!(rt; made.0, Status::Done);
    assert!(rt; made.1.as_slice() == ROLLED.as_slice());
    let asked = session(&mut rt, alloc, &mut other, &RING)?;
    assert_eq!(rt; asked.0, Status::Done);
    assert!(rt; asked.1.as_slice() == BEHIND.as_slice());
    Ok(())
}

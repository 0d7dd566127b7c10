// Nodes over links of one repository.
ghost use Rattle.std.specs.Prelude.{◌≤◌};

use default_key::Options;
use dp_base::{AesSize, Alg, ChaChaDraw, Grows, KeyId, LAST};
use dp_encryptor::HeaderTable;
use dp_node::{At, HostView, Node, NodeError, Pass, revoke, ring_now};
use dp_protector::{Opened, UnprotectRefused, unprotect_with};
use dp_session::{Answered, CallRefused, protect, unprotect};
use key_elements::{ElementList, Reason, encode, read_list};
use key_ring::Ring;
use purpose_chain::Chain;
use repo_keeper::{MemKeeper, OwnRepo, Repo};
use repo_shared::{Link, SharedRepo};
use ring_world::StepList;
use std::alloc::Global;
use std::sync::Wait;
use std::test::Fail;
use std::thread;

const DAY_0: u64 = 638_000_000_000_000_000;

const PLAIN: [u8; 3] = [5, 6, 7];

fn options() -> Result<Options, Fail> {
    Ok(Options::new(90, true, Alg::Cbc256(AesSize::A256)).map_err(|_| "options")?)
}

// A pass of a node, a link, and what else its calls are lent.
#[derive(Drop)]
struct Worker {
    alloc: Global,
    pass: Pass,
    link: Link<MemKeeper>,
    draw: ChaChaDraw,
    headers: HeaderTable,
    chain: Chain,
}

impl Worker {
    fn new(alloc: Global, pass: Pass, link: Link<MemKeeper>, number: u64) -> Result<Worker, Fail> {
        Ok(Worker {
            alloc,
            pass,
            link,
            draw: ChaChaDraw::new([7; 32], number),
            headers: HeaderTable::new(alloc),
            chain: Chain::new(alloc, "cluster")?,
        })
    }

    // The payload of a text, by a ring of so many elements.
    fn seal<W: Wait>(&mut self, w: &mut W, need: u64) -> Option<Answered<Vec<u8>>> {
        if self.pass.held() {
            return None;
        }
        let alloc = self.alloc;
        let mut steps = StepList::with_room(alloc).ok()?;
        let at = At { now: DAY_0, need };
        let answer = protect(
            w,
            alloc,
            &mut self.pass,
            &mut self.link,
            &mut self.draw,
            &self.headers,
            at,
            &self.chain,
            &PLAIN,
            &mut steps,
        );
        answer.ok()
    }

    // What it opens to.
    fn open<W: Wait>(
        &mut self,
        w: &mut W,
        need: u64,
        payload: &[u8],
    ) -> Option<Result<Answered<Opened>, CallRefused>> {
        if self.pass.held() || payload.len() > 1_000 {
            return None;
        }
        let alloc = self.alloc;
        let mut steps = StepList::with_room(alloc).ok()?;
        let at = At { now: DAY_0, need };
        Some(unprotect(
            w,
            alloc,
            &mut self.pass,
            &mut self.link,
            &mut self.draw,
            &self.headers,
            at,
            &self.chain,
            payload,
            false,
            &mut steps,
        ))
    }

    // The place at which the key is revoked.
    fn revoke<W: Wait>(&mut self, w: &mut W, id: KeyId) -> Option<u64> {
        let alloc = self.alloc;
        let mut steps = StepList::with_room(alloc).ok()?;
        let reason = Reason::new(alloc, "").ok()?;
        let pass = &mut self.pass;
        let link = &mut self.link;
        revoke(w, alloc, pass, link, DAY_0, id, reason, &mut steps).ok()
    }

    // How many elements the ring of one look has, where that is used.
    fn look(&mut self) -> Option<u64> {
        let at = At {
            now: DAY_0,
            need: 0,
        };
        Some(ring_now(&mut self.pass, at).ok()?.list().len())
    }
}

// The passes of so many nodes, in order, each over a link of one repository. The first opening makes a
// key.
fn cluster<W: Wait>(
    w: &mut W,
    alloc: Global,
    nodes: u32,
    passes: u32,
) -> Result<(SharedRepo<MemKeeper>, Vec<Worker>), Fail>
    requires { (1 ≤ passes) × (passes ≤ 64) }
{
    let keeper = MemKeeper::new(ElementList::empty(), Vec::new(alloc));
    let mut repo = OwnRepo::new(alloc, keeper);
    let mut draw = ChaChaDraw::new([7; 32], 0);
    let mut opened = Vec::new(alloc);
    for node in 0..nodes {
        let mut ends = Node::open(
            w,
            alloc,
            &mut repo,
            &mut draw,
            DAY_0,
            node,
            passes,
            options()?,
        )?;
        for _ in 0..passes {
            if let Some(pass) = ends.pop() {
                opened.push(pass)?;
            }
        }
    }
    let (repo, mut links) = SharedRepo::open(alloc, repo.into_keeper(), 64)?;
    let mut workers = Vec::new(alloc);
    for number in 0..64 {
        if let (Some(pass), Some(link)) = (opened.pop(), links.pop()) {
            workers.push(Worker::new(alloc, pass, link, number)?)?;
        }
    }
    Ok((repo, workers))
}

// The place of the revocation, how many elements the ring had that opened a payload before another
// node was asked for them, and whether that node refuses it then.
fn revoke_elsewhere<W: Wait>(
    w: &mut W,
    one: &mut Worker,
    other: &mut Worker,
) -> Option<(u64, u64, bool)> {
    let payload = one.seal(w, 0)?.value;
    let id = one.pass.look().ok()?.default_id()?;
    let place = one.revoke(w, id)?;
    let before = other.open(w, 0, payload.as_slice())?.ok()?.front;
    let revoked = matches!(
        other.open(w, 2, payload.as_slice())?,
        Err(CallRefused::Unprotect {
            why: UnprotectRefused::KeyRevoked { .. },
            ..
        })
    );
    Some((place, before, revoked))
}

// The same of the nodes of a cluster.
fn found_elsewhere<W: Wait>(w: &mut W, alloc: Global) -> Result<Option<(u64, u64, bool)>, Fail> {
    let (_repo, mut workers) = cluster(w, alloc, 2, 1)?;
    match (workers.pop(), workers.pop()) {
        (Some(mut one), Some(mut other)) => Ok(revoke_elsewhere(w, &mut one, &mut other)),
        _ => Ok(None),
    }
}

// What one node revokes another opens by its own ring, and refuses where it is asked for as many
// elements.
#[test]
fn two_nodes(mut rt: HostRuntime) -> Result<(), Fail> {
    let alloc = rt.alloc();
    assert_eq!(rt; found_elsewhere(&mut rt, alloc)?, Some((1, 1, true)));
    Ok(())
}

const PASSES: u32 = 64;

const ROUNDS: u64 = 4;

// A pass in a thread of its own, and what it came to.
#[derive(Drop)]
struct Runner {
    worker: Worker,
    // The first one revokes keys.
    revokes: bool,
    // How many elements the longest ring had by which it was answered.
    longest: u64,
    // How often a later look showed fewer.
    back: u64,
    opened: u64,
    revoked: u64,
    last: Option<Answered<Vec<u8>>>,
}

impl Runner {
    fn new(worker: Worker, revokes: bool) -> Runner {
        Runner {
            worker,
            revokes,
            longest: 0,
            back: 0,
            opened: 0,
            revoked: 0,
            last: None,
        }
    }

    // One look, one payload that is made and opened, and for the first one a key that is revoked.
    fn round<W: Wait>(&mut self, w: &mut W, number: u64) -> Option<()> {
        if let Some(front) = self.worker.look() {
            if front < self.longest {
                self.back = self.back.saturating_add(1);
            }
            self.longest = front;
        }
        let made = self.worker.seal(w, 0)?;
        self.longest = made.front;
        let answer = self.worker.open(w, 0, made.value.as_slice())?.ok()?;
        if answer.value.plain.as_slice() == PLAIN.as_slice() {
            self.opened = self.opened.saturating_add(1);
        }
        self.last = Some(made);
        if self.revokes {
            self.worker.revoke(w, KeyId(u128::from(number)))?;
            self.revoked = self.revoked.saturating_add(1);
        }
        Some(())
    }

    fn run<W: Wait>(&mut self, w: &mut W) {
        for number in 0..ROUNDS {
            let _ = self.round(w, number);
        }
    }

    // Whether the last payload opens by the ring that its answer names, of a history.
    fn opens_by_named(&self, alloc: Global, history: &ElementList) -> Result<bool, Fail> {
        let Some(last) = &self.last else {
            return Ok(false);
        };
        if last.made_at > LAST || last.value.len() > 1_000 {
            return Ok(false);
        }
        let mut front = Vec::new(alloc);
        for place in 0..last.front {
            match history.get(place) {
                Some(element) => encode(alloc, element, &mut front)?,
                None => return Ok(false),
            }
        }
        let list = read_list(alloc, front.as_slice())?;
        let ring = Ring::of(alloc, list, last.made_at, 0, &options()?)?;
        let worker = &self.worker;
        let payload = last.value.as_slice();
        match unprotect_with(alloc, &ring, &worker.headers, &worker.chain, payload, false) {
            Ok(opened) => Ok(opened.plain.as_slice() == PLAIN.as_slice()),
            Err(_) => Ok(false),
        }
    }
}

// What all passes came to: looks that went back, payloads that opened, last ones that open by the ring
// that is named, keys revoked, and the elements of the history.
fn totals<W: Wait>(
    w: &mut W,
    alloc: Global,
    runners: &mut [Runner],
) -> Result<(u64, u64, u64, u64, u64), Fail> {
    let Some(first) = runners.first_mut() else {
        return Err("no pass".into());
    };
    let known = first.worker.link.seen().len();
    let _tail = first.worker.link.read(w, alloc, known)?;
    let history = first.worker.link.seen().share()?;
    let mut all = (0u64, 0u64, 0u64, 0u64, history.len());
    for one in runners.iter() {
        all.0 = all.0.saturating_add(one.back);
        all.1 = all.1.saturating_add(one.opened);
        if one.opens_by_named(alloc, &history)? {
            all.2 = all.2.saturating_add(1);
        }
        all.3 = all.3.saturating_add(one.revoked);
    }
    Ok(all)
}

// The passes of one node in as many threads, of which one revokes keys: no look goes back, and each
// payload opens, also by the ring that its answer names.
#[test]
fn many_threads(rt: HostRuntime) -> Result<(), Fail> {
    let alloc = rt.alloc();
    let mut w = rt;
    let (_repo, mut workers) = cluster(&mut w, alloc, 1, PASSES)?;
    let mut runners = Vec::new(alloc);
    for number in 0..PASSES {
        if let Some(worker) = workers.pop() {
            runners.push(Runner::new(worker, number == 0))?;
        }
    }
    let run = |_: usize, one: &mut Runner| {
        let mut w = rt;
        one.run(&mut w);
    };
    thread::for_each_mut(&rt, runners.as_mut_slice(), PASSES as usize, &run);
    let all = totals(&mut w, alloc, runners.as_mut_slice())?;
    assert_eq!(rt; all, (0, 256, 64, 4, 5));
    Ok(())
}

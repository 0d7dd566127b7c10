// Passes of one node over one repository, asked one after the other.
use default_key::Options;
use dp_base::{AesSize, Alg, ChaChaDraw, KeyId, LAST, TICKS_PER_DAY};
use dp_encryptor::HeaderTable;
use dp_node::{At, HostView, Node, NodeError, Pass, revoke, ring_for};
use dp_protector::UnprotectRefused;
use dp_session::{CallRefused, protect, protect_now, unprotect};
use key_elements::{ElementList, Reason};
use key_ring::Why;
use purpose_chain::Chain;
use repo_keeper::{MemKeeper, OwnRepo};
use ring_world::{Step, StepList};
use std::alloc::Global;
use std::sync::Wait;
use std::test::Fail;

const DAY_0: u64 = 638_000_000_000_000_000;

// What the calls of passes are lent.
#[derive(Drop)]
struct Desk {
    alloc: Global,
    repo: OwnRepo<MemKeeper>,
    draw: ChaChaDraw,
    headers: HeaderTable,
    chain: Chain,
}

// Three passes of a node.
#[derive(Drop)]
struct Three {
    first: Pass,
    second: Pass,
    third: Pass,
}

impl Desk {
    // Over an empty repository whose calls with these numbers, from 0, fail.
    fn new(alloc: Global, fail: Vec<u64>) -> Result<Desk, Fail> {
        let keeper = MemKeeper::new(ElementList::empty(), fail);
        Ok(Desk {
            alloc,
            repo: OwnRepo::new(alloc, keeper),
            draw: ChaChaDraw::new([7; 32], 0),
            headers: HeaderTable::new(alloc),
            chain: Chain::new(alloc, "passes")?,
        })
    }

    // The passes of a node that is opened on day 0, with a key that it makes.
    fn open<W: Wait>(&mut self, w: &mut W) -> Result<Three, Fail> {
        let options = Options::new(90, true, Alg::Cbc256(AesSize::A256)).map_err(|_| "options")?;
        let alloc = self.alloc;
        let repo = &mut self.repo;
        let mut passes = Node::open(w, alloc, repo, &mut self.draw, DAY_0, 0, 3, options)?;
        match (passes.pop(), passes.pop(), passes.pop()) {
            (Some(first), Some(second), Some(third)) => Ok(Three {
                first,
                second,
                third,
            }),
            _ => Err("three passes".into()),
        }
    }

    // How many elements the ring has by which the pass is answered, so many ticks later.
    fn ask<W: Wait>(
        &mut self,
        w: &mut W,
        pass: &mut Pass,
        ticks: u64,
        steps: &mut StepList,
    ) -> Option<Result<u64, NodeError>> {
        if ticks > LAST - DAY_0 || pass.held() || !steps.as_slice().is_empty() {
            return None;
        }
        let at = At {
            now: DAY_0 + ticks,
            need: 0,
        };
        let alloc = self.alloc;
        let repo = &mut self.repo;
        let draw = &mut self.draw;
        let found = ring_for(w, alloc, pass, repo, draw, at, None, steps);
        Some(found.map(|ring| ring.list().len()))
    }

    // The same, of a call whose steps aren't looked at.
    fn find<W: Wait>(
        &mut self,
        w: &mut W,
        pass: &mut Pass,
        ticks: u64,
    ) -> Option<Result<u64, NodeError>> {
        let mut steps = StepList::with_room(self.alloc).ok()?;
        self.ask(w, pass, ticks, &mut steps)
    }

    // The payload of no bytes on day 0.
    fn seal<W: Wait>(&mut self, w: &mut W, pass: &mut Pass) -> Option<Vec<u8>> {
        if pass.held() {
            return None;
        }
        let at = At {
            now: DAY_0,
            need: 0,
        };
        let alloc = self.alloc;
        let mut steps = StepList::with_room(alloc).ok()?;
        let repo = &mut self.repo;
        let draw = &mut self.draw;
        let headers = &self.headers;
        let chain = &self.chain;
        let answer = protect(
            w,
            alloc,
            pass,
            repo,
            draw,
            headers,
            at,
            chain,
            &[],
            &mut steps,
        );
        Some(answer.ok()?.value)
    }

    // Why the payload isn't opened, so many ticks later.
    fn refusal<W: Wait>(
        &mut self,
        w: &mut W,
        pass: &mut Pass,
        ticks: u64,
        payload: &[u8],
    ) -> Option<CallRefused> {
        if ticks > LAST - DAY_0 || pass.held() || payload.len() > 1_000 {
            return None;
        }
        let at = At {
            now: DAY_0 + ticks,
            need: 0,
        };
        let alloc = self.alloc;
        let mut steps = StepList::with_room(alloc).ok()?;
        let repo = &mut self.repo;
        let draw = &mut self.draw;
        let headers = &self.headers;
        let chain = &self.chain;
        unprotect(
            w, alloc, pass, repo, draw, headers, at, chain, payload, false, &mut steps,
        )
        .err()
    }

    // The place at which the pass revokes its default key.
    fn revoke<W: Wait>(&mut self, w: &mut W, pass: &mut Pass) -> Option<u64> {
        let id = pass.look().ok()?.default_id()?;
        self.revoke_key(w, pass, id)
    }

    // The place at which it revokes the key.
    fn revoke_key<W: Wait>(&mut self, w: &mut W, pass: &mut Pass, id: KeyId) -> Option<u64> {
        let alloc = self.alloc;
        let mut steps = StepList::with_room(alloc).ok()?;
        let reason = Reason::new(alloc, "").ok()?;
        let repo = &mut self.repo;
        revoke(w, alloc, pass, repo, DAY_0, id, reason, &mut steps).ok()
    }

    // The repository lost all but so many elements.
    fn cut(self, n: u64) -> Desk {
        let Desk {
            alloc,
            repo,
            draw,
            headers,
            chain,
        } = self;
        let mut keeper = repo.into_keeper();
        keeper.cut_to(n);
        Desk {
            alloc,
            repo: OwnRepo::new(alloc, keeper),
            draw,
            headers,
            chain,
        }
    }
}

// The holder that is named in steps.
fn holder_in(steps: &StepList) -> Option<u64> {
    steps.as_slice().iter().find_map(|step| match step {
        Step::Busy { holder } => Some(*holder),
        _ => None,
    })
}

// What passes find on the next day while the second has the turn: the first the ring that is due, and
// who has the turn; the third, which placed an element, a ring of its own. And why the first has none
// without waiting.
fn beside_a_holder<W: Wait>(
    w: &mut W,
    desk: &mut Desk,
    three: &mut Three,
) -> Option<(u64, u64, u64, bool)> {
    if three.second.held() {
        return None;
    }
    three.second.try_take().ok()?;
    desk.revoke_key(w, &mut three.third, KeyId(7))?;
    let mut steps = StepList::with_room(desk.alloc).ok()?;
    let first = desk
        .ask(w, &mut three.first, TICKS_PER_DAY, &mut steps)?
        .ok()?;
    let holder = holder_in(&steps)?;
    let third = desk.find(w, &mut three.third, TICKS_PER_DAY)?.ok()?;
    let at = At {
        now: DAY_0 + TICKS_PER_DAY,
        need: 0,
    };
    let draw = &mut desk.draw;
    let now = protect_now(
        desk.alloc,
        &mut three.first,
        draw,
        &desk.headers,
        at,
        &desk.chain,
        &[],
    );
    let ended = matches!(now, Err(CallRefused::Due(Why::Ended { .. })));
    Some((first, holder, third, ended))
}

#[test]
fn a_turn_that_is_held(mut rt: HostRuntime) -> Result<(), Fail> {
    let alloc = rt.alloc();
    let mut desk = Desk::new(alloc, Vec::new(alloc))?;
    let mut three = desk.open(&mut rt)?;
    let found = beside_a_holder(&mut rt, &mut desk, &mut three);
    assert_eq!(rt; found, Some((1, 2, 2, true)));
    Ok(())
}

// What passes find on the next day over a repository whose read fails: the first that it failed; the
// second the same ring, without a call; the third, which revoked the key, that the payload is refused.
fn behind_a_fault<W: Wait>(
    w: &mut W,
    desk: &mut Desk,
    three: &mut Three,
) -> Option<(bool, u64, usize, bool)> {
    let payload = desk.seal(w, &mut three.first)?;
    let failed = desk.find(w, &mut three.first, TICKS_PER_DAY)?;
    let mut steps = StepList::with_room(desk.alloc).ok()?;
    let second = desk
        .ask(w, &mut three.second, TICKS_PER_DAY + 1, &mut steps)?
        .ok()?;
    desk.revoke(w, &mut three.third)?;
    let refused = desk.refusal(w, &mut three.third, TICKS_PER_DAY + 1, payload.as_slice())?;
    let revoked = matches!(
        refused,
        CallRefused::Unprotect {
            why: UnprotectRefused::KeyRevoked { .. },
            ..
        }
    );
    let fault = matches!(failed, Err(NodeError::StoreFault));
    Some((fault, second, steps.as_slice().len(), revoked))
}

#[test]
fn a_read_that_fails(mut rt: HostRuntime) -> Result<(), Fail> {
    let alloc = rt.alloc();
    let mut fail = Vec::new(alloc);
    // The opening loads twice, and puts the key.
    fail.push(3)?;
    let mut desk = Desk::new(alloc, fail)?;
    let mut three = desk.open(&mut rt)?;
    let found = behind_a_fault(&mut rt, &mut desk, &mut three);
    assert_eq!(rt; found, Some((true, 1, 3, true)));
    Ok(())
}

// What a pass finds on the next day that has seen three elements of which one is lost.
fn behind_a_loss<W: Wait>(
    w: &mut W,
    mut desk: Desk,
    three: &mut Three,
) -> Option<Result<u64, NodeError>> {
    desk.revoke_key(w, &mut three.first, KeyId(7))?;
    desk.revoke_key(w, &mut three.first, KeyId(8))?;
    let mut desk = desk.cut(2);
    desk.find(w, &mut three.first, TICKS_PER_DAY)
}

#[test]
fn a_repository_that_went_back(mut rt: HostRuntime) -> Result<(), Fail> {
    let alloc = rt.alloc();
    let mut desk = Desk::new(alloc, Vec::new(alloc))?;
    let mut three = desk.open(&mut rt)?;
    let found = behind_a_loss(&mut rt, desk, &mut three);
    assert!(rt; matches!(found, Some(Err(NodeError::WentBack { had: 3, got: 2 }))));
    Ok(())
}

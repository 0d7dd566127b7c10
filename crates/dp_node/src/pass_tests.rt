// Passes of one node, on one thread and on many.
ghost use Rattle.std.specs.Prelude.{◌≤◌};

use super::*;
use default_key::Options;
use dp_base::{AesSize, Alg, KeyId, LAST, MemDraw, Memory, TICKS_PER_DAY};
use key_elements::{Element, ElementList, Reason, encode, read_list};
use key_ring::Why;
use repo_keeper::{MemKeeper, OwnRepo};
use ring_world::{Step, StepList};
use std::alloc::Global;
use std::sync::Wait;
use std::test::Fail;
use std::thread;

const DAY_0: u64 = 638_000_000_000_000_000;

// A list of mass revocations with these dates.
fn list_of(alloc: Global, dates: &[u64]) -> Result<ElementList, Fail> {
    let mut bytes = Vec::new(alloc);
    for date in dates {
        let reason = Reason::new(alloc, "")?;
        let element = Element::RevokeBefore {
            date: *date,
            reason,
        };
        encode(alloc, &element, &mut bytes)?;
    }
    Ok(read_list(alloc, bytes.as_slice())?)
}

// What the calls of passes are lent.
#[derive(Drop)]
struct Store {
    alloc: Global,
    repo: OwnRepo<MemKeeper>,
    draw: MemDraw,
}

// Two passes of a node that makes no keys.
#[derive(Drop)]
struct Pair {
    first: Pass,
    second: Pass,
}

// How many elements a ring has, and how many steps led to it.
type Found = (u64, usize);

impl Store {
    // A repository of mass revocations with these dates, whose calls with these numbers, from 0, fail.
    fn new(alloc: Global, dates: &[u64], fail: Vec<u64>) -> Result<Store, Fail> {
        let keeper = MemKeeper::new(list_of(alloc, dates)?, fail);
        Ok(Store {
            alloc,
            repo: OwnRepo::new(alloc, keeper),
            draw: MemDraw::new(Vec::from_elem(alloc, 0, 64)?, Vec::new(alloc)),
        })
    }

    // The passes of a node over it that is opened on day 0.
    fn open_all<W: Wait>(&mut self, w: &mut W, passes: u32) -> Result<Vec<Pass>, Fail>
        requires { (1 ≤ passes) × (passes ≤ 64) }
    {
        let options = Options::new(90, false, Alg::Cbc256(AesSize::A256)).map_err(|_| "options")?;
        let alloc = self.alloc;
        let repo = &mut self.repo;
        let draw = &mut self.draw;
        Ok(Node::open(w, alloc, repo, draw, DAY_0, 3, passes, options)?)
    }

    // The two passes of a node.
    fn open<W: Wait>(&mut self, w: &mut W) -> Result<Pair, Fail> {
        let mut passes = self.open_all(w, 2)?;
        let Some(first) = passes.pop() else {
            return Err("no first pass".into());
        };
        let Some(second) = passes.pop() else {
            return Err("no second pass".into());
        };
        Ok(Pair { first, second })
    }

    // What a call at so many ticks after the opening finds, with its steps.
    fn ask<W: Wait>(
        &mut self,
        w: &mut W,
        pass: &mut Pass,
        ticks: u64,
        steps: &mut StepList,
    ) -> Result<Result<u64, NodeError>, Fail> {
        if ticks > LAST - DAY_0 || pass.held() || !steps.as_slice().is_empty() {
            return Err("no call".into());
        }
        let at = At {
            now: DAY_0 + ticks,
            need: 0,
        };
        let alloc = self.alloc;
        let repo = &mut self.repo;
        let draw = &mut self.draw;
        let answer = ring_for(w, alloc, pass, repo, draw, at, None, steps);
        Ok(answer.map(|ring| ring.list().len()))
    }

    // What a call that is answered finds.
    fn find<W: Wait>(&mut self, w: &mut W, pass: &mut Pass, ticks: u64) -> Result<Found, Fail> {
        let mut steps = StepList::with_room(self.alloc)?;
        let count = self.ask(w, pass, ticks, &mut steps)??;
        Ok((count, steps.as_slice().len()))
    }

    // The pass revokes a key, whether or not there is one.
    fn revoke<W: Wait>(&mut self, w: &mut W, pass: &mut Pass) -> Result<u64, Fail> {
        let alloc = self.alloc;
        let reason = Reason::new(alloc, "")?;
        let mut steps = StepList::with_room(alloc)?;
        let repo = &mut self.repo;
        let id = KeyId(7);
        Ok(revoke(w, alloc, pass, repo, DAY_0, id, reason, &mut steps)?)
    }
}

// The number of the holder that the pass is told, or 0 where it has the turn now.
fn take(pass: &mut Pass) -> Result<u64, Fail> {
    if pass.held() {
        return Err("the turn is held".into());
    }
    match pass.try_take() {
        Ok(()) => Ok(0),
        Err(busy) => Ok(busy.holder as u64),
    }
}

// How many elements the pass has seen after it was told a list.
fn told_count(alloc: Global, pass: &mut Pass, dates: &[u64]) -> Result<u64, Fail> {
    pass.told(&list_of(alloc, dates)?)?;
    Ok(pass.own().len())
}

// The same for two lists, one after the other.
fn tell_two(alloc: Global, pass: &mut Pass) -> Result<(u64, u64), Fail> {
    let longer = told_count(alloc, pass, &[1, 2, 3])?;
    Ok((longer, told_count(alloc, pass, &[1])?))
}

// Where the list that the pass is told differs from the one that it has seen.
fn fork_of(alloc: Global, pass: &mut Pass, dates: &[u64]) -> Result<Fork, Fail> {
    match pass.told(&list_of(alloc, dates)?) {
        Err(ToldRefused::Forked(fork)) => Ok(fork),
        _ => Err("no fork".into()),
    }
}

// How many elements the ring of one look has, so many ticks after the opening.
fn count_now(pass: &mut Pass, ticks: u64) -> Result<Result<u64, NowRefused>, Fail> {
    if ticks > LAST - DAY_0 {
        return Err("no moment".into());
    }
    let at = At {
        now: DAY_0 + ticks,
        need: 0,
    };
    Ok(ring_now(pass, at).map(|ring| ring.list().len()))
}

// Both passes take the turn, and then the second once more after the first gave it back.
fn go_round(pair: &mut Pair) -> Result<(u64, u64, u64), Fail> {
    let first = take(&mut pair.first)?;
    let second = take(&mut pair.second)?;
    if pair.first.held() {
        pair.first.give();
    }
    Ok((first, second, take(&mut pair.second)?))
}

// What each is told of the turn's holder.
fn turns<W: Wait>(w: &mut W, alloc: Global) -> Result<(u64, u64, u64), Fail> {
    let mut store = Store::new(alloc, &[1], Vec::new(alloc))?;
    let mut pair = store.open(w)?;
    go_round(&mut pair)
}

// The turn goes round, and who asks meanwhile is told who has it.
#[test]
fn one_turn(mut rt: HostRuntime) -> Result<(), Fail> {
    let alloc = rt.alloc();
    assert_eq!(rt; turns(&mut rt, alloc)?, (0, 1, 0));
    Ok(())
}

// What a pass has seen after it is told a longer list and then a shorter one.
fn counts_told<W: Wait>(w: &mut W, alloc: Global) -> Result<(u64, u64), Fail> {
    let mut store = Store::new(alloc, &[1, 2], Vec::new(alloc))?;
    let mut pair = store.open(w)?;
    tell_two(alloc, &mut pair.first)
}

// A pass keeps the longer of two lists that it is told.
#[test]
fn told_longer(mut rt: HostRuntime) -> Result<(), Fail> {
    let alloc = rt.alloc();
    assert_eq!(rt; counts_told(&mut rt, alloc)?, (3, 3));
    Ok(())
}

// The fork of a pass that is told another history.
fn fork_told<W: Wait>(w: &mut W, alloc: Global) -> Result<Fork, Fail> {
    let mut store = Store::new(alloc, &[1, 2], Vec::new(alloc))?;
    let mut pair = store.open(w)?;
    fork_of(alloc, &mut pair.first, &[1, 7, 8])
}

// A pass refuses a list that differs from the one that it has seen.
#[test]
fn told_another(mut rt: HostRuntime) -> Result<(), Fail> {
    let alloc = rt.alloc();
    let fork = fork_told(&mut rt, alloc)?;
    assert_eq!(rt; (fork.at, fork.left.len(), fork.right.len()), (1, 2, 3));
    Ok(())
}

// One pass revokes a key, and then both ask for a ring.
fn revoke_and_look<W: Wait>(
    w: &mut W,
    store: &mut Store,
    pair: &mut Pair,
) -> Result<(Found, Found), Fail> {
    let _place = store.revoke(w, &mut pair.first)?;
    let first = store.find(w, &mut pair.first, 0)?;
    Ok((first, store.find(w, &mut pair.second, 0)?))
}

// What both find.
fn found_revoked<W: Wait>(w: &mut W, alloc: Global) -> Result<(Found, Found), Fail> {
    let mut store = Store::new(alloc, &[1], Vec::new(alloc))?;
    let mut pair = store.open(w)?;
    revoke_and_look(w, &mut store, &mut pair)
}

// One pass revokes a key and publishes the list of two elements; the next look of the other shows
// that ring.
#[test]
fn seen_by_the_other(mut rt: HostRuntime) -> Result<(), Fail> {
    let alloc = rt.alloc();
    assert_eq!(rt; found_revoked(&mut rt, alloc)?, ((2, 10), (2, 3)));
    Ok(())
}

// The pass has the turn and is gone.
fn go_with_the_turn(mut pass: Pass) -> Result<u64, Fail> {
    take(&mut pass)
}

// How many elements the pass is answered by on the next day, and which holder it met.
fn ask_beside<W: Wait>(w: &mut W, store: &mut Store, pass: &mut Pass) -> Result<(u64, u64), Fail> {
    let mut steps = StepList::with_room(store.alloc)?;
    let count = store.ask(w, pass, TICKS_PER_DAY, &mut steps)??;
    match steps.as_slice().get(2) {
        Some(Step::Busy { holder }) => Ok((count, *holder as u64)),
        _ => Err("no holder".into()),
    }
}

// What the first pass is answered after the second is gone with the turn.
fn found_beside<W: Wait>(w: &mut W, alloc: Global) -> Result<(u64, u64), Fail> {
    let mut store = Store::new(alloc, &[1, 2, 3], Vec::new(alloc))?;
    let Pair { mut first, second } = store.open(w)?;
    let _holder = go_with_the_turn(second)?;
    ask_beside(w, &mut store, &mut first)
}

// A pass is gone with the turn: the other is told that it has it, and goes on with the ring that is
// due.
#[test]
fn gone_with_the_turn(mut rt: HostRuntime) -> Result<(), Fail> {
    let alloc = rt.alloc();
    assert_eq!(rt; found_beside(&mut rt, alloc)?, (3, 2));
    Ok(())
}

// A call of the first pass that fails, and then one of the second.
fn fail_and_ask<W: Wait>(
    w: &mut W,
    store: &mut Store,
    pair: &mut Pair,
) -> Result<(bool, Found), Fail> {
    let mut steps = StepList::with_room(store.alloc)?;
    let answer = store.ask(w, &mut pair.first, TICKS_PER_DAY, &mut steps)?;
    let failed = matches!(answer, Err(NodeError::StoreFault));
    Ok((failed, store.find(w, &mut pair.second, TICKS_PER_DAY + 1)?))
}

// Whether the first call failed, and what the second found.
fn found_extended<W: Wait>(w: &mut W, alloc: Global) -> Result<(bool, Found), Fail> {
    let mut fail = Vec::new(alloc);
    fail.push(1)?;
    let mut store = Store::new(alloc, &[1], fail)?;
    let mut pair = store.open(w)?;
    fail_and_ask(w, &mut store, &mut pair)
}

// A refresh whose read fails tells so, and the other pass uses the ring that was extended, with no
// read of its own.
#[test]
fn failed_refresh(mut rt: HostRuntime) -> Result<(), Fail> {
    let alloc = rt.alloc();
    assert_eq!(rt; found_extended(&mut rt, alloc)?, (true, (1, 3)));
    Ok(())
}

// How many elements the last ring of the first day has, and why there is none behind it.
fn look_twice(pass: &mut Pass) -> Result<(u64, Why), Fail> {
    let count = count_now(pass, TICKS_PER_DAY - 1)??;
    match count_now(pass, TICKS_PER_DAY)? {
        Err(NowRefused::Due(why)) => Ok((count, why)),
        _ => Err("not due".into()),
    }
}

fn found_now<W: Wait>(w: &mut W, alloc: Global) -> Result<(u64, Why), Fail> {
    let mut store = Store::new(alloc, &[1], Vec::new(alloc))?;
    let mut pair = store.open(w)?;
    look_twice(&mut pair.first)
}

// Without waiting there is the ring of one look until it ends, and then none.
#[test]
fn without_waiting(mut rt: HostRuntime) -> Result<(), Fail> {
    let alloc = rt.alloc();
    let until = DAY_0 + TICKS_PER_DAY;
    let why = Why::Ended { until, now: until };
    assert_eq!(rt; found_now(&mut rt, alloc)?, (1, why));
    Ok(())
}

// A pass that goes to a thread of its own, with what its calls are lent there.
#[derive(Drop)]
struct Worker {
    store: Store,
    pass: Pass,
}

impl Worker {
    // How many elements a call finds that needs three, after a look that needs two.
    fn find<W: Wait + Drop>(mut self, mut w: W) -> Option<u64> {
        let now = DAY_0;
        let pass = &mut self.pass;
        let _shown = ring_now(pass, At { now, need: 2 }).ok()?;
        if pass.held() {
            return None;
        }
        let store = &mut self.store;
        let (repo, draw) = (&mut store.repo, &mut store.draw);
        let steps = &mut StepList::with_room(store.alloc).ok()?;
        let at = At { now, need: 3 };
        let ring = ring_for(&mut w, store.alloc, pass, repo, draw, at, None, steps).ok()?;
        Some(ring.list().len())
    }
}

// The 64 passes of a node of two elements, each with a repository in which a third one stands.
fn workers<W: Wait>(w: &mut W, alloc: Global) -> Result<Vec<Worker>, Fail> {
    let mut node = Store::new(alloc, &[1, 2], Vec::new(alloc))?;
    let mut workers = Vec::new(alloc);
    for pass in node.open_all(w, 64)? {
        let store = Store::new(alloc, &[1, 2, 3], Vec::new(alloc))?;
        workers.push(Worker { store, pass })?;
    }
    Ok(workers)
}

// On a thread of its own each pass comes to the third element: one that has the turn publishes it,
// and one that meets the holder reads alone.
#[test]
fn each_on_its_thread(mut rt: HostRuntime) -> Result<(), Fail> {
    let alloc = rt.alloc();
    let workers = workers(&mut rt, alloc)?;
    let find = |worker: Worker| worker.find(rt);
    let found = thread::map_vec(&rt, workers, &find)?;
    assert_eq!(rt; found.len(), 64);
    for count in found.as_slice() {
        assert_eq!(rt; *count, Some(3));
    }
    Ok(())
}

// The phrase of each refusal without waiting.
#[test]
fn phrases_now(rt: HostRuntime) -> Result<(), Fail> {
    let alloc = rt.alloc();
    let due = NowRefused::Due(Why::Wanted { want: 2, held: 1 });
    let fork = Fork {
        at: 4,
        left: ElementList::empty(),
        right: ElementList::empty(),
    };
    let cases = [
        (due, "the ring is due"),
        (NowRefused::Forked(fork), "two lists differ at place 4"),
        (NowRefused::from(Memory), "no memory"),
    ];
    for (refused, phrase) in cases {
        assert_eq!(rt; format!(in alloc; "{refused}")?.as_str(), phrase);
    }
    Ok(())
}

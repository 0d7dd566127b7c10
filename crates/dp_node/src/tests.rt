use super::*;
use default_key::Options;
use dp_base::{AesSize, Alg, KeyId, LAST, MemDraw, TICKS_PER_DAY};
use key_elements::{Element, ElementList, MAX_ELEMENTS, Reason, encode, read_list};
use key_ring::Ring;
use repo_keeper::{MemKeeper, OwnRepo, Repo, new_key};
use ring_world::{SECOND_TRY_SPAN, Step, StepList};
use std::alloc::Global;
use std::test::Fail;

const DAY_0: u64 = 638_000_000_000_000_000;

const CODE_3: Alg = Alg::Cbc256(AesSize::A256);

// docs/FORMATS.md, "Ids": the id of sixteen zero bytes; and one that no key has.
const ID: KeyId = KeyId(0x0000_0000_0000_4000_8000_0000_0000_0000);

const NO_KEY: KeyId = KeyId(7);

// A list of mass revocations with these dates.
fn list_of(alloc: Global, dates: &[u64]) -> Result<ElementList, Fail> {
    let mut bytes = Vec::new(alloc);
    for date in dates {
        let reason = Reason::new(alloc, "")?;
        encode(
            alloc,
            &Element::RevokeBefore {
                date: *date,
                reason,
            },
            &mut bytes,
        )?;
    }
    Ok(read_list(alloc, bytes.as_slice())?)
}

fn options(auto: bool) -> Result<Options, Fail> {
    match Options::new(90, auto, CODE_3) {
        Ok(options) => Ok(options),
        Err(_) => Err("a lifetime".into()),
    }
}

// Draws of 1,024 zero bytes.
fn zeros(alloc: Global) -> Result<MemDraw, Fail> {
    Ok(MemDraw::new(Vec::from_elem(alloc, 0, 1_024)?, Vec::new(alloc)))
}

// A pass that is alone at its node, and what its calls are lent.
#[derive(Drop)]
struct Lab {
    alloc: Global,
    repo: OwnRepo<MemKeeper>,
    draw: MemDraw,
    solo: Solo,
}

// The answer to a call that needs a ring, and how many steps led to it.
#[derive(Drop)]
struct Asked {
    answer: Result<Ring, NodeError>,
    steps: StepList,
}

impl Lab {
    // A node that is opened on day 0 over the list.
    fn open(alloc: Global, list: ElementList, auto: bool) -> Result<Lab, Fail> {
        let options = options(auto)?;
        let mut repo = OwnRepo::new(alloc, MemKeeper::new(list, Vec::new(alloc)));
        let mut draw = zeros(alloc)?;
        let solo = Solo::open(alloc, &mut repo, &mut draw, DAY_0, options)?;
        Ok(Lab {
            alloc,
            repo,
            draw,
            solo,
        })
    }

    // A call at so many ticks after the opening.
    fn ask(&mut self, ticks: u64, need: u64, missing: Option<KeyId>) -> Result<Asked, Fail> {
        if ticks > LAST - DAY_0 || self.solo.held() {
            return Err("no call".into());
        }
        let at = At {
            now: DAY_0 + ticks,
            need,
        };
        let mut steps = StepList::with_room(self.alloc)?;
        let answer = ring_for(
            &mut (),
            self.alloc,
            &mut self.solo,
            &mut self.repo,
            &mut self.draw,
            at,
            missing,
            &mut steps,
        );
        Ok(Asked { answer, steps })
    }

    // Its ring, and how many steps led to it.
    fn ring(
        &mut self,
        ticks: u64,
        need: u64,
        missing: Option<KeyId>,
    ) -> Result<(Ring, usize), Fail> {
        let Asked { answer, steps } = self.ask(ticks, need, missing)?;
        Ok((answer?, steps.as_slice().len()))
    }

    // Its refusal.
    fn refusal(&mut self, ticks: u64, need: u64) -> Result<String, Fail> {
        let Asked { answer, steps: _ } = self.ask(ticks, need, None)?;
        match answer {
            Ok(_) => Err("a ring".into()),
            Err(why) => Ok(format!(in self.alloc; "{why}")?),
        }
    }

    // A key from day 0 on.
    fn roll(&mut self, days: u64) -> Result<Placed, NodeError> {
        let mut steps = StepList::with_room(self.alloc)?;
        let end = DAY_0 + days.min(90) * TICKS_PER_DAY;
        roll(
            &mut (),
            self.alloc,
            &mut self.solo,
            &mut self.repo,
            &mut self.draw,
            DAY_0,
            DAY_0,
            end,
            CODE_3,
            &mut steps,
        )
    }

    fn revoke(&mut self, reason: Reason) -> Result<u64, NodeError> {
        let mut steps = StepList::with_room(self.alloc)?;
        revoke(
            &mut (),
            self.alloc,
            &mut self.solo,
            &mut self.repo,
            DAY_0,
            ID,
            reason,
            &mut steps,
        )
    }

    fn revoke_before(&mut self, reason: Reason) -> Result<u64, NodeError> {
        let mut steps = StepList::with_room(self.alloc)?;
        revoke_before(
            &mut (),
            self.alloc,
            &mut self.solo,
            &mut self.repo,
            DAY_0,
            reason,
            &mut steps,
        )
    }

    // Somebody else places a key with the id of zero bytes.
    fn place_key(&mut self) -> Result<(), Fail> {
        let end = DAY_0 + 90 * TICKS_PER_DAY;
        let key = new_key(&mut self.draw, DAY_0, DAY_0, end, CODE_3)?;
        let _ = self.repo.append(&mut (), self.alloc, 0, &key)?;
        Ok(())
    }

    // The keeper has so many elements left.
    fn cut_to(self, count: u64) -> Lab {
        let Lab {
            alloc,
            repo,
            draw,
            solo,
        } = self;
        let mut keeper = repo.into_keeper();
        keeper.cut_to(count);
        Lab {
            alloc,
            repo: OwnRepo::new(alloc, keeper),
            draw,
            solo,
        }
    }
}

// A refresh that makes no key: the ring of the opening is used until it is due, and then read anew.
#[test]
fn refreshed(rt: HostRuntime) -> Result<(), Fail> {
    let alloc = rt.alloc();
    let mut lab = Lab::open(alloc, ElementList::empty(), false)?;
    let (ring, steps) = lab.ring(0, 0, None)?;
    assert_eq!(rt;
        (ring.list().len(), ring.until(), steps),
        (0, DAY_0 + TICKS_PER_DAY, 3)
    );
    let (ring, steps) = lab.ring(TICKS_PER_DAY, 0, None)?;
    assert_eq!(rt; (ring.made_at(), steps), (DAY_0 + TICKS_PER_DAY, 10));
    Ok(())
}

// With automatic keys the opening makes a key; a rolled one, of the same draws and so of the same
// id, comes behind it. Both are revoked, so that the last refresh makes a third.
#[test]
fn rolled(rt: HostRuntime) -> Result<(), Fail> {
    let alloc = rt.alloc();
    let mut lab = Lab::open(alloc, ElementList::empty(), true)?;
    assert_eq!(rt; lab.solo.own().len(), 1);
    assert_eq!(rt; lab.roll(90)?, Placed { place: 1, id: ID });
    assert_eq!(rt; lab.revoke(Reason::new(alloc, "lost")?)?, 2);
    assert_eq!(rt; lab.revoke_before(Reason::new(alloc, "")?)?, 3);
    let refusal = lab.refusal(0, 9)?;
    assert_eq!(rt; refusal.as_str(), "the ring has 5 elements of 9");
    Ok(())
}

// A key whose dates are equal is refused, and a full repository takes none.
#[test]
fn refused(rt: HostRuntime) -> Result<(), Fail> {
    let alloc = rt.alloc();
    let mut dates = Vec::new(alloc);
    for date in 0..MAX_ELEMENTS {
        dates.push(date)?;
    }
    let mut lab = Lab::open(alloc, list_of(alloc, &dates)?, true)?;
    assert_eq!(rt; lab.solo.own().len(), MAX_ELEMENTS);
    match lab.roll(0) {
        Err(NodeError::BadDates) => {}
        _ => return Err("equal dates".into()),
    }
    match lab.roll(1) {
        Err(NodeError::Full { count }) => assert_eq!(rt; count, 16_384),
        _ => return Err("a place".into()),
    }
    Ok(())
}

// A pass that has seen three elements, over a keeper that has only two of them left.
#[test]
fn went_back(rt: HostRuntime) -> Result<(), Fail> {
    let alloc = rt.alloc();
    let lab = Lab::open(alloc, list_of(alloc, &[1, 2, 3])?, false)?;
    let refusal = lab.cut_to(2).refusal(TICKS_PER_DAY, 0)?;
    assert_eq!(rt;
        refusal.as_str(),
        "the repository went back from 3 elements to 2"
    );
    Ok(())
}

// A pass that is told a list that differs, and a longer one.
#[test]
fn told(rt: HostRuntime) -> Result<(), Fail> {
    let alloc = rt.alloc();
    let mut lab = Lab::open(alloc, list_of(alloc, &[1, 2, 3])?, false)?;
    match lab.solo.told(&list_of(alloc, &[1, 7])?) {
        Err(ToldRefused::Forked(fork)) => {
            assert_eq!(rt; (fork.at, fork.left.len(), fork.right.len()), (1, 3, 2))
        }
        _ => return Err("no fork".into()),
    }
    lab.solo.told(&list_of(alloc, &[1, 2, 3, 4])?)?;
    assert_eq!(rt; lab.solo.own().len(), 4);
    Ok(())
}

// A key that is missing in the first two minutes is read for once more, and found.
#[test]
fn found_again(rt: HostRuntime) -> Result<(), Fail> {
    let mut lab = Lab::open(rt.alloc(), ElementList::empty(), false)?;
    lab.place_key()?;
    let Asked { answer, steps } = lab.ask(9, 0, Some(ID))?;
    let first = Step::Look {
        front: 0,
        made_at: DAY_0,
        until: DAY_0 + TICKS_PER_DAY,
        excused: 0,
    };
    let path = [
        Step::Want { n: 0 },
        first,
        Step::Take,
        Step::Want { n: 0 },
        first,
        Step::Read { front: 1 },
        Step::Drawn { bytes: 8 },
        Step::Publish {
            front: 1,
            until: DAY_0 + 9 + TICKS_PER_DAY,
        },
        Step::Give,
        Step::Answer,
    ];
    assert_eq!(rt; steps.as_slice(), path.as_slice());
    assert_eq!(rt; answer?.lookup(&ID).is_some(), true);
    Ok(())
}

// How many steps calls make, at so many ticks after the opening, for lists of so many elements: with
// a second try ten, and three where the ring at hand does.
#[test]
fn tried_again(rt: HostRuntime) -> Result<(), Fail> {
    let mut lab = Lab::open(rt.alloc(), ElementList::empty(), false)?;
    lab.place_key()?;
    let cases = [
        ("no key is named", 9, 0, None, 3),
        ("the key is placed", 9, 0, Some(ID), 10),
        ("the ring has the key", 9, 0, Some(ID), 3),
        ("no list has the key", 9, 0, Some(NO_KEY), 10),
        ("the last tick", SECOND_TRY_SPAN - 1, 0, Some(NO_KEY), 10),
        ("two minutes", SECOND_TRY_SPAN, 0, Some(NO_KEY), 3),
    ];
    for (name, ticks, need, missing, count) in cases {
        let (_, steps) = lab.ring(ticks, need, missing)?;
        assert_eq!(rt; steps, count, "{name}");
    }
    Ok(())
}

// A call that has read the list once doesn't read it again.
#[test]
fn read_once(rt: HostRuntime) -> Result<(), Fail> {
    let mut lab = Lab::open(rt.alloc(), ElementList::empty(), false)?;
    lab.place_key()?;
    let (ring, steps) = lab.ring(9, 1, Some(NO_KEY))?;
    assert_eq!(rt; (ring.list().len(), steps), (1, 10));
    Ok(())
}

// The phrase of each refusal.
#[test]
fn phrases(rt: HostRuntime) -> Result<(), Fail> {
    let alloc = rt.alloc();
    let cases = [
        (NodeError::StoreFault, "the repository failed"),
        (NodeError::DrawFault, "no random bytes were drawn"),
        (
            NodeError::WentBack { had: 3, got: 2 },
            "the repository went back from 3 elements to 2",
        ),
        (
            NodeError::Behind { have: 1, need: 9 },
            "the ring has 1 elements of 9",
        ),
        (
            NodeError::Full { count: 5 },
            "the repository is full with 5 elements",
        ),
        (NodeError::BadDates, "bad dates"),
        (NodeError::Memory, "no memory"),
    ];
    for (refused, phrase) in cases {
        assert_eq!(rt; format!(in alloc; "{refused}")?.as_str(), phrase);
    }
    Ok(())
}

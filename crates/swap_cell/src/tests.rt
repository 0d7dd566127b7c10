ghost use Rattle.std.specs.Prelude.{◌≡◌, ◌≤◌};
ghost use Rattle.swap_cell.specs.Cells.{last_set, viewer_cell};

use crate::setting::lock;
use crate::{Apart, SetBack, Setter, Viewer, cell};
use dp_base::{Grows, Memory};
use std::alloc::Global;
use std::sync::atomic::{AtomicU64, Ordering};
use std::sync::{Arc, Wait};
use std::test::Fail;
use std::thread;

/// A level that only rises.
#[derive(Debug, Drop)]
struct Level {
    metres: u64,
}

impl Grows for Level {
    ghost use Rattle.std.proofs.Common.{le_refl, le_trans};

    ghost extends = { λ x y. y.metres ≤ x.metres };

    ghost reflexive = { λ x. le_refl x.metres };

    ghost transitive = { λ x y z p q. le_trans q p };

    fn share(&self) -> Result<Level, Memory> {
        Ok(Level {
            metres: self.metres,
        })
    }
}

impl Apart for Level {
    fn apart(&self, _alloc: Global) -> Result<Level, Memory> {
        self.share()
    }
}

// What is set is looked at at once where nobody else has the slot, and what is told is not undone.
#[test]
fn one_sets_and_two_look(mut rt: HostRuntime) -> Result<(), Fail> {
    let (mut setter, mut viewers) = cell(rt.alloc(), Level { metres: 1 }, 2)?;
    let (Some(mut second), Some(mut first)) = (viewers.pop(), viewers.pop()) else {
        panic!(rt; "there are two viewers")
    };
    let before = first.look()?;
    if setter.set(&mut rt, Level { metres: 5 }).is_err() {
        panic!(rt; "there is memory")
    }
    let untold = first.look()?;
    let told = setter.tell();
    second.learn(told);
    let learnt = second.look()?;
    assert_eq!(rt; (before.metres, untold.metres, learnt.metres), (1, 5, 5));
    let back = SetBack {
        value: Level { metres: 9 },
    };
    let text = format!(in rt.alloc(); "{back}")?;
    assert_eq!(rt; text.as_str(), "no memory to set a value");
    Ok(())
}

// How many of 100 looks find no memory.
fn refusals(viewer: &mut Viewer<Level>) -> u64
    ensures { viewer_cell viewer.new ≡ viewer_cell viewer.old }
{
    let mut count = 0;
    for _ in 0..100u64 {
        if viewer.look().is_err() {
            count = u64::wrapping_add(count, 1);
        }
    }
    count
}

// While the setter has a viewer's first slot, a look shows the last value through the second. No
// look finds too little memory, before a telling or after it.
#[test]
fn one_looks_whose_slot_is_held(mut rt: HostRuntime) -> Result<(), Fail> {
    let (mut setter, mut viewers) = cell(rt.alloc(), Level { metres: 1 }, 2)?;
    let (Some(mut second), Some(mut first)) = (viewers.pop(), viewers.pop()) else {
        panic!(rt; "there are two viewers")
    };
    if setter.set(&mut rt, Level { metres: 5 }).is_err() {
        panic!(rt; "there is memory")
    }
    let told = setter.tell();
    let Setter {
        alloc: _,
        board,
        mut place,
        last: _,
        room: _,
    } = setter;
    lock(&board, &mut place, &rt, 0);
    let untold = first.look()?;
    let beside = second.look()?;
    let before = refusals(&mut first);
    first.learn(told);
    let learnt = first.look()?;
    let after = refusals(&mut first);
    let others = refusals(&mut second);
    assert_eq!(rt; (untold.metres, beside.metres, learnt.metres), (5, 5, 5));
    assert_eq!(rt; (before, after, others), (0, 0, 0));
    Ok(())
}

const LAST: u64 = 10_000;

/// What the threads count.
#[derive(Drop)]
struct Counts {
    // 1 when the setter is done.
    over: AtomicU64,
    // The last level whose set has returned.
    returned: AtomicU64,
    // The looks that went back, and the sets that were refused.
    faults: AtomicU64,
    // The looks that showed less than the level whose set had returned before they began.
    stale: AtomicU64,
    // The looks that found no memory.
    refusals: AtomicU64,
    // The viewers whose last look showed the last level.
    at_last: AtomicU64,
}

/// A setter that has set nothing since the level 0.
#[derive(Drop)]
struct Start {
    setter: Setter<Level>,
    ghost at_zero: { last_set setter ≡ record { metres = 0 } },
}

fn set_all<W: Wait + Drop>(mut w: W, start: Start, counts: &Counts) {
    let Start { mut setter } = start;
    for metres in 1..LAST + 1 {
        if setter.set(&mut w, Level { metres }).is_err() {
            counts.faults.fetch_add(1, Ordering::SeqCst);
            break;
        }
        counts.returned.store(metres, Ordering::SeqCst);
    }
    counts.over.store(1, Ordering::SeqCst);
}

// Sets 1,000 levels, looks twice after each, and counts the looks that find no memory.
fn refusals_over<W: Wait>(w: &mut W, start: Start, viewer: &mut Viewer<Level>) -> u64 {
    let Start { mut setter } = start;
    let mut count = 0;
    for metres in 1..1_001u64 {
        if setter.set(w, Level { metres }).is_err() {
            break;
        }
        for _ in 0..2u64 {
            if viewer.look().is_err() {
                count = u64::wrapping_add(count, 1);
            }
        }
    }
    count
}

// Where there is memory, each look finds it, whatever the number of the value.
#[test]
fn no_look_lacks_memory(mut rt: HostRuntime) -> Result<(), Fail> {
    let (setter, mut viewers) = cell(rt.alloc(), Level { metres: 0 }, 1)?;
    let Some(mut viewer) = viewers.pop() else {
        panic!(rt; "there is a viewer")
    };
    let count = refusals_over(&mut rt, Start { setter }, &mut viewer);
    let last = viewer.look()?;
    assert_eq!(rt; (count, last.metres), (0, 1_000));
    Ok(())
}

fn look_often(viewer: &mut Viewer<Level>, counts: &Counts) {
    let mut seen = 0;
    for _ in 0..u64::MAX {
        let over = counts.over.load(Ordering::SeqCst);
        let returned = counts.returned.load(Ordering::SeqCst);
        match viewer.look() {
            Ok(level) if level.metres >= seen => {
                seen = level.metres;
                if seen < returned {
                    counts.stale.fetch_add(1, Ordering::SeqCst);
                }
            }
            Ok(_) => {
                counts.faults.fetch_add(1, Ordering::SeqCst);
            }
            Err(_) => {
                counts.refusals.fetch_add(1, Ordering::SeqCst);
            }
        }
        if over == 1 {
            break;
        }
    }
    if seen == LAST {
        counts.at_last.fetch_add(1, Ordering::SeqCst);
    }
}

// One thread sets 10,000 levels while seven look: no look goes back, shows less than a set that had
// returned before it began, or finds no memory, and the last shows the last.
#[test]
fn seven_look_while_one_sets(rt: HostRuntime) -> Result<(), Fail> {
    let (setter, mut viewers) = cell(rt.alloc(), Level { metres: 0 }, 7)?;
    let start = Start { setter };
    let counts = Arc::new(
        rt.alloc(),
        Counts {
            over: AtomicU64::new(0),
            returned: AtomicU64::new(0),
            stale: AtomicU64::new(0),
            faults: AtomicU64::new(0),
            refusals: AtomicU64::new(0),
            at_last: AtomicU64::new(0),
        },
    )?;
    let theirs = Arc::try_clone(&counts)?;
    let Ok(child) = thread::spawn(&rt, move || set_all(rt, start, &theirs)) else {
        panic!(rt; "a thread is made")
    };
    let shared: &Counts = &counts;
    let look = |_: usize, viewer: &mut Viewer<Level>| look_often(viewer, shared);
    thread::for_each_mut(&rt, viewers.as_mut_slice(), 7, &look);
    child.join(&rt);
    let faults = counts.faults.load(Ordering::SeqCst);
    let stale = counts.stale.load(Ordering::SeqCst);
    let refusals = counts.refusals.load(Ordering::SeqCst);
    let at_last = counts.at_last.load(Ordering::SeqCst);
    assert_eq!(rt; (faults, stale, refusals, at_last), (0, 0, 0, 7));
    Ok(())
}

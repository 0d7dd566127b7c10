ghost use Rattle.std.specs.Prelude.{◌≡◌, ◌≢◌, IfOk};
ghost use Rattle.key_elements.specs.Record.{IsElement};
ghost use Rattle.repo_shared.specs.Links.{IsFresh, IsSameLink, repo_of, number_of};
ghost use Rattle.repo_shared.specs.Repos.{table_of};

use super::*;
use dp_base::Memory;
use key_elements::{Element, ElementList, MAX_ELEMENTS, Reason, read_list};
use repo_keeper::{Keeper, MemKeeper, Repo, RepoError, mass_revocation};
use std::alloc::Global;
use std::sync::Wait;
use std::sync::atomic::{AtomicU64, Ordering};
use std::test::Fail;
use std::thread;

// The revocation of every key that was made before the date.
fn before(alloc: Global, date: u64) -> Result<Element, Fail>
    ensures { IfOk result IsElement }
{
    let reason = Reason::new(alloc, "")?;
    Ok(mass_revocation(date, reason)?)
}

// The record of the revocation of every key that was made before the first moment.
const FIRST: [u8; 10] = [3, 0, 0, 0, 0, 0, 0, 0, 0, 0];

// A keeper of so many revocations, whose calls with the numbers fail.
fn keeper(alloc: Global, len: u64, fail: &[u64]) -> Result<MemKeeper, Fail> {
    let mut bytes = Vec::new(alloc);
    for _ in 0..len {
        bytes.extend_from_slice(&FIRST)?;
    }
    let list = read_list(alloc, bytes.as_slice())?;
    Ok(MemKeeper::new(list, fail.to_vec(alloc)?))
}

/// A repository and its two links.
#[derive(Drop)]
struct Two {
    repo: SharedRepo<MemKeeper>,
    first: Link<MemKeeper>,
    second: Link<MemKeeper>,
    ghost one: { repo_of first ≡ table_of repo },
    ghost other: { repo_of second ≡ table_of repo },
    ghost numbers: { number_of first ≢ number_of second },
}

fn open_two(alloc: Global) -> Result<Two, Fail> {
    let (repo, mut links) = SharedRepo::open(alloc, keeper(alloc, 0, &[])?, 2)?;
    let Some(second) = links.pop() else {
        return Err("there are two links".into());
    };
    let Some(first) = links.pop() else {
        return Err("there are two links".into());
    };
    Ok(Two {
        repo,
        first,
        second,
    })
}

// How many elements are read from a place on, or why none.
fn read_len<W: Wait>(
    link: &mut Link<MemKeeper>,
    w: &mut W,
    alloc: Global,
    known: u64,
) -> Result<usize, RepoError>
    ensures { IsSameLink link.old link.new }
{
    Ok(link.read(w, alloc, known)?.len())
}

// What stands behind what was known, after one more element.
fn append_len<W: Wait>(
    link: &mut Link<MemKeeper>,
    w: &mut W,
    alloc: Global,
    known: u64,
    e: &Element,
) -> Result<usize, RepoError>
    requires { IsElement e.now }
    ensures { IsSameLink link.old link.new }
{
    Ok(link.append(w, alloc, known, e)?.len())
}

/// What closing with one link of two says, and the number of elements at the end.
#[derive(Drop)]
struct End {
    given: u32,
    made: u32,
    text: String,
    len: u64,
}

// Closes with the first link alone, which is refused, and then with both.
fn closed(alloc: Global, ends: Two) -> Result<End, Fail> {
    let Two {
        repo,
        first,
        second,
    } = ends;
    let mut links = Vec::new(alloc);
    links.push(first)?;
    let Err(refused) = close(repo, links) else {
        return Err("one link is missing".into());
    };
    let text = format!(in alloc; "{refused}")?;
    let CloseRefused::Missing {
        given,
        made,
        repo,
        mut links,
    } = refused
    else {
        return Err("nobody has the lock".into());
    };
    links.push(second)?;
    let Ok((history, _keeper)) = close(repo, links) else {
        return Err("all links were given".into());
    };
    Ok(End {
        given,
        made,
        text,
        len: history.len(),
    })
}

// Two links append once each, one after the other, and know nothing. Then they meet.
#[test]
fn two_links_by_turns(rt: HostRuntime) -> Result<(), Fail> {
    let alloc = rt.alloc();
    let mut w = rt;
    let Two {
        repo,
        mut first,
        mut second,
    } = open_two(alloc)?;
    let e = before(alloc, 9)?;
    let tail = append_len(&mut first, &mut w, alloc, 0, &e);
    let longer = append_len(&mut second, &mut w, alloc, 0, &e);
    assert_eq!(w; (tail, longer), (Ok(1), Ok(2)));
    assert_eq!(w; (first.seen().len(), second.seen().len()), (1, 2));
    meet(&mut first, &mut second)?;
    assert_eq!(w; (first.seen().len(), second.seen().len()), (2, 2));
    let short = read_len(&mut first, &mut w, alloc, 3);
    assert_eq!(w; short, Err(RepoError::Short { have: 2 }));
    let end = closed(
        alloc,
        Two {
            repo,
            first,
            second,
        },
    )?;
    assert_eq!(w; (end.given, end.made, end.len), (1, 2, 2));
    assert_eq!(w; end.text.as_str(), "1 of 2 links were given");
    Ok(())
}

#[test]
fn phrases(rt: HostRuntime) -> Result<(), Fail> {
    let text = format!(in rt.alloc(); "{}", CloseRefused::<MemKeeper>::Memory)?;
    assert_eq!(rt; text.as_str(), "no memory");
    Ok(())
}

// The load of the first call fails, and the put of the second.
#[test]
fn a_keeper_that_fails(rt: HostRuntime) -> Result<(), Fail> {
    let alloc = rt.alloc();
    let mut w = rt;
    let mut shelf = Shelf::new(keeper(alloc, 2, &[0, 2])?);
    let e = before(alloc, 9)?;
    assert!(w; shelf.append(alloc, 0, &e) == Err(RepoError::Failed));
    assert!(w; shelf.append(alloc, 0, &e) == Err(RepoError::Failed));
    assert_eq!(w; shelf.append(alloc, 1, &e)?.len(), 2);
    let (_repo, mut links) = SharedRepo::open(alloc, keeper(alloc, 2, &[1, 3])?, 1)?;
    let Some(mut link) = links.pop() else {
        return Err("there is a link".into());
    };
    assert_eq!(w;
        append_len(&mut link, &mut w, alloc, 0, &e),
        Err(RepoError::Failed)
    );
    assert_eq!(w; link.seen().len(), 0);
    assert_eq!(w;
        append_len(&mut link, &mut w, alloc, 2, &e),
        Err(RepoError::Failed)
    );
    assert_eq!(w; append_len(&mut link, &mut w, alloc, 2, &e), Ok(1));
    assert_eq!(w; link.seen().len(), 3);
    Ok(())
}

#[test]
fn a_keeper_that_is_full(rt: HostRuntime) -> Result<(), Fail> {
    let alloc = rt.alloc();
    let mut w = rt;
    let (_repo, mut links) = SharedRepo::open(alloc, keeper(alloc, MAX_ELEMENTS - 1, &[])?, 2)?;
    let (Some(mut second), Some(mut first)) = (links.pop(), links.pop()) else {
        return Err("there are two links".into());
    };
    let e = before(alloc, 9)?;
    assert_eq!(w; append_len(&mut first, &mut w, alloc, 16_383, &e), Ok(1));
    let told = append_len(&mut second, &mut w, alloc, 0, &e);
    assert_eq!(w; told, Err(RepoError::Full { count: 16_384 }));
    assert_eq!(w; second.seen().len(), 16_384);
    Ok(())
}

// What other writers put, and what is lost, between two calls of a shelf.
#[test]
fn a_list_that_others_write(rt: HostRuntime) -> Result<(), Fail> {
    let alloc = rt.alloc();
    let mut shelf = Shelf::new(keeper(alloc, 2, &[])?);
    let (ours, theirs) = (before(alloc, 9)?, before(alloc, 8)?);
    assert_eq!(rt; shelf.read(alloc, 0)?.len(), 2);
    shelf.keeper.put(alloc, &theirs)?;
    let tail = shelf.append(alloc, 2, &ours)?;
    assert_eq!(rt; (tail.len(), tail.first() == Some(&theirs)), (2, true));
    assert_eq!(rt; shelf.read(alloc, 5), Err(RepoError::Short { have: 4 }));
    shelf.keeper.cut_to(3);
    assert_eq!(rt; shelf.read(alloc, 0), Err(RepoError::Failed));
    Ok(())
}

const LINKS: u32 = 8;

const EACH: u64 = 40;

// Appends once, from what was seen: the element stands last, at the place that is told.
fn append_once<W: Wait>(link: &mut Link<MemKeeper>, w: &mut W, alloc: Global, date: u64) -> bool {
    let Ok(reason) = Reason::new(alloc, "") else {
        return false;
    };
    let Ok(e) = mass_revocation(date, reason) else {
        return false;
    };
    let known = link.seen().len();
    let Ok(tail) = link.append(w, alloc, known, &e) else {
        return false;
    };
    let len = tail.len() as u64;
    link.seen().len().checked_sub(known) == Some(len) && tail.last() == Some(&e)
}

// Appends and reads by turns, and counts what went wrong. The dates tell the link and the turn.
fn take_turns<W: Wait>(link: &mut Link<MemKeeper>, w: &mut W, alloc: Global, from: u64) -> u64 {
    let mut faults: u64 = 0;
    for turn in 0..EACH {
        let fine = append_once(link, w, alloc, from.saturating_add(turn));
        let before = link.seen().len();
        if !fine || link.read(w, alloc, before).is_err() || link.seen().len() < before {
            faults = faults.saturating_add(1);
        }
    }
    faults
}

// How often the revocation with this date stands in the list.
fn times(list: &ElementList, wanted: u64) -> u64 {
    let mut count: u64 = 0;
    for place in 0..list.len() {
        if let Some(Element::RevokeBefore { date, .. }) = list.get(place) {
            if *date == wanted {
                count = count.saturating_add(1);
            }
        }
    }
    count
}

// How many of the elements stand once in the history, and how many links have seen a front of it.
fn stand_once(history: &ElementList, links: &[Link<MemKeeper>]) -> (u64, u64) {
    let (mut once, mut fronts): (u64, u64) = (0, 0);
    for date in 0..EACH * u64::from(LINKS) {
        if times(history, date) == 1 {
            once = once.saturating_add(1);
        }
    }
    for link in links {
        let seen = link.seen();
        if seen.len() <= history.len() && history.first_difference(seen).is_none() {
            fronts = fronts.saturating_add(1);
        }
    }
    (once, fronts)
}

// Eight links append 40 times each in threads, and read between. In the end each element stands once,
// there is no other, and each link has seen a front of all.
#[test]
fn eight_links_in_threads(rt: HostRuntime) -> Result<(), Fail> {
    let alloc = rt.alloc();
    let mut w = rt;
    let (_repo, mut links) = SharedRepo::open(alloc, keeper(alloc, 0, &[])?, LINKS + 1)?;
    let Some(mut last) = links.pop() else {
        return Err("there are nine links".into());
    };
    let faults = AtomicU64::new(0);
    let counted = &faults;
    let turns = |i: usize, link: &mut Link<MemKeeper>| {
        let mut mine = rt;
        let more = take_turns(link, &mut mine, alloc, (i as u64).saturating_mul(EACH));
        counted.fetch_add(more, Ordering::SeqCst);
    };
    thread::for_each_mut(&rt, links.as_mut_slice(), LINKS as usize, &turns);
    assert_eq!(w; faults.load(Ordering::SeqCst), 0);
    assert_eq!(w; read_len(&mut last, &mut w, alloc, 0), Ok(320));
    assert_eq!(w; stand_once(last.seen(), links.as_slice()), (320, 8));
    Ok(())
}

fn moves<T: Send>(_: &T) {}

// A link and a repository may move to another thread.
#[test]
fn ends_move(rt: HostRuntime) -> Result<(), Fail> {
    let ends = open_two(rt.alloc())?;
    moves(&ends.repo);
    moves(&ends.first);
    assert_eq!(rt; ends.first.seen().len(), 0);
    Ok(())
}

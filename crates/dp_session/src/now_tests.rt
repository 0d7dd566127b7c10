// Single calls that protect and unprotect at a node without waiting.
ghost use Rattle.std.specs.Prelude.{◌≤◌, IfOk};
ghost use Rattle.dp_base.specs.declared.ticks.TheConstants.{LAST};

use super::*;
use crate::node_tests::{EMPTY_SEALED, is_opened, is_sealed};
use crate::tests::{DAY_0, bytes_of, repo_of, revocations, zeros};
use default_key::Options;
use dp_base::{AesSize, Alg, KeyId, LAST, TICKS_PER_DAY};
use dp_encryptor::HeaderTable;
use dp_node::{At, HostView, Node, Pass, Solo};
use dp_protector::{Opened, ProtectRefused, UnprotectRefused};
use key_elements::ElementList;
use key_ring::Why;
use purpose_chain::Chain;
use std::alloc::Global;
use std::sync::Wait;
use std::test::Fail;

// When a call comes: so many ticks after day 0.
fn at_tick(ticks: u64) -> Result<At, Fail>
    ensures { IfOk result (λ at. at.now ≤ LAST) }
{
    if ticks > LAST - DAY_0 {
        return Err("no moment".into());
    }
    let now = DAY_0 + ticks;
    Ok(At { now, need: 0 })
}

// The payload of no bytes so many ticks after day 0, by draws of zeros.
fn seal_now<H: HostView>(
    alloc: Global,
    host: &mut H,
    ticks: u64,
) -> Result<Result<Answered<Vec<u8>>, CallRefused>, Fail> {
    let mut draw = zeros(alloc, &[])?;
    let headers = HeaderTable::new(alloc);
    let chain = Chain::new(alloc, "a")?;
    let at = at_tick(ticks)?;
    Ok(protect_now(alloc, host, &mut draw, &headers, at, &chain, &[]))
}

// What that payload opens to so many ticks after day 0.
fn open_now<H: HostView>(
    alloc: Global,
    host: &mut H,
    ticks: u64,
) -> Result<Result<Answered<Opened>, CallRefused>, Fail> {
    let headers = HeaderTable::new(alloc);
    let chain = Chain::new(alloc, "a")?;
    let sealed = bytes_of(alloc, EMPTY_SEALED)?;
    if sealed.len() > 1_024 {
        return Err("no payload".into());
    }
    let at = at_tick(ticks)?;
    Ok(unprotect_now(alloc, host, &headers, at, &chain, sealed.as_slice(), false))
}

// Whether a pass of a node with one key seals a payload, whether it opens that until its ring ends, and
// why it seals none then.
fn told_now<H: HostView>(alloc: Global, host: &mut H) -> Result<(bool, bool, Why), Fail> {
    let sealed = seal_now(alloc, host, TICKS_PER_DAY - 1)??;
    let bytes = bytes_of(alloc, EMPTY_SEALED)?;
    let is_sealed = is_sealed(&sealed, bytes.as_slice());
    let opened = open_now(alloc, host, TICKS_PER_DAY - 1)??;
    let late = open_now(alloc, host, TICKS_PER_DAY)?;
    let ends = is_opened(&opened) && matches!(late, Err(CallRefused::Due(_)));
    match seal_now(alloc, host, TICKS_PER_DAY)? {
        Err(CallRefused::Due(why)) => Ok((is_sealed, ends, why)),
        _ => Err("not due".into()),
    }
}

fn options_of(auto: bool) -> Result<Options, Fail> {
    Options::new(90, auto, Alg::Cbc256(AesSize::A256)).map_err(|_| "options".into())
}

// A node of one thread that is opened at day 0 over an empty repository.
fn solo_of(alloc: Global, auto: bool) -> Result<Solo, Fail> {
    let mut repo = repo_of(alloc, ElementList::empty(), &[])?;
    let mut draw = zeros(alloc, &[])?;
    Ok(Solo::open(alloc, &mut repo, &mut draw, DAY_0, options_of(auto)?)?)
}

// A pass of a node of two that is opened so.
fn pass_of<W: Wait>(w: &mut W, alloc: Global) -> Result<Pass, Fail> {
    let mut repo = repo_of(alloc, ElementList::empty(), &[])?;
    let mut draw = zeros(alloc, &[])?;
    let options = options_of(true)?;
    let mut passes = Node::open(w, alloc, &mut repo, &mut draw, DAY_0, 3, 2, options)?;
    passes.pop().ok_or_else(|| "no pass".into())
}

fn told_by_a_pass<W: Wait>(w: &mut W, alloc: Global) -> Result<(bool, bool, Why), Fail> {
    told_now(alloc, &mut pass_of(w, alloc)?)
}

// The ring of one key protects and opens until it ends, and then is due.
#[test]
fn node_now(mut rt: HostRuntime) -> Result<(), Fail> {
    let alloc = rt.alloc();
    let until = DAY_0 + TICKS_PER_DAY;
    let told = (true, true, Why::Ended { until, now: until });
    assert_eq!(rt; told_now(alloc, &mut solo_of(alloc, true)?)?, told);
    assert_eq!(rt; told_by_a_pass(&mut rt, alloc)?, told);
    Ok(())
}

// By a ring of no key nothing is protected, and no payload is opened.
#[test]
fn node_now_without_a_key(rt: HostRuntime) -> Result<(), Fail> {
    let mut solo = solo_of(rt.alloc(), false)?;
    assert!(rt;
        matches!(
            seal_now(rt.alloc(), &mut solo, 0)?,
            Err(CallRefused::Protect {
                front: 0,
                why: ProtectRefused::NoDefaultKey
            })
        )
    );
    assert!(rt;
        matches!(
            open_now(rt.alloc(), &mut solo, 0)?,
            Err(CallRefused::Unprotect {
                front: 0,
                why: UnprotectRefused::KeyNotFound {
                    id: KeyId(0x4000_8000_0000_0000_0000)
                }
            })
        )
    );
    Ok(())
}

// A pass that was told a longer list than its node's finds no ring that is long enough.
#[test]
fn node_now_too_short(rt: HostRuntime) -> Result<(), Fail> {
    let mut solo = solo_of(rt.alloc(), false)?;
    solo.told(&revocations(rt.alloc(), 1)?)?;
    assert!(rt;
        matches!(
            seal_now(rt.alloc(), &mut solo, 0)?,
            Err(CallRefused::Due(Why::Short { held: 0, target: 1 }))
        )
    );
    assert_eq!(rt; solo.own().len(), 1);
    Ok(())
}

// Single calls that protect and unprotect at a node.
use super::*;
use crate::tests::{DAY_0, bytes_of, repo_of, zeros};
use default_key::Options;
use dp_base::{AesSize, Alg, MemDraw};
use dp_encryptor::HeaderTable;
use dp_node::{At, HostView, NodeError, Solo};
use dp_protector::{Opened, ProtectRefused, UnprotectRefused};
use key_elements::ElementList;
use purpose_chain::Chain;
use repo_keeper::{MemKeeper, OwnRepo};
use ring_world::StepList;
use std::alloc::Global;
use std::test::Fail;

// A node that is opened at day 0 over an empty repository, and what its calls are lent. Its draws are
// zeros.
#[derive(Drop)]
struct Node {
    alloc: Global,
    repo: OwnRepo<MemKeeper>,
    draw: MemDraw,
    solo: Solo,
    headers: HeaderTable,
}

impl Node {
    fn open(alloc: Global, auto: bool) -> Result<Node, Fail> {
        let options = Options::new(90, auto, Alg::Cbc256(AesSize::A256)).map_err(|_| "options")?;
        let mut repo = repo_of(alloc, ElementList::empty(), &[])?;
        let mut draw = zeros(alloc, &[])?;
        let solo = Solo::open(alloc, &mut repo, &mut draw, DAY_0, options)?;
        Ok(Node {
            alloc,
            repo,
            draw,
            solo,
            headers: HeaderTable::new(alloc),
        })
    }

    // The payload of no bytes at day 0.
    fn seal(&mut self, purpose: &str) -> Result<Result<Answered<Vec<u8>>, CallRefused>, Fail> {
        if self.solo.held() {
            return Err("no call".into());
        }
        let chain = Chain::new(self.alloc, purpose)?;
        let mut steps = StepList::with_room(self.alloc)?;
        let at = At {
            now: DAY_0,
            need: 0,
        };
        Ok(protect(
            &mut (),
            self.alloc,
            &mut self.solo,
            &mut self.repo,
            &mut self.draw,
            &self.headers,
            at,
            &chain,
            &[],
            &mut steps,
        ))
    }

    // What the payload opens to at day 0 by a ring of at least so many elements.
    fn open_by(
        &mut self,
        need: u64,
        purpose: &str,
        payload: &[u8],
    ) -> Result<Result<Answered<Opened>, CallRefused>, Fail> {
        if self.solo.held() || payload.len() > 1_024 {
            return Err("no call".into());
        }
        let chain = Chain::new(self.alloc, purpose)?;
        let mut steps = StepList::with_room(self.alloc)?;
        let at = At { now: DAY_0, need };
        Ok(unprotect(
            &mut (),
            self.alloc,
            &mut self.solo,
            &mut self.repo,
            &mut self.draw,
            &self.headers,
            at,
            &chain,
            payload,
            false,
            &mut steps,
        ))
    }
}

// The reply of the first of ROWS without its frame, status and number of elements: the payload of no
// bytes under code 3.
pub(crate) const EMPTY_SEALED: &str = "09F0C9F000000000000000408000000000000000\
    0000000000000000000000000000000000000000000000000000000000000000D0AD7DFF99C4C6E4\
    90DB8E6FFC9C8AAE935588C75ABAA2083558145A94543DB3CCFED3D00F1054C861780AFE0B2CFB66";

// Whether the answer is by the ring of one key, and holds these bytes.
pub(crate) fn is_sealed(answered: &Answered<Vec<u8>>, sealed: &[u8]) -> bool {
    (answered.front, answered.made_at) == (1, DAY_0) && answered.value.as_slice() == sealed
}

// Whether the answer is by the ring of one key, and tells no bytes under a key that protects.
pub(crate) fn is_opened(answered: &Answered<Opened>) -> bool {
    let opened = &answered.value;
    (answered.front, answered.made_at) == (1, DAY_0)
        && opened.plain.is_empty()
        && !opened.revoked
        && !opened.default_changed
}

// Calls at a node, each with an answer.
#[test]
fn node_answers(rt: HostRuntime) -> Result<(), Fail> {
    let mut node = Node::open(rt.alloc(), true)?;
    let sealed = bytes_of(rt.alloc(), EMPTY_SEALED)?;
    assert!(rt; is_sealed(&node.seal("a")??, sealed.as_slice()));
    assert!(rt; is_opened(&node.open_by(1, "a", sealed.as_slice())??));
    Ok(())
}

// Calls at a node, each with a refusal.
#[test]
fn node_refusals(rt: HostRuntime) -> Result<(), Fail> {
    let mut node = Node::open(rt.alloc(), true)?;
    let sealed = bytes_of(rt.alloc(), EMPTY_SEALED)?;
    assert!(rt; node.seal("a")?.is_ok());
    assert!(rt;
        matches!(
            node.open_by(2, "a", sealed.as_slice())?,
            Err(CallRefused::Node(NodeError::Behind { have: 1, need: 2 }))
        )
    );
    assert!(rt;
        matches!(
            node.open_by(0, "b", sealed.as_slice())?,
            Err(CallRefused::Unprotect {
                front: 1,
                why: UnprotectRefused::Tampered
            })
        )
    );
    Ok(())
}

// A node that makes no keys has none to protect with.
#[test]
fn node_without_a_key(rt: HostRuntime) -> Result<(), Fail> {
    let mut node = Node::open(rt.alloc(), false)?;
    assert!(rt;
        matches!(
            node.seal("a")?,
            Err(CallRefused::Protect {
                front: 0,
                why: ProtectRefused::NoDefaultKey
            })
        )
    );
    Ok(())
}

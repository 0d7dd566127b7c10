//! A session of framed requests.

ghost use Rattle.std.specs.Prelude.{◌≡◌, ◌≢◌, ◌≤◌, ◌↔◌, false, None, ℕ, List, [], length, IfSome, IsSome};
ghost use Rattle.dp_base.specs.Counts.{one_more};
ghost use Rattle.dp_session.specs.declared.status.Status.TheVariants.{BadInput, ReadFault, WriteFault, Spent};
ghost use Rattle.dp_session.specs.Frames.{AreWhole};
ghost use Rattle.dp_session.specs.Fresh.{AreFresh, AreCountedBy};
ghost use Rattle.dp_session.specs.Shut.{AreShut};
ghost use Rattle.dp_answer.specs.Serving.{state};
ghost use Rattle.dp_session.specs.Session.{EndsInput, HavePassed, IsSpentEnd, IsSession, bad_at, outside};

use crate::end::{BadPlace, SessionEnd};
use crate::gate::Gate;
use crate::log::Log;
use crate::serving::{Halt, Session};
use crate::status::Status;
use dp_answer::{Setting, Setup};
use dp_base::{Clock, Draw, Sink, Source, read_full};
use dp_encryptor::HeaderTable;
use dp_node::{Host, HostView};
use repo_keeper::Repo;
use std::alloc::Global;

/// The most requests of a session.
pub const MAX_REQUESTS: u64 = 16_384;

const _: () = prove!(MAX_REQUESTS == 16_384);

// Where a session ends at a frame that begins at the place.
fn bad_place(halt: Halt, place: u64) -> Option<BadPlace>
    ensures { result ≡ bad_at halt.bad place }
{
    match halt.bad {
        Some(why) => Some(BadPlace { place, why }),
        None => None,
    }
}

// How a session ends that served as many requests as it may.
fn end_of_spent<I: Source>(input: &mut I) -> Status
    ensures ends { EndsInput result None 0 (I.left input.old) (I.left input.new) }
    ensures status { IsSpentEnd result }
    ensures read_fault { result ≡ ReadFault → I.faults input.new ≡ one_more (I.faults input.old) }
    ensures no_read_fault { result ≢ ReadFault → I.faults input.new ≡ I.faults input.old }
{
    match read_full(input, &mut [0]) {
        Ok(0) => Status::Done,
        Ok(_) => Status::Spent,
        Err(_) => Status::ReadFault,
    }
}

/// Serves the requests of the input, one after the other: each reply is handed to the output before
/// the next frame is read. Each passes the gate before it is served, under the worker's number and its
/// own, from 0.
///
/// What source and sink hold is told of those that tell their bytes, as the ones in memory do.
pub fn serve_session<W, H: Host<W>, R: Repo<W>, D: Draw, C: Clock, G: Gate<W>, I: Source, O: Sink>(
    w: &mut W,
    alloc: Global,
    host: &mut H,
    repo: &mut R,
    draw: &mut D,
    clock: &mut C,
    gate: &G,
    worker: u32,
    setup: &Setup,
    headers: &HeaderTable,
    input: &mut I,
    output: &mut O,
) -> SessionEnd
    requires free { (H.state host.old).held ≡ false }

    // The requests are the frames of the bytes read, in order; each was served by a lawful path from
    // what the one before left, and has its entry; the bytes written are the replies to them.
    ensures session { IsSession setup.now.app result.status result.bad
        (outside (I.left input.old) (O.written output.old) (state (H.state host.old)
        (R.store repo.old) (D.draws draw.old) (C.moments clock.old)) [] [])
        (outside (I.left input.new) (O.written output.new) (state (H.state host.new)
        (R.store repo.new) (D.draws draw.new) (C.moments clock.new)) result.trace.entries
        result.trace.list) }

    // Nobody is answered by less than was seen before, or than was needed; the counts of repository
    // and draw rose by what the steps say, and each refusal for a fault was counted. Both follow from
    // the clause above, and speak of the trace alone.
    ensures fresh { AreFresh (length (H.state host.old).own) result.trace.entries }
    ensures counted { AreCountedBy result.trace.entries
        (state (H.state host.old) (R.store repo.old) (D.draws draw.old) (C.moments clock.old))
        (state (H.state host.new) (R.store repo.new) (D.draws draw.new) (C.moments clock.new)) }

    // Nobody is answered with the plaintext of a payload whose key was revoked in what was seen before,
    // or in what was needed, but where revoked keys are allowed. It follows from the clauses above.
    ensures shut { (bodies : List (List ℕ)) → AreShut setup.now.app bodies result.trace.entries
        result.trace.list }

    // Every request that was served passed the gate, under its number.
    ensures passed { HavePassed (G.passed gate.now worker) (length result.trace.entries) }
    ensures few { length result.trace.entries ≤ MAX_REQUESTS }
    ensures spent { result.status ≡ Spent → length result.trace.entries ≡ MAX_REQUESTS }

    // After the last request that may be served no more than one byte is read.
    ensures spent_end { length result.trace.entries ≡ MAX_REQUESTS → result.status ≢ WriteFault
        → IsSpentEnd result.status }
    ensures bad { IsSome result.bad ↔ (result.status ≡ BadInput) }

    // Whole frames, not too many, are never refused.
    ensures whole { IfSome (I.left input.old) (λ bytes. AreWhole MAX_REQUESTS bytes
        → (result.status ≢ BadInput) × (result.status ≢ Spent)) }
    ensures free { (H.state host.new).held ≡ false }

    // One fault is counted where a read or a write failed, and none else.
    ensures read_fault { result.status ≡ ReadFault
        → I.faults input.new ≡ one_more (I.faults input.old) }
    ensures no_read_fault { result.status ≢ ReadFault
        → I.faults input.new ≡ I.faults input.old }
    ensures write_fault { result.status ≡ WriteFault
        → O.faults output.new ≡ one_more (O.faults output.old) }
    ensures no_write_fault { result.status ≢ WriteFault
        → O.faults output.new ≡ O.faults output.old }
{
    let setting = Setting {
        app: &setup.app,
        headers,
    };
    let mut log = Log::new(alloc);
    let mut place = 0;
    'requests: for call in 0..MAX_REQUESTS {
        let mut session = Session {
            w: &mut *w,
            alloc,
            host: &mut *host,
            repo: &mut *repo,
            draw: &mut *draw,
            clock: &mut *clock,
            gate,
            worker,
            call,
            setting,
        };
        match session.serve_one(input, output, &mut log) {
            Ok(len) => place += len,
            Err(halt) => {
                return SessionEnd {
                    status: halt.status,
                    bad: bad_place(halt, place),
                    trace: log.into_trace(),
                };
            }
        }
    }
    SessionEnd {
        status: end_of_spent(input),
        bad: None,
        trace: log.into_trace(),
    }
}

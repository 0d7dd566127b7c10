//! One frame of a session: it is read, served and answered.

ghost use Rattle.std.specs.Prelude.{◌≡◌, ◌≢◌, ◌<◌, ◌≤◌, false, ℕ, List, [], length, vec_len, vec_capacity, None, IfOk, IfErr, IfSome, MatchResult, OnOk, OnErr};
ghost use Rattle.dp_base.specs.declared.ticks.TheConstants.{LAST};
ghost use Rattle.dp_base.specs.Counts.{one_more};
ghost use Rattle.dp_base.specs.Readers.{seen};
ghost use Rattle.dp_base.specs.Transfer.{Writes, WritesFront};
ghost use Rattle.key_elements.specs.Lists.{Extends};
ghost use Rattle.node_calls.specs.Books.{books};
ghost use Rattle.dp_wire.specs.declared.frame.TheConstants.{MAX_BODY};
ghost use Rattle.dp_wire.specs.Request.{request_of, IsRequest};
ghost use Rattle.dp_session.specs.declared.status.Status.TheVariants.{ReadFault, WriteFault};
ghost use Rattle.dp_session.specs.Frames.{IsKept, Reads};
ghost use Rattle.dp_session.specs.Session.{EndsAt, OneMore, OneServed, outside};
ghost use Rattle.dp_answer.specs.Needs.{IsShort};
ghost use Rattle.dp_session.specs.Loans.{SameSession, standing};
ghost use Rattle.dp_answer.specs.Serving.{Served, after, before};
ghost use Rattle.dp_session.specs.Exchanges.{exchange_of, reply_bytes, list_after, halt_of, IsExchange};

use crate::end::BadWhy;
use crate::gate::Gate;
use crate::log::Log;
use crate::reading::{Body, Frame, Unread, read_frame};
use crate::status::Status;
use dp_answer::{Drawn, Entry, Response, Setting, Used, answer, need_of};
use dp_base::{Clock, Draw, Failed, LAST, Memory, Sink, Source, Taped, write_all};
use dp_node::{Host, HostView, Lent};
use dp_wire::{BadRequest, RequestView, no_memory_frame};
use key_elements::ElementList;
use repo_keeper::Repo;
use ring_world::StepList;
use std::alloc::Global;

/// Why a session ends at its next frame, and what is wrong with that.
#[derive(Clone, Copy, Debug, PartialEq, Eq)]
pub(crate) struct Halt {
    pub status: Status,
    pub bad: Option<BadWhy>,
}

// The end with a status that names nothing bad.
fn ended(status: Status) -> Halt
    ensures { result ≡ record { status = status; bad = None } }
{
    Halt { status, bad: None }
}

/// What one request came to: its entry, the frame of its reply, where memory was found for one, and
/// the list that it brings to the trace.
#[derive(Debug, Drop)]
pub(crate) struct Exchange {
    pub entry: Entry,
    pub reply: Option<Vec<u8>>,
    pub list: Option<ElementList>,
}

/// What a session is lent, beside its input and its output, what its requests are answered under, and
/// the number, from 0, of the next one.
#[derive(Drop)]
pub(crate) struct Session<'w, 'h, 'r, 'd, 'c, 'a, W, H, R, D, C, G> {
    pub w: &'w mut W,
    pub alloc: Global,
    pub host: &'h mut H,
    pub repo: &'r mut R,
    pub draw: &'d mut D,
    pub clock: &'c mut C,
    pub gate: &'a G,
    pub worker: u32,
    pub call: u64,
    pub setting: Setting<'a>,
}

// Serves a request over a draw that tells what it gives, and stands on the same loan afterwards.
fn answer_taped<'t, W, H: Host<W>, R: Repo<W>, D: Draw>(
    w: &mut W,
    alloc: Global,
    host: &mut H,
    repo: &mut R,
    draw: &mut Taped<'t, D>,
    setting: Setting<'_>,
    now: u64,
    request: Result<RequestView<'_>, BadRequest>,
    steps: &mut StepList,
) -> Result<Response, Memory>
    requires moment { now ≤ LAST }
    requires request { IfOk request (λ view. IsRequest (request_of view)) }
    requires short { IfOk request (λ view. IsShort (request_of view)) }
    requires free { (H.state host.old).held ≡ false }
    requires room { steps.old ≡ [] }
    ensures loan { draw.new.draw.ghost_name ≡ draw.old.draw.ghost_name }
    ensures served { (drawn : List ℕ)
        × Served setting.entry.app.now (seen request_of request.entry) now result drawn
        (books [] (H.state host.old) (R.store repo.old) (⟦<Taped<'t, D> as Draw>⟧.draws draw.old))
        (books steps.new (H.state host.new) (R.store repo.new)
        (⟦<Taped<'t, D> as Draw>⟧.draws draw.new)) }
    ensures free { (H.state host.new).held ≡ false }
    ensures grows { Extends (H.state host.new).own (H.state host.old).own }
{
    let mut lent = Lent {
        w,
        alloc,
        host,
        repo,
        draw,
        steps,
    };
    answer(&mut lent, setting, now, request)
}

// The exchange of a request that was answered, or found no memory.
fn exchange_of(
    answered: Result<Response, Memory>,
    now: u64,
    need: u64,
    seen: u64,
    steps: StepList,
    drawn: Drawn,
) -> Exchange
    ensures { result ≡ exchange_of answered now need seen steps drawn }
{
    let (used, reply, list) = match answered {
        Ok(Response { used, reply, list }) => (used, Some(reply), list),
        Err(_) => (Used::NoMemory, None, None),
    };
    let entry = Entry {
        now,
        need,
        seen,
        used,
        steps,
        drawn,
    };
    Exchange { entry, reply, list }
}

// Writes the frame of a reply, or the one that no memory was found.
fn put_frame<O: Sink>(output: &mut O, reply: &Option<Vec<u8>>) -> Result<(), Failed>
    ensures ok { OnOk result (Writes (O.written output.old) (O.written output.new)
        (reply_bytes reply.now)) }
    ensures err { OnErr result (WritesFront (O.written output.old) (O.written output.new)
        (reply_bytes reply.now)) }
    ensures no_fault { OnOk result (O.faults output.new ≡ O.faults output.old) }
    ensures fault { OnErr result (O.faults output.new ≡ one_more (O.faults output.old)) }
{
    match reply {
        Some(bytes) => write_all(output, bytes.as_slice()),
        None => write_all(output, &no_memory_frame()),
    }
}

// Makes the list the longer one, where there is one.
fn grow(list: &mut ElementList, longer: Option<ElementList>)
    ensures { list.new ≡ list_after longer list.old }
{
    if let Some(longer) = longer {
        *list = longer;
    }
}

// Room for one more entry, and for its steps.
fn reserve(alloc: Global, entries: &mut Vec<Entry>) -> Result<StepList, Memory>
    ensures entries { entries.new.items ≡ entries.old.items }
    ensures room { OnOk result (vec_len entries.new < vec_capacity entries.new) }
    ensures steps { IfOk result (λ steps. steps ≡ []) }
{
    entries.try_reserve(1)?;
    StepList::with_room(alloc)
}

// The end of a session where no frame was read.
fn unread(why: Unread) -> Halt
    ensures { result ≡ halt_of why }
{
    match why {
        Unread::Bad(bad) => Halt {
            status: Status::BadInput,
            bad: Some(bad),
        },
        Unread::Failed => ended(Status::ReadFault),
    }
}

impl<W, H: Host<W>, R: Repo<W>, D: Draw, C: Clock, G: Gate<W>> Session<
    '_,
    '_,
    '_,
    '_,
    '_,
    '_,
    W,
    H,
    R,
    D,
    C,
    G,
> {
    // Serves a request, and tells the bytes that it drew.
    fn answer_told(
        &mut self,
        now: u64,
        request: Result<RequestView<'_>, BadRequest>,
        steps: &mut StepList,
    ) -> (Result<Response, Memory>, Drawn)
        requires moment { now ≤ LAST }
        requires request { IfOk request (λ view. IsRequest (request_of view)) }
        requires short { IfOk request (λ view. IsShort (request_of view)) }
        requires free { (H.state self.old.host.now).held ≡ false }
        requires room { steps.old ≡ [] }
        ensures served { Served self.old.setting.app.now (seen request_of request.entry) now
            result.0 result.1 (before (standing H.state R.store D.draws None self.old))
            (after steps.new (standing H.state R.store D.draws None self.new)) }
        ensures free { (H.state self.new.host.now).held ≡ false }
        ensures grows { Extends (H.state self.new.host.now).own (H.state self.old.host.now).own }
        ensures clock { self.new.clock.now ≡ self.old.clock.now }
        ensures loans { SameSession self.old self.new }
    {
        let alloc = self.alloc;
        let setting = self.setting;
        let mut taped = Taped::new(self.draw);
        let answered = answer_taped(
            self.w, alloc, self.host, self.repo, &mut taped, setting, now, request, steps,
        );
        let drawn = Drawn::of(taped.bytes());
        (answered, drawn)
    }

    // Serves the request of a body at the moment, in ticks, behind the gate; a body that isn't kept
    // finds no memory.
    fn serve_body(&mut self, now: u64, body: &Option<Vec<u8>>, steps: StepList) -> Exchange
        requires passed { G.passed self.old.gate.now self.old.worker self.old.call }
        requires moment { now ≤ LAST }
        requires body { IfSome body.now (λ bytes. length bytes.items ≤ MAX_BODY) }
        requires free { (H.state self.old.host.now).held ≡ false }
        requires room { steps ≡ [] }
        ensures turn { (bytes : List ℕ) → IsKept body.now bytes → IsExchange
            self.old.setting.app.now bytes now result
            (standing H.state R.store D.draws None self.old)
            (standing H.state R.store D.draws None self.new) }
        ensures free { (H.state self.new.host.now).held ≡ false }
        ensures clock { self.new.clock.now ≡ self.old.clock.now }
        ensures loans { SameSession self.old self.new }
    {
        let seen = self.host.own().len();
        match body {
            Some(body) => {
                let request = RequestView::read(body.as_slice());
                let need = need_of(request);
                let mut steps = steps;
                let (answered, drawn) = self.answer_told(now, request, &mut steps);
                exchange_of(answered, now, need, seen, steps, drawn)
            }
            None => exchange_of(Err(Memory), now, 0, seen, steps, Drawn::none()),
        }
    }

    // Passes the gate, which may take long, asks the clock, serves the request of a body, keeps its
    // entry and its list, and writes its reply.
    fn serve_frame<O: Sink>(
        &mut self,
        output: &mut O,
        body: &Body,
        steps: StepList,
        log: &mut Log,
    ) -> Result<(), Failed>
        requires free { (H.state self.old.host.now).held ≡ false }
        requires body { IfSome body.now.kept (λ bytes. length bytes.items ≤ MAX_BODY) }
        requires steps { steps ≡ [] }
        requires room { vec_len log.old.entries < vec_capacity log.old.entries }
        ensures ok { OnOk result ((bytes : List ℕ) → Reads body.now bytes
            → OneServed self.old.setting.app.now Writes bytes
            (outside None (O.written output.old) (standing H.state R.store D.draws
            (C.moments self.old.clock.now) self.old) log.old.entries.items log.old.list)
            (outside None (O.written output.new) (standing H.state R.store D.draws
            (C.moments self.new.clock.now) self.new) log.new.entries.items log.new.list)) }
        ensures err { OnErr result ((bytes : List ℕ) → Reads body.now bytes
            → OneServed self.old.setting.app.now WritesFront bytes
            (outside None (O.written output.old) (standing H.state R.store D.draws
            (C.moments self.old.clock.now) self.old) log.old.entries.items log.old.list)
            (outside None (O.written output.new) (standing H.state R.store D.draws
            (C.moments self.new.clock.now) self.new) log.new.entries.items log.new.list)) }
        ensures passed { G.passed self.old.gate.now self.old.worker self.old.call }
        ensures free { (H.state self.new.host.now).held ≡ false }
        ensures no_fault { OnOk result (O.faults output.new ≡ O.faults output.old) }
        ensures fault { OnErr result (O.faults output.new ≡ one_more (O.faults output.old)) }
        ensures loans { SameSession self.old self.new }
    {
        self.gate.pass(self.w, self.worker, self.call);
        let now = self.clock.now().min(LAST);
        let turn = self.serve_body(now, &body.kept, steps);
        let Exchange {
            entry,
            reply,
            list: longer,
        } = turn;
        let _ = log.entries.push(entry);
        grow(&mut log.list, longer);
        put_frame(output, &reply)
    }

    /// Reads a frame, passes the gate, serves the request, writes its reply, and answers how many bytes
    /// the frame had.
    pub(crate) fn serve_one<I: Source, O: Sink>(
        &mut self,
        input: &mut I,
        output: &mut O,
        log: &mut Log,
    ) -> Result<u64, Halt>
        requires free { (H.state self.old.host.now).held ≡ false }
        ensures ok { IfOk result (OneMore self.old.setting.app.now Writes
            (outside (I.left input.old) (O.written output.old) (standing H.state R.store D.draws
            (C.moments self.old.clock.now) self.old) log.old.entries.items log.old.list)
            (outside (I.left input.new) (O.written output.new) (standing H.state R.store D.draws
            (C.moments self.new.clock.now) self.new) log.new.entries.items log.new.list)) }
        ensures err { IfErr result (λ halt. EndsAt self.old.setting.app.now halt.status halt.bad
            (outside (I.left input.old) (O.written output.old) (standing H.state R.store D.draws
            (C.moments self.old.clock.now) self.old) log.old.entries.items log.old.list)
            (outside (I.left input.new) (O.written output.new) (standing H.state R.store D.draws
            (C.moments self.new.clock.now) self.new) log.new.entries.items log.new.list)) }
        ensures passed { MatchResult result
            (λ _. G.passed self.old.gate.now self.old.worker self.old.call)
            (λ halt. halt.status ≡ WriteFault
            → G.passed self.old.gate.now self.old.worker self.old.call) }
        ensures free { (H.state self.new.host.now).held ≡ false }
        ensures read_fault { IfErr result (λ halt. halt.status ≡ ReadFault
            → I.faults input.new ≡ one_more (I.faults input.old)) }
        ensures no_read_fault { MatchResult result (λ _. I.faults input.new ≡ I.faults input.old)
            (λ halt. halt.status ≢ ReadFault → I.faults input.new ≡ I.faults input.old) }
        ensures write_fault { IfErr result (λ halt. halt.status ≡ WriteFault
            → O.faults output.new ≡ one_more (O.faults output.old)) }
        ensures no_write_fault { MatchResult result (λ _. O.faults output.new ≡ O.faults output.old)
            (λ halt. halt.status ≢ WriteFault → O.faults output.new ≡ O.faults output.old) }
        ensures loans { SameSession self.old self.new }
    {
        let alloc = self.alloc;
        let steps = match reserve(alloc, &mut log.entries) {
            Ok(steps) => steps,
            Err(_) => return Err(ended(Status::NoMemory)),
        };
        let body = match read_frame(alloc, input) {
            Ok(Frame::Whole(body)) => body,
            Ok(Frame::End) => return Err(ended(Status::Done)),
            Err(why) => return Err(unread(why)),
        };
        match self.serve_frame(output, &body, steps, log) {
            Ok(()) => Ok(4 + u64::from(body.len)),
            Err(_) => Err(ended(Status::WriteFault)),
        }
    }
}

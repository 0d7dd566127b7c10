//! `pipe`: requests are served over one stream, by a node of one thread.

ghost use Rattle.std.specs.Prelude.{◌≡◌, ◌≢◌, ◌≤◌, ◌↔◌, length, IfSome, IsSome};
ghost use Rattle.dp_base.specs.Counts.{one_more};
ghost use Rattle.dp_session.specs.declared.session.TheConstants.{MAX_REQUESTS};
ghost use Rattle.dp_session.specs.declared.status.Status.TheVariants.{BadWords, BadInput, ReadFault, WriteFault, StoreFault, DrawFault, Spent};
ghost use Rattle.dp_session.specs.Frames.{AreWhole};
ghost use Rattle.dp_session.specs.Session.{IsSpentEnd};
ghost use Rattle.dp_answer.specs.declared.app.TheConstants.{MAX_APP};
ghost use Rattle.dp_server.specs.Pipe.{AreStandard, Pipes, around, status_of};

use crate::outcome::Outcome;
use default_key::Options;
use dp_base::{Clock, Draw, LAST, Sink, Source};
use dp_encryptor::HeaderTable;
use dp_node::{OpenRefused, Solo};
use dp_session::{AppName, MAX_APP, NoGate, Setup, Status, serve_session};
use repo_keeper::Repo;
use std::alloc::Global;

// The standard options, with keys made automatically or not.
fn standard(auto: bool) -> Options
    ensures { AreStandard auto result }
{
    let mut options = Options::default();
    options.auto = auto;
    options
}

// The status where the node wasn't opened.
fn status_of(why: OpenRefused) -> Status
    ensures value { result ≡ status_of why }
    ensures other { result ≢ BadInput }
{
    match why {
        OpenRefused::StoreFault => Status::StoreFault,
        OpenRefused::DrawFault => Status::DrawFault,
        OpenRefused::Memory => Status::NoMemory,
    }
}

/// Opens a node of one thread over what the repository holds, at the clock's next moment, and
/// serves the requests of the input.
pub(crate) fn pipe<R: Repo<()>, D: Draw, C: Clock, I: Source, O: Sink>(
    alloc: Global,
    auto: bool,
    app: &str,
    repo: &mut R,
    draw: &mut D,
    clock: &mut C,
    input: &mut I,
    output: &mut O,
) -> Outcome
    requires { length app.now ≤ MAX_APP }
    ensures pipes { Pipes auto app.now result
        (around (I.left input.old) (O.written output.old) (R.store repo.old) (D.draws draw.old)
        (C.moments clock.old))
        (around (I.left input.new) (O.written output.new) (R.store repo.new) (D.draws draw.new)
        (C.moments clock.new)) }
    ensures words { result.status ≢ BadWords }
    ensures few { length result.trace.entries ≤ MAX_REQUESTS }
    ensures spent { result.status ≡ Spent → length result.trace.entries ≡ MAX_REQUESTS }
    ensures spent_end { length result.trace.entries ≡ MAX_REQUESTS → result.status ≢ WriteFault
        → IsSpentEnd result.status }
    ensures bad { IsSome result.bad ↔ (result.status ≡ BadInput) }
    ensures whole { IfSome (I.left input.old) (λ bytes. AreWhole MAX_REQUESTS bytes
        → (result.status ≢ BadInput) × (result.status ≢ Spent)) }
    ensures read_fault { result.status ≡ ReadFault
        → I.faults input.new ≡ one_more (I.faults input.old) }
    ensures no_read_fault { result.status ≢ ReadFault
        → I.faults input.new ≡ I.faults input.old }
    ensures write_fault { result.status ≡ WriteFault
        → O.faults output.new ≡ one_more (O.faults output.old) }
    ensures no_write_fault { result.status ≢ WriteFault
        → O.faults output.new ≡ O.faults output.old }
    ensures store_fault { result.status ≡ StoreFault
        → (R.store repo.new).faults ≡ one_more (R.store repo.old).faults }
    ensures draw_fault { result.status ≡ DrawFault
        → (D.draws draw.new).faults ≡ one_more (D.draws draw.old).faults }
{
    let now = clock.now().min(LAST);
    let options = standard(auto);
    let mut solo = match Solo::open(alloc, repo, draw, now, options) {
        Ok(solo) => solo,
        Err(why) => return Outcome::of(alloc, status_of(why)),
    };
    let setup = match AppName::new(alloc, app) {
        Ok(app) => Setup { options, app },
        Err(_) => return Outcome::of(alloc, Status::NoMemory),
    };
    let headers = HeaderTable::new(alloc);
    let end = serve_session(
        &mut (),
        alloc,
        &mut solo,
        repo,
        draw,
        clock,
        &NoGate,
        0,
        &setup,
        &headers,
        input,
        output,
    );
    Outcome::of_session(end)
}

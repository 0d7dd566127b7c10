//! `show`: from the records of elements to the listing of their ring.

ghost use Rattle.std.specs.Prelude.{◌≡◌, ◌≢◌, ◌+◌, ◌≤◌, ◌↔◌, IsSome, MatchResult, IfOk, IfErr, IfSome, string_bytes};
ghost use Rattle.dp_base.specs.declared.ticks.TheConstants.{LAST};
ghost use Rattle.dp_base.specs.Counts.{one_more};
ghost use Rattle.key_ring.specs.Listing.{listing};
ghost use Rattle.dp_session.specs.declared.status.Status.TheVariants.{Done, BadInput, ReadFault, WriteFault};
ghost use Rattle.dp_server.specs.declared.transfer.TheConstants.{MAX_INPUT};
ghost use Rattle.dp_server.specs.Statuses.{IsAccepting, IsRefusing, IsShowStatus};
ghost use Rattle.dp_base.specs.Transfer.{TakesAtMost, Writes, WritesFront};
ghost use Rattle.dp_server.specs.Outcomes.{IsBadPlace};
ghost use Rattle.dp_server.specs.Show.{IsListed, IsRefused, IsWhole, Shows};

use crate::outcome::ShowEnd;
use crate::transfer::{ReadRefused, read_input};
use default_key::Options;
use dp_base::{LAST, Memory, Sink, Source, write_all};
use dp_session::Status;
use key_elements::{ElementList, read_list};
use key_ring::Ring;
use std::alloc::Global;

// The list that the whole input is, or how the run ends.
fn input_list<I: Source>(alloc: Global, input: &mut I) -> Result<ElementList, ShowEnd>
    ensures list { IfOk result (IsWhole (I.left input.old) (I.left input.new)) }
    ensures status { IfErr result (λ end. IsRefusing end.status) }
    ensures bad_input { IfErr result (λ end. end.status ≡ BadInput
        → IsRefused (I.left input.old) (I.left input.new)) }
    ensures bad { IfErr result (λ end. IsSome end.bad ↔ (end.status ≡ BadInput)) }
    ensures place { IfErr result (λ end. IfSome end.bad (IsBadPlace (I.left input.old))) }
    ensures read_fault { IfErr result (λ end. end.status ≡ ReadFault
        → I.faults input.new ≡ one_more (I.faults input.old)) }
    ensures no_read_fault { MatchResult result (λ _. I.faults input.new ≡ I.faults input.old)
        (λ end. end.status ≢ ReadFault → I.faults input.new ≡ I.faults input.old) }
    ensures takes { TakesAtMost (MAX_INPUT + 1) (I.left input.old) (I.left input.new) }
{
    let bytes = match read_input(alloc, input) {
        Ok(bytes) => bytes,
        Err(ReadRefused::Failed) => return Err(ShowEnd::of(Status::ReadFault)),
        Err(ReadRefused::Memory) => return Err(ShowEnd::of(Status::NoMemory)),
    };
    match read_list(alloc, bytes.as_slice()) {
        Ok(list) => Ok(list),
        Err(refused) => Err(ShowEnd::of_refusal(refused)),
    }
}

// The listing of the list's ring at the moment.
fn listing_at(alloc: Global, list: ElementList, made_at: u64) -> Result<String, Memory>
    requires { made_at ≤ LAST }
    ensures { IfOk result (λ text. string_bytes text ≡ listing list made_at) }
{
    Ring::of(alloc, list, made_at, 0, &Options::default())?.listing(alloc)
}

/// Reads a list of elements, and writes the listing of its ring at the moment, in ticks. Nothing is
/// written unless the whole input is a list.
pub(crate) fn show<I: Source, O: Sink>(
    alloc: Global,
    moment: u64,
    input: &mut I,
    output: &mut O,
) -> ShowEnd
    ensures status { IsShowStatus result.status }
    ensures done { result.status ≡ Done → Shows moment (I.left input.old) (I.left input.new)
        (Writes (O.written output.old) (O.written output.new)) }
    ensures front { result.status ≡ WriteFault → Shows moment (I.left input.old) (I.left input.new)
        (WritesFront (O.written output.old) (O.written output.new)) }
    ensures read_fault { result.status ≡ ReadFault
        → I.faults input.new ≡ one_more (I.faults input.old) }
    ensures no_read_fault { result.status ≢ ReadFault → I.faults input.new ≡ I.faults input.old }
    ensures write_fault { result.status ≡ WriteFault
        → O.faults output.new ≡ one_more (O.faults output.old) }
    ensures no_write_fault { result.status ≢ WriteFault
        → O.faults output.new ≡ O.faults output.old }
    ensures bad_input { result.status ≡ BadInput → IsRefused (I.left input.old) (I.left input.new) }
    ensures bad { IsSome result.bad ↔ (result.status ≡ BadInput) }
    ensures place { IfSome result.bad (IsBadPlace (I.left input.old)) }
    ensures accepted { IfSome (I.left input.old)
        (λ left. IsListed left → IsAccepting result.status) }
    ensures refused { IfSome (I.left input.old)
        (λ left. ¬ IsListed left → IsRefusing result.status) }
    ensures silent { result.status ≢ Done → result.status ≢ WriteFault → output.new ≡ output.old }
    ensures takes { TakesAtMost (MAX_INPUT + 1) (I.left input.old) (I.left input.new) }
{
    let list = match input_list(alloc, input) {
        Ok(list) => list,
        Err(end) => return end,
    };
    let text = match listing_at(alloc, list, moment.min(LAST)) {
        Ok(text) => text,
        Err(_) => return ShowEnd::of(Status::NoMemory),
    };
    match write_all(output, text.as_bytes()) {
        Ok(()) => ShowEnd::of(Status::Done),
        Err(_) => ShowEnd::of(Status::WriteFault),
    }
}

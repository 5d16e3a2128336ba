//! Pipes that aren't in use are opened again.
ghost use Rattle.std.specs.Prelude.{◌≡◌, ◌≤◌, ◌⊎◌, true, false, OnOk};
ghost use Rattle.pipe_seats.specs.Calls.{IsReady, may_join};
ghost use Rattle.pipe_seats.specs.Opened.{came_as, OpensAs};

use crate::line_room::LineRoom;
use crate::node_pipe::NodePipe;
use crate::opener::Opener;
use base_outside::{Sink, Source};
use journal_core::{OutOfMemory, Request};
use std::alloc::Global;

/// Who opens the pipes, and the room for a request's line.
#[derive(Drop)]
pub(crate) struct Dialer<O> {
    pub(crate) opener: O,
    pub(crate) room: LineRoom,
}

/// Whether a node that came back may join with this request: at a takeover, a roll, or a tail.
fn may_join(request: &Request) -> bool
    ensures { result ≡ may_join request.now }
{
    matches!(
        request,
        Request::State | Request::Start { .. } | Request::Read { .. }
    )
}

/// Opens a pipe again that isn't in use, where the request is one to join with: over the ends that
/// the opener gives as this node's.
#[tactic(auto, using(crate::proofs::OpenedLaws::openings))]
pub(crate) fn make_ready<S: Source + Drop, K: Sink + Drop, O: Opener<S, K>>(
    alloc: Global,
    opener: &mut O,
    pipe: &mut NodePipe<S, K>,
    node: usize,
    request: &Request,
) -> Result<(), OutOfMemory>
    requires low { 1 ≤ node }
    ensures ready { OnOk result (IsReady pipe.old pipe.new) }
    ensures kept { (pipe.old.is_open ≡ true) ⊎ (may_join request.now ≡ false) → pipe.new ≡ pipe.old }
    ensures came { OpensAs (came_as O.are_of S.left K.taken node) pipe.old pipe.new }
{
    if pipe.is_open() || !may_join(request) {
        return Ok(());
    }
    match opener.open(node) {
        Some((source, sink)) => pipe.open_again(alloc, source, sink),
        None => Ok(()),
    }
}

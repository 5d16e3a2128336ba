//! The numbers of a node, as they were before a request.
ghost use Rattle.std.specs.Prelude.{◌≡◌};

use journal_core::NodeState;

/// What the front of a request and effects on numbers may change.
#[derive(Clone, Copy)]
pub(crate) struct Numbers {
    promised: u64,
    writer: u64,
    committed: u64,
    known: u64,
    opened: Option<u64>,
    serial: u64,
}

/// The node's numbers.
pub(crate) fn numbers_of(state: &NodeState) -> Numbers
    ensures { result ≡ record { promised = state.now.promised; writer = state.now.writer; committed = state.now.committed; known = state.now.known; opened = state.now.opened; serial = state.now.serial } }
{
    Numbers {
        promised: state.promised,
        writer: state.writer,
        committed: state.committed,
        known: state.known,
        opened: state.opened,
        serial: state.serial,
    }
}

/// The node has those numbers again.
pub(crate) fn restore(state: &mut NodeState, numbers: Numbers)
    ensures { state.new ≡ record state.old { promised = numbers.promised; writer = numbers.writer; committed = numbers.committed; known = numbers.known; opened = numbers.opened; serial = numbers.serial } }
{
    state.promised = numbers.promised;
    state.writer = numbers.writer;
    state.committed = numbers.committed;
    state.known = numbers.known;
    state.opened = numbers.opened;
    state.serial = numbers.serial;
}

//! The laws of what a life's calls and their lines have to do with each other.
ghost use Rattle.pipe_serve.specs.Bytes.{BytesKeepOrder, EndsTellBytes, SessionsTakeLines, UsesAreLives};
ghost use Rattle.pipe_serve.specs.Numbers.{CallsAreNumbered, CallsWriteLines, LinesKeepOrder, SessionsKeepOrder};

use journal_session::SessionNode;

/// The calls of a life to a node, of those whose lines were begun, have the numbers from 1 on, and
/// each reply that was heard was read on a line with its call's number.
pub fn calls_are_numbered()
    ensures { CallsAreNumbered }
{}

/// Of each call of a life to a node whose line was begun a front of that line was written, and a
/// reply that was heard was read of the pipe, behind lines that answer other calls. Each went over
/// the ends of the call before, as that left them, or over the next ones that came at an opening.
pub fn calls_write_lines()
    ensures { CallsWriteLines }
{}

/// Where what a node got of a life are some of the lines that were begun, in their order, and each
/// reply that was heard was answered to its number, pipes kept order and invented nothing.
pub fn lines_keep_order()
    ensures { LinesKeepOrder }
{}

/// So it is where the lines of the life that a client's sessions took are some of those that were
/// begun, in their order.
pub fn sessions_keep_order()
    ensures { SessionsKeepOrder }
{}

/// Each session at a node, but where memory ran out, took the lines of some calls, in their order,
/// asked the node just these, and wrote fronts of their replies' lines, one behind the other.
pub fn sessions_take_lines<N: SessionNode>()
    ensures { SessionsTakeLines N.asked }
{}

/// Those calls, where the ends told their bytes, are a life that wrote fronts of its lines, one
/// behind the other, and read the lines of what it heard.
pub fn uses_are_lives()
    ensures { UsesAreLives }
{}

/// Where all ends that came at openings tell their bytes, and no reply is withheld, the ends tell
/// them at each of those calls.
pub fn ends_tell_bytes()
    ensures { EndsTellBytes }
{}

/// Where pipes keep the order of their bytes and invent none, the lines of a life that the sessions
/// took are some of those that the life began, in their order and each once, and each reply that was
/// heard was answered to its number.
pub fn bytes_keep_order()
    ensures { BytesKeepOrder }
{}

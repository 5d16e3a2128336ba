//! Worked examples, computed by the check.
ghost use Rattle.std.specs.Prelude.{◌≡◌, [], ◌∷◌, Some, None};
ghost use Rattle.journal_core.specs.Step.{fresh_state, crashed};
ghost use Rattle.journal_core.specs.Limits.{limit_of};
ghost use Rattle.journal_core.specs.Examples.{replies_of, state_after, logging, logged, recovering, recovered, session, session_replies, purging, purged, final_line, open_line, passing, limited, journal_of};

use crate::refusal::Refusal;
use crate::reply::Reply;
use crate::request::Request;

/// One writer takes an epoch and logs three times; the next one recovers its segment.
pub fn a_segment_is_recovered()
    ensures logged { replies_of fresh_state logging ≡ logged }
    ensures recovered { replies_of (state_after fresh_state logging) recovering ≡ recovered }
{}

/// Two writers, with most refusals on the way.
pub fn a_session_is_answered()
    ensures { replies_of fresh_state session ≡ session_replies }
{}

/// A node that is down refuses all.
pub fn a_node_is_down()
    ensures { replies_of (crashed fresh_state) (Request.State ∷ Request.Read 1 ∷ []) ≡ Reply.Refused Refusal.Down ∷ Reply.Refused Refusal.Down ∷ [] }
{}

/// A purge goes by the committed txid of its own head.
pub fn a_purge_keeps_what_is_not_committed()
    ensures none { replies_of fresh_state (purging 0) ≡ purged (final_line ∷ open_line ∷ []) }
    ensures one { replies_of fresh_state (purging 1) ≡ purged (open_line ∷ []) }
{}

/// Each limit, at its edge and one above it.
pub fn a_limit_is_passed()
    ensures numbers { replies_of fresh_state passing ≡ limited }
    ensures body { limit_of (journal_of 1 1 4096) ≡ None }
    ensures long_body { limit_of (journal_of 1 1 4097) ≡ Some 4096 }
    ensures batch { limit_of (journal_of 1 256 1) ≡ None }
    ensures large_batch { limit_of (journal_of 1 257 1) ≡ Some 256 }
    ensures segment { limit_of (journal_of 16384 1 1) ≡ None }
    ensures full_segment { limit_of (journal_of 16385 1 1) ≡ Some 16384 }
{}

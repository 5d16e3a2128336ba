//! What follows the effects of a request.
ghost use Rattle.std.specs.Prelude.{◌≡◌};
ghost use Rattle.journal_core.specs.Step.{row_then};

use journal_core::{NodeState, Request};

/// What follows the effects of a request that isn't refused: which segment is open, and the serial.
pub fn follow(numbers: &mut NodeState, request: &Request)
    ensures { numbers.new ≡ row_then numbers.old request.now }
{
    match request {
        Request::NewEpoch { .. } => {
            numbers.opened = None;
            numbers.serial = 0;
        }
        Request::Start { start, .. } => numbers.opened = Some(*start),
        Request::Finalize { start, .. } => {
            if numbers.opened == Some(*start) {
                numbers.opened = None;
            }
        }
        _ => (),
    }
}

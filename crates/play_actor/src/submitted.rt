//! What becomes of an edit, by the answer to it.
ghost use Rattle.std.specs.Prelude.{IfSome};
ghost use Rattle.play_standby.specs.Pendings.{IsDue};
ghost use Rattle.play_names.specs.DueTexts.{due_of};

use play_names::EditDue;
use play_standby::Submitted;

/// By the answer to an edit, for a writer whose next txid is this; none where memory was wanting.
pub(crate) fn due_by(answer: Submitted, next: u64) -> Option<EditDue>
    ensures { IfSome result (λ due. IsDue next answer (due_of due)) }
{
    match answer {
        Submitted::Taken => Some(EditDue::Pends),
        Submitted::Refused(refusal) => Some(EditDue::Refused(refusal)),
        Submitted::Repeated { txid } => Some(EditDue::Repeats {
            txid,
            pends: next <= txid,
        }),
        Submitted::TooLong { number } => Some(EditDue::TooLong { number }),
        Submitted::Ended | Submitted::OutOfMemory => None,
    }
}

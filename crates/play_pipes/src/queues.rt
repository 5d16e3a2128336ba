//! The two queues of a pipe.
ghost use Rattle.std.specs.Prelude.{◌≡◌, true, false, [], IfOk};
ghost use Rattle.crossbeam_queue.specs.Passes.{view, IsPassOf};
ghost use Rattle.play_pipes.specs.Relay.{log, no_source, source_of};

use crate::answered::Answered;
use crate::ask::Ask;
use crate::queue::{Naming, Queue, QueuePass, open};
use journal_core::OutOfMemory;
use std::alloc::Global;
use std::marker::Brand;
use std::thread::Parker;

/// The two queues of a pipe: of what is asked, and of the answers, which have receipts of the
/// first. And where each end sleeps while its queue is empty: the worker at `asked`, the caller at
/// `answered`.
#[derive(Drop)]
pub(crate) struct Queues {
    pub(crate) asks: Queue<Ask>,
    pub(crate) asked: Parker,
    pub(crate) answers: Queue<Answered>,
    pub(crate) answered: Parker,
}

/// Two empty queues, with the caller's passes and the worker's.
#[derive(Drop)]
pub(crate) struct Opened {
    pub(crate) queues: Queues,
    pub(crate) sends: QueuePass<Ask>,
    pub(crate) hears: QueuePass<Answered>,
    pub(crate) takes: QueuePass<Ask>,
    pub(crate) gives: QueuePass<Answered>,
}

/// The queue of answers that have receipts of this queue.
fn open_answers<J: Naming>(
    alloc: Global,
    asks: &Queue<Ask>,
) -> Result<(Queue<Answered>, QueuePass<Answered>, QueuePass<Answered>), OutOfMemory>
    requires { J.source ≡ source_of asks.now.table.shared.table_id }
    ensures passes { IfOk result (λ q. IsPassOf q.0 q.1 × IsPassOf q.0 q.2) }
    ensures pushes { IfOk result (λ q. view q.1 ≡ log true false [] [] (source_of asks.now.table.shared.table_id) []) }
    ensures pops { IfOk result (λ q. view q.2 ≡ log false true [] [] (source_of asks.now.table.shared.table_id) []) }
{
    open::<Answered, J>(alloc)
}

/// The two queues of a new pipe.
pub(crate) fn open_queues(alloc: Global) -> Result<Opened, OutOfMemory>
    ensures asks { IfOk result (λ o. IsPassOf o.queues.asks o.sends × IsPassOf o.queues.asks o.takes) }
    ensures answers { IfOk result (λ o. IsPassOf o.queues.answers o.gives × IsPassOf o.queues.answers o.hears) }
    ensures sends { IfOk result (λ o. view o.sends ≡ log true false [] [] no_source []) }
    ensures takes { IfOk result (λ o. view o.takes ≡ log false true [] [] no_source []) }
    ensures gives { IfOk result (λ o. view o.gives ≡ log true false [] [] (source_of o.queues.asks.table.shared.table_id) []) }
    ensures hears { IfOk result (λ o. view o.hears ≡ log false true [] [] (source_of o.queues.asks.table.shared.table_id) []) }
{
    let (asks, sends, takes) = open::<Ask, Brand>(alloc)?;
    let (answers, gives, hears) = open_answers::<Brand>(alloc, &asks)?;
    Ok(Opened {
        queues: Queues {
            asks,
            asked: Parker::new(),
            answers,
            answered: Parker::new(),
        },
        sends,
        hears,
        takes,
        gives,
    })
}

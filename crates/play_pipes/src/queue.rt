//! A bounded queue from one thread to another, and what its passes know.
ghost use Rattle.std.specs.Prelude.{◌≡◌, true, false, List, [], ◌∷◌, ◌++◌, length, IfOk, MatchOption};
ghost use Rattle.crossbeam_queue.specs.Passes.{view, IsPassOf};
ghost use Rattle.play_pipes.specs.Relay.{log, Begins, no_source};

use crate::patience::Patience;
use crossbeam_queue::protocol::{Join, Lesson, Outcome, Protocol, Split};
use crossbeam_queue::{Pass, RuledArrayQueue};
use std::alloc::{AllocError, Global};
use std::collections::LinkedList;
use std::marker::{Brand, PhantomData};
use std::sync::Wait;
use std::thread::Parker;
use std::{hint, thread};

/// The most items that wait in a queue.
const ROOM: usize = 16;

/// Which queue it is. No value of it is made.
pub struct Source {
    pub words: u64,
    pub slots: u64,
    pub views_name: u64,
    pub atom: u64,
    pub block: u64,
    pub offset: u64,
    pub slot_names: LinkedList<u64>,
}

/// What a pass may do (push, pop), what it pushed and what it popped, of which queue its items have
/// receipts, and what it knows to have been pushed. No value of it is made.
pub struct Log<T> {
    pub pushes: bool,
    pub pops: bool,
    pub sent: LinkedList<T>,
    pub got: LinkedList<T>,
    pub source: Source,
    pub known: LinkedList<T>,
}

/// What may be pushed.
pub trait Item {
    ghost use Rattle.std.specs.Prelude.{ℕ};
    ghost use Rattle.play_pipes.specs.declared.queue.Source.{Source};

    /// Whether it may stand at this place of a queue whose items have receipts of this one.
    ghost stands: { Source → ℕ → Self → Type 0 };
}

/// Of which queue the items have receipts. Each pipe picks it.
pub trait Naming {
    ghost use Rattle.play_pipes.specs.declared.queue.Source.{Source};

    ghost source: { Source };
}

impl Naming for Brand {
    ghost use Rattle.play_pipes.specs.Relay.{no_source};

    ghost source = { no_source };
}

/// What comes out is what went in, in order. One pass at most may push, and one may pop. Each item
/// may stand at its place.
pub struct InOrder;

impl<T: Item> Protocol<T, Log<T>> for InOrder {
    ghost use Rattle.std.specs.Prelude.{true, []};
    ghost use Rattle.play_pipes.specs.Relay.{log, no_source, Relayed};

    ghost holds = { Relayed T.stands };

    ghost first = { log true true [] [] no_source [] };
}

struct Roles<J> {
    of: PhantomData<J>,
}

impl<T, J: Naming> Split<Log<T>> for Roles<J> {
    ghost use Rattle.std.specs.Prelude.{true, false, []};
    ghost use Rattle.play_pipes.specs.Relay.{log};

    ghost left = { λ v. log true false v.sent [] J.source [] };

    ghost right = { λ v. log false true [] v.got J.source [] };
}

struct Whole;

impl<T> Join<Log<T>> for Whole {
    ghost use Rattle.std.specs.Prelude.{true, false, []};
    ghost use Rattle.play_pipes.specs.Relay.{log, no_source};

    ghost both = { λ v w. log true true v.sent w.got v.source [] };

    ghost spent = { log false false [] [] no_source [] };
}

struct Receipt;

impl<T> Split<Log<T>> for Receipt {
    ghost use Rattle.std.specs.Prelude.{false, []};
    ghost use Rattle.play_pipes.specs.Relay.{log, no_source};

    ghost left = { λ v. v };

    ghost right = { λ v. log false false [] [] no_source v.got };
}

impl<T> Join<Log<T>> for Receipt {
    ghost use Rattle.std.specs.Prelude.{false, []};
    ghost use Rattle.play_pipes.specs.Relay.{log, no_source};

    ghost both = { λ v w. log v.pushes v.pops v.sent v.got v.source w.known };

    ghost spent = { log false false [] [] no_source [] };
}

struct Sent;

impl<T> Outcome<T, Log<T>> for Sent {
    ghost use Rattle.std.specs.Prelude.{◌≡◌, [], ◌∷◌, ◌++◌};
    ghost use Rattle.play_pipes.specs.Relay.{log};

    ghost then = { λ v x w. w ≡ log v.pushes v.pops (v.sent ++ x ∷ []) v.got v.source v.known };
}

struct Got;

impl<T: Item> Outcome<T, Log<T>> for Got {
    ghost use Rattle.std.specs.Prelude.{◌≡◌, [], ◌∷◌, ◌++◌, length};
    ghost use Rattle.play_pipes.specs.Relay.{log};

    ghost then = { λ v x w. (w ≡ log v.pushes v.pops v.sent (v.got ++ x ∷ []) v.source v.known) × T.stands v.source (length v.got) x };
}

struct Total;

impl<T> Lesson<T, Log<T>> for Total {
    ghost use Rattle.std.specs.Prelude.{◌≡◌, ◌++◌};

    ghost fact = { λ v items. v.sent ≡ v.got ++ items };
}

struct Known;

impl<T> Lesson<T, Log<T>> for Known {
    ghost use Rattle.play_pipes.specs.Relay.{Begins};

    ghost fact = { λ v items. Begins v.known v.sent };
}

/// A queue with room for 16 items.
pub type Queue<T> = RuledArrayQueue<T, Log<T>, InOrder>;

/// What a thread knows of it.
pub type QueuePass<T> = Pass<T, Log<T>>;

/// An empty queue whose items have receipts of the source that is picked, with the pass that pushes
/// and the pass that pops.
pub(crate) fn open<T: Drop + Item, J: Naming>(
    alloc: Global,
) -> Result<(Queue<T>, QueuePass<T>, QueuePass<T>), AllocError>
    ensures passes { IfOk result (λ q. IsPassOf q.0 q.1 × IsPassOf q.0 q.2) }
    ensures pushes { IfOk result (λ q. view q.1 ≡ log true false [] [] J.source []) }
    ensures pops { IfOk result (λ q. view q.2 ≡ log false true [] [] J.source []) }
{
    let (queue, mut pushes) = Queue::<T>::ruled(alloc, ROOM)?;
    let pops = queue.another::<Roles<J>>(&mut pushes);
    Ok((queue, pushes, pops))
}

/// Pushes, and tries again while the queue is full. Then the thread that sleeps at `ready` is woken.
pub(crate) fn push<T: Drop + Item, R: Wait>(
    rt: &R,
    queue: &Queue<T>,
    ready: &Parker,
    pass: &mut QueuePass<T>,
    item: T,
)
    requires own { IsPassOf queue.now pass.old }
    requires may { (view pass.old).pushes ≡ true }
    requires stands { T.stands (view pass.old).source (length (view pass.old).sent) item }
    ensures own { IsPassOf queue.now pass.new }
    ensures sent { view pass.new ≡ log (view pass.old).pushes (view pass.old).pops ((view pass.old).sent ++ item ∷ []) (view pass.old).got (view pass.old).source (view pass.old).known }
    ensures same { pass.new.table_id ≡ pass.old.table_id }
{
    let mut item = item;
    for _ in rt.forever() {
        match queue.try_push_as::<Sent>(pass, item) {
            Ok(()) => {
                ready.unpark();
                return;
            }
            Err(back) => {
                item = back;
                thread::yield_now();
            }
        }
    }
    unreachable!()
}

/// Pops, at one of so many looks, if an item is there by then.
fn look<T: Drop + Item>(queue: &Queue<T>, pass: &mut QueuePass<T>, looks: u32) -> Option<T>
    requires own { IsPassOf queue.now pass.old }
    requires may { (view pass.old).pops ≡ true }
    ensures own { IsPassOf queue.now pass.new }
    ensures got { MatchOption result (view pass.new ≡ view pass.old) (λ item. (view pass.new ≡ log (view pass.old).pushes (view pass.old).pops (view pass.old).sent ((view pass.old).got ++ item ∷ []) (view pass.old).source (view pass.old).known) × T.stands (view pass.old).source (length (view pass.old).got) item) }
    ensures same { pass.new.table_id ≡ pass.old.table_id }
{
    for _ in 0..looks {
        if let Some(item) = queue.try_pop_as::<Got>(pass) {
            return Some(item);
        }
        hint::spin_loop();
    }
    None
}

/// Pops; while the queue is empty it sleeps at `ready`.
fn pop_asleep<T: Drop + Item, R: Wait>(
    rt: &R,
    queue: &Queue<T>,
    ready: &Parker,
    pass: &mut QueuePass<T>,
) -> T
    requires own { IsPassOf queue.now pass.old }
    requires may { (view pass.old).pops ≡ true }
    ensures own { IsPassOf queue.now pass.new }
    ensures got { view pass.new ≡ log (view pass.old).pushes (view pass.old).pops (view pass.old).sent ((view pass.old).got ++ result ∷ []) (view pass.old).source (view pass.old).known }
    ensures stands { T.stands (view pass.old).source (length (view pass.old).got) result }
    ensures same { pass.new.table_id ≡ pass.old.table_id }
{
    for _ in rt.forever() {
        if let Some(item) = queue.try_pop_as::<Got>(pass) {
            return item;
        }
        ready.park(rt);
    }
    unreachable!()
}

/// Pops. While the queue is empty it looks again, as often as its patience says, and then sleeps at
/// `ready`.
pub(crate) fn pop<T: Drop + Item, R: Wait>(
    rt: &R,
    queue: &Queue<T>,
    ready: &Parker,
    pass: &mut QueuePass<T>,
    patience: &mut Patience,
) -> T
    requires own { IsPassOf queue.now pass.old }
    requires may { (view pass.old).pops ≡ true }
    ensures own { IsPassOf queue.now pass.new }
    ensures got { view pass.new ≡ log (view pass.old).pushes (view pass.old).pops (view pass.old).sent ((view pass.old).got ++ result ∷ []) (view pass.old).source (view pass.old).known }
    ensures stands { T.stands (view pass.old).source (length (view pass.old).got) result }
    ensures same { pass.new.table_id ≡ pass.old.table_id }
{
    if let Some(item) = queue.try_pop_as::<Got>(pass) {
        return item;
    }
    match look(queue, pass, patience.looks()) {
        Some(item) => {
            patience.grow();
            item
        }
        None => {
            patience.shrink();
            pop_asleep(rt, queue, ready, pass)
        }
    }
}

/// A receipt for all that was popped: that it had been pushed.
pub(crate) fn receipt_of<T: Drop + Item>(queue: &Queue<T>, pass: &mut QueuePass<T>) -> QueuePass<T>
    requires own { IsPassOf queue.now pass.old }
    requires may { (view pass.old).pops ≡ true }
    ensures own { IsPassOf queue.now pass.new × IsPassOf queue.now result }
    ensures same { (view pass.new ≡ view pass.old) × (pass.new.table_id ≡ pass.old.table_id) }
    ensures receipt { view result ≡ log false false [] [] no_source (view pass.old).got }
{
    queue.another::<Receipt>(pass)
}

/// What a receipt of this queue shows to the one who pushes: what was pushed begins with it.
#[tactic(auto, using(crate::proofs::Relays::receipts))]
pub(crate) fn take_receipt<T: Drop + Item>(
    queue: &Queue<T>,
    pass: &mut QueuePass<T>,
    receipt: QueuePass<T>,
)
    requires own { IsPassOf queue.now pass.old × IsPassOf queue.now receipt }
    requires may { (view pass.old).pushes ≡ true }
    ensures own { IsPassOf queue.now pass.new }
    ensures same { pass.new.table_id ≡ pass.old.table_id }
    ensures known { view pass.new ≡ log (view pass.old).pushes (view pass.old).pops (view pass.old).sent (view pass.old).got (view pass.old).source (view receipt).known }
    ensures begins { Begins (view receipt).known (view pass.old).sent }
{
    queue.absorb::<Receipt>(pass, receipt);
    queue.learn_as::<Known>(pass);
}

/// What was pushed is what was popped, and then what is left.
pub(crate) fn compare<T: Drop + Item>(queue: &Queue<T>, pushes: QueuePass<T>, pops: QueuePass<T>)
    requires own { IsPassOf queue.now pushes × IsPassOf queue.now pops }
    requires may { ((view pushes).pushes ≡ true) × ((view pops).pops ≡ true) }
    ensures { (items : List T) × ((view pushes).sent ≡ (view pops).got ++ items) }
{
    let mut both = pushes;
    queue.absorb::<Whole>(&mut both, pops);
    queue.learn_as::<Total>(&mut both);
}

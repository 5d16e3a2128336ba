//! What can happen in the journal world.
use journal_core::SharedRequest;
use journal_history::Stop;
use writer_core::Task;

/// What becomes of a call.
#[derive(Clone, Copy)]
pub enum Fate {
    /// Its answer is heard.
    Heard,
    /// Its reply is lost.
    Muted,
    /// It isn't delivered.
    Dropped,
    /// The node is stopped after so many of its effects.
    Stopped { keep: u64 },
}

/// One atomic action of one actor.
#[derive(Drop)]
pub enum Event {
    /// The actor's writer begins a task.
    Begin {
        actor: u32,
        task: Task,
    },
    /// A call to a node.
    Call {
        actor: u32,
        node: usize,
        request: SharedRequest,
        fate: Fate,
    },
    /// A copy of a request that the actor made to that node before; its reply goes to nobody.
    Late {
        actor: u32,
        node: usize,
        request: SharedRequest,
        stop: Option<u64>,
    },
    /// The node goes down.
    Kill {
        node: usize,
    },
    /// The node comes up again.
    Restart {
        node: usize,
    },
    /// The `calls`-th next request that reaches the node while it is up is stopped.
    Arm {
        node: usize,
        calls: u64,
        stop: Stop,
    },
    /// The actor's writer gives up its epoch.
    GiveUp {
        actor: u32,
    },
    /// The actor saves an image; no node changes.
    Checkpoint {
        actor: u32,
    },
}

//! The lines of a script.
use edit_ops::EditList;
use journal_core::{BodyList, Bytes};
use journal_history::Stop;

/// A line of a script that says something, after the first. An actor is its number in order of
/// declaration, from 0; a node is its number from 1.
pub enum ScriptLine {
    /// `writer NAME`: a writer is declared. `name NAME`: an actor with a namespace is.
    Declare { name: Bytes },
    /// `takeover A`: the writer takes a new epoch and begins a segment.
    Takeover { actor: u32 },
    /// `roll A`: the writer ends its segment and begins the next one.
    Roll { actor: u32 },
    /// `close A`: the writer ends its segment.
    Close { actor: u32 },
    /// `log A BODY ..`: the writer logs these edits as one batch.
    Log { actor: u32, bodies: BodyList },
    /// `log A EDIT ; EDIT ; ..`: the actor submits these edits in order, and then syncs them.
    Edits { actor: u32, edits: EditList },
    /// `purge A MIN`: the writer lets the nodes remove segments that end below `min`.
    Purge { actor: u32, min: u64 },
    /// `trim A EXTRA`: the actor lets the nodes remove segments that its images make needless, but
    /// for `extra` edits more.
    Trim { actor: u32, extra: u64 },
    /// `tail A`: the actor reads and applies what it lacks.
    Tail { actor: u32 },
    /// `checkpoint A`: the actor saves its namespace as an image.
    Checkpoint { actor: u32 },
    /// `reload A`: the actor begins again from its newest image, or from the root alone.
    Reload { actor: u32 },
    /// `drop A I K`: the writer's `call`-th next call to the node isn't delivered.
    Drop { actor: u32, node: usize, call: u64 },
    /// `mute A I K`: the writer's `call`-th next call to the node is delivered, and its reply is
    /// lost.
    Mute { actor: u32, node: usize, call: u64 },
    /// `late A I K`: a copy of the writer's `call`-th call to the node arrives now.
    Late { actor: u32, node: usize, call: u64 },
    /// `kill I`: the node goes down.
    Kill { node: usize },
    /// `restart I`: the node comes up again.
    Restart { node: usize },
    /// `stop I J K`: the `calls`-th next call that reaches the node while it is up is stopped
    /// inside it, after K effects. `cut I J D CHOICE`: the same after D disk calls, and the crash
    /// leaves by this choice what wasn't synced.
    Arm { node: usize, calls: u64, stop: Stop },
}

impl Drop for ScriptLine {
    fn drop(self) {
        match self {
            ScriptLine::Declare { name: _ } => {}
            ScriptLine::Takeover { actor: _ } => {}
            ScriptLine::Roll { actor: _ } => {}
            ScriptLine::Close { actor: _ } => {}
            ScriptLine::Log {
                actor: _,
                bodies: _,
            } => {}
            ScriptLine::Edits { actor: _, edits: _ } => {}
            ScriptLine::Purge { actor: _, min: _ } => {}
            ScriptLine::Trim { actor: _, extra: _ } => {}
            ScriptLine::Tail { actor: _ } => {}
            ScriptLine::Checkpoint { actor: _ } => {}
            ScriptLine::Reload { actor: _ } => {}
            ScriptLine::Drop {
                actor: _,
                node: _,
                call: _,
            } => {}
            ScriptLine::Mute {
                actor: _,
                node: _,
                call: _,
            } => {}
            ScriptLine::Late {
                actor: _,
                node: _,
                call: _,
            } => {}
            ScriptLine::Kill { node: _ } => {}
            ScriptLine::Restart { node: _ } => {}
            ScriptLine::Arm {
                node: _,
                calls: _,
                stop: _,
            } => {}
        }
    }
}

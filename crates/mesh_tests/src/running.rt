//! Scripts run by threads, over plain nodes.
ghost use Rattle.play_script.specs.Grammar.{IsScript};

use caller::{Caller, CopyWire};
use journal_core::OutOfMemory;
use journal_step::PlainNode;
use ns_tree::LastSpace;
use play_actor::{ScriptActor, plain_nodes};
use play_model::{Played, scripts_are_playable};
use play_pipes::run_piped_on;
use play_script::{ReadScript, Script, ScriptLine, read_script};
use play_threads::{Actors, FreePass, act_alone, run_on};
use std::alloc::Global;
use std::sync::Wait;
use std::test::Fail;
use std::thread::Threads;

/// The actors of the runs.
struct TestedActors;

impl Actors for TestedActors {
    fn act<W: CopyWire>(
        alloc: Global,
        named: bool,
        lines: &[ScriptLine],
        actor: u32,
        caller: &mut Caller<W>,
    ) -> Result<Option<LastSpace>, OutOfMemory> {
        act_alone::<ScriptActor, W>(alloc, named, lines, actor, caller)
    }
}

fn run_script<R: Threads + Wait + Sync>(
    rt: &R,
    alloc: Global,
    has_pipes: bool,
    script: &Script,
) -> Result<Played<PlainNode>, OutOfMemory>
    requires { IsScript script.now }
{
    scripts_are_playable();
    let nodes = plain_nodes(alloc, script.nodes())?;
    if has_pipes {
        run_piped_on::<TestedActors, _, _, _>(rt, alloc, nodes, script, &FreePass)
    } else {
        run_on::<TestedActors, _, _, _>(rt, alloc, nodes, script, &FreePass)
    }
}

/// What a run of the script with this text leaves, through pipes or not.
pub(crate) fn run_text<R: Threads + Wait + Sync>(
    rt: &R,
    alloc: Global,
    has_pipes: bool,
    text: &[u8],
) -> Result<Played<PlainNode>, Fail> {
    let ReadScript::Script(script) = read_script(alloc, text) else {
        return Err("no script".into());
    };
    let played = run_script(rt, alloc, has_pipes, &script);
    drop(script);
    Ok(played?)
}

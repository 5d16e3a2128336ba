//! Lists of runs by threads agree, and fresh nodes that take their epoch orders come to the states
//! of their nodes.
use crate::draws::{Draws, draw_script};
use crate::replayed::is_replayed;
use crate::running::run_text;
use std::alloc::Global;
use std::process::Abort;
use std::sync::Wait;
use std::test::Fail;
use std::thread::Threads;

const ALL_LINES: &str =
    "raw 3\nwriter a\nwriter b\ndrop a 2 3\ntakeover a\nlog a 0a\nlate a 1 9\nmute b 1 1\ntakeover b\nlog b 0b 0c\nlate b 3 1\nkill 2\nrestart 2\nstop 3 2 1\ncut 1 4 2 a5\nroll b\npurge b 2\nclose b\n";

const COMPETING_NAMES: &str =
    "names 3\nname a\nname b\nname s\ntakeover a\nlog a mkdir /a 1 755 u g\ntakeover b\nlog b mkdir /b 2 755 u g\ntail s\ntail a\n";

fn is_run<R: Threads + Wait + Sync + Abort>(
    rt: &R,
    alloc: Global,
    has_pipes: bool,
    text: &str,
) -> Result<(), Fail> {
    let ran = run_text(rt, alloc, has_pipes, text.as_bytes())?;
    let replayed = is_replayed(alloc, &ran);
    drop(ran);
    assert!(rt; replayed?, "{text}");
    Ok(())
}

#[test]
fn lists_of_runs_agree(rt: HostRuntime) -> Result<(), Fail> {
    for _ in 0..10 {
        is_run(&rt, rt.alloc(), false, ALL_LINES)?;
        is_run(&rt, rt.alloc(), false, COMPETING_NAMES)?;
    }
    Ok(())
}

/// Fifty scripts are run, and fifty without late copies through pipes.
#[test]
fn lists_of_random_runs_agree(rt: HostRuntime) -> Result<(), Fail> {
    let mut draws = Draws::new(1);
    for number in 0..100 {
        let has_pipes = number >= 50;
        let text = draw_script(rt.alloc(), &mut draws, !has_pipes)?;
        is_run(&rt, rt.alloc(), has_pipes, text.as_str())?;
    }
    Ok(())
}

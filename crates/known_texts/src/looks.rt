//! Steps that look at what a case came to, and change nothing: each is done at a copy, which takes
//! the steps before it anew.
use crate::bench::Bench;
use crate::each::{Each, Look, tell_each};
use crate::stops::Stopped;
use anyhow::bail;
use case_files::CaseLine;

// Whether both nodes are in one state.
fn tell_same(copy: &mut Bench, before: &[CaseLine], told: &mut String) -> anyhow::Result<()> {
    copy.replay(before)?;
    if copy.is_alike(told)? {
        told.push_str("alike")?;
    }
    Ok(())
}

// Where each disk call of a step is looked at: at what, and the request.
fn each_of<'a>(before: &'a [CaseLine], step: &'a str) -> Option<Each<'a>> {
    if step == "opening at each call" {
        return Some(Each {
            look: Look::Opening,
            before,
            line: "",
        });
    }
    let (word, line) = step.split_once("at each call ")?;
    let look = match word {
        "" => Look::Cut,
        "fails " => Look::Fault,
        "left " => Look::Left,
        _ => return None,
    };
    Some(Each { look, before, line })
}

/// Takes a step that looks, after the steps before it.
pub fn look(
    copy: &mut Bench,
    before: &[CaseLine],
    step: &str,
    told: &mut String,
) -> anyhow::Result<()> {
    if step == "same" {
        return tell_same(copy, before, told);
    }
    if let Some(text) = step.strip_prefix("stopped at each call ") {
        return Stopped::of(before, text)?.stop_each(copy, told);
    }
    if let Some(text) = step.strip_prefix("failing at each call ") {
        return Stopped::of(before, text)?.fail_each(copy, told);
    }
    match each_of(before, step) {
        Some(each) => tell_each(copy, &each, told),
        None => bail!("no step"),
    }
}

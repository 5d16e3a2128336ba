//! A step at a disk that is stopped, or of which a call fails, at each of its calls.
use crate::bench::Bench;
use crate::cuts::choice_text;
use anyhow::{anyhow, bail};
use base_disk::Choice;
use case_files::CaseLine;

// More calls than a step makes.
const MOST_CALLS: u64 = 200;

const CHOICES: &[Choice] = &[Choice::Old, Choice::New, Choice::Fill(0xa5)];

/// A step that is stopped or fails, after steps, and the steps that look at what it left.
#[derive(Clone, Copy)]
pub struct Stopped<'a> {
    before: &'a [CaseLine],
    step: &'a str,
    then: &'a str,
}

impl<'a> Stopped<'a> {
    /// `STEP; THEN; ..`. An `Err` says that no step comes after the first.
    pub fn of(before: &'a [CaseLine], text: &'a str) -> anyhow::Result<Stopped<'a>> {
        let (step, then) = text.split_once("; ").ok_or(anyhow!("no step after"))?;
        Ok(Stopped { before, step, then })
    }

    // The steps that look.
    fn look(self, copy: &mut Bench, seen: &mut String) -> anyhow::Result<()> {
        for then in self.then.split("; ") {
            seen.push_str(", ")?;
            if !copy.change(then, seen)? {
                bail!("no step: {then}");
            }
        }
        Ok(())
    }

    // The step ends after so many calls and a crash; whether it is done.
    fn stop(
        self,
        copy: &mut Bench,
        calls: u64,
        choice: Choice,
        told: &mut String,
    ) -> anyhow::Result<bool> {
        let mut seen = String::new(copy.alloc);
        copy.replay(self.before)?;
        copy.stop_after(calls);
        copy.change(self.step, &mut seen)?;
        let is_done = seen.as_str() != "disk fault";
        copy.crash_by(choice);
        self.look(copy, &mut seen)?;
        if !told.ends_with(seen.as_str()) {
            let choice = choice_text(copy.alloc, choice)?;
            write!(told, "\n  from {calls} {choice}: {seen}")?;
        }
        Ok(is_done)
    }

    // The call of that number fails, from 0; whether the step is done.
    fn fail(self, copy: &mut Bench, call: u64, told: &mut String) -> anyhow::Result<bool> {
        let mut seen = String::new(copy.alloc);
        copy.replay(self.before)?;
        copy.fail_at(vec![in copy.alloc; call]?);
        copy.change(self.step, &mut seen)?;
        let is_done = seen.as_str() != "disk fault";
        copy.fail_at(Vec::new(copy.alloc));
        self.look(copy, &mut seen)?;
        if !told.ends_with(seen.as_str()) {
            write!(told, "\n  from {call}: {seen}")?;
        }
        Ok(is_done)
    }

    /// Ends the step after each number of its calls, by each choice of a crash. What is seen of it
    /// and then is told where it differs from what was told last.
    pub fn stop_each(self, copy: &mut Bench, told: &mut String) -> anyhow::Result<()> {
        let mut is_done = false;
        for calls in 0..MOST_CALLS {
            for choice in CHOICES {
                is_done = self.stop(copy, calls, *choice, told)?;
            }
            if is_done {
                return Ok(());
            }
        }
        bail!("more than {MOST_CALLS} calls")
    }

    /// The same where each of its calls fails, without a crash.
    pub fn fail_each(self, copy: &mut Bench, told: &mut String) -> anyhow::Result<()> {
        for call in 0..MOST_CALLS {
            if self.fail(copy, call, told)? {
                return Ok(());
            }
        }
        bail!("more than {MOST_CALLS} calls")
    }
}

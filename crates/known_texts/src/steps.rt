//! Cases of steps at a bench.
use crate::bench::Bench;
use crate::looks::look;
use crate::random::take_random;
use case_files::{CaseLine, CaseText, put_line};
use std::alloc::Global;

/// Two benches: one for the steps of a case, and one for what a step does beside the case.
#[derive(Drop)]
pub struct Benches {
    bench: Bench,
    copy: Bench,
}

impl Benches {
    /// Two of which nothing is left.
    pub fn new(alloc: Global) -> Benches {
        Benches {
            bench: Bench::new(alloc),
            copy: Bench::new(alloc),
        }
    }

    /// Does the steps of a case, and appends its first line and what each step came to.
    pub fn do_case(&mut self, case: &CaseText, out: &mut Vec<u8>) -> anyhow::Result<()> {
        out.extend_from_slice(b"case ")?;
        put_line(out, &case.title)?;
        self.bench.renew();
        let mut told = String::new(self.bench.alloc);
        let steps = case.lines.as_slice();
        for at in 0..steps.len() {
            let step = &steps[at];
            told.clear();
            let taken = self.do_step(&steps[..at], &step.text, &mut told);
            case.at_line(step, taken)?;
            out.extend_from_slice(step.text.as_bytes())?;
            out.extend_from_slice(b": ")?;
            put_line(out, &told)?;
        }
        put_line(out, "")?;
        Ok(())
    }

    // Does a step after the others.
    fn do_step(
        &mut self,
        before: &[CaseLine],
        step: &str,
        told: &mut String,
    ) -> anyhow::Result<()> {
        if let Some(rest) = step.strip_prefix("random ") {
            return take_random(&mut self.bench, rest, told);
        }
        if self.bench.change(step, told)? {
            return Ok(());
        }
        look(&mut self.copy, before, step, told)
    }
}

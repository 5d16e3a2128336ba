//! What counts the calls that threads make.
use crate::hold::{Hold, HoldEnd, Holding};
use play_threads::Pass;
use std::sync::Wait;
use std::sync::atomic::{AtomicU64, Ordering};

/// It lets each call pass, at once but for one that is to be held, and counts it.
#[derive(Drop)]
pub struct CountedPass {
    passes: AtomicU64,
    holding: Option<Holding>,
}

impl CountedPass {
    /// It has counted none yet.
    pub fn new(hold: Option<Hold>) -> CountedPass {
        CountedPass {
            passes: AtomicU64::new(0),
            holding: hold.map(Holding::new),
        }
    }

    /// How many calls it let pass.
    pub fn passes(&self) -> u64 {
        self.passes.load(Ordering::SeqCst)
    }

    /// How the hold ended, if there was one.
    pub fn hold_end(&self) -> Option<HoldEnd> {
        match &self.holding {
            Some(holding) => Some(holding.end()),
            None => None,
        }
    }
}

impl Pass for CountedPass {
    fn pass<R: Wait>(&self, _rt: &R, caller: u32, node: usize) {
        self.passes.fetch_add(1, Ordering::SeqCst);
        if let Some(holding) = &self.holding {
            holding.pass(caller, node);
        }
    }
}

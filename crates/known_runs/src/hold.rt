//! A call of threads that is held until another begins.
use std::sync::atomic::{AtomicU64, Ordering};
use std::thread;

/// How often a hold looks before it gives up.
const LOOKS: u64 = 1_000_000;

/// A caller, from 0 in the order of the script, and a node that it calls, from 1.
#[derive(Clone, Copy)]
pub struct Called {
    pub caller: u32,
    pub node: usize,
}

/// Which call is held: the first of a caller to a node, until so many of a caller to a node have
/// begun. If that is another caller, it makes none before the held one has come.
#[derive(Clone, Copy)]
pub struct Hold {
    pub held: Called,
    pub until: Called,
    pub count: u64,
}

/// How a hold ended.
#[derive(Clone, Copy, Debug)]
pub enum HoldEnd {
    /// The call that is to be held didn't come.
    NoCall,
    /// So many calls began.
    Kept,
    /// They didn't, however long a call was held.
    InVain,
}

/// A hold as the threads come to it.
#[derive(Drop)]
pub struct Holding {
    hold: Hold,
    came: AtomicU64,
    began: AtomicU64,
    in_vain: AtomicU64,
}

impl Holding {
    /// A hold to which no thread came yet.
    pub fn new(hold: Hold) -> Holding {
        Holding {
            hold,
            came: AtomicU64::new(0),
            began: AtomicU64::new(0),
            in_vain: AtomicU64::new(0),
        }
    }

    /// A call of this caller to this node begins.
    pub fn pass(&self, caller: u32, node: usize) {
        let Hold { held, until, count } = self.hold;
        if caller == until.caller {
            if caller != held.caller {
                self.wait(&self.came, 1);
            }
            if node == until.node {
                self.began.fetch_add(1, Ordering::SeqCst);
            }
        }
        if caller == held.caller && node == held.node && self.came.swap(1, Ordering::SeqCst) == 0 {
            self.wait(&self.began, count);
        }
    }

    /// Waits until so many have come, or in vain.
    fn wait(&self, came: &AtomicU64, count: u64) {
        for _ in 0..LOOKS {
            if came.load(Ordering::SeqCst) >= count {
                return;
            }
            thread::yield_now();
        }
        self.in_vain.store(1, Ordering::SeqCst);
    }

    /// How it ended, once all threads are joined.
    pub fn end(&self) -> HoldEnd {
        if self.came.load(Ordering::SeqCst) == 0 {
            HoldEnd::NoCall
        } else if self.in_vain.load(Ordering::SeqCst) == 0 {
            HoldEnd::Kept
        } else {
            HoldEnd::InVain
        }
    }
}

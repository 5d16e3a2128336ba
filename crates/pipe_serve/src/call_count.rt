//! The calls that are under way at a node.
use std::sync::Wait;
use std::sync::atomic::{AtomicBool, AtomicU64, Ordering};
use std::thread;
use std::time::{Clock, Duration};

/// How many milliseconds are between two looks.
const PAUSE: u64 = 1;

/// How many calls are under way at a node, and whether one may begin. No contract speaks of it: a
/// call that may not begin waits without end, and is none.
#[derive(Drop)]
pub(crate) struct CallCount {
    under_way: AtomicU64,
    is_closed: AtomicBool,
}

impl CallCount {
    /// None is under way.
    pub(crate) fn new() -> CallCount {
        CallCount {
            under_way: AtomicU64::new(0),
            is_closed: AtomicBool::new(false),
        }
    }

    /// Counts a call that begins; false where none may begin any more. One that is counted before
    /// the end is closed is waited for there.
    fn begin(&self) -> bool {
        self.under_way.fetch_add(1, Ordering::SeqCst);
        if self.is_closed.load(Ordering::SeqCst) {
            self.end();
            return false;
        }
        true
    }

    /// Counts a call that ended.
    pub(crate) fn end(&self) {
        self.under_way.fetch_sub(1, Ordering::SeqCst);
    }
}

/// Begins a call, where one may begin; else it waits without end.
pub(crate) fn begin_call<R: Wait + Clock>(rt: &R, calls: &CallCount) {
    for _ in rt.forever() {
        if calls.begin() {
            return;
        }
        thread::sleep(rt, Duration::from_millis(PAUSE));
    }
}

/// From now on no call begins; it waits until none is under way.
pub(crate) fn close_calls<R: Wait + Clock>(rt: &R, calls: &CallCount) {
    calls.is_closed.store(true, Ordering::SeqCst);
    for _ in rt.forever() {
        if calls.under_way.load(Ordering::SeqCst) == 0 {
            return;
        }
        thread::sleep(rt, Duration::from_millis(PAUSE));
    }
}

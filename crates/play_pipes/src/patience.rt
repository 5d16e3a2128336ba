//! How long a waiter looks before it sleeps.

/// The most looks before a sleep: some tenths of a millisecond, longer than it takes to wake the
/// threads of a round one after another.
const MOST: u32 = 4096;

/// The fewest: about a microsecond.
const LEAST: u32 = 16;

/// How often a waiter looks at an empty queue before it sleeps: twice as often after a wait that
/// ended while it looked, half as often after one that didn't. So a waiter whose items come soon
/// makes no system call, and one whose items don't sleeps almost at once.
#[derive(Drop)]
pub(crate) struct Patience {
    looks: u32,
}

impl Patience {
    /// The greatest.
    pub(crate) fn new() -> Patience {
        Patience { looks: MOST }
    }

    /// How often to look.
    pub(crate) fn looks(&self) -> u32 {
        self.looks
    }

    /// After a wait that ended while it looked.
    pub(crate) fn grow(&mut self) {
        self.looks = self.looks.saturating_mul(2).min(MOST);
    }

    /// After a wait in which it looked in vain.
    pub(crate) fn shrink(&mut self) {
        self.looks = (self.looks / 2).max(LEAST);
    }
}

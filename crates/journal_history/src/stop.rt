//! Where a stop inside a request comes.
use journal_core::Cut;

/// How far a stopped request gets.
#[derive(Clone, Copy, PartialEq, Eq)]
pub enum Stop {
    /// Its first `keep` durable effects are done.
    Effects { keep: u64 },
    /// Its first disk calls are done, and the crash leaves by this choice what wasn't synced.
    DiskCalls { calls: u64, cut: Cut },
}

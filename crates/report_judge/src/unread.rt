//! Why a report isn't read.
ghost use Rattle.std.specs.Prelude.{◌≡◌, length};
ghost use Rattle.report_judge.specs.declared.unread.Unread.TheVariants.{OutOfMemory};

use crate::rules::Rule;
use std::alloc::{AllocError, AllocFailed};

/// Why reading stopped.
#[derive(Drop)]
pub(crate) enum Unread {
    /// The line that begins where so many bytes are left breaks this rule.
    Bad { left: usize, rule: Rule },
    /// Memory ran out.
    OutOfMemory,
}

impl Unread {
    /// The first line of the rest of a report breaks this rule.
    pub(crate) fn bad(rest: &[u8], rule: Rule) -> Unread
        ensures { result ≡ Unread.Bad (length rest.now) rule }
    {
        Unread::Bad {
            left: rest.len(),
            rule,
        }
    }
}

impl From<AllocError> for Unread {
    ghost from_gives = { λ _ e. e ≡ OutOfMemory };

    fn from(_e: AllocError) -> Unread {
        Unread::OutOfMemory
    }
}

impl<T: Drop> From<AllocFailed<T>> for Unread {
    ghost from_gives = { λ _ e. e ≡ OutOfMemory };

    fn from(_e: AllocFailed<T>) -> Unread {
        Unread::OutOfMemory
    }
}

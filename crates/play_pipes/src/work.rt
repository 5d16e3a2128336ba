//! What is done at a desk.
ghost use Rattle.std.specs.Prelude.{◌≡◌, [], ℕ, List, length, OnOk};
ghost use Rattle.std.specs.List.{All};
ghost use Rattle.play_pipes.specs.Calls.{Calls};

use crate::desk::Desk;
use crate::line::Line;
use journal_core::OutOfMemory;
use std::alloc::Global;
use std::sync::Wait;

/// What is done at a desk of lines.
pub trait Work<L: Line> {
    /// For how many nodes it is.
    ghost nodes: { Self → ℕ };

    /// The work before, the work after, and what each line listed in between.
    ghost ran: { Self → Self → List Calls → Type 0 };

    /// Does it, at a desk with a line for each node, whose lists are empty.
    fn run<R: Wait>(&mut self, rt: &R, alloc: Global, desk: &mut Desk<L>) -> Result<(), OutOfMemory>
        requires nodes { length desk.old.lists ≡ nodes self.old }
        requires empty { All (λ l. l ≡ []) desk.old.lists }
        ensures nodes { nodes self.new ≡ nodes self.old }
        ensures starts { OnOk result (desk.new.starts ≡ desk.old.starts) }
        ensures ran { OnOk result (ran self.old self.new desk.new.lists) };
}

//! What a disk has that holds a node's state.
ghost use Rattle.std.specs.Prelude.{◌≡◌, ◌+◌, ℕ, List, length, true, false, Some, None, IsSome};
ghost use Rattle.journal_core.specs.declared.segment.Segment.{Segment};
ghost use Rattle.journal_core.specs.declared.node_state.NodeState.{NodeState};
ghost use Rattle.journal_core.specs.Segments.{find_segment};
ghost use Rattle.journal_core.specs.Step.{fresh_state};
ghost use Rattle.disk_segment.specs.Seal.{IsBlank};
ghost use Rattle.disk_segment.specs.Names.{name_of, InProgress, Final, Record};
ghost use Rattle.disk_segment.specs.Effects.{AppendsAt};
ghost use Rattle.disk_files.specs.Durable.{HoldsState};

use base_disk::Disk;

/// A disk without files holds the state of a node before its first request.
pub fn empty_disk_is_fresh<D: Disk>(disk: &D)
    ensures { D.tells disk.now → ((name : List ℕ) → (D.view disk.now).seen name ≡ None)
        → HoldsState (D.view disk.now) fresh_state }
{
    let _ = disk;
}

/// The files that the effects on a segment ask for are there, and where a frame can be appended, a
/// seal stands blank.
pub fn files_are_there<D: Disk>(disk: &D)
    ensures in_progress { D.tells disk.now → (s : NodeState) (start : ℕ) (g : Segment) → HoldsState (D.view disk.now) s → find_segment start s.segments ≡ Some g
        → g.is_final ≡ false → IsSome ((D.view disk.now).seen (name_of start InProgress)) }
    ensures final_ { D.tells disk.now → (s : NodeState) (start : ℕ) (g : Segment) (end : ℕ) → HoldsState (D.view disk.now) s → find_segment start s.segments ≡ Some g
        → g.is_final ≡ true → end + 1 ≡ start + length g.bodies → IsSome ((D.view disk.now).seen (name_of start (Final end))) }
    ensures record_ { D.tells disk.now → (s : NodeState) (start : ℕ) (g : Segment) → HoldsState (D.view disk.now) s → find_segment start s.segments ≡ Some g
        → g.accepted ≡ true → IsSome ((D.view disk.now).seen (name_of start Record)) }
    ensures seal { D.tells disk.now → (g : Segment) (at : ℕ) → AppendsAt (D.view disk.now) g at
        → IsBlank at ((D.view disk.now).seen (name_of g.start InProgress)) }
{
    let _ = disk;
}

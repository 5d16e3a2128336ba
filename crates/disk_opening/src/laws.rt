//! A law of the files of segments.
ghost use Rattle.std.specs.Prelude.{List};
ghost use Rattle.journal_core.specs.declared.segment.Segment.{Segment};
ghost use Rattle.disk_segment.specs.Stands.{StandsFor};
ghost use Rattle.disk_segment.specs.Effects.{IsTidy, IsReady};
ghost use Rattle.disk_opening.specs.Opening.{SegmentsStable};

use base_disk::Disk;

/// Where each file of a segment that counts is stable, each crash leaves files that stand for the
/// segments that the files that are read stand for.
pub fn stable_files_stand<D: Disk>(_disk: &D)
    ensures { (gs : List Segment) → SegmentsStable (D.view _disk.now)
        → IsTidy (D.view _disk.now).seen → StandsFor (D.view _disk.now).seen gs
        → IsReady (D.view _disk.now) gs }
{}

//! The segment that a prepare answer tells.
ghost use Rattle.std.specs.Prelude.{◌≡◌, IfOk, None, Some};

use crate::OutOfMemory;
use crate::segment_info::SegmentInfo;
use std::alloc::Global;
use std::marker::Model;

/// A segment's state behind a pointer, or none. Contracts see it as an option. It is let go by one
/// call wherever it is, which keeps proofs short.
pub struct ToldSegment {
    info: Option<Box<SegmentInfo>>,
}

impl Drop for ToldSegment {
    fn drop(self) {
        let ToldSegment { info } = self;
        drop(info);
    }
}

impl Model for ToldSegment {
    ghost use Rattle.std.specs.Prelude.{Option};
    ghost use Rattle.journal_core.specs.declared.segment_info.SegmentInfo.{SegmentInfo};
    ghost use Rattle.std.specs.Prelude.{option_map};

    ghost Value = { Option SegmentInfo };

    ghost view = { λ t. option_map (λ b. b.value) t.info };
}

impl ToldSegment {
    /// No segment.
    pub fn none() -> ToldSegment
        ensures { result ≡ None }
    {
        ToldSegment { info: None }
    }

    /// That segment.
    pub fn of(alloc: Global, info: SegmentInfo) -> Result<ToldSegment, OutOfMemory>
        ensures { IfOk result (λ t. t ≡ Some info) }
    {
        let info = Box::new(alloc, info)?;
        Ok(ToldSegment { info: Some(info) })
    }

    /// The segment, if one is told.
    pub fn get(&self) -> Option<SegmentInfo>
        ensures { result ≡ self.now }
    {
        match &self.info {
            Some(info) => Some(**info),
            None => None,
        }
    }

    /// A copy of what is told of a segment. `OutOfMemory` where there is no room.
    pub fn share(&self, alloc: Global) -> Result<ToldSegment, OutOfMemory>
        ensures { IfOk result (λ t. t ≡ self.now) }
    {
        match self.get() {
            Some(info) => ToldSegment::of(alloc, info),
            None => Ok(ToldSegment::none()),
        }
    }
}

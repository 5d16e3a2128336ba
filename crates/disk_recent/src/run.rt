//! Entries side by side.
ghost use Rattle.std.specs.Prelude.{◌≡◌, ◌+◌, ◌-◌, ◌^◌, ◌<◌, ◌≤◌};

/// Stored entries side by side: where the first begins, how many bytes they take and how many they
/// are.
#[derive(Clone, Copy)]
pub(crate) struct Run {
    pub(crate) begin: usize,
    pub(crate) size: usize,
    pub(crate) count: usize,
}

/// The run of no entries that begins at the first place.
pub(crate) const NONE: Run = Run {
    begin: 0,
    size: 0,
    count: 0,
};

impl Run {
    ghost use Rattle.disk_recent.specs.declared.run.Run.{Run};

    /// The place after the last entry.
    pub(crate) fn end(self) -> usize
        requires { self.begin + self.size < 2 ^ 64 }
        ensures { result ≡ self.begin + self.size }
    {
        self.begin + self.size
    }

    /// The run without its first entry, which takes so many bytes.
    pub(crate) fn without_first(self, size: usize) -> Run
        requires size { size ≤ self.size }
        requires some { 0 < self.count }
        requires within { self.begin + self.size < 2 ^ 64 }
        ensures begin { result.begin ≡ self.begin + size }
        ensures size { result.size ≡ self.size - size }
        ensures count { result.count ≡ self.count - 1 }
    {
        Run {
            begin: self.begin + size,
            size: self.size - size,
            count: self.count - 1,
        }
    }
}

//! Laws of checks.
ghost use Rattle.list_fsck.specs.Reports.{FoldersHaveOneReport};

/// A folder has one report.
pub fn folders_have_one_report()
    ensures { FoldersHaveOneReport }
{}

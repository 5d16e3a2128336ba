//! The laws of what a name node is given.
ghost use Rattle.pipe_lead.specs.Widths.{EditsFit};

/// The bodies of edits take no more than ten bytes in an acceptance for each byte of the text that
/// says them: so what is counted of a line of edits is enough.
pub fn edits_fit()
    ensures { EditsFit }
{}

//! The words of the tools that list a file.
ghost use Rattle.std.specs.Prelude.{◌≡◌, false, MatchOption};
ghost use Rattle.cli_commands.specs.Commands.{segment_word, image_word};
ghost use Rattle.cli_commands.specs.Usage.{is_oev, is_oiv};

use crate::tool::{ImageTool, SegmentTool};

/// The tool that has this word after `oev`.
pub fn segment_tool_of(word: &str) -> Option<SegmentTool>
    ensures { MatchOption result (is_oev word.now ≡ false) (λ of. word.now ≡ segment_word of) }
{
    if word == "list" {
        Some(SegmentTool::List)
    } else if word == "stats" {
        Some(SegmentTool::Stats)
    } else if word == "json" {
        Some(SegmentTool::Json)
    } else {
        None
    }
}

/// The tool that has this word after `oiv`.
pub fn image_tool_of(word: &str) -> Option<ImageTool>
    ensures { MatchOption result (is_oiv word.now ≡ false) (λ of. word.now ≡ image_word of) }
{
    if word == "delimited" {
        Some(ImageTool::Delimited)
    } else if word == "sizes" {
        Some(ImageTool::Sizes)
    } else if word == "json" {
        Some(ImageTool::Json)
    } else {
        None
    }
}

//! What holds of every script and of every file.
ghost use Rattle.qj_cli.specs.Sound.{AreSound, ComeOf};
ghost use Rattle.qj_cli.specs.Report.{ScriptsHaveOneReport, ReportsShowNoFault};
ghost use Rattle.qj_cli.specs.Generates.{NumbersHaveOneSummary};
ghost use Rattle.qj_cli.specs.Boots.{ScriptsHaveOneBoot};
ghost use Rattle.qj_cli.specs.Mirrors.{ScriptsHaveOneMirror};
ghost use Rattle.cli_commands.specs.Listing.{FilesHaveOneListing, FilesHaveOneFault, ListedFilesHaveNoFault};

use play_boot::laws::tails_end_once;
use play_model::{a_mesh_that_agrees_shows_no_fault, one_script_has_one_play};
use play_script::text_is_of_one_script;

/// A script has one report, so it is too long or it isn't.
pub fn scripts_have_one_report()
    ensures { ScriptsHaveOneReport }
{
    text_is_of_one_script();
    one_script_has_one_play();
}

/// A script has one text of what a mirror of its play's nodes holds.
pub fn scripts_have_one_mirror()
    ensures { ScriptsHaveOneMirror }
{
    text_is_of_one_script();
    one_script_has_one_play();
}

/// A script has one text of what a fresh standby comes to over its play's nodes.
pub fn scripts_have_one_boot()
    ensures { ScriptsHaveOneBoot }
{
    text_is_of_one_script();
    one_script_has_one_play();
    tails_end_once();
}

/// A number gives one summary: the same on each run.
pub fn numbers_have_one_summary()
    ensures { NumbersHaveOneSummary }
{
    one_script_has_one_play();
}

/// No report, of a play in order or by threads, shows a fault of a disk, a lack of memory or a bad
/// file: no answer and nothing that a caller was told is one.
pub fn reports_show_no_fault()
    ensures in_order { ReportsShowNoFault ComeOf }
    ensures by_threads { ReportsShowNoFault AreSound }
{
    a_mesh_that_agrees_shows_no_fault();
}

/// A file has one listing by a tool, or else one fault.
pub fn files_have_one_listing()
    ensures listing { FilesHaveOneListing }
    ensures fault { FilesHaveOneFault }
    ensures one { ListedFilesHaveNoFault }
{}

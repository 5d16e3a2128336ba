//! What holds of all words, and of all sessions at one folder.
ghost use Rattle.std.specs.Prelude.{◌≡◌, ℕ, List, Option};
ghost use Rattle.journal_core.specs.Step.{restarted};
ghost use Rattle.journal_session.specs.declared.served.Served.{Served};
ghost use Rattle.cli_commands.specs.Serving.{IsNodeSession};
ghost use Rattle.cli_commands.specs.Uses.{done_to};
ghost use Rattle.cli_commands.specs.Words.{UsageIsOfFirstWrongWord};

use base_disk::Disk;

/// The place that is told of wrong words is the first at which they stop being those that a command
/// begins with.
pub fn usage_is_of_first_wrong_word()
    ensures { UsageIsOfFirstWrongWord }
{}

/// Sessions at one folder begin from one state, however they ended: its files fix what a node
/// answers from.
pub fn one_folder_one_state<D: Disk>(_disk: &D)
    ensures { (now later : D) (ended other : Served) (told asked : List ℕ) (left rest before held replied wrote : Option (List ℕ))
        → (x : IsNodeSession (done_to D.tells D.view D.faults D.steady D.left _disk.now now) ended told left before replied)
        → (y : IsNodeSession (done_to D.tells D.view D.faults D.steady D.left _disk.now later) other asked rest held wrote)
        → restarted x.state ≡ restarted y.state }
{}

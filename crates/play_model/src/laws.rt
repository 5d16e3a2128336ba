//! What holds of every play.
ghost use Rattle.play_model.specs.Laws.{LinesAgree, LinesFollow, PlaysAgree, PlaysFollow, LinesAreRuns, LinesKeepNodes, PlaysAreRuns, MeshesAreSafe, OnePlay, LocalRuns, LinesOneByOne, LineLater, LedIsMade, LedIsOfTasks, OneRecord, EachResult, EachNamedResult};
ghost use Rattle.play_model.specs.Faultless.{MeshesShowNoFault};
ghost use Rattle.play_model.specs.Scripts.{ScriptsArePlayable, ScriptNumbersFit};

/// A script of the grammar can be played: it has a node, its lines speak of declared writers and of
/// its nodes, and the program can hold its numbers.
pub fn scripts_are_playable()
    ensures lines { ScriptsArePlayable }
    ensures numbers { ScriptNumbersFit }
{}

/// The lists of all nodes and of all callers of a play agree.
pub fn a_play_agrees()
    ensures lines { LinesAgree }
    ensures script { PlaysAgree }
{}

/// Its nodes, its actors' records and plans, and the operator's record are the script's.
pub fn a_play_follows()
    ensures lines { LinesFollow }
    ensures script { PlaysFollow }
{}

/// The moving entries of a play, in script order, are a run of the journal world, with each node's
/// in its order.
pub fn a_play_is_a_run()
    ensures lines { LinesAreRuns }
    ensures nodes { LinesKeepNodes }
    ensures script { PlaysAreRuns }
{}

/// The moving entries of every mesh that agrees, in the order of the epochs, are safe, whatever the
/// actors' names are, where these hold nothing.
pub fn a_mesh_that_agrees_is_safe()
    ensures { MeshesAreSafe }
{}

/// No history and no record of a mesh that agrees shows a fault of a disk, a lack of memory or a
/// bad file.
pub fn a_mesh_that_agrees_shows_no_fault()
    ensures { MeshesShowNoFault }
{}

/// A script has one play.
pub fn one_script_has_one_play()
    ensures { OnePlay }
{}

/// Each node's history is what one node answers from its beginning on, also before the play has
/// ended.
pub fn histories_are_local_runs()
    ensures { LocalRuns }
{}

/// Lines that are handed to an actor together or one by one are the same.
pub fn lines_one_by_one()
    ensures together { LinesOneByOne }
    ensures later { LineLater }
{}

/// An actor's calls are those of its tasks and its tails, by the answers that it heard; without
/// names those of its tasks.
pub fn an_actor_does_its_tasks()
    ensures chores { LedIsMade }
    ensures tasks { LedIsOfTasks }
{}

/// What an actor's calls were told fixes its whole record.
pub fn answers_fix_the_record()
    ensures { OneRecord }
{}

/// Each edit of a log line has exactly one result line, and so has each takeover, roll, close and
/// purge. With names, of an actor that meets no bad entry, each edit that is submitted has one, and
/// so has each takeover, roll, close, trim, tail, save and reload.
pub fn each_edit_has_one_result()
    ensures raw { EachResult }
    ensures named { EachNamedResult }
{}

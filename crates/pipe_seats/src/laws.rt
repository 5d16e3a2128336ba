//! The laws of a cluster, and of a caller over pipes in it.
ghost use Rattle.pipe_seats.specs.Cluster.{ClustersAgree, ClustersAreSafe, FrontsAreMade};
ghost use Rattle.pipe_seats.specs.Carried.{PipesCarry};
ghost use Rattle.pipe_seats.specs.Lives.{LivesAreLocal};
ghost use Rattle.pipe_seats.specs.Piped.{LivesWent};
ghost use Rattle.pipe_seats.specs.Processes.{ProcessesAreClusters};
ghost use Rattle.pipe_seats.specs.Tags.{TagsCarry};
ghost use Rattle.pipe_seats.specs.Wires.{PipesGo};

/// Whatever nodes and name nodes stand at the ends of pipes that keep order and invent nothing,
/// their lists agree for some plan of losses.
pub fn a_cluster_agrees()
    ensures { ClustersAgree }
{}

/// So what moved the nodes, in the order of the epochs, is a run, and safe.
pub fn a_cluster_is_safe()
    ensures { ClustersAreSafe }
{}

/// What a life had done at any moment, as where it was killed, are calls of some tasks and tails,
/// too.
pub fn fronts_are_made()
    ensures { FrontsAreMade }
{}

/// The lives of a node over one folder, each from what the one before left, are one node's history,
/// with a stop or a kill and a restart at each death.
pub fn lives_are_local()
    ensures { LivesAreLocal }
{}

/// Where each node got some of a life's calls to it, in their order, each once and none else, and
/// what was heard is what was answered, the record, settled by what arrived, tells of each node
/// just what the node got.
pub fn pipes_carry()
    ensures { PipesCarry }
{}

/// Where what a node got of a life has rising numbers, each with a call that was written so, and each
/// reply that was heard was answered to its number, the node got some of the life's calls, in their
/// order, each once and none else.
pub fn tags_carry()
    ensures { TagsCarry }
{}

/// Nodes that live several lives over their folders, and name nodes whose calls are those of tasks
/// and tails, at the ends of pipes that keep order and invent nothing, are a cluster of those
/// histories and records.
pub fn processes_are_clusters()
    ensures { ProcessesAreClusters }
{}

/// What a caller over pipes lists, line by line, is what came to each node's pipe, and behind it came
/// at most the request that is under way.
pub fn pipes_go()
    ensures { PipesGo }
{}

/// In a life of a caller from its beginning, at whose end no request is left under way, to each
/// node's pipe came what the record says, one line after the other, and nothing else.
pub fn lives_went()
    ensures { LivesWent }
{}

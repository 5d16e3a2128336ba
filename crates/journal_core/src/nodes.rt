//! How many nodes a journal has.
ghost use Rattle.std.specs.Prelude.{◌≡◌, false, IfSome, MatchOption};
ghost use Rattle.base_words.specs.WordNumbers.{is_number, Tells};
ghost use Rattle.journal_core.specs.Nodes.{most_nodes, PermittedNodes};

use base_words::number_of;

/// The most nodes of a journal.
pub const MOST_NODES: u64 = 15;

/// The permitted number of nodes that a word tells: 1 to 15, in decimal without a leading zero;
/// `None` for every other word.
pub fn permitted_nodes(word: &[u8]) -> Option<u64>
    ensures told { MatchOption result (is_number 1 most_nodes word.now ≡ false) (Tells 1 most_nodes word.now) }
    ensures permitted { IfSome result PermittedNodes }
{
    number_of(word, 1, MOST_NODES)
}

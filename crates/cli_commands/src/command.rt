//! The commands, read from the words.
ghost use Rattle.std.specs.Prelude.{◌≡◌, [], ◌∷◌, false, Some, codes, MatchOption, MatchResult};
ghost use Rattle.cli_commands.specs.Commands.{is_from_root, asked_in, AskFor};
ghost use Rattle.cli_commands.specs.Usage.{bytes_of, is_alone, is_oev, is_oiv, after_one, after_tool, after_program, after_back, after_oev, after_ls, after_oiv, after_gen, usage_of, asks_piped};

use crate::tool::Tool;
use crate::tool_words::{image_tool_of, segment_tool_of};
use base_words::number_of;
use journal_core::permitted_nodes;

/// The greatest number of a command.
const GREATEST: u64 = 4_611_686_018_427_387_904;

/// The most edits of a generated script.
const MOST_EDITS: u64 = 10_000;

/// What the program is asked to do.
#[derive(Clone, Copy)]
pub enum Command<'a> {
    /// To play the script that the source gives, all lines in order.
    Play,
    /// To play it by threads.
    Run,
    /// To play it by threads whose calls go through pipes.
    Piped,
    /// To play it in order, and to mirror the final segments of its nodes.
    Mirror,
    /// To play it in order, and to boot a fresh standby over its nodes.
    Boot,
    /// To serve a node, whose files are on the disk.
    Node,
    /// To check the disk's files.
    Fsck,
    /// To judge the report that the source gives.
    Judge,
    /// To tell the states of the report that the source gives.
    States,
    /// To play the script that a number gives, with so many edits over so many nodes.
    Gen { number: u64, edits: u64, nodes: u64 },
    /// To write what a tool makes of a file of the disk.
    Listing { tool: Tool<'a>, name: &'a str },
}

/// The command that has this word alone.
fn command_of<'a>(word: &str) -> Option<Command<'a>>
    ensures { MatchOption result (is_alone word.now ≡ false) (λ c. AskFor (word.now ∷ []) (asked_in c)) }
{
    if word == "play" {
        Some(Command::Play)
    } else if word == "run" {
        Some(Command::Run)
    } else if word == "piped" {
        Some(Command::Piped)
    } else if word == "mirror" {
        Some(Command::Mirror)
    } else if word == "boot" {
        Some(Command::Boot)
    } else if word == "node" {
        Some(Command::Node)
    } else if word == "fsck" {
        Some(Command::Fsck)
    } else if word == "judge" {
        Some(Command::Judge)
    } else if word == "states" {
        Some(Command::States)
    } else {
        None
    }
}

/// That no word stands here; or the place of the first, which is 1.
fn no_word(words: &[String]) -> Result<(), u64>
    ensures { MatchResult result (λ _. bytes_of words.now ≡ []) (λ place. after_one (bytes_of words.now) ≡ Some place) }
{
    if words.is_empty() { Ok(()) } else { Err(1) }
}

/// The one word that stands here, which may be any; or the place at which it is missing, or another
/// one stands.
fn one_name(words: &[String]) -> Result<&str, u64>
    ensures { MatchResult result (λ name. bytes_of words.now ≡ name.now ∷ []) (λ place. after_tool (bytes_of words.now) ≡ Some place) }
{
    let Some((name, others)) = words.split_first() else {
        return Err(2);
    };
    if others.is_empty() {
        Ok(name.as_str())
    } else {
        Err(3)
    }
}

/// The segment of a listing that the words after `oev back` ask for; or the place of the first
/// wrong word.
#[tactic(auto, using(crate::proofs::BackLaws::asks), unfolding(crate::specs::Usage::after_back))]
fn read_back(words: &[String]) -> Result<Command<'_>, u64>
    ensures { MatchResult result (λ c. AskFor (codes "oev" ∷ codes "back" ∷ bytes_of words.now) (asked_in c)) (λ place. after_back (bytes_of words.now) ≡ Some place) }
{
    let Some((name, others)) = words.split_first() else {
        return Err(2);
    };
    let Some((first, others)) = others.split_first() else {
        return Err(3);
    };
    let Some(start) = number_of(first.as_bytes(), 1, GREATEST) else {
        return Err(3);
    };
    let Some((second, others)) = others.split_first() else {
        return Err(4);
    };
    let Some(epoch) = number_of(second.as_bytes(), 1, GREATEST) else {
        return Err(4);
    };
    if !others.is_empty() {
        return Err(5);
    }
    Ok(Command::Listing {
        tool: Tool::Back { start, epoch },
        name: name.as_str(),
    })
}

/// What is to be made of a segment's file, or of a listing, that the words after `oev` ask for; or
/// the place of the first wrong word.
#[tactic(auto, unfolding(crate::specs::Usage::after_oev, crate::specs::Usage::after_program))]
fn read_oev(words: &[String]) -> Result<Command<'_>, u64>
    ensures { MatchResult result (λ c. AskFor (codes "oev" ∷ bytes_of words.now) (asked_in c)) (λ place. after_oev (bytes_of words.now) ≡ Some place) }
{
    let Some((word, names)) = words.split_first() else {
        return Err(1);
    };
    if word.as_str() == "back" {
        return read_back(names);
    }
    let Some(of) = segment_tool_of(word.as_str()) else {
        return Err(1);
    };
    match one_name(names) {
        Ok(name) => Ok(Command::Listing {
            tool: Tool::Oev(of),
            name,
        }),
        Err(place) => Err(place),
    }
}

/// Whether a text begins with `/`.
fn is_from_root(path: &str) -> bool
    ensures { result ≡ is_from_root path.now }
{
    match path.as_bytes() {
        [first, ..] => *first == b'/',
        [] => false,
    }
}

/// The path of an image that the words after `oiv ls` ask for; or the place of the first wrong
/// word.
#[tactic(auto, using(crate::proofs::LsLaws::asks), unfolding(crate::specs::Usage::after_ls))]
fn read_ls(words: &[String]) -> Result<Command<'_>, u64>
    ensures { MatchResult result (λ c. AskFor (codes "oiv" ∷ codes "ls" ∷ bytes_of words.now) (asked_in c)) (λ place. after_ls (bytes_of words.now) ≡ Some place) }
{
    let Some((name, others)) = words.split_first() else {
        return Err(2);
    };
    let Some((path, others)) = others.split_first() else {
        return Err(3);
    };
    if !is_from_root(path.as_str()) {
        return Err(3);
    }
    if !others.is_empty() {
        return Err(4);
    }
    Ok(Command::Listing {
        tool: Tool::Ls {
            path: path.as_str(),
        },
        name: name.as_str(),
    })
}

/// The listing of an image that the words after `oiv` ask for; or the place of the first wrong
/// word.
#[tactic(auto, unfolding(crate::specs::Usage::after_oiv, crate::specs::Usage::after_program))]
fn read_oiv(words: &[String]) -> Result<Command<'_>, u64>
    ensures { MatchResult result (λ c. AskFor (codes "oiv" ∷ bytes_of words.now) (asked_in c)) (λ place. after_oiv (bytes_of words.now) ≡ Some place) }
{
    let Some((word, names)) = words.split_first() else {
        return Err(1);
    };
    if word.as_str() == "ls" {
        return read_ls(names);
    }
    let Some(of) = image_tool_of(word.as_str()) else {
        return Err(1);
    };
    match one_name(names) {
        Ok(name) => Ok(Command::Listing {
            tool: Tool::Oiv(of),
            name,
        }),
        Err(place) => Err(place),
    }
}

/// The play of a generated script that the words after `gen` ask for; or the place of the first
/// wrong word.
#[tactic(auto, using(crate::proofs::GenLaws::asks), unfolding(crate::specs::Usage::after_gen))]
fn read_gen(words: &[String]) -> Result<Command<'_>, u64>
    ensures { MatchResult result (λ c. AskFor (codes "gen" ∷ bytes_of words.now) (asked_in c)) (λ place. after_gen (bytes_of words.now) ≡ Some place) }
{
    let Some((first, others)) = words.split_first() else {
        return Err(1);
    };
    let Some(number) = number_of(first.as_bytes(), 0, GREATEST) else {
        return Err(1);
    };
    let Some((second, others)) = others.split_first() else {
        return Err(2);
    };
    let Some(edits) = number_of(second.as_bytes(), 0, MOST_EDITS) else {
        return Err(2);
    };
    let Some((third, others)) = others.split_first() else {
        return Err(3);
    };
    let Some(nodes) = permitted_nodes(third.as_bytes()) else {
        return Err(3);
    };
    if !others.is_empty() {
        return Err(4);
    }
    Ok(Command::Gen {
        number,
        edits,
        nodes,
    })
}

/// The command that the words ask for; or the place, from 0, of the first that is missing or wrong.
#[tactic(auto, unfolding(crate::specs::Usage::usage_of))]
pub fn read_command(words: &[String]) -> Result<Command<'_>, u64>
    ensures { MatchResult result (λ c. AskFor (bytes_of words.now) (asked_in c)) (λ place. usage_of (bytes_of words.now) ≡ Some place) }
{
    let Some((first, others)) = words.split_first() else {
        return Err(0);
    };
    if first.as_str() == "oev" {
        return read_oev(others);
    }
    if first.as_str() == "oiv" {
        return read_oiv(others);
    }
    if first.as_str() == "gen" {
        return read_gen(others);
    }
    let Some(command) = command_of(first.as_str()) else {
        return Err(0);
    };
    match no_word(others) {
        Ok(()) => Ok(command),
        Err(place) => Err(place),
    }
}

/// Whether the words ask for a script to be played by threads whose calls go through pipes.
#[tactic(auto, unfolding(crate::specs::Usage::asks_piped))]
pub fn asks_piped(words: &[String]) -> bool
    ensures { result ≡ asks_piped (bytes_of words.now) }
{
    match words {
        [word] => word.as_str() == "piped",
        _ => false,
    }
}

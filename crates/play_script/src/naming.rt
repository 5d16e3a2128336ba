//! Scripts with names alone.
ghost use Rattle.std.specs.Prelude.{◌≡◌};
ghost use Rattle.play_script.specs.Naming.{raw_line_of, OthersHaveNames};

use crate::lines::{is_line, is_silent, split_line};
use crate::reading::nodes_of;

/// The number, from 1, of the line that begins a script without names, where none before it breaks
/// a rule.
#[tactic(auto, using(crate::proofs::NamingLaws::raw_lines))]
pub fn raw_line(bytes: &[u8]) -> Option<u64>
    ensures { result ≡ raw_line_of bytes.now }
{
    let mut number: u64 = 1;
    let mut rest = bytes;
    while let Some((line, others)) = split_line(rest) {
        if !is_line(line) {
            return None;
        }
        if !is_silent(line) {
            return match nodes_of(false, line) {
                Some(_) => Some(number),
                None => None,
            };
        }
        number += 1;
        rest = others;
    }
    None
}

/// A script that no such line begins has names.
pub fn others_have_names()
    ensures { OthersHaveNames }
{}

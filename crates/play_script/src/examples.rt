//! Scripts and texts, worked out at check time.
ghost use Rattle.std.specs.Prelude.{◌≡◌, ◌∷◌, [], Some, None, codes, true};
ghost use Rattle.std.specs.List.{list_all};
ghost use Rattle.play_script.specs.Lines.{ended, lines_of, is_whole};
ghost use Rattle.play_script.specs.Grammar.{script_lines, lines_that_say};
ghost use Rattle.play_script.specs.Rules.{fault_of};
ghost use Rattle.play_script.specs.Examples.{one_writer, one_writer_lines, commented_lines, every_kind, every_kind_lines, after_two, after_eight, cut_off, every_names_kind, every_names_kind_lines, after_two_names};

/// The first script: its lines, and that it breaks no rule.
pub fn one_writer_logs()
    ensures lines { script_lines one_writer ≡ one_writer_lines }
    ensures fault { fault_of (ended one_writer_lines) ≡ None }
    ensures says { lines_that_say (lines_of (ended one_writer_lines)) ≡ one_writer_lines }
{}

/// The first script with comments and empty lines: it breaks no rule, and says what it says without
/// them.
pub fn comments_say_nothing()
    ensures fault { fault_of (ended commented_lines) ≡ None }
    ensures whole { list_all is_whole (lines_of (ended commented_lines)) ≡ true }
    ensures says { lines_that_say (lines_of (ended commented_lines)) ≡ one_writer_lines }
{}

/// A line of each kind: their text, and that it breaks no rule.
pub fn every_kind_is_spelled()
    ensures lines { script_lines every_kind ≡ every_kind_lines }
    ensures fault { fault_of (ended every_kind_lines) ≡ None }
    ensures says { lines_that_say (lines_of (ended every_kind_lines)) ≡ every_kind_lines }
{}

/// The first line that says something, and the bytes of lines: rules 1 and 10.
pub fn first_lines_are_told()
    ensures empty { fault_of [] ≡ Some (1, 1) }
    ensures silent { fault_of (ended (codes "# nothing" ∷ [] ∷ [])) ≡ Some (1, 1) }
    ensures none_declared { fault_of (ended (codes "raw 3" ∷ [])) ≡ None }
    ensures most_nodes { fault_of (ended (codes "raw 15" ∷ [])) ≡ None }
    ensures too_many_nodes { fault_of (ended (codes "raw 16" ∷ [])) ≡ Some (1, 1) }
    ensures leading_zero { fault_of (ended (codes "raw 03" ∷ [])) ≡ Some (1, 1) }
    ensures names_script { fault_of (ended (codes "names 3" ∷ [])) ≡ None }
    ensures most_names_nodes { fault_of (ended (codes "names 15" ∷ [])) ≡ None }
    ensures too_many_names_nodes { fault_of (ended (codes "names 16" ∷ [])) ≡ Some (1, 1) }
    ensures one_name { fault_of (ended (codes "name 3" ∷ [])) ≡ Some (1, 1) }
    ensures after_comments { fault_of (ended (codes "#" ∷ codes "kill 1" ∷ [])) ≡ Some (2, 1) }
    ensures not_ended { fault_of (cut_off (codes "raw 3" ∷ codes "writer a" ∷ []) (codes "takeo")) ≡ Some (3, 10) }
    ensures tabulator { fault_of (ended (codes "# a" ∷ (35 ∷ 9 ∷ []) ∷ [])) ≡ Some (2, 10) }
{}

/// First words and numbers of words: rules 2 and 3.
pub fn words_are_told()
    ensures unknown_word { fault_of (after_two (codes "foo" ∷ [])) ≡ Some (4, 2) }
    ensures raw_again { fault_of (after_two (codes "raw 3" ∷ [])) ≡ Some (4, 2) }
    ensures names_again { fault_of (after_two (codes "names 3" ∷ [])) ≡ Some (4, 2) }
    ensures spaces_alone { fault_of (after_two (codes "  " ∷ [])) ≡ Some (4, 2) }
    ensures leading_space { fault_of (after_two (codes " takeover a" ∷ [])) ≡ Some (4, 3) }
    ensures double_space { fault_of (after_two (codes "drop a  1 1" ∷ [])) ≡ Some (4, 3) }
    ensures trailing_space { fault_of (after_two (codes "kill 1 " ∷ [])) ≡ Some (4, 3) }
    ensures no_body { fault_of (after_two (codes "log a" ∷ [])) ≡ Some (4, 3) }
    ensures no_effects { fault_of (after_two (codes "stop 1 1" ∷ [])) ≡ Some (4, 3) }
    ensures no_choice { fault_of (after_two (codes "cut 1 1 1" ∷ [])) ≡ Some (4, 3) }
    ensures count_first { fault_of (after_two (codes "purge c" ∷ [])) ≡ Some (4, 3) }
{}

/// Names that are declared, and names of actors: rules 4, 11, 6 and 5.
pub fn actors_are_told()
    ensures operator { fault_of (after_two (codes "writer ops" ∷ [])) ≡ Some (4, 4) }
    ensures capital { fault_of (after_two (codes "writer A" ∷ [])) ≡ Some (4, 4) }
    ensures eight { fault_of (after_eight (codes "takeover h" ∷ [])) ≡ None }
    ensures ninth { fault_of (after_eight (codes "writer i" ∷ [])) ≡ Some (10, 11) }
    ensures bad_ninth { fault_of (after_eight (codes "writer I" ∷ [])) ≡ Some (10, 4) }
    ensures ninth_again { fault_of (after_eight (codes "writer a" ∷ [])) ≡ Some (10, 11) }
    ensures declared_again { fault_of (after_two (codes "writer b" ∷ [])) ≡ Some (4, 6) }
    ensures taken_over { fault_of (after_two (codes "takeover b" ∷ codes "takeover a" ∷ codes "takeover b" ∷ [])) ≡ None }
    ensures not_declared { fault_of (after_two (codes "roll c" ∷ [])) ≡ Some (4, 5) }
    ensures nobody_purges { fault_of (after_two (codes "purge c x" ∷ [])) ≡ Some (4, 5) }
{}

/// Numbers, nodes and bodies: rules 7 and 8.
pub fn numbers_are_told()
    ensures no_node { fault_of (after_two (codes "drop a 4 x" ∷ [])) ≡ Some (4, 7) }
    ensures last_node { fault_of (after_two (codes "drop a 3 1" ∷ [])) ≡ None }
    ensures no_call { fault_of (after_two (codes "mute a 3 0" ∷ [])) ≡ Some (4, 7) }
    ensures node_zero { fault_of (after_two (codes "late a 0 1" ∷ [])) ≡ Some (4, 7) }
    ensures purge_of_none { fault_of (after_two (codes "purge a 0" ∷ [])) ≡ None }
    ensures greatest { fault_of (after_two (codes "purge a 4611686018427387904" ∷ [])) ≡ None }
    ensures too_great { fault_of (after_two (codes "purge a 4611686018427387905" ∷ [])) ≡ Some (4, 7) }
    ensures leading_zero { fault_of (after_two (codes "purge a 01" ∷ [])) ≡ Some (4, 7) }
    ensures no_digit { fault_of (after_two (codes "kill a" ∷ [])) ≡ Some (4, 7) }
    ensures up_again { fault_of (after_two (codes "restart 4" ∷ [])) ≡ Some (4, 7) }
    ensures no_effect { fault_of (after_two (codes "stop 1 1 0" ∷ [])) ≡ None }
    ensures stop_at_none { fault_of (after_two (codes "stop 1 0 1" ∷ [])) ≡ Some (4, 7) }
    ensures cut_at_once { fault_of (after_two (codes "cut 1 1 0 old" ∷ codes "cut 1 1 1 new" ∷ [])) ≡ None }
    ensures cut_at_none { fault_of (after_two (codes "cut 1 0 1 old" ∷ [])) ≡ Some (4, 7) }
    ensures bad_choice { fault_of (after_two (codes "cut 1 1 1 A5" ∷ [])) ≡ Some (4, 7) }
    ensures odd_digits { fault_of (after_two (codes "log a 0" ∷ [])) ≡ Some (4, 8) }
    ensures capital_digits { fault_of (after_two (codes "log a 0a 0A" ∷ [])) ≡ Some (4, 8) }
    ensures nobody_logs { fault_of (after_two (codes "log c 0A" ∷ [])) ≡ Some (4, 5) }
{}

/// A line of each kind with namespaces: their text, and that it breaks no rule.
pub fn namespaces_are_spelled()
    ensures lines { script_lines every_names_kind ≡ every_names_kind_lines }
    ensures fault { fault_of (ended every_names_kind_lines) ≡ None }
    ensures says { lines_that_say (lines_of (ended every_names_kind_lines)) ≡ every_names_kind_lines }
{}

/// Scripts with namespaces and without: their kinds of line, and edits: rules 2, 3, 5, 7 and 9.
pub fn names_are_told()
    ensures writer { fault_of (after_two_names (codes "writer c" ∷ [])) ≡ Some (4, 2) }
    ensures name { fault_of (after_two (codes "name c" ∷ [])) ≡ Some (4, 2) }
    ensures purge { fault_of (after_two_names (codes "purge a 3" ∷ [])) ≡ Some (4, 2) }
    ensures trim { fault_of (after_two (codes "trim a 3" ∷ [])) ≡ Some (4, 2) }
    ensures tail { fault_of (after_two (codes "tail a" ∷ [])) ≡ Some (4, 2) }
    ensures checkpoint { fault_of (after_two (codes "checkpoint a" ∷ [])) ≡ Some (4, 2) }
    ensures reload { fault_of (after_two (codes "reload a" ∷ [])) ≡ Some (4, 2) }
    ensures both { fault_of (after_two_names (codes "close a" ∷ codes "late b 1 1" ∷ codes "cut 1 1 0 old" ∷ [])) ≡ None }
    ensures no_edit { fault_of (after_two_names (codes "log a" ∷ [])) ≡ Some (4, 3) }
    ensures nobody_tails { fault_of (after_two_names (codes "tail c" ∷ [])) ≡ Some (4, 5) }
    ensures nobody_submits { fault_of (after_two_names (codes "log c ;" ∷ [])) ≡ Some (4, 5) }
    ensures no_number { fault_of (after_two_names (codes "trim a b" ∷ [])) ≡ Some (4, 7) }
    ensures separator_alone { fault_of (after_two_names (codes "log a ;" ∷ [])) ≡ Some (4, 9) }
    ensures separator_last { fault_of (after_two_names (codes "log a delete /u 1 ;" ∷ [])) ≡ Some (4, 9) }
    ensures separator_inside { fault_of (after_two_names (codes "log a delete ; 1" ∷ [])) ≡ Some (4, 9) }
    ensures two_edits { fault_of (after_two_names (codes "log a delete /u 1 ; delete /u; 2" ∷ [])) ≡ None }
    ensures no_verb { fault_of (after_two_names (codes "log a 0a" ∷ [])) ≡ Some (4, 9) }
    ensures word_missing { fault_of (after_two_names (codes "log a delete /u" ∷ [])) ≡ Some (4, 9) }
    ensures word_more { fault_of (after_two_names (codes "log a delete /u 1 2" ∷ [])) ≡ Some (4, 9) }
    ensures no_lengths { fault_of (after_two_names (codes "log a close /u 1 2 ; concat /u 1" ∷ [])) ≡ None }
    ensures octal { fault_of (after_two_names (codes "log a chmod /u 7777" ∷ [])) ≡ None }
    ensures five_octal { fault_of (after_two_names (codes "log a chmod /u 10000" ∷ [])) ≡ Some (4, 9) }
    ensures called_twice { fault_of (after_two_names (codes "log a call 000000000000000000000000000000aa 7 call 000000000000000000000000000000aa 8 delete /u 1" ∷ [])) ≡ Some (4, 9) }
    ensures short_client { fault_of (after_two_names (codes "log a call aa 7 delete /u 1" ∷ [])) ≡ Some (4, 9) }
{}

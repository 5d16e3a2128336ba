//! The names of the files of a segment.
ghost use Rattle.std.specs.Prelude.{◌≡◌, ◌≤◌, ◌+◌, ◌^◌, ◌++◌, length};
ghost use Rattle.arrayvec.specs.ArrayString.{array_string_len};
ghost use Rattle.base_words.specs.Padded.{padded};
ghost use Rattle.disk_segment.specs.Names.{Kind, name_of, kind_of, InProgress, Final, UnderWay, Fresh};

use base_files::{FileName, push_padded};

// A front and the start.
fn front_name(front: &str, start: u64) -> FileName
    requires short { length front.now ≤ 17 }
    requires start { start ≤ 2 ^ 62 }
    ensures name { result.bytes ≡ front.now ++ padded 19 start }
    ensures len { array_string_len result ≤ 36 }
{
    let mut name = FileName::new();
    name.push_str(front);
    push_padded(&mut name, start);
    name
}

/// The name of a segment in progress, by its start.
#[tactic(auto, using(std::proofs::lemmas::Grind::common_steps), unfolding(crate::specs::Names::name_of))]
pub fn progress_name(start: u64) -> FileName
    requires { start ≤ 2 ^ 62 }
    ensures { result.bytes ≡ name_of start InProgress }
{
    front_name("edits_inprogress_", start)
}

/// The name of a final segment, by its first and its last txid.
#[tactic(auto, using(std::proofs::lemmas::Grind::common_steps), unfolding(crate::specs::Names::name_of))]
pub fn final_name(start: u64, end: u64) -> FileName
    requires start { start ≤ 2 ^ 62 }
    requires end { end ≤ 2 ^ 62 }
    ensures { result.bytes ≡ name_of start (Final end) }
{
    let mut name = front_name("edits_", start);
    name.push_str("-");
    push_padded(&mut name, end);
    name
}

/// The name of the content of an acceptance that is under way under this epoch.
#[tactic(auto, using(std::proofs::lemmas::Grind::common_steps), unfolding(crate::specs::Names::name_of))]
pub fn under_way_name(start: u64, epoch: u64) -> FileName
    requires { start ≤ 2 ^ 62 }
    ensures { result.bytes ≡ name_of start (UnderWay epoch) }
{
    let mut digits = itoa::Buffer::new();
    let mut name = front_name("edits_inprogress_", start);
    name.push_str(".epoch=");
    name.push_str(digits.format(epoch));
    name
}

/// The name of the temporary file of a new content.
#[tactic(auto, using(std::proofs::lemmas::Grind::common_steps), unfolding(crate::specs::Names::name_of))]
pub fn fresh_name(start: u64) -> FileName
    requires { start ≤ 2 ^ 62 }
    ensures { result.bytes ≡ name_of start Fresh }
{
    let mut name = front_name("edits_inprogress_", start);
    name.push_str(".new");
    name
}

/// The name of a final segment, or of one in progress.
pub fn kind_name(start: u64, end: u64, is_final: bool) -> FileName
    requires start { start ≤ 2 ^ 62 }
    requires end { end ≤ 2 ^ 62 }
    ensures { result.bytes ≡ name_of start (kind_of end is_final) }
{
    if is_final {
        final_name(start, end)
    } else {
        progress_name(start)
    }
}

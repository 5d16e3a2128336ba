//! The names of small files, and their parts.
ghost use Rattle.std.specs.Prelude.{◌≡◌, ◌≤◌, ◌+◌, ◌^◌, ◌++◌};
ghost use Rattle.arrayvec.specs.ArrayString.{array_string_len};
ghost use Rattle.base_words.specs.Padded.{padded};
ghost use Rattle.base_files.specs.Records.{paxos_name as name_of};

use arrayvec::ArrayString;
use base_words::print19;

/// The name of a file, of at most 64 bytes, in no memory of the heap.
pub type FileName = ArrayString<64>;

/// Adds a number of at most 2^62 to a name that has room for it, as 19 digits.
pub fn push_padded(name: &mut FileName, value: u64)
    requires value { value ≤ 2 ^ 62 }
    requires room { array_string_len name.old + 19 ≤ 64 }
    ensures bytes { name.new.bytes ≡ name.old.bytes ++ padded 19 value }
    ensures len { array_string_len name.new ≡ array_string_len name.old + 19 }
{
    let mut digits = [0; 19];
    print19(value, &mut digits);
    match str::from_utf8(&digits) {
        Ok(text) => name.push_str(text),
        Err(_) => unreachable!(),
    }
}

/// The name of the paxos record of the segment with this start, a txid of at most 2^62.
pub fn paxos_name(start: u64) -> FileName
    requires { start ≤ 2 ^ 62 }
    ensures name { result.bytes ≡ name_of start }
    ensures len { array_string_len result ≡ 25 }
{
    let mut name = FileName::new();
    name.push_str("paxos/");
    push_padded(&mut name, start);
    name
}

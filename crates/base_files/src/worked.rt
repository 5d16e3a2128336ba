//! Worked examples of the bytes of small files, computed when the crate is checked.
ghost use Rattle.std.specs.Prelude.{◌≡◌, codes, ◌++◌, ◌∷◌, []};
ghost use Rattle.base_files.specs.Records.{number_bytes, record_bytes, paxos_name};
ghost use Rattle.base_files.specs.Puts.{temporary};

/// The file of the number 7.
pub fn number_file_of_seven()
    ensures { number_bytes 7 ≡ codes "0000000000000000007" ++ 10 ∷ [] }
{}

/// The record of an acceptance under epoch 2 with the end 301.
pub fn record_of_an_acceptance()
    ensures { record_bytes (record { epoch = 2; end = 301 }) ≡ codes "0000000000000000002 0000000000000000301" ++ 10 ∷ [] }
{}

/// The names of the record of the segment from txid 1, and of the temporary file that it is put by.
pub fn names_of_a_record()
    ensures name { paxos_name 1 ≡ codes "paxos/0000000000000000001" }
    ensures temporary { temporary (paxos_name 1) ≡ codes "paxos/0000000000000000001.tmp" }
{}

//! The files of images are told by their names.
ghost use Rattle.std.specs.Prelude.{◌≡◌, ◌≢◌, ◌≤◌, ◌^◌, ◌++◌, ℕ, List, MatchOption, codes};
ghost use Rattle.base_words.specs.Padded.{padded};

use base_words::read19;

// The bytes before the rest of a name, if it ends so.
fn before<'a>(bytes: &'a [u8], rest: &[u8]) -> Option<&'a [u8]>
    ensures { MatchOption result ((front : List ℕ) → bytes.now ≢ front ++ rest.now) (λ front. bytes.now ≡ front.now ++ rest.now) }
{
    bytes.strip_suffix(rest)
}

// The number of at most 2^62 whose 19 digits and a rest these bytes are.
fn number_before(bytes: &[u8], rest: &[u8]) -> Option<u64>
    ensures { MatchOption result ((n : ℕ) → n ≤ 2 ^ 62 → bytes.now ≢ padded 19 n ++ rest.now) (λ n. (n ≤ 2 ^ 62) × (bytes.now ≡ padded 19 n ++ rest.now)) }
{
    match before(bytes, rest) {
        Some(digits) => read19(digits),
        None => None,
    }
}

// What stands after the front of an image's names.
fn after_front(name: &[u8]) -> Option<&[u8]>
    ensures { MatchOption result ((rest : List ℕ) → name.now ≢ codes "fsimage_" ++ rest) (λ rest. name.now ≡ codes "fsimage_" ++ rest.now) }
{
    name.strip_prefix(b"fsimage_".as_slice())
}

/// The txid of at most 2^62 of an image whose file with this rest has that name.
pub fn txid_of(name: &[u8], rest: &[u8]) -> Option<u64>
    ensures { MatchOption result ((n : ℕ) → n ≤ 2 ^ 62 → name.now ≢ codes "fsimage_" ++ (padded 19 n ++ rest.now)) (λ n. (n ≤ 2 ^ 62) × (name.now ≡ codes "fsimage_" ++ (padded 19 n ++ rest.now))) }
{
    match after_front(name) {
        Some(tail) => number_before(tail, rest),
        None => None,
    }
}

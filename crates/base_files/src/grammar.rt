//! The bytes of number files and of paxos records.
ghost use Rattle.std.specs.Prelude.{◌≡◌, ◌≢◌, ℕ, ◌≤◌, ◌^◌, IfSome, IfNone};
ghost use Rattle.base_files.specs.Records.{number_bytes, record_bytes, Record, IsRecord};

use base_words::{print19, read19};

/// The number that these bytes hold.
pub fn read_number(bytes: &[u8; 20]) -> Option<u64>
    ensures found { IfSome result (λ n. (n ≤ 2 ^ 62) × (bytes.now ≡ number_bytes n)) }
    ensures none { IfNone result ((n : ℕ) → n ≤ 2 ^ 62 → bytes.now ≢ number_bytes n) }
{
    if bytes[19] != b'\n' {
        return None;
    }
    read19(&bytes[..19])
}

/// The bytes that hold a number.
pub fn print_number(value: u64) -> [u8; 20]
    requires { value ≤ 2 ^ 62 }
    ensures { result ≡ number_bytes value }
{
    let mut digits = [0; 19];
    print19(value, &mut digits);
    let mut bytes = [b'\n'; 20];
    bytes[..19].copy_from_slice(&digits);
    bytes
}

/// The epoch and the end that these bytes hold.
pub fn read_record(bytes: &[u8; 40]) -> Option<(u64, u64)>
    ensures found { IfSome result (λ r. IsRecord bytes.now (record { epoch = r.0; end = r.1 })) }
    ensures none { IfNone result ((r : Record) → IsRecord bytes.now r → ⊥) }
{
    if bytes[19] != b' ' || bytes[39] != b'\n' {
        return None;
    }
    let epoch = read19(&bytes[..19])?;
    let end = read19(&bytes[20..39])?;
    Some((epoch, end))
}

/// The bytes that hold an epoch and an end.
pub fn print_record(epoch: u64, end: u64) -> [u8; 40]
    requires epoch { epoch ≤ 2 ^ 62 }
    requires end { end ≤ 2 ^ 62 }
    ensures { result ≡ record_bytes (record { epoch = epoch; end = end }) }
{
    let mut digits = [0; 19];
    let mut bytes = [b'\n'; 40];
    print19(epoch, &mut digits);
    bytes[..19].copy_from_slice(&digits);
    bytes[19] = b' ';
    print19(end, &mut digits);
    bytes[20..39].copy_from_slice(&digits);
    bytes
}

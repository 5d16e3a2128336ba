//! Fields of a fixed width: numbers as bytes, the greatest byte first.
ghost use Rattle.std.specs.Prelude.{◌≡◌, ◌+◌, ◌≤◌, length};
ghost use Rattle.std.specs.Int.{w16, w32, w64, to_be_bytes};
ghost use Rattle.base_words.specs.Fields.{number_at, overwritten};

/// Writes the number over the two bytes from `at` on.
pub fn put_u16(out: &mut [u8], at: usize, value: u16)
    requires { at + 2 ≤ length out.old }
    ensures { out.new ≡ overwritten out.old at (to_be_bytes w16 value) }
{
    out[at..at + 2].copy_from_slice(&value.to_be_bytes());
}

/// Writes the number over the four bytes from `at` on.
pub fn put_u32(out: &mut [u8], at: usize, value: u32)
    requires { at + 4 ≤ length out.old }
    ensures { out.new ≡ overwritten out.old at (to_be_bytes w32 value) }
{
    out[at..at + 4].copy_from_slice(&value.to_be_bytes());
}

/// Writes the number over the eight bytes from `at` on.
pub fn put_u64(out: &mut [u8], at: usize, value: u64)
    requires { at + 8 ≤ length out.old }
    ensures { out.new ≡ overwritten out.old at (to_be_bytes w64 value) }
{
    out[at..at + 8].copy_from_slice(&value.to_be_bytes());
}

/// The number of the two bytes from `at` on; `None` exactly where fewer are there.
pub fn get_u16(bytes: &[u8], at: usize) -> Option<u16>
    ensures { result ≡ number_at w16 bytes.now at }
{
    if bytes.len() < at || bytes.len() - at < 2 {
        return None;
    }
    let (_, field) = bytes.split_at(at);
    Some(u16::from_be_bytes([field[0], field[1]]))
}

/// The number of the four bytes from `at` on; `None` exactly where fewer are there.
pub fn get_u32(bytes: &[u8], at: usize) -> Option<u32>
    ensures { result ≡ number_at w32 bytes.now at }
{
    if bytes.len() < at || bytes.len() - at < 4 {
        return None;
    }
    let (_, field) = bytes.split_at(at);
    Some(u32::from_be_bytes([field[0], field[1], field[2], field[3]]))
}

/// The number of the eight bytes from `at` on; `None` exactly where fewer are there.
pub fn get_u64(bytes: &[u8], at: usize) -> Option<u64>
    ensures { result ≡ number_at w64 bytes.now at }
{
    if bytes.len() < at || bytes.len() - at < 8 {
        return None;
    }
    let (_, field) = bytes.split_at(at);
    Some(u64::from_be_bytes([
        field[0], field[1], field[2], field[3], field[4], field[5], field[6], field[7],
    ]))
}

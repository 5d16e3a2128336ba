//! The bodies of stored edits.
ghost use Rattle.std.specs.Prelude.{◌≡◌, ℕ, List};
ghost use Rattle.disk_recent.specs.Edits.{stored_bytes};
ghost use Rattle.disk_recent.specs.Split.{IsSplit};

/// The first body of stored ones, and the stored others; `None` exactly where there are none.
/// Nothing is copied.
pub fn split_body(bytes: &[u8]) -> Option<(&[u8], &[u8])>
    ensures { (bodies : List (List ℕ)) → bytes.now ≡ stored_bytes bodies → IsSplit bodies result }
{
    if bytes.len() < 2 {
        return None;
    }
    let length = bytes[0] as usize * 256 + bytes[1] as usize;
    let rest = &bytes[2..];
    if rest.len() < length {
        return None;
    }
    Some(rest.split_at(length))
}

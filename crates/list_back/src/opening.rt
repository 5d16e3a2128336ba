//! How the text of an array begins.
ghost use Rattle.std.specs.Prelude.{◌≡◌};
ghost use Rattle.list_back.specs.Opening.{opens_array};

/// Whether the first byte that is no space of JSON opens an array, as that of each array does.
pub(crate) fn opens_array(bytes: &[u8]) -> bool
    ensures { result ≡ opens_array bytes.now }
{
    for byte in bytes {
        if !matches!(byte, b' ' | b'\t' | b'\n' | b'\r') {
            return *byte == b'[';
        }
    }
    false
}

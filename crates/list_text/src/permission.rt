//! Permissions as letters.
ghost use Rattle.std.specs.Prelude.{◌≡◌, ◌<◌};
ghost use Rattle.list_text.specs.Permissions.{has_bit, letter, last_letter, kind_letter, letters};

// Whether a bit is set, by its weight.
#[inline]
fn has_bit(permission: u16, weight: u16) -> bool
    requires { 0 < weight }
    ensures { result ≡ has_bit permission weight }
{
    permission / weight % 2 == 1
}

// A letter where its bit is set, else `-`.
#[inline]
fn letter(permission: u16, weight: u16, glyph: u8) -> u8
    requires { 0 < weight }
    ensures { result ≡ letter permission weight glyph }
{
    if has_bit(permission, weight) {
        glyph
    } else {
        b'-'
    }
}

// The last letter, in which the sticky bit shows.
fn last_letter(permission: u16) -> u8
    ensures { result ≡ last_letter permission }
{
    if !has_bit(permission, 0o1000) {
        return letter(permission, 1, b'x');
    }
    if has_bit(permission, 1) { b't' } else { b'T' }
}

fn kind_letter(is_directory: bool) -> u8
    ensures { result ≡ kind_letter is_directory }
{
    if is_directory { b'd' } else { b'-' }
}

/// A permission as letters: `d` or `-`, then `rwx` of the user, the group and others. The sticky
/// bit makes the last `t` in the place of `x`, and `T` in that of `-`.
pub(crate) fn letters(is_directory: bool, permission: u16) -> [u8; 10]
    ensures { result ≡ letters is_directory permission }
{
    [
        kind_letter(is_directory),
        letter(permission, 0o400, b'r'),
        letter(permission, 0o200, b'w'),
        letter(permission, 0o100, b'x'),
        letter(permission, 0o40, b'r'),
        letter(permission, 0o20, b'w'),
        letter(permission, 0o10, b'x'),
        letter(permission, 0o4, b'r'),
        letter(permission, 0o2, b'w'),
        last_letter(permission),
    ]
}

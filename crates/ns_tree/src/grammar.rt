//! The grammars of paths, and of users and groups.
ghost use Rattle.std.specs.Prelude.{◌≡◌};
ghost use Rattle.ns_tree.specs.Path.{is_path, is_component, is_component_byte, is_dot_name, is_letter, is_owner_byte, is_owner};

/// The most bytes of a component of a path.
const MOST_COMPONENT: usize = 255;

/// The most bytes of a user or a group.
const MOST_OWNER: usize = 32;

/// Whether a text is a path.
pub fn is_good_path(text: &[u8]) -> bool
    ensures { result ≡ is_path text.now }
{
    if text.is_empty() || text[0] != b'/' {
        return false;
    }
    if text.len() == 1 {
        return true;
    }
    let mut start = 1;
    for i in 1..text.len() {
        if text[i] == b'/' {
            if !is_good_component(&text[start..i]) {
                return false;
            }
            start = i + 1;
        }
    }
    is_good_component(&text[start..])
}

fn is_good_component(component: &[u8]) -> bool
    ensures { result ≡ is_component component.now }
{
    if component.is_empty() || component.len() > MOST_COMPONENT || is_dots(component) {
        return false;
    }
    for b in component {
        if !is_good_byte(*b) {
            return false;
        }
    }
    true
}

fn is_good_byte(b: u8) -> bool
    ensures { result ≡ is_component_byte b }
{
    33 <= b && b <= 126 && b != b'/' && b != b';'
}

/// `.` or `..`
fn is_dots(component: &[u8]) -> bool
    ensures { result ≡ is_dot_name component.now }
{
    match component {
        [46] => true,
        [46, 46] => true,
        _ => false,
    }
}

/// Whether a text is a user or a group.
pub fn is_good_owner(text: &[u8]) -> bool
    ensures { result ≡ is_owner text.now }
{
    if text.is_empty() || !(is_good_letter(text[0]) || text[0] == b'_') || text.len() > MOST_OWNER {
        return false;
    }
    for b in &text[1..] {
        if !is_good_owner_byte(*b) {
            return false;
        }
    }
    true
}

fn is_good_letter(b: u8) -> bool
    ensures { result ≡ is_letter b }
{
    (65 <= b && b <= 90) || (97 <= b && b <= 122)
}

fn is_good_owner_byte(b: u8) -> bool
    ensures { result ≡ is_owner_byte b }
{
    is_good_letter(b) || (48 <= b && b <= 57) || b == b'_' || b == b'.' || b == b'-'
}

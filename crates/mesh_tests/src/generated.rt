//! Generated scripts: their texts, as a second implementation prints them.
ghost use Rattle.play_script.specs.Generated.{IsWithin};

use base_words::OutOfMemory;
use play_script::{generate, print_script};
use std::alloc::Global;
use std::test::Fail;

/// The text of a generated script.
fn text(alloc: Global, number: u64, edits: u64, nodes: u64) -> Result<Vec<u8>, OutOfMemory>
    requires { IsWithin number edits nodes }
{
    let script = generate(alloc, number, edits, nodes)?;
    print_script(alloc, &script)
}

const ONE_EDIT: &[u8] =
    b"names 3\nname a\nname b\nname s\ntakeover a\nlog a mkdir /d0 1 755 gen gen\ntail s\n";

/// What may happen before an edit happens once.
const EACH_CHANCE: &[u8] =
    b"names 3\nname a\nname b\nname s\ntakeover a\ntakeover a\nlog a mkdir /d0 1 755 gen gen\nkill 2\nrestart 2\n\
log a add /d0/f2 3 2 2 1 644 gen gen\ntakeover b\nlog b add /d0/f3 3 3 3 1 644 gen gen\ndrop b 1 1\n\
log b add /d0/f4 3 4 4 1 644 gen gen\nroll b\nlog b add /d0/f5 3 5 5 1 644 gen gen\nlog b add /d0/f6 3 6 6 1 644 gen gen\ntail s\n";

/// Two short scripts, and the length and the end of a long one.
#[test]
fn scripts_are_generated(rt: HostRuntime) -> Result<(), Fail> {
    assert!(rt; text(rt.alloc(), 1, 1, 3)?.as_slice() == ONE_EDIT);
    assert!(rt; text(rt.alloc(), 3_160_665, 6, 3)?.as_slice() == EACH_CHANCE);
    let long = text(rt.alloc(), 7, 10_000, 3)?;
    assert!(rt; long.len() == 473_802);
    let end = b"\nlog b add /d99/f10000 3 10000 10000 1 644 gen gen\ntail s\n";
    assert!(rt; long.ends_with(end));
    Ok(())
}

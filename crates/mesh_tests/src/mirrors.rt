//! A mirror of the nodes that plays leave: what it gives, and what a second pass adds.
use crate::plays::nodes_of;
use journal_core::Bytes;
use std::alloc::Global;
use std::test::Fail;
use writer_calls::{Direct, Mirror, MirrorRead, Synced};
use writer_core::Cause;

const ONE_DOWN: &str = "raw 3\nwriter a\nkill 1\ntakeover a\nlog a 0a\nclose a\n";

const LONGER: &str =
    "raw 3\nwriter a\nkill 1\ntakeover a\nlog a 0a\nroll a\nlog a 0b 0c\nroll a\nlog a 0d\n";

/// A pass over the nodes of the text's play.
fn sync_text(alloc: Global, mirror: &mut Mirror, text: &str) -> Result<Synced, Fail> {
    let mut peers = Direct::new(alloc, nodes_of(alloc, text.as_bytes())?);
    let synced = mirror.sync(alloc, &mut peers);
    drop(peers);
    Ok(synced?)
}

/// The bodies are these, of one byte each.
fn are_bytes(bodies: &[Bytes], bytes: &[u8]) -> bool {
    let mut same = bodies.len() == bytes.len();
    for (body, byte) in bodies.iter().zip(bytes) {
        same = same && body.as_slice() == [*byte].as_slice();
    }
    same
}

/// The mirror gives these bodies of one byte each, from that txid on; or it holds no segment with
/// that txid, where there are none.
fn gives(alloc: Global, mirror: &Mirror, from: u64, bytes: &[u8]) -> bool {
    match mirror.read(alloc, from) {
        MirrorRead::Edits(batch) => {
            batch.first() == from && are_bytes(batch.bodies().as_slice(), bytes)
        }
        MirrorRead::NotHeld => bytes.is_empty(),
        MirrorRead::OutOfMemory => false,
    }
}

/// The mirror gives what was listed, each of these from its txid on.
fn gives_all(alloc: Global, mirror: &Mirror, listed: &[(u64, &[u8])]) -> bool {
    let mut all = true;
    for (from, bytes) in listed {
        all = all && gives(alloc, mirror, *from, bytes);
    }
    all
}

/// What it gives after the first pass, and after the second.
const FIRST: &[(u64, &[u8])] = &[(0, b""), (1, b"\x18\x0a\x17"), (3, b"\x17"), (4, b"")];

const SECOND: &[(u64, &[u8])] = &[(1, b"\x18\x0a\x17"), (4, b"\x18\x0b\x0c\x17"), (8, b"")];

#[test]
fn a_mirror_gives_what_its_passes_read(rt: HostRuntime) -> Result<(), Fail> {
    let mut mirror = Mirror::new(rt.alloc());
    assert!(rt; gives(rt.alloc(), &mirror, 1, b""));
    let first = sync_text(rt.alloc(), &mut mirror, ONE_DOWN)?;
    assert!(rt; first.begun == 1 && first.missing.is_empty());
    drop(first);
    assert!(rt; gives_all(rt.alloc(), &mirror, FIRST));
    let second = sync_text(rt.alloc(), &mut mirror, LONGER)?;
    assert!(rt; second.begun == 1 && second.heard.len() == 3);
    assert!(rt; !matches!(second.heard[0].cause, Cause::Ok));
    assert!(rt; second.heard[1].lines == 2);
    assert!(rt; gives_all(rt.alloc(), &mirror, SECOND));
    Ok(())
}

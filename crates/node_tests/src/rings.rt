//! How far each slice of a ring of edits runs.
ghost use Rattle.std.specs.Prelude.{◌≡◌, ◌≤◌, length};

use disk_recent::{EditCache, Entry};
use std::process::Abort;
use std::test::Fail;

// One more edit after the last, or the first with that txid.
fn add(rt: &impl Abort, cache: &mut EditCache, first: u64, body: &[u8])
    requires { length body.now ≤ 4096 }
    ensures { cache.new.bytes ≡ cache.old.bytes }
{
    match cache.last() {
        Some(last) => {
            assert!(rt; last < 1 << 62);
            cache.push(&Entry {
                txid: last + 1,
                body,
            });
        }
        None => cache.push(&Entry { txid: first, body }),
    }
}

// After so many edits, the slice from a txid has so many bytes. Bodies of 1,000 bytes: four take
// 4,008 of the 4,094 bytes that are kept. The ninth doesn't fit after the eighth, at 8,016, and
// stands at the first place.
const RUNS: &[(u64, u64, usize)] = &[
    (8, 5, 4_008),
    (8, 6, 3_006),
    (8, 7, 2_004),
    (8, 8, 1_002),
    (9, 6, 3_006),
    (9, 7, 2_004),
    (9, 8, 1_002),
    (9, 9, 1_002),
    (10, 7, 2_004),
    (10, 8, 1_002),
    (10, 9, 2_004),
    (10, 10, 1_002),
];

fn runs_so(rt: &impl Abort, cache: &EditCache, txid: u64, length: usize) {
    match cache.slice_from(txid) {
        Some(slice) => assert!(rt; slice.len() == length, "from {txid}"),
        None => panic!(rt; "{txid} is held"),
    }
}

fn all_run_so(rt: &impl Abort, cache: &EditCache, count: u64) {
    for (after, txid, length) in RUNS {
        if *after == count {
            runs_so(rt, cache, *txid, *length);
        }
    }
}

#[test]
fn slices_run_to_the_end_of_the_block(rt: HostRuntime) -> Result<(), Fail> {
    let body = [7; 1_000];
    let mut cache = EditCache::new(rt.alloc(), 8_192)?;
    for count in 1..=10u64 {
        add(&rt, &mut cache, 1, &body);
        all_run_so(&rt, &cache, count);
    }
    Ok(())
}

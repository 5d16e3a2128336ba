//! Calls over a pipe whose replies are known.
use base_outside::{MemSink, MemSource};
use journal_core::{Heard, OutOfMemory, Reply, Request};
use pipe_seats::{LineRoom, NodePipe};
use std::alloc::Global;
use std::test::Fail;

/// What the far end of a pipe says, the numbers of the reads and of the writes that fail, and the
/// promise that is heard.
type Case = (&'static str, &'static [u64], &'static [u64], Option<u64>);

/// A reply is heard, stale ones are passed over, and bad replies and failing ends are silence.
const CASES: &[Case] = &[
    ("#7 1 state 3 .\n", &[], &[], Some(3)),
    (
        "#6 1 state 9 .\n#7 2 ok .\n#7 1 state 3 .\n",
        &[],
        &[],
        Some(3),
    ),
    ("state 3\n", &[], &[], None),
    ("#7 1 state 3 .#7 1 state 3 .\n", &[], &[], None),
    ("#7 1 ok .\n", &[], &[], None),
    ("#7 1 state 3", &[], &[], None),
    ("#7 1 state 3 .\n", &[0], &[], None),
    ("#7 1 state 3 .\n", &[], &[0], None),
];

/// A pipe of life 7 whose far end says these bytes, and the reads and writes that fail.
fn pipe_of(
    alloc: Global,
    replies: &[u8],
    reads: &[u64],
    writes: &[u64],
) -> Result<NodePipe<MemSource, MemSink>, OutOfMemory> {
    let source = MemSource::new(replies.to_vec(alloc)?, reads.to_vec(alloc)?);
    let sink = MemSink::new(alloc, 1000, writes.to_vec(alloc)?)?;
    let mut pipe = NodePipe::unopened(alloc, 7);
    pipe.open_again(alloc, source, sink)?;
    Ok(pipe)
}

/// What is heard of a state request over a pipe: the promise, or none.
fn promise_of(alloc: Global, pipe: &mut NodePipe<MemSource, MemSink>) -> Option<u64> {
    let mut room = LineRoom::new(alloc);
    match pipe.call(alloc, &Request::State, &mut room) {
        Ok(Heard::Answer(Reply::State { promised })) => Some(promised),
        Ok(_) | Err(_) => None,
    }
}

/// The promise that is heard over the pipe of a case, and whether the pipe is open then.
fn hear(alloc: Global, case: &Case) -> Result<(Option<u64>, bool), OutOfMemory> {
    let (replies, reads, writes, _) = *case;
    let mut pipe = pipe_of(alloc, replies.as_bytes(), reads, writes)?;
    let promise = promise_of(alloc, &mut pipe);
    Ok((promise, pipe.is_open()))
}

#[test]
fn only_replies_that_fit_are_heard(rt: HostRuntime) -> Result<(), Fail> {
    for case in CASES {
        let (promise, is_open) = hear(rt.alloc(), case)?;
        let (_, reads, writes, wanted) = case;
        assert!(rt; promise == *wanted);
        assert!(rt; !is_open || (reads.is_empty() && writes.is_empty()));
    }
    Ok(())
}

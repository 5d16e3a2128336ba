//! Sessions of tagged lines at a node in memory.
use base_outside::{MemSink, MemSource, OutOfMemory};
use journal_step::PlainNode;
use pipe_serve::serve_session;
use std::alloc::Global;
use std::test::Fail;

/// Requests, and what is written where a fresh node is asked them: tagged ones are answered, and a
/// request that another cuts is none.
const SESSIONS: &[(&str, &str)] = &[
    (
        "#1 1 new 1 .\n#1 2 state .\n",
        "#1 1 new none .\n#1 2 state 1 .\n",
    ),
    (
        "#1 1 new 1 .\n#1 2 new#1 3 new 2 .\n",
        "#1 1 new none .\nbad\n",
    ),
];

/// What is written where a fresh node is asked these lines.
fn answers_to(alloc: Global, requests: &[u8]) -> Result<Vec<u8>, OutOfMemory> {
    let mut source = MemSource::new(requests.to_vec(alloc)?, Vec::new(alloc));
    let mut sink = MemSink::new(alloc, 1000, Vec::new(alloc))?;
    let mut node = PlainNode::new(alloc);
    let _ = serve_session(alloc, &mut node, &mut source, &mut sink);
    sink.bytes().to_vec(alloc)
}

#[test]
fn tagged_requests_are_answered(rt: HostRuntime) -> Result<(), Fail> {
    for (requests, wanted) in SESSIONS {
        let answers = answers_to(rt.alloc(), requests.as_bytes())?;
        assert!(rt; answers.as_slice() == wanted.as_bytes());
    }
    Ok(())
}

//! The standard ends of a program over a runtime that fails, and over one that isn't ready.
use crate::fake::Fake;
use base_outside::{Input, MemSink, StdSink, StdSource, read_all, write_all};
use std::test::Fail;

#[test]
fn errors_of_the_runtime_are_faults(rt: HostRuntime) {
    let failing = Fake::new(rt.alloc(), true);
    let mut source = StdSource::new(&failing);
    let input = read_all(rt.alloc(), &mut source, 100);
    assert!(rt; matches!(input, Input::ReadFault));
    let mut sink = StdSink::new(&failing);
    assert!(rt; write_all(&mut sink, b"lost").is_err());
}

fn is_read_as(input: &Input, want: &[u8]) -> bool {
    match input {
        Input::All(bytes) => bytes.as_slice() == want,
        _ => false,
    }
}

#[test]
fn what_is_not_ready_is_tried_again(rt: HostRuntime) {
    let unready = Fake::new(rt.alloc(), false);
    let mut source = StdSource::new(&unready);
    assert!(rt; is_read_as(&read_all(rt.alloc(), &mut source, 100), b"xxx"));
    let mut sink = StdSink::new(&unready);
    assert!(rt; write_all(&mut sink, b"ok").is_ok());
    let (pauses, taken) = unready.told();
    // One before each byte that is read, one before the end, one before each byte that is taken.
    assert!(rt; pauses == 6 && taken.as_slice() == b"ok".as_slice());
}

// What is written with a call that fails, the flush, isn't handed on; with the next text it is.
fn keeps_back(sink: &mut MemSink) -> bool {
    let fails = write_all(sink, b"kept").is_err() && sink.unflushed() == 4;
    let is_done = write_all(sink, b"more").is_ok() && sink.unflushed() == 0;
    fails && is_done && sink.bytes() == b"keptmore".as_slice()
}

#[test]
fn a_flush_that_fails_keeps_bytes_back(rt: HostRuntime) -> Result<(), Fail> {
    let mut sink = MemSink::new(rt.alloc(), 10, vec![in rt.alloc(); 1]?)?;
    assert!(rt; keeps_back(&mut sink));
    Ok(())
}

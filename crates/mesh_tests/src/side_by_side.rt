//! A round's request is written to all its nodes before the first reply is read.
ghost use Rattle.std.specs.Prelude.{None};

use base_outside::{Failed, Sink, Source};
use pipe_seats::{Opener, PipeWire};
use std::cell::Cell;
use writer_calls::QuorumWriter;

// Has no reply, and notes at the first read of all how many lines were written by then.
#[derive(Drop)]
struct Replies<'a> {
    written: &'a Cell<u64>,
    seen: &'a Cell<u64>,
}

impl Source for Replies<'_> {
    ghost left = { λ _. None };

    ghost faults = { λ _. 0 };

    fn read(&mut self, into: &mut [u8]) -> Result<usize, Failed> {
        let _ = into;
        if self.seen.get() == 0 {
            self.seen.set(self.written.get());
        }
        Ok(0)
    }
}

// Counts the lines that are written to any of the nodes.
#[derive(Drop)]
struct Requests<'a> {
    written: &'a Cell<u64>,
}

impl Sink for Requests<'_> {
    ghost taken = { λ _. None };

    ghost faults = { λ _. 0 };

    ghost kept_back = { λ _. 0 };

    fn write(&mut self, bytes: &[u8]) -> Result<usize, Failed> {
        Ok(bytes.len())
    }

    fn flush(&mut self) -> Result<(), Failed> {
        self.written.set(self.written.get().saturating_add(1));
        Ok(())
    }
}

// Opens the same two ends for each node.
#[derive(Drop)]
struct Ends<'a> {
    written: &'a Cell<u64>,
    seen: &'a Cell<u64>,
}

impl<'a> Opener<Replies<'a>, Requests<'a>> for Ends<'a> {
    fn open(&mut self, node: usize) -> Option<(Replies<'a>, Requests<'a>)> {
        let _ = node;
        let replies = Replies {
            written: self.written,
            seen: self.seen,
        };
        let requests = Requests {
            written: self.written,
        };
        Some((replies, requests))
    }
}

#[test]
fn all_nodes_are_asked_before_a_reply_is_read(rt: HostRuntime) {
    let written = Cell::new(0);
    let seen = Cell::new(0);
    let ends = Ends {
        written: &written,
        seen: &seen,
    };
    let Ok(mut seats) = PipeWire::new_caller(rt.alloc(), 3, 7, ends) else {
        return;
    };
    let Ok(mut writer) = QuorumWriter::new(rt.alloc(), 3) else {
        return;
    };
    let _ = writer.takeover(rt.alloc(), &mut seats);
    assert!(rt; seen.get() == 3);
}

//! A session at a node hands on each reply before it reads the next request.
ghost use Rattle.std.specs.Prelude.{None};

use base_outside::{Failed, Sink, Source};
use journal_session::{Served, serve};
use journal_step::PlainNode;
use std::cell::Cell;

// Gives the line `state` at each of three reads, and fails where the reply to the line before
// isn't handed on.
#[derive(Drop)]
struct Asker<'a> {
    given: u64,
    answered: &'a Cell<u64>,
    faults: u64,
}

impl Source for Asker<'_> {
    ghost left = { λ _. None };

    ghost faults = { λ s. s.faults };

    fn read(&mut self, into: &mut [u8]) -> Result<usize, Failed> {
        if self.answered.get() != self.given {
            self.faults = self.faults.saturating_add(1);
            return Err(Failed);
        }
        if self.given == 3 {
            return Ok(0);
        }
        self.given = self.given.saturating_add(1);
        let line = b"state\n".as_slice();
        let count = line.len().min(into.len());
        into[..count].copy_from_slice(&line[..count]);
        Ok(count)
    }
}

// Counts what is handed on.
#[derive(Drop)]
struct Listener<'a> {
    answered: &'a Cell<u64>,
}

impl Sink for Listener<'_> {
    ghost taken = { λ _. None };

    ghost faults = { λ _. 0 };

    ghost kept_back = { λ _. 0 };

    fn write(&mut self, bytes: &[u8]) -> Result<usize, Failed> {
        Ok(bytes.len())
    }

    fn flush(&mut self) -> Result<(), Failed> {
        self.answered.set(self.answered.get().saturating_add(1));
        Ok(())
    }
}

#[test]
fn each_line_is_answered_before_the_next_is_read(rt: HostRuntime) {
    let answered = Cell::new(0);
    let mut node = PlainNode::new(rt.alloc());
    let mut source = Asker {
        given: 0,
        answered: &answered,
        faults: 0,
    };
    let mut sink = Listener {
        answered: &answered,
    };
    let served = serve(rt.alloc(), &mut node, &mut source, &mut sink);
    assert!(rt; matches!(served, Served::Done));
    assert!(rt; answered.get() == 3);
}

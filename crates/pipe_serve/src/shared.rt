//! What a process's threads share.
ghost use Rattle.std.specs.Prelude.{◌≡◌, ◌≢◌, Some, []};
ghost use Rattle.pipe_serve.specs.declared.session_end.SessionEnd.{SessionEnd as AnyEnd};
ghost use Rattle.pipe_serve.specs.Serving.{IsReadOut, IsSharedAnswer};
ghost use Rattle.pipe_serve.specs.Sessions.{IsSession, read_from, written_to};
ghost use Rattle.pipe_serve.specs.Trails.{AreServed, IsAttended, IsSeatAnswer, at_pipes};

use crate::call_count::{CallCount, close_calls};
use crate::ending::Ending;
use crate::origin::Origin;
use crate::ports::Ports;
use crate::seat_node::{ClientSeat, NodeGate, SeatNode};
use crate::served::ServeEnd;
use crate::served_node::ServedNode;
use crate::session::serve_session;
use crate::session_end::SessionEnd;
use base_disk::Disk;
use base_outside::{Sink, Source};
use std::alloc::Global;
use std::sync::atomic::{AtomicU64, Ordering};
use std::sync::{Condvar, Mutex, Wait};
use std::thread;
use std::time::{Clock, Duration};

/// For how many milliseconds pipes that can't be opened are left alone.
const PAUSE: u64 = 100;

/// How often it is looked whether all clients' threads are through, and for how many milliseconds
/// they are left alone between two looks.
const LOOKS: u64 = 50;

const LOOK_PAUSE: u64 = 10;

/// What all threads share: the gate of the node, and how the process is to end, once that is known.
#[derive(Drop)]
pub(crate) struct Shared<R, D: Disk, P, J: Origin<D>> {
    pub(crate) rt: R,
    alloc: Global,
    ports: P,
    gate: NodeGate<D, J>,
    calls: CallCount,
    // how many clients' threads are through
    through: AtomicU64,
    ending: Mutex<Ending<D, J>>,
    ended: Condvar,
}

impl<R, D: Disk, P, J: Origin<D>> Shared<R, D, P, J> {
    /// A node behind this gate.
    pub(crate) fn new(rt: R, alloc: Global, gate: NodeGate<D, J>, ports: P) -> Shared<R, D, P, J>
        ensures { result.gate ≡ gate }
    {
        Shared {
            rt,
            alloc,
            ports,
            gate,
            calls: CallCount::new(),
            through: AtomicU64::new(0),
            ending: Mutex::new(Ending::new()),
            ended: Condvar::new(),
        }
    }

    /// The gate.
    pub(crate) fn into_gate(self) -> NodeGate<D, J>
    where
        R: Drop,
        P: Drop,
        ensures { result ≡ self.gate }
    {
        let Shared {
            rt: _,
            alloc: _,
            ports: _,
            gate,
            calls: _,
            through: _,
            ending: _,
            ended: _,
        } = self;
        gate
    }
}

impl<R: Wait, D: Disk, P, J: Origin<D>> Shared<R, D, P, J> {
    /// The process is to end so, unless it is to end otherwise already.
    pub(crate) fn end_with(&self, end: ServeEnd)
        requires { J.steady → end ≢ ServeEnd.DiskFault }
    {
        self.ending.lock(&self.rt).note(end);
        self.ended.notify_all();
    }

    /// How the process is to end, once that is known.
    fn known_end(&self) -> Option<ServeEnd>
        ensures { J.steady → result ≢ Some ServeEnd.DiskFault }
    {
        self.ending.lock(&self.rt).known()
    }

    /// Waits until the process is to end, and tells how.
    pub(crate) fn wait_for_end(&self) -> ServeEnd
        ensures { J.steady → result ≢ ServeEnd.DiskFault }
    {
        for _ in self.rt.forever() {
            if let Some(end) = self.known_end() {
                return end;
            }
            let ending = self.ending.lock(&self.rt);
            let _known = self
                .ended
                .wait_while(&self.rt, ending, |ending| ending.known().is_none());
        }
        unreachable!()
    }

    /// Reads the input to its end: then the process is to stop.
    #[tactic(auto, using(crate::proofs::InputLaws::later))]
    pub(crate) fn read_out<I: Source + Drop>(&self, input: I)
        ensures { (after : I) × IsReadOut (read_from I.left I.faults input after) }
    {
        let mut input = input;
        read_all(&self.rt, &mut input);
        self.end_with(ServeEnd::Stopped);
    }
}

impl<R: Wait + Clock, D: Disk, P, J: Origin<D>> Shared<R, D, P, J> {
    /// Whether so many clients' threads are through, within half a second.
    pub(crate) fn are_through(&self, clients: u64) -> bool {
        for _ in 0..LOOKS {
            if clients <= self.through.load(Ordering::SeqCst) {
                return true;
            }
            thread::sleep(&self.rt, Duration::from_millis(LOOK_PAUSE));
        }
        false
    }

    /// From now on no call of a client begins at the node; it waits until none is under way.
    pub(crate) fn close(&self) {
        close_calls(&self.rt, &self.calls);
    }

    /// Serves one session of a client at the node, as a session asks it.
    #[tactic(auto, using(crate::proofs::SharedLaws::sessions))]
    fn serve<S: Source, K: Sink>(
        &self,
        node: &mut SeatNode<'_, R, ServedNode<D, J>>,
        source: &mut S,
        sink: &mut K,
    )
        ensures { (end : AnyEnd) × IsSession (IsSeatAnswer (IsSharedAnswer D.tells D.view J.steady)) end node.old node.new (read_from S.left S.faults source.old source.new) (written_to K.taken K.faults sink.old sink.new) }
    {
        match serve_session(self.alloc, node, source, sink) {
            SessionEnd::Over => {}
            SessionEnd::DiskFault => self.end_with(ServeEnd::DiskFault),
            SessionEnd::OutOfMemory => self.end_with(ServeEnd::OutOfMemory),
        }
    }

    /// One session of a client, where its pipes can be opened.
    #[tactic(auto, using(crate::proofs::SharedLaws::served))]
    fn serve_once<S: Source + Drop, K: Sink + Drop>(
        &self,
        client: usize,
        node: &mut SeatNode<'_, R, ServedNode<D, J>>,
    )
    where
        P: Ports<S, K>,
        ensures { AreServed (IsSeatAnswer (IsSharedAnswer D.tells D.view J.steady)) (at_pipes P.are_of (read_from S.left S.faults) (written_to K.taken K.faults) client) node.old node.new }
    {
        match self.ports.open(client) {
            Some((mut source, mut sink)) => self.serve(node, &mut source, &mut sink),
            None => {
                let _ = thread::sleep(&self.rt, Duration::from_millis(PAUSE));
            }
        }
    }

    /// All sessions of a client at a node, until the process is to end.
    #[tactic(auto, using(crate::proofs::SharedLaws::served))]
    fn serve_sessions<S: Source + Drop, K: Sink + Drop>(
        &self,
        client: usize,
        node: &mut SeatNode<'_, R, ServedNode<D, J>>,
    )
    where
        P: Ports<S, K>,
        ensures { AreServed (IsSeatAnswer (IsSharedAnswer D.tells D.view J.steady)) (at_pipes P.are_of (read_from S.left S.faults) (written_to K.taken K.faults) client) node.old node.new }
    {
        for _ in self.rt.forever() {
            if self.known_end().is_some() {
                return;
            }
            self.serve_once::<S, K>(client, node);
        }
    }

    /// All sessions of a client, with its seat, until the process is to end.
    pub(crate) fn serve_client<S: Source + Drop, K: Sink + Drop>(
        &self,
        client: usize,
        seat: ClientSeat<D, J>,
    ) -> ClientSeat<D, J>
    where
        P: Ports<S, K>,
        requires own { seat.seat.table_id ≡ self.now.gate.table.shared.table_id }
        requires fresh { seat.seat.me.0.seen ≡ [] }
        ensures { IsAttended (IsSharedAnswer D.tells D.view J.steady) (at_pipes P.are_of (read_from S.left S.faults) (written_to K.taken K.faults) client) seat.seat.table_id seat.caller result.seat.table_id result.caller result.seat.me.0.seen }
    {
        let mut node = SeatNode::new(&self.rt, &self.gate, &self.calls, seat);
        self.serve_sessions::<S, K>(client, &mut node);
        self.through.fetch_add(1, Ordering::SeqCst);
        node.into_seat()
    }
}

/// Reads until the source ends or fails.
#[tactic(auto, using(crate::proofs::InputLaws::inputs))]
fn read_all<R: Wait, I: Source>(rt: &R, input: &mut I)
    ensures { IsReadOut (read_from I.left I.faults input.old input.new) }
{
    let mut bytes = [0; 64];
    for _ in rt.forever() {
        match input.read(&mut bytes) {
            Ok(0) | Err(_) => return,
            Ok(_) => {}
        }
    }
    unreachable!()
}

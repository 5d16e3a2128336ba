//! A node's clients, a thread each.
ghost use Rattle.std.specs.Prelude.{◌≡◌, ◌≢◌, ◌<◌, ◌+◌, ℕ, [], length, map, slice_index_or, IfOk, IfSome};
ghost use Rattle.play_threads.specs.Board.{AllAt};
ghost use Rattle.pipe_serve.specs.Serving.{IsReadOut, IsSharedAnswer, Leads, state_told};
ghost use Rattle.pipe_serve.specs.Sessions.{read_from, written_to};
ghost use Rattle.pipe_serve.specs.Trails.{IsAttended, IsSharedFrom, IsSharedOut, at_pipes};

use crate::client_cell::ClientCell;
use crate::origin::Origin;
use crate::ports::Ports;
use crate::seat_node::ClientSeat;
use crate::served::{ServeEnd, Served};
use crate::served_node::ServedNode;
use crate::shared::Shared;
use base_disk::Disk;
use base_outside::{Sink, Source};
use disk_node::JournalNode;
use journal_core::OutOfMemory;
use play_threads::{Gate, GateSeat, Keeper};
use std::alloc::{AllocError, Global};
use std::marker::{Brand, PhantomData};
use std::snapshot::Snapshot;
use std::sync::{Arc, Wait};
use std::thread::{self, Promise, PromisedHandle, Threads};
use std::time::Clock;

/// What the thread that reads the input promises: it was read until it ended or failed.
#[derive(Drop)]
struct ReadOut<I>(Snapshot<I>);

impl<I: Source> Promise<()> for ReadOut<I> {
    ghost kept_by = { λ p _. (after : I) × IsReadOut (read_from I.left I.faults p.0.value after) };
}

/// Starts the thread that reads the input: at its end the process is to stop.
fn start_input<R, D, P, I, J>(
    shared: &Arc<Shared<R, D, P, J>, Global>,
    input: I,
) -> Result<PromisedHandle<(), ReadOut<I>>, OutOfMemory>
where
    R: Threads + Wait + Send + Sync + Drop + 'static,
    D: Disk + Send + Drop + 'static,
    P: Send + Sync + Drop + 'static,
    I: Source + Send + Drop + 'static,
    J: Origin<D> + Send + Sync + 'static,
    ensures { IfOk result (λ thread. thread.promise.0.value ≡ input) }
{
    let ours = Arc::try_clone(shared)?;
    let promise = ReadOut(Snapshot::of(&input));
    let read = move || -> ()
        ensures { (after : I) × IsReadOut (read_from I.left I.faults input after) }
    { ours.read_out(input) };
    Ok(thread::spawn_with(&shared.rt, promise, read)?)
}

/// What a client's thread promises of the seat that it gives back: it was this one, and went through
/// sessions alone, over this client's pipes.
#[derive(Drop)]
struct Attended<C: ClientCell, P, S, K> {
    was: Snapshot<GateSeat<C>>,
    over: PhantomData<(P, S, K)>,
}

impl<C: ClientCell, P: Ports<S, K>, S: Source, K: Sink> Promise<GateSeat<C>>
    for Attended<C, P, S, K> {
    ghost kept_by = { λ p s. IsAttended C.fits (at_pipes P.are_of (read_from S.left S.faults) (written_to K.taken K.faults) (p.was.value.caller + 1)) p.was.value.seat.table_id p.was.value.caller s.seat.table_id s.caller s.seat.me.0.seen };
}

/// A client's thread, which gives the client's seat back.
type ClientThread<D, J, P, S, K> = PromisedHandle<
    ClientSeat<D, J>,
    Attended<ServedNode<D, J>, P, S, K>,
>;

/// Starts the thread of a client, with its seat.
fn start_client<R, D, P, S, K, J>(
    rt: &R,
    theirs: Arc<Shared<R, D, P, J>, Global>,
    client: usize,
    seat: ClientSeat<D, J>,
) -> Result<ClientThread<D, J, P, S, K>, OutOfMemory>
where
    R: Threads + Wait + Clock + Send + Sync + Drop + 'static,
    D: Disk + Send + Drop + 'static,
    P: Ports<S, K> + Send + Sync + Drop + 'static,
    S: Source + Send + Drop + 'static,
    K: Sink + Send + Drop + 'static,
    J: Origin<D> + Send + Sync + 'static,
    requires own { seat.seat.table_id ≡ theirs.value.gate.table.shared.table_id }
    requires fresh { seat.seat.me.0.seen ≡ [] }
    requires its { client ≡ seat.caller + 1 }
    ensures { IfOk result (λ thread. thread.promise.was.value ≡ seat) }
{
    let promise = Attended {
        was: Snapshot::of(&seat),
        over: PhantomData,
    };
    let serve = move || -> ClientSeat<D, J>
        requires { (seat.seat.table_id ≡ theirs.value.gate.table.shared.table_id) × (seat.seat.me.0.seen ≡ []) × (client ≡ seat.caller + 1) }
        ensures { IsAttended (IsSharedAnswer D.tells D.view J.steady) (at_pipes P.are_of (read_from S.left S.faults) (written_to K.taken K.faults) (seat.caller + 1)) seat.seat.table_id seat.caller result.seat.table_id result.caller result.seat.me.0.seen }
    { theirs.serve_client::<S, K>(client, seat) };
    Ok(thread::spawn_with(rt, promise, serve)?)
}

/// Starts a thread for each client, from 1 on, with its seat.
fn start_clients<R, D, P, S, K, J>(
    alloc: Global,
    shared: &Arc<Shared<R, D, P, J>, Global>,
    seats: Vec<ClientSeat<D, J>>,
) -> Result<Vec<ClientThread<D, J, P, S, K>>, OutOfMemory>
where
    R: Threads + Wait + Clock + Send + Sync + Drop + 'static,
    D: Disk + Send + Drop + 'static,
    P: Ports<S, K> + Send + Sync + Drop + 'static,
    S: Source + Send + Drop + 'static,
    K: Sink + Send + Drop + 'static,
    J: Origin<D> + Send + Sync + 'static,
    requires { AllAt (λ k s. (s.seat.table_id ≡ shared.now.value.gate.table.shared.table_id) × (s.caller ≡ k) × (s.seat.me.0.seen ≡ [])) seats.items }
    ensures { IfOk result (λ threads. map (λ t. t.promise.was.value) threads.items ≡ seats.items) }
{
    let mut threads = Vec::with_capacity(alloc, seats.len())?;
    let mut client = 0;
    for seat in seats {
        client += 1;
        let theirs = Arc::try_clone(shared)?;
        threads.push(start_client::<R, D, P, S, K, J>(&shared.rt, theirs, client, seat)?)?;
    }
    Ok(threads)
}

/// The seats that all threads give back, once they are joined; none where there is no memory for a
/// list of them.
fn join_all<R, D, P, S, K, J>(
    rt: &R,
    threads: Vec<ClientThread<D, J, P, S, K>>,
) -> Option<Vec<ClientSeat<D, J>>>
where
    R: Threads,
    D: Disk + Drop,
    P: Ports<S, K>,
    S: Source,
    K: Sink,
    J: Origin<D>,
    ensures { IfSome result (λ seats. (length seats.items ≡ length threads.items) × ((k : ℕ) (d e : _) → k < length threads.items → IsAttended (IsSharedAnswer D.tells D.view J.steady) (at_pipes P.are_of (read_from S.left S.faults) (written_to K.taken K.faults) ((slice_index_or (map (λ t. t.promise.was.value) threads.items) k d).caller + 1)) (slice_index_or (map (λ t. t.promise.was.value) threads.items) k d).seat.table_id (slice_index_or (map (λ t. t.promise.was.value) threads.items) k d).caller (slice_index_or seats.items k e).seat.table_id (slice_index_or seats.items k e).caller (slice_index_or seats.items k e).seat.me.0.seen)) }
{
    match thread::join_promised(rt, threads) {
        Ok(seats) => Some(seats),
        Err(refused) => {
            for thread in refused.value {
                let _ = thread.join(rt);
            }
            None
        }
    }
}

/// The node that all threads shared, where none has it any more and each gave its seat back: one
/// trail of the requests of all seats led to it.
fn left_node<R, D, P, S, K, J>(
    shared: Arc<Shared<R, D, P, J>, Global>,
    keeper: Keeper<ServedNode<D, J>>,
    seats: Option<Vec<ClientSeat<D, J>>>,
) -> Option<JournalNode<D>>
where
    R: Drop,
    D: Disk + Drop,
    P: Ports<S, K> + Drop,
    S: Source,
    K: Sink,
    J: Origin<D>,
    requires keeper { (keeper.made ≡ shared.value.gate.seats) × (keeper.seat.table_id ≡ shared.value.gate.table.shared.table_id) }
    requires all { IfSome seats (λ v. length v.items ≡ shared.value.gate.seats) }
    requires own { IfSome seats (λ v. AllAt (λ k s. IsAttended (IsSharedAnswer D.tells D.view J.steady) (at_pipes P.are_of (read_from S.left S.faults) (written_to K.taken K.faults) (k + 1)) shared.value.gate.table.shared.table_id k s.seat.table_id s.caller s.seat.me.0.seen) v.items) }
    ensures { IfSome result (λ n. IsSharedFrom D.tells D.is_told D.view J.steady (at_pipes P.are_of (read_from S.left S.faults) (written_to K.taken K.faults)) J.first shared.value.gate.seats n) }
{
    let Some(seats) = seats else {
        return None;
    };
    match Arc::into_inner(shared) {
        Some(shared) => Some(shared.into_gate().close(seats, keeper).into_node()),
        None => None,
    }
}

/// Serves a node that began so.
fn serve_from<J, R, D, P, S, K, I>(
    rt: R,
    alloc: Global,
    node: JournalNode<D>,
    ports: P,
    clients: usize,
    input: I,
) -> Result<Served<D>, OutOfMemory>
where
    J: Origin<D> + Send + Sync + 'static,
    R: Threads + Wait + Clock + Send + Sync + Drop + 'static,
    D: Disk + Send + Drop + 'static,
    P: Ports<S, K> + Send + Sync + Drop + 'static,
    S: Source + Send + Drop + 'static,
    K: Sink + Send + Drop + 'static,
    I: Source + Send + Drop + 'static,
    requires first { J.first node }
    requires steady { J.steady → D.steady node.disk }
    ensures stopped { IfOk result (λ served. served.end ≡ ServeEnd.Stopped → (after : I) × IsReadOut (read_from I.left I.faults input after)) }
    ensures steady { IfOk result (λ served. J.steady → served.end ≢ ServeEnd.DiskFault) }
    ensures shared { IfOk result (λ served. IfSome served.node (λ n. IsSharedFrom D.tells D.is_told D.view J.steady (at_pipes P.are_of (read_from S.left S.faults) (written_to K.taken K.faults)) J.first clients n)) }
{
    let Ok(count) = u32::try_from(clients) else {
        return Err(AllocError);
    };
    let (gate, seats, keeper) = Gate::new(alloc, ServedNode::new(alloc, node), count)?;
    let shared = Arc::new(alloc, Shared::<R, D, P, J>::new(rt, alloc, gate, ports))?;
    let threads = start_clients::<R, D, P, S, K, J>(alloc, &shared, seats)?;
    let reader = start_input(&shared, input)?;
    match shared.wait_for_end() {
        ServeEnd::Stopped => {
            reader.join(&shared.rt);
            if !shared.are_through(clients as u64) {
                shared.close();
                return Ok(Served {
                    end: ServeEnd::Stopped,
                    node: None,
                });
            }
            let seats = join_all::<R, D, P, S, K, J>(&shared.rt, threads);
            Ok(Served {
                end: ServeEnd::Stopped,
                node: left_node::<R, D, P, S, K, J>(shared, keeper, seats),
            })
        }
        ServeEnd::DiskFault => Ok(Served {
            end: ServeEnd::DiskFault,
            node: None,
        }),
        ServeEnd::OutOfMemory => Ok(Served {
            end: ServeEnd::OutOfMemory,
            node: None,
        }),
    }
}

/// Serves a node to so many clients, a thread each, whose pipes are opened again and again, until
/// the input ends or the node can't go on: the first end that comes is the process's. Where the
/// input ended or failed, all threads are joined that see it after their sessions within half a
/// second. Where some don't, as one that waits for its client, no call of a client begins any more,
/// the one that is under way is waited for, and no node is left. Where the disk failed or there was
/// no memory no thread is waited for; no reply follows. Each session is one of `serve_session`.
///
/// The node that is left is what one trail of requests made of the node that was served, each
/// answered as such a node answers: of each client the trail has just the calls of its sessions, in
/// their order, and it has no others; each session went over ends that were opened as this client's.
/// Nothing of it is kept in memory.
#[tactic(auto, using(crate::proofs::TrailLaws::shares))]
pub fn serve_clients<R, D, P, S, K, I>(
    rt: R,
    alloc: Global,
    node: JournalNode<D>,
    ports: P,
    clients: usize,
    input: I,
) -> Served<D>
where
    R: Threads + Wait + Clock + Send + Sync + Drop + 'static,
    D: Disk + Send + Drop + 'static,
    P: Ports<S, K> + Send + Sync + Drop + 'static,
    S: Source + Send + Drop + 'static,
    K: Sink + Send + Drop + 'static,
    I: Source + Send + Drop + 'static,
    ensures stopped { result.end ≡ ServeEnd.Stopped → (after : I) × IsReadOut (read_from I.left I.faults input after) }
    ensures steady { D.steady node.disk → result.end ≢ ServeEnd.DiskFault }
    ensures node { IfSome result.node (λ n. Leads (state_told D.is_told D.view node) (state_told D.is_told D.view n)) }
    ensures shared { IfSome result.node (λ n. IsSharedOut D.tells D.is_told D.view (D.steady node.disk) (at_pipes P.are_of (read_from S.left S.faults) (written_to K.taken K.faults)) node clients n) }
{
    match serve_from::<Brand, R, D, P, S, K, I>(rt, alloc, node, ports, clients, input) {
        Ok(served) => served,
        Err(_) => Served {
            end: ServeEnd::OutOfMemory,
            node: None,
        },
    }
}

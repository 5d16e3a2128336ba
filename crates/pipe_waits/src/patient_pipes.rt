//! The pipes to nodes, which carriers read and write.
ghost use Rattle.std.specs.Prelude.{◌≤◌};

use crate::board::Board;
use crate::lane::PIECE;
use crate::node_ends::NodeEnds;
use crate::patient_reader::PatientReader;
use crate::patient_writer::PatientWriter;
use base_outside::{OutOfMemory, Sink, Source};
use pipe_seats::{FileSink, FileSource, Opener};
use std::alloc::Global;
use std::marker::PhantomData;
use std::sync::{Arc, Wait};
use std::thread::{self, Threads};
use std::time::Clock;

/// How many microseconds a second has.
const SECOND: u64 = 1_000_000;

/// The pipes to nodes, as who asks: of each node the one is written to, the other is read, by two
/// threads, its carriers, which are never joined. Neither an opening nor a write waits, and a read
/// waits no longer than the round lasts.
#[derive(Drop)]
pub struct PatientPipes<R, P, S, K> {
    board: Arc<Board<R, K>, Global>,
    ends: Arc<P, Global>,
    of: PhantomData<S>,
}

/// Starts the carrier of requests of this node, counted from 0.
fn begin_requests<R, P, S, K>(
    board: &Arc<Board<R, K>, Global>,
    ends: &Arc<P, Global>,
    node: usize,
) -> Result<(), OutOfMemory>
where
    R: Threads + Wait + Clock + Send + Sync + Drop + 'static,
    P: NodeEnds<S, K> + Send + Sync + Drop + 'static,
    S: Source + Send + Drop + 'static,
    K: Sink + Send + Drop + 'static,
{
    let ours = Arc::try_clone(board)?;
    let ends = Arc::try_clone(ends)?;
    let _carrier = thread::spawn(&board.rt, move || {
        ours.carry_requests::<P, S>(&*ends, node)
    })?;
    Ok(())
}

/// Starts the carrier of replies of this node, counted from 0.
fn begin_replies<R, P, S, K>(
    board: &Arc<Board<R, K>, Global>,
    ends: &Arc<P, Global>,
    node: usize,
) -> Result<(), OutOfMemory>
where
    R: Threads + Wait + Clock + Send + Sync + Drop + 'static,
    P: NodeEnds<S, K> + Send + Sync + Drop + 'static,
    S: Source + Send + Drop + 'static,
    K: Sink + Send + Drop + 'static,
{
    let ours = Arc::try_clone(board)?;
    let ends = Arc::try_clone(ends)?;
    let piece = vec![in board.alloc; 0; PIECE]?;
    let _carrier = thread::spawn(&board.rt, move || {
        ours.carry_replies::<P, S>(&*ends, node, piece)
    })?;
    Ok(())
}

/// Starts the carriers of so many nodes.
fn begin_all<R, P, S, K>(
    board: &Arc<Board<R, K>, Global>,
    ends: &Arc<P, Global>,
    nodes: usize,
) -> Result<(), OutOfMemory>
where
    R: Threads + Wait + Clock + Send + Sync + Drop + 'static,
    P: NodeEnds<S, K> + Send + Sync + Drop + 'static,
    S: Source + Send + Drop + 'static,
    K: Sink + Send + Drop + 'static,
{
    for node in 0..nodes {
        begin_requests::<R, P, S, K>(board, ends, node)?;
        begin_replies::<R, P, S, K>(board, ends, node)?;
    }
    Ok(())
}

impl<R, P, S, K> PatientPipes<R, P, S, K>
where
    R: Threads + Wait + Clock + Send + Sync + Drop + 'static,
    P: NodeEnds<S, K> + Send + Sync + Drop + 'static,
    S: Source + Send + Drop + 'static,
    K: Sink + Send + Drop + 'static,
{
    /// Those of so many nodes, whose ends are opened so, and whose carriers are started. The replies
    /// of a round are waited for for so many seconds. An `Err` is lack of memory, or of threads.
    pub fn new(
        rt: R,
        alloc: Global,
        ends: P,
        nodes: usize,
        seconds: u64,
    ) -> Result<PatientPipes<R, P, S, K>, OutOfMemory> {
        let limit = seconds.saturating_mul(SECOND);
        let board = Arc::new(alloc, Board::new(rt, alloc, nodes, limit)?)?;
        let ends = Arc::new(alloc, ends)?;
        begin_all::<R, P, S, K>(&board, &ends, nodes)?;
        Ok(PatientPipes {
            board,
            ends,
            of: PhantomData,
        })
    }
}

impl<R: Wait + Clock + Drop, P, S, K: Sink + Drop> PatientPipes<R, P, S, K> {
    /// The end of which the replies of this node are read, counted from 0, and the end to which
    /// requests are written. An `Err` is lack of memory.
    fn far_ends(
        &self,
        node: usize,
    ) -> Result<
        (
            FileSource<PatientReader<R, K>>,
            FileSink<PatientWriter<R, K>>,
        ),
        OutOfMemory,
    > {
        let reader = PatientReader::new(Arc::try_clone(&self.board)?, node);
        let writer = PatientWriter::new(Arc::try_clone(&self.board)?, node);
        Ok((FileSource::new(reader), FileSink::new(writer)))
    }
}

impl<R, P, S, K> Opener<FileSource<PatientReader<R, K>>, FileSink<PatientWriter<R, K>>>
    for PatientPipes<R, P, S, K>
where
    R: Wait + Clock + Drop,
    P: NodeEnds<S, K>,
    K: Sink + Drop,
{
    ghost are_of = { λ node source sink. Unit {0} };

    fn open(
        &mut self,
        node: usize,
    ) -> Option<
        (
            FileSource<PatientReader<R, K>>,
            FileSink<PatientWriter<R, K>>,
        ),
    > {
        if !self.ends.are_there(node) || !self.board.take_into_use(node - 1) {
            return None;
        }
        self.far_ends(node - 1).ok()
    }
}

//! A case is done.
use crate::case::{Case, DiskBefore, NamedFile};
use crate::counted_pass::CountedPass;
use crate::hold::HoldEnd;
use base_disk::{Disk, DiskFail, MemDisk, UntoldDisk};
use base_outside::{MemSink, MemSource};
use cli_commands::Status;
use qj_cli::{qjm, qjm_alone};
use std::alloc::{AllocError, Global};
use std::mem;
use std::sync::Wait;
use std::thread::Threads;

/// What a case came to.
#[derive(Drop)]
pub struct Done {
    /// None where threads were asked for and there are none.
    pub status: Option<Status>,
    pub text: Vec<u8>,
    pub passes: u64,
    /// How the call ended that was to be held, if there was one.
    pub hold: Option<HoldEnd>,
}

/// What the program reads and writes, and what its threads pass.
#[derive(Drop)]
struct Ends {
    source: MemSource,
    sink: MemSink,
    pass: CountedPass,
}

impl Ends {
    fn new(alloc: Global, case: &Case) -> Result<Ends, AllocError> {
        let source = MemSource::new(case.input.clone()?, case.lost.reads.clone()?);
        Ok(Ends {
            source,
            sink: MemSink::new(alloc, case.room, case.lost.writes.clone()?)?,
            pass: CountedPass::new(case.hold),
        })
    }

    fn done(&self, alloc: Global, status: Option<Status>) -> Result<Done, AllocError> {
        Ok(Done {
            status,
            text: self.sink.bytes().to_vec(alloc)?,
            passes: self.pass.passes(),
            hold: self.pass.hold_end(),
        })
    }
}

/// Does a case, where the disk is that of the case before.
pub fn do_case<R: Threads + Wait + Sync>(
    rt: &R,
    alloc: Global,
    case: &Case,
    disk: &mut MemDisk,
) -> anyhow::Result<Done> {
    make_ready(alloc, case, disk)?;
    let mut ends = Ends::new(alloc, case)?;
    let status = if case.is_alone {
        run_alone(alloc, &case.words, &mut ends, disk)
    } else {
        Some(run(rt, alloc, &case.words, &mut ends, disk))
    };
    Ok(ends.done(alloc, status)?)
}

fn run<R: Threads + Wait + Sync>(
    rt: &R,
    alloc: Global,
    words: &[String],
    ends: &mut Ends,
    disk: &mut MemDisk,
) -> Status {
    let exit = qjm(
        rt,
        alloc,
        &ends.pass,
        words,
        &mut ends.source,
        &mut ends.sink,
        disk,
    );
    exit.status
}

fn run_alone(
    alloc: Global,
    words: &[String],
    ends: &mut Ends,
    disk: &mut MemDisk,
) -> Option<Status> {
    let mut untold = UntoldDisk::new(mem::replace(disk, MemDisk::new(alloc)));
    let status = match qjm_alone(alloc, words, &mut ends.source, &mut ends.sink, &mut untold) {
        Ok(exit) => Some(exit.status),
        Err(_) => None,
    };
    *disk = untold.disk;
    status
}

/// Makes the disk that of the case before the run.
fn make_ready(alloc: Global, case: &Case, disk: &mut MemDisk) -> Result<(), DiskFail> {
    match case.before {
        DiskBefore::Emptied => *disk = MemDisk::new(alloc),
        DiskBefore::Kept => {}
        DiskBefore::Crashed(choice) => disk.crash(choice),
    }
    disk.fail_at(Vec::new(alloc));
    put_files(disk, &case.files)?;
    disk.fail_at(case.lost.disk.clone()?);
    if let Some(calls) = case.stop {
        disk.stop_after(calls);
    }
    Ok(())
}

fn put_files(disk: &mut MemDisk, files: &[NamedFile]) -> Result<(), DiskFail> {
    for file in files {
        disk.write_at(&file.name, 0, &file.bytes)?;
    }
    Ok(())
}

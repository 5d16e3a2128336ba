//! The lives of a name node's folder are counted.
ghost use Rattle.std.specs.Prelude.{◌≤◌, ◌^◌, IfOk, IfErr, OnOk, codes};
ghost use Rattle.base_disk.specs.Calls.{HasCause};
ghost use Rattle.base_disk.specs.DiskCalls.{LacksFile};
ghost use Rattle.base_files.specs.Puts.{temporary};
ghost use Rattle.cli_cluster.specs.Images.{TellsFaults};
ghost use Rattle.cli_cluster.specs.Starts.{HoldsStarts, CountsStart, FailsToCount};

use base_disk::{Disk, DiskFail};
use base_files::{Got, NumberFile};
use cli_commands::CommandFault;
use std::alloc::Global;

/// The file that holds how often a name node was started in its folder.
const STARTS: &str = "starts";

/// What is left where a start ends while it is being counted.
const LEFT: &str = "starts.tmp";

/// The most starts of a folder.
const MOST_STARTS: u64 = 4_611_686_018_427_387_904;

/// Removes what an earlier start left that ended while it was being counted.
#[tactic(auto, using(crate::proofs::CauseLaws::causes))]
fn clear_left<D: Disk>(disk: &mut D) -> Result<(), DiskFail>
    ensures tells { D.tells disk.old → D.tells disk.new }
    ensures cause { HasCause (D.faults disk.old) (D.faults disk.new) (D.steady disk.old) (D.steady disk.new) result }
    ensures gone { OnOk result (LacksFile D.DiskModel disk.new (temporary (codes "starts"))) }
{
    match disk.length(LEFT)? {
        Some(_) => disk.remove(LEFT),
        None => Ok(()),
    }
}

/// Puts the number of starts, of at most 2^62, into its file.
#[tactic(auto, using(crate::proofs::StartLaws::puts, crate::proofs::CauseLaws::causes))]
fn put_start<D: Disk>(disk: &mut D, number: u64) -> Result<(), DiskFail>
    requires { number ≤ 2 ^ 62 }
    ensures holds { D.tells disk.old → OnOk result (HoldsStarts number (D.view disk.new)) }
    ensures cause { HasCause (D.faults disk.old) (D.faults disk.new) (D.steady disk.old) (D.steady disk.new) result }
{
    clear_left(disk)?;
    NumberFile::put(disk, STARTS, number)
}

/// Counts one more start of the folder, and tells its number, which no earlier one had: it is put
/// into the file `starts` before this answers, and no crash undoes that. `BadFile`: the file holds
/// no number. `Limit`: there were 2^62 starts. `DiskFault`: the disk failed; the start may be
/// counted then. `OutOfMemory`: there was no memory.
#[tactic(auto, using(crate::proofs::StartLaws::counts, crate::proofs::CauseLaws::told))]
pub fn count_start<D: Disk>(alloc: Global, disk: &mut D) -> Result<u64, CommandFault>
    ensures counts { D.tells disk.old → IfOk result (λ life. CountsStart life (D.view disk.old) (D.view disk.new)) }
    ensures cause { TellsFaults D.DiskModel disk.old disk.new result }
    ensures fails { IfErr result (FailsToCount D.DiskModel disk.old) }
{
    let earlier = match NumberFile::get(alloc, disk, STARTS) {
        Got::Value(number) => number,
        Got::BadFile { name } => return Err(CommandFault::BadFile(name)),
        Got::DiskFault => return Err(CommandFault::DiskFault),
        Got::OutOfMemory => return Err(CommandFault::OutOfMemory),
    };
    if MOST_STARTS <= earlier {
        return Err(CommandFault::Limit(MOST_STARTS));
    }
    match put_start(disk, earlier + 1) {
        Ok(()) => Ok(earlier + 1),
        Err(DiskFail::Failed) => Err(CommandFault::DiskFault),
        Err(DiskFail::OutOfMemory) => Err(CommandFault::OutOfMemory),
    }
}

//! The files of a folder are checked, name by name.
ghost use Rattle.std.specs.Prelude.{◌≡◌, ◌<◌, ◌+◌, ◌-◌, ◌^◌, Some, IfOk, OnOk, IsErrOf, map, string_bytes};
ghost use Rattle.base_disk.specs.Calls.{Rests, Lists};
ghost use Rattle.base_disk.specs.DiskCalls.{HasFile, IfTold, IsDiskRun};
ghost use Rattle.list_fsck.specs.Roles.{HasRole};
ghost use Rattle.list_fsck.specs.Rules.{IsVerdict};
ghost use Rattle.list_fsck.specs.Reports.{IsReport};
ghost use Rattle.list_fsck.specs.Steps.{AddsVerdict, IsSoFar};

use crate::file_role::FileRole;
use crate::finding::Finding;
use crate::images::{check_digest, check_image};
use crate::naming::role_of;
use crate::numbers::{check_number, check_record};
use crate::report::{SoFar, one_if, put_count, put_line};
use crate::rule::Rule;
use crate::segments::{judge_final, judge_progress, read_segment};
use base_disk::{Disk, DiskFail};
use std::alloc::Global;

// What is told of the file of this name, which has this role.
fn check_file<D: Disk>(
    alloc: Global,
    disk: &mut D,
    name: &str,
    role: FileRole,
    before: u64,
) -> Result<Option<Finding>, DiskFail>
    requires named { HasRole name.now role }
    requires there { HasFile D.DiskModel disk.old name.now }

    ensures call { IsDiskRun D.DiskModel disk.old disk.new result }
    ensures found { D.tells disk.old
        → IfOk result (IsVerdict (D.view disk.old).seen before name.now role) }
    ensures disk { IfTold D.DiskModel disk.old disk.new Rests }
{
    match role {
        FileRole::Number(number) => check_number(alloc, disk, number),
        FileRole::Record { start } => check_record(alloc, disk, start),
        FileRole::InProgress { start } => {
            let read = read_segment(alloc, disk, name)?;
            Ok(judge_progress(read, start))
        }
        FileRole::Final { start, last } => {
            let read = read_segment(alloc, disk, name)?;
            Ok(judge_final(read, start, last, before))
        }
        FileRole::Image { txid } => check_image(alloc, disk, txid),
        FileRole::Digest { txid } => check_digest(disk, txid),
        FileRole::Passing => Ok(None),
        FileRole::Unknown => Ok(Some(Finding {
            rule: Rule::KnownName,
            first: 0,
            second: 0,
        })),
    }
}

// Checks the file of this name, and adds its line.
fn check_one<D: Disk>(
    alloc: Global,
    disk: &mut D,
    name: &str,
    so_far: &mut SoFar,
) -> Result<(), DiskFail>
    requires there { HasFile D.DiskModel disk.old name.now }
    requires room { so_far.old.findings < 2 ^ 64 - 1 }

    ensures call { IsDiskRun D.DiskModel disk.old disk.new result }
    ensures adds { OnOk result (AddsVerdict (D.tells disk.old) (D.view disk.old).seen name.now so_far.old so_far.new) }
    ensures disk { IfTold D.DiskModel disk.old disk.new Rests }
{
    let role = role_of(name.as_bytes());
    let found = check_file(alloc, disk, name, role, so_far.before)?;
    put_line(&mut so_far.text, name.as_bytes(), &found)?;
    so_far.findings += one_if(&found);
    so_far.before = role.end_after(so_far.before);
    Ok(())
}

// Checks the files of these names.
fn check_names<D: Disk>(alloc: Global, disk: &mut D, names: &[String]) -> Result<SoFar, DiskFail>
    requires { D.tells disk.old → Lists (map string_bytes names.now) (D.view disk.old).seen }

    ensures call { IsDiskRun D.DiskModel disk.old disk.new result }
    ensures checked { IfOk result (IsSoFar (D.tells disk.old) (D.view disk.old).seen (map string_bytes names.now)) }
    ensures disk { IfTold D.DiskModel disk.old disk.new Rests }
{
    let mut so_far = SoFar::new(alloc);
    for name in names {
        check_one(alloc, disk, name.as_str(), &mut so_far)?;
    }
    Ok(so_far)
}

/// The report of a folder, and how many findings it tells. Every file is read once, one after the
/// other; that of the promised epoch once more.
pub fn report_of<D: Disk>(alloc: Global, disk: &mut D) -> Result<(Vec<u8>, u64), DiskFail>
    ensures call { IsDiskRun D.DiskModel disk.old disk.new result }
    ensures report { IfOk result (λ r. IsReport (D.tells disk.old) (D.view disk.old).seen r.0.items r.1) }
    ensures stopped { D.left disk.old ≡ Some 0 → IsErrOf result DiskFail.Failed }
    ensures disk { IfTold D.DiskModel disk.old disk.new Rests }
{
    let names = disk.list()?;
    let SoFar {
        mut text,
        findings,
        before: _,
    } = check_names(alloc, disk, &names)?;
    put_count(&mut text, findings)?;
    Ok((text, findings))
}

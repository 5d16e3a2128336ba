//! The edits of a generated script.
ghost use Rattle.std.specs.Prelude.{◌≡◌, ◌++◌, ◌∷◌, [], ◌<◌, ◌≤◌, ◌+◌, IfOk, OnOk};
ghost use Rattle.play_script.specs.declared.script_line.ScriptLine.TheVariants.{Edits};
ghost use Rattle.play_script.specs.Generated.{directory_path, file_path, owner, directory_edit, file_edit, edit_after};

use crate::script_line::ScriptLine;
use base_words::{Name, put_decimal};
use edit_ops::{Edit, EditList, Op};
use journal_core::OutOfMemory;
use std::alloc::Global;

/// How many edits lie between two directories.
const DIRECTORY_STEP: u64 = 100;

/// No path is longer.
const PATH_ROOM: usize = 16;

fn directory_path(alloc: Global, directory: u64) -> Result<Vec<u8>, OutOfMemory>
    ensures { IfOk result (λ path. path.items ≡ directory_path directory) }
{
    let mut path = Vec::with_capacity(alloc, PATH_ROOM)?;
    path.extend_from_slice(b"/d")?;
    put_decimal(&mut path, directory)?;
    Ok(path)
}

fn file_path(alloc: Global, directory: u64, number: u64) -> Result<Vec<u8>, OutOfMemory>
    ensures { IfOk result (λ path. path.items ≡ file_path directory number) }
{
    let mut path = directory_path(alloc, directory)?;
    path.extend_from_slice(b"/f")?;
    put_decimal(&mut path, number)?;
    Ok(path)
}

/// The user and the group.
fn owner(alloc: Global) -> Result<Name, OutOfMemory>
    ensures { IfOk result (λ name. name ≡ owner) }
{
    Name::from_slice(alloc, b"gen")
}

#[tactic(auto, using(crate::proofs::MadeEditLaws::are_edits))]
fn directory_edit(alloc: Global, directory: u64, number: u64) -> Result<Edit, OutOfMemory>
    requires few { directory ≤ 100 }
    requires small { number ≤ 10000 }
    ensures { IfOk result (λ edit. edit ≡ directory_edit directory number) }
{
    let op = Op::Mkdir {
        path: Name::from_slice(alloc, directory_path(alloc, directory)?.as_slice())?,
        time: number,
        permission: 0o755,
        user: owner(alloc)?,
        group: owner(alloc)?,
    };
    Ok(Edit { op, call: None })
}

#[tactic(auto, using(crate::proofs::MadeEditLaws::are_edits))]
fn file_edit(alloc: Global, directory: u64, number: u64) -> Result<Edit, OutOfMemory>
    requires few { directory ≤ 100 }
    requires small { number ≤ 10000 }
    ensures { IfOk result (λ edit. edit ≡ file_edit directory number) }
{
    let op = Op::Add {
        path: Name::from_slice(alloc, file_path(alloc, directory, number)?.as_slice())?,
        replication: 3,
        mtime: number,
        atime: number,
        block_size: 1,
        permission: 0o644,
        user: owner(alloc)?,
        group: owner(alloc)?,
    };
    Ok(Edit { op, call: None })
}

/// The edit after so many others.
fn edit_after(alloc: Global, count: u64) -> Result<Edit, OutOfMemory>
    requires { count < 10000 }
    ensures { IfOk result (λ edit. edit ≡ edit_after count) }
{
    let directory = count / DIRECTORY_STEP;
    if count % DIRECTORY_STEP == 0 {
        directory_edit(alloc, directory, count + 1)
    } else {
        file_edit(alloc, directory, count + 1)
    }
}

/// Adds the line with which the writer logs the edit after so many others.
pub(crate) fn put_edit(
    alloc: Global,
    lines: &mut Vec<ScriptLine>,
    writer: u32,
    count: u64,
) -> Result<(), OutOfMemory>
    requires { count < 10000 }
    ensures { OnOk result (lines.new.items ≡ lines.old.items ++ Edits writer (edit_after count ∷ []) ∷ []) }
{
    let mut edits = EditList::new(alloc);
    edits.push(edit_after(alloc, count)?)?;
    lines.push(ScriptLine::Edits {
        actor: writer,
        edits,
    })?;
    Ok(())
}

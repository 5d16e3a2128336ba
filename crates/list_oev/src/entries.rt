//! An edit as JSON.
ghost use Rattle.std.specs.Prelude.{◌≡◌, ◌++◌, ◌∷◌, map, Option, Some};
ghost use Rattle.std.specs.List.{flat_map, AllByRecursion};
ghost use Rattle.json.specs.Tree.{json_tokens};
ghost use Rattle.list_text.specs.Values.{member_tokens, IsAsciiMember};
ghost use Rattle.list_text.specs.Written.{Adds};
ghost use Rattle.edit_ops.specs.Grammar.{IsEdit};
ghost use Rattle.list_oev.specs.Entries.{early, call_members, late, entry};

use base_words::OutOfMemory;
use edit_ops::{Call, Edit, Op};
use json::Writer;
use list_text::{Member, close_object, open_object, put_members};
use std::alloc::Global;

// Adds the members whose keys come before those of a call.
fn put_early(writer: &mut Writer, op: &Op) -> Result<(), OutOfMemory>
    ensures { Adds result writer.old writer.new (flat_map member_tokens (early op.now)) }
{
    match op {
        Op::Add {
            atime,
            block_size,
            ..
        } => put_members(
            writer,
            &[
                Member::Number("atime", *atime),
                Member::Number("blocksize", *block_size),
            ],
        ),
        Op::Close { atime, .. } | Op::Times { atime, .. } => {
            put_members(writer, &[Member::Number("atime", *atime)])
        }
        Op::RenameOld { .. }
        | Op::Delete { .. }
        | Op::Mkdir { .. }
        | Op::SetReplication { .. }
        | Op::SetPermissions { .. }
        | Op::SetOwner { .. }
        | Op::SetQuota { .. }
        | Op::Rename { .. }
        | Op::ConcatDelete { .. }
        | Op::EndLogSegment
        | Op::StartLogSegment => put_members(writer, &[]),
    }
}

// Adds the number of a call, and its client as hexadecimal digits.
#[tactic(auto, using(crate::proofs::EntryLaws::client_ascii))]
fn put_call(alloc: Global, writer: &mut Writer, call: &Call) -> Result<(), OutOfMemory>
    ensures { Adds result writer.old writer.new (flat_map member_tokens (call_members (Some call.now))) }
{
    let client = hex::encode(alloc, call.client)?;
    put_members(
        writer,
        &[
            Member::Number("callid", u64::from(call.number)),
            Member::Word("clientid", client.as_str()),
        ],
    )
}

// Adds the call of an edit, where it has one.
fn put_caller(alloc: Global, writer: &mut Writer, call: &Option<Call>) -> Result<(), OutOfMemory>
    ensures { Adds result writer.old writer.new (flat_map member_tokens (call_members call.now)) }
{
    match call {
        Some(call) => put_call(alloc, writer, call),
        None => put_members(writer, &[]),
    }
}

// Adds the members whose keys come after those of a call.
fn put_late(writer: &mut Writer, txid: u64, op: &Op) -> Result<(), OutOfMemory>
    requires { AllByRecursion IsAsciiMember (late txid op.now) }
    ensures { Adds result writer.old writer.new (flat_map member_tokens (late txid op.now)) }
{
    match op {
        Op::Add {
            path,
            replication,
            mtime,
            atime: _,
            block_size: _,
            permission,
            user,
            group,
        } => put_members(
            writer,
            &[
                Member::Text("group", group.as_slice()),
                Member::Number("mtime", *mtime),
                Member::Word("op", "OP_ADD"),
                Member::Text("path", path.as_slice()),
                Member::Number("permission", u64::from(*permission)),
                Member::Number("replication", u64::from(*replication)),
                Member::Number("txid", txid),
                Member::Text("user", user.as_slice()),
            ],
        ),
        Op::RenameOld { src, dst, time } => put_members(
            writer,
            &[
                Member::Text("dst", dst.as_slice()),
                Member::Word("op", "OP_RENAME_OLD"),
                Member::Text("src", src.as_slice()),
                Member::Number("time", *time),
                Member::Number("txid", txid),
            ],
        ),
        Op::Delete { path, time } => put_members(
            writer,
            &[
                Member::Word("op", "OP_DELETE"),
                Member::Text("path", path.as_slice()),
                Member::Number("time", *time),
                Member::Number("txid", txid),
            ],
        ),
        Op::Mkdir {
            path,
            time,
            permission,
            user,
            group,
        } => put_members(
            writer,
            &[
                Member::Text("group", group.as_slice()),
                Member::Word("op", "OP_MKDIR"),
                Member::Text("path", path.as_slice()),
                Member::Number("permission", u64::from(*permission)),
                Member::Number("time", *time),
                Member::Number("txid", txid),
                Member::Text("user", user.as_slice()),
            ],
        ),
        Op::SetReplication { path, replication } => put_members(
            writer,
            &[
                Member::Word("op", "OP_SET_REPLICATION"),
                Member::Text("path", path.as_slice()),
                Member::Number("replication", u64::from(*replication)),
                Member::Number("txid", txid),
            ],
        ),
        Op::SetPermissions { path, permission } => put_members(
            writer,
            &[
                Member::Word("op", "OP_SET_PERMISSIONS"),
                Member::Text("path", path.as_slice()),
                Member::Number("permission", u64::from(*permission)),
                Member::Number("txid", txid),
            ],
        ),
        Op::SetOwner { path, user, group } => put_members(
            writer,
            &[
                Member::Text("group", group.as_slice()),
                Member::Word("op", "OP_SET_OWNER"),
                Member::Text("path", path.as_slice()),
                Member::Number("txid", txid),
                Member::Text("user", user.as_slice()),
            ],
        ),
        Op::Close {
            path,
            mtime,
            atime: _,
            lengths,
        } => put_members(
            writer,
            &[
                Member::Numbers("lengths", lengths.as_slice()),
                Member::Number("mtime", *mtime),
                Member::Word("op", "OP_CLOSE"),
                Member::Text("path", path.as_slice()),
                Member::Number("txid", txid),
            ],
        ),
        Op::Times {
            path,
            mtime,
            atime: _,
        } => put_members(
            writer,
            &[
                Member::Number("mtime", *mtime),
                Member::Word("op", "OP_TIMES"),
                Member::Text("path", path.as_slice()),
                Member::Number("txid", txid),
            ],
        ),
        Op::SetQuota { path, names, space } => put_members(
            writer,
            &[
                Member::Number("dsquota", *space),
                Member::Number("nsquota", *names),
                Member::Word("op", "OP_SET_QUOTA"),
                Member::Text("path", path.as_slice()),
                Member::Number("txid", txid),
            ],
        ),
        Op::Rename {
            src,
            dst,
            time,
            overwrite,
        } => put_members(
            writer,
            &[
                Member::Text("dst", dst.as_slice()),
                Member::Word("op", "OP_RENAME"),
                Member::Flag("overwrite", *overwrite),
                Member::Text("src", src.as_slice()),
                Member::Number("time", *time),
                Member::Number("txid", txid),
            ],
        ),
        Op::ConcatDelete {
            target,
            time,
            sources,
        } => put_members(
            writer,
            &[
                Member::Word("op", "OP_CONCAT_DELETE"),
                Member::Texts("sources", sources.as_slice()),
                Member::Text("target", target.as_slice()),
                Member::Number("time", *time),
                Member::Number("txid", txid),
            ],
        ),
        Op::EndLogSegment => put_members(
            writer,
            &[
                Member::Word("op", "OP_END_LOG_SEGMENT"),
                Member::Number("txid", txid),
            ],
        ),
        Op::StartLogSegment => put_members(
            writer,
            &[
                Member::Word("op", "OP_START_LOG_SEGMENT"),
                Member::Number("txid", txid),
            ],
        ),
    }
}

// Adds an edit as an object.
fn put_entry(alloc: Global, writer: &mut Writer, txid: u64, edit: &Edit) -> Result<(), OutOfMemory>
    requires { IsEdit edit.now }
    ensures { Adds result writer.old writer.new (json_tokens (entry txid edit.now)) }
{
    open_object(writer)?;
    put_early(writer, &edit.op)?;
    put_caller(alloc, writer, &edit.call)?;
    put_late(writer, txid, &edit.op)?;
    close_object(writer)
}

/// Adds an edit as an object, and drops the edit.
pub(crate) fn put_owned_entry(
    alloc: Global,
    writer: &mut Writer,
    txid: u64,
    edit: Edit,
) -> Result<(), OutOfMemory>
    requires { IsEdit edit }
    ensures { Adds result writer.old writer.new (json_tokens (entry txid edit)) }
{
    put_entry(alloc, writer, txid, &edit)
}

//! The roles of files by their names.
ghost use Rattle.std.specs.Prelude.{◌≡◌, ◌≢◌, ◌≤◌, ◌^◌, ◌++◌, ℕ, List, MatchOption, MatchBool, codes};
ghost use Rattle.base_words.specs.Padded.{padded};
ghost use Rattle.disk_files.specs.Durable.{number_name};
ghost use Rattle.disk_files.specs.declared.node_number.NodeNumber.{NodeNumber};
ghost use Rattle.disk_opening.specs.Kinds.{IsNamed, IsTold, kind_told};
ghost use Rattle.disk_segment.specs.Names.{Kind};
ghost use Rattle.ns_store.specs.Lists.{IsNamed as IsImageName};
ghost use Rattle.list_fsck.specs.Roles.{HasRole, IsKnownAs};
ghost use Rattle.list_fsck.specs.Steps.{IsOfImage, IsLeft};

use crate::file_role::FileRole;
use base_words::read19;
use disk_files::NodeNumber;
use disk_opening::{FileKind, file_named};
use ns_store::txid_of;

// Whether the name is that of the file of this number.
fn is_of_number(name: &[u8], number: NodeNumber) -> bool
    ensures { MatchBool result (name.now ≡ number_name number) (name.now ≢ number_name number) }
{
    name == number.name().as_bytes()
}

// The number whose file has this name.
fn number_named(name: &[u8]) -> Option<NodeNumber>
    ensures { MatchOption result ((n : NodeNumber) → name.now ≢ number_name n) (λ n. name.now ≡ number_name n) }
{
    if is_of_number(name, NodeNumber::Promised) {
        return Some(NodeNumber::Promised);
    }
    if is_of_number(name, NodeNumber::Writer) {
        return Some(NodeNumber::Writer);
    }
    if is_of_number(name, NodeNumber::Committed) {
        return Some(NodeNumber::Committed);
    }
    None
}

// The role of such a file of a segment.
fn role_of_kind(start: u64, kind: FileKind) -> FileRole
    ensures { (name : List ℕ) → IsNamed name start (kind_told kind) → IsKnownAs name result }
{
    match kind {
        FileKind::InProgress => FileRole::InProgress { start },
        FileKind::Final { last } => FileRole::Final { start, last },
        FileKind::Record => FileRole::Record { start },
        FileKind::UnderWay { .. } => FileRole::Passing,
        FileKind::Fresh => FileRole::Passing,
    }
}

// The role of a file of an image.
fn image_role(name: &[u8]) -> Option<FileRole>
    ensures { MatchOption result ((rest : List ℕ) (txid : ℕ) → IsOfImage rest → IsImageName name.now rest txid → ⊥) (λ known. IsKnownAs name.now known) }
{
    match txid_of(name, b"") {
        Some(txid) => Some(FileRole::Image { txid }),
        None => match txid_of(name, b".md5") {
            Some(txid) => Some(FileRole::Digest { txid }),
            None => None,
        },
    }
}

// What stands after the front of the name of an image that is being saved.
fn step_after_front(name: &[u8]) -> Option<&[u8]>
    ensures { MatchOption result ((rest : List ℕ) → name.now ≢ codes "fsimage.ckpt_" ++ rest) (λ rest. name.now ≡ codes "fsimage.ckpt_" ++ rest.now) }
{
    name.strip_prefix(b"fsimage.ckpt_".as_slice())
}

// Whether the name is that of an image that is being saved.
fn is_checkpoint(name: &[u8]) -> bool
    ensures { MatchBool result ((txid : ℕ) × (txid ≤ 2 ^ 62) × (name.now ≡ codes "fsimage.ckpt_" ++ padded 19 txid)) ((txid : ℕ) → txid ≤ 2 ^ 62 → name.now ≢ codes "fsimage.ckpt_" ++ padded 19 txid) }
{
    match step_after_front(name) {
        Some(digits) => match read19(digits) {
            Some(_) => true,
            None => false,
        },
        None => false,
    }
}

// Whether the name ends as that of a temporary file.
fn is_temporary(name: &[u8]) -> bool
    ensures { MatchBool result ((front : List ℕ) × (name.now ≡ front ++ codes ".tmp")) ((front : List ℕ) → name.now ≢ front ++ codes ".tmp") }
{
    name.ends_with(b".tmp")
}

// The role of a file that is none of a node's or an image's that last.
fn last_role(name: &[u8]) -> FileRole
    ensures { IsLeft name.now result }
{
    if is_temporary(name) {
        return FileRole::Passing;
    }
    if is_checkpoint(name) {
        return FileRole::Passing;
    }
    FileRole::Unknown
}

/// The role of the file that has this name.
pub fn role_of(name: &[u8]) -> FileRole
    ensures { HasRole name.now result }
{
    if let Some(number) = number_named(name) {
        return FileRole::Number(number);
    }
    if let Some((start, kind)) = file_named(name) {
        return role_of_kind(start, kind);
    }
    match image_role(name) {
        Some(role) => role,
        None => last_role(name),
    }
}

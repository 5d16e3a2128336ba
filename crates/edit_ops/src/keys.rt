//! The keys of the fields of edits in a listing as JSON.
ghost use Rattle.std.specs.Prelude.{◌≡◌, map};
ghost use Rattle.edit_ops.specs.Keys.{keys, call_keys};

use crate::call::Call;
use crate::kind::OpKind;

const ADD: &[&str] = &[
    "path",
    "replication",
    "mtime",
    "atime",
    "blocksize",
    "permission",
    "user",
    "group",
];

const RENAME_OLD: &[&str] = &["src", "dst", "time"];

const DELETE: &[&str] = &["path", "time"];

const MKDIR: &[&str] = &["path", "time", "permission", "user", "group"];

const SET_REPLICATION: &[&str] = &["path", "replication"];

const SET_PERMISSIONS: &[&str] = &["path", "permission"];

const SET_OWNER: &[&str] = &["path", "user", "group"];

const CLOSE: &[&str] = &["path", "mtime", "atime", "lengths"];

const TIMES: &[&str] = &["path", "mtime", "atime"];

const SET_QUOTA: &[&str] = &["path", "nsquota", "dsquota"];

const RENAME: &[&str] = &["src", "dst", "time", "overwrite"];

const CONCAT_DELETE: &[&str] = &["target", "time", "sources"];

const NONE: &[&str] = &[];

const CALL: &[&str] = &["clientid", "callid"];

impl OpKind {
    /// The keys of the fields of an edit of this kind, in their order, in a listing as JSON.
    #[tactic(auto, unfolding(crate::specs::Keys::keys))]
    pub fn keys(self) -> &'static [&'static str]
        ensures { map (λ key. key.now) result.now ≡ keys self }
    {
        match self {
            OpKind::Add => ADD,
            OpKind::RenameOld => RENAME_OLD,
            OpKind::Delete => DELETE,
            OpKind::Mkdir => MKDIR,
            OpKind::SetReplication => SET_REPLICATION,
            OpKind::SetPermissions => SET_PERMISSIONS,
            OpKind::SetOwner => SET_OWNER,
            OpKind::Close => CLOSE,
            OpKind::Times => TIMES,
            OpKind::SetQuota => SET_QUOTA,
            OpKind::Rename => RENAME,
            OpKind::ConcatDelete => CONCAT_DELETE,
            OpKind::EndLogSegment | OpKind::StartLogSegment => NONE,
        }
    }
}

impl Call {
    /// The keys of the fields of a call, in their order, in a listing as JSON.
    #[tactic(auto, unfolding(crate::specs::Keys::call_keys))]
    pub fn keys() -> &'static [&'static str]
        ensures { map (λ key. key.now) result.now ≡ call_keys }
    {
        CALL
    }
}

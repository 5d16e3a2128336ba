//! The kinds of edits, with their codes and names.
ghost use Rattle.std.specs.Prelude.{◌≡◌, ◌≢◌, IfSome, IfNone, false};
ghost use Rattle.edit_ops.specs.Kinds.{code, is_mark};
ghost use Rattle.edit_ops.specs.Words.{verb, name};

/// What an edit does. Each kind has a code, the first byte of its record.
#[derive(Clone, Copy)]
pub enum OpKind {
    /// Opens a new file for writing.
    Add,
    /// Renames, into the destination where that is a directory.
    RenameOld,
    /// Removes a file, or a directory and all under it.
    Delete,
    /// Makes an empty directory.
    Mkdir,
    /// Sets a file's replication.
    SetReplication,
    /// Sets the permission.
    SetPermissions,
    /// Sets the user, the group or both.
    SetOwner,
    /// Ends the writing of a file, with the lengths of its blocks.
    Close,
    /// Sets the times.
    Times,
    /// Sets a directory's quotas.
    SetQuota,
    /// Renames, over the destination where that is asked for.
    Rename,
    /// Appends the blocks of files to another, and removes those files.
    ConcatDelete,
    /// The last edit of a segment; it changes nothing.
    EndLogSegment,
    /// The first edit of a segment; it changes nothing.
    StartLogSegment,
}

/// The kinds by their codes.
pub const KINDS: [OpKind; 14] = [
    OpKind::Add,
    OpKind::RenameOld,
    OpKind::Delete,
    OpKind::Mkdir,
    OpKind::SetReplication,
    OpKind::SetPermissions,
    OpKind::SetOwner,
    OpKind::Close,
    OpKind::Times,
    OpKind::SetQuota,
    OpKind::Rename,
    OpKind::ConcatDelete,
    OpKind::EndLogSegment,
    OpKind::StartLogSegment,
];

impl OpKind {
    /// The code of the kind.
    pub fn code(self) -> u8
        ensures { result ≡ code self }
    {
        match self {
            OpKind::Add => 0,
            OpKind::RenameOld => 1,
            OpKind::Delete => 2,
            OpKind::Mkdir => 3,
            OpKind::SetReplication => 4,
            OpKind::SetPermissions => 7,
            OpKind::SetOwner => 8,
            OpKind::Close => 9,
            OpKind::Times => 13,
            OpKind::SetQuota => 14,
            OpKind::Rename => 15,
            OpKind::ConcatDelete => 16,
            OpKind::EndLogSegment => 23,
            OpKind::StartLogSegment => 24,
        }
    }

    /// The kind of that code; `None` exactly where no kind has it.
    pub fn of(byte: u8) -> Option<OpKind>
        ensures found { IfSome result (λ kind. code kind ≡ byte) }
        ensures none { IfNone result ((kind : OpKind) → code kind ≢ byte) }
    {
        match byte {
            0 => Some(OpKind::Add),
            1 => Some(OpKind::RenameOld),
            2 => Some(OpKind::Delete),
            3 => Some(OpKind::Mkdir),
            4 => Some(OpKind::SetReplication),
            7 => Some(OpKind::SetPermissions),
            8 => Some(OpKind::SetOwner),
            9 => Some(OpKind::Close),
            13 => Some(OpKind::Times),
            14 => Some(OpKind::SetQuota),
            15 => Some(OpKind::Rename),
            16 => Some(OpKind::ConcatDelete),
            23 => Some(OpKind::EndLogSegment),
            24 => Some(OpKind::StartLogSegment),
            _ => None,
        }
    }

    /// The kind marks the beginning or the end of a segment: no client asks for it.
    pub fn is_mark(self) -> bool
        ensures { result ≡ is_mark self }
    {
        matches!(self, OpKind::EndLogSegment | OpKind::StartLogSegment)
    }

    /// The first word of an edit of this kind in a script; no script has a mark.
    #[tactic(auto, unfolding(crate::specs::Words::verb))]
    pub fn verb(self) -> &'static str
        ensures { result.now ≡ verb self }
    {
        match self {
            OpKind::Add => "add",
            OpKind::RenameOld => "mv",
            OpKind::Delete => "delete",
            OpKind::Mkdir => "mkdir",
            OpKind::SetReplication => "setrep",
            OpKind::SetPermissions => "chmod",
            OpKind::SetOwner => "setowner",
            OpKind::Close => "close",
            OpKind::Times => "times",
            OpKind::SetQuota => "quota",
            OpKind::Rename => "rename",
            OpKind::ConcatDelete => "concat",
            OpKind::EndLogSegment => "end",
            OpKind::StartLogSegment => "start",
        }
    }

    /// The name of the kind, the first word of an edit in a listing.
    #[tactic(auto, unfolding(crate::specs::Words::name))]
    pub fn name(self) -> &'static str
        ensures { result.now ≡ name self }
    {
        match self {
            OpKind::Add => "ADD",
            OpKind::RenameOld => "RENAME_OLD",
            OpKind::Delete => "DELETE",
            OpKind::Mkdir => "MKDIR",
            OpKind::SetReplication => "SET_REPLICATION",
            OpKind::SetPermissions => "SET_PERMISSIONS",
            OpKind::SetOwner => "SET_OWNER",
            OpKind::Close => "CLOSE",
            OpKind::Times => "TIMES",
            OpKind::SetQuota => "SET_QUOTA",
            OpKind::Rename => "RENAME",
            OpKind::ConcatDelete => "CONCAT_DELETE",
            OpKind::EndLogSegment => "END_LOG_SEGMENT",
            OpKind::StartLogSegment => "START_LOG_SEGMENT",
        }
    }

    /// The kind of that name; `None` exactly where no kind has it.
    pub fn of_name(word: &[u8]) -> Option<OpKind>
        ensures found { IfSome result (λ kind. name kind ≡ word.now) }
        ensures none { IfNone result ((kind : OpKind) → name kind ≢ word.now) }
    {
        for kind in &KINDS {
            if word == kind.name().as_bytes() {
                return Some(*kind);
            }
        }
        None
    }

    /// The kind of an edit whose text in a script begins with that word; `None` exactly where there
    /// is none.
    pub fn of_verb(word: &[u8]) -> Option<OpKind>
        ensures found { IfSome result (λ kind. (is_mark kind ≡ false) × (verb kind ≡ word.now)) }
        ensures none { IfNone result ((kind : OpKind) → is_mark kind ≡ false → verb kind ≢ word.now) }
    {
        let asked = [
            OpKind::Add,
            OpKind::RenameOld,
            OpKind::Delete,
            OpKind::Mkdir,
            OpKind::SetReplication,
            OpKind::SetPermissions,
            OpKind::SetOwner,
            OpKind::Close,
            OpKind::Times,
            OpKind::SetQuota,
            OpKind::Rename,
            OpKind::ConcatDelete,
        ];
        for kind in &asked {
            if word == kind.verb().as_bytes() {
                return Some(*kind);
            }
        }
        None
    }
}

//! Where the fields of an edit come from.
ghost use Rattle.std.specs.Prelude.{◌≡◌, ◌∷◌, [], map, length, List, Result};
ghost use Rattle.edit_ops.specs.Fields.{Kind, Field, Text_, Small_, Number_, Flag_, Client_, Call_, text, small, number, flag, client, call_number, path, owner, new_owner, replication, permission, numbers, paths};
ghost use Rattle.edit_ops.specs.Sources.{Gives};

use crate::field_fault::ReadError;
use crate::lists::{NameList, NumberList};
use base_words::Name;

/// Where the fields of an edit come from, one after the other: the bytes of a record, the words of
/// a script, or the members of an object.
pub trait FieldSource {
    /// What is wrong with a field that can't be read.
    type Fault: Drop;

    // What may be left to read.
    ghost Left: { Type 0 };

    // What is left to read.
    ghost left: { Self → Left };

    // The field of this kind at the front, with those that it counts, and what is left then; or why
    // there is none.
    ghost group: { Kind → Left → Result (List Field × Left) Self.Fault };

    /// A path.
    fn read_path(&mut self) -> Result<Name, ReadError<Self::Fault>>
        ensures { Gives (λ x. (Text_ path x ∷ [], left self.new)) result
            (group (text path) (left self.old)) };

    /// A user or a group.
    fn read_owner(&mut self) -> Result<Name, ReadError<Self::Fault>>
        ensures { Gives (λ x. (Text_ owner x ∷ [], left self.new)) result
            (group (text owner) (left self.old)) };

    /// A user or a group that may stay as it is.
    fn read_new_owner(&mut self) -> Result<Name, ReadError<Self::Fault>>
        ensures { Gives (λ x. (Text_ new_owner x ∷ [], left self.new)) result
            (group (text new_owner) (left self.old)) };

    /// A replication.
    fn read_replication(&mut self) -> Result<u16, ReadError<Self::Fault>>
        ensures { Gives (λ n. (Small_ replication n ∷ [], left self.new)) result
            (group (small replication) (left self.old)) };

    /// A permission.
    fn read_permission(&mut self) -> Result<u16, ReadError<Self::Fault>>
        ensures { Gives (λ n. (Small_ permission n ∷ [], left self.new)) result
            (group (small permission) (left self.old)) };

    /// A time, a size, a length or a quota.
    fn read_number(&mut self) -> Result<u64, ReadError<Self::Fault>>
        ensures { Gives (λ n. (Number_ n ∷ [], left self.new)) result
            (group number (left self.old)) };

    /// Yes or no.
    fn read_flag(&mut self) -> Result<bool, ReadError<Self::Fault>>
        ensures { Gives (λ b. (Flag_ b ∷ [], left self.new)) result (group flag (left self.old)) };

    /// A client's id.
    fn read_client(&mut self) -> Result<[u8; 16], ReadError<Self::Fault>>
        ensures { Gives (λ x. (Client_ x ∷ [], left self.new)) result
            (group client (left self.old)) };

    /// The number of a call.
    fn read_call_number(&mut self) -> Result<u32, ReadError<Self::Fault>>
        ensures { Gives (λ n. (Call_ n ∷ [], left self.new)) result
            (group call_number (left self.old)) };

    /// A count, and so many numbers.
    fn read_numbers(&mut self) -> Result<NumberList, ReadError<Self::Fault>>
        ensures { Gives (λ x. (Small_ numbers (length x) ∷ map Number_ x, left self.new)) result
            (group (small numbers) (left self.old)) };

    /// A count, and so many paths.
    fn read_paths(&mut self) -> Result<NameList, ReadError<Self::Fault>>
        ensures { Gives (λ x. (Small_ paths (length x) ∷ map (Text_ path) x, left self.new)) result
            (group (small paths) (left self.old)) };
}

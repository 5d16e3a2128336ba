//! The fields of an object's members.
ghost use Rattle.std.specs.Prelude.{◌≡◌, ◌∷◌, [], ◌+◌, ◌<◌, map, length, drop, ok_or, option_map, option_and_then, IfOk};
ghost use Rattle.edit_ops.specs.Fields.{Text, Text_, Small_, Number_, Client_, text, small, number, client, path, numbers, paths, limit};
ghost use Rattle.edit_ops.specs.Sources.{Gives};
ghost use Rattle.serde_json.specs.View.{view, items_view};
ghost use Rattle.serde_json.specs.Find.{as_array};
ghost use Rattle.list_back.specs.Values.{number_in, text_in, list_in, few, value_read, next_value, bad_object};
ghost use Rattle.edit_codec.specs.Saying.{client_said};

use crate::bad_object::BadObject;
use base_words::{MAX, Name, read_hex};
use edit_codec::{MOST_OWNER, MOST_PATH, is_printable};
use edit_ops::{FieldSource, NameList, NumberList, ReadError};
use serde_json::Value;
use std::alloc::Global;

/// The most members of a list.
const MOST_ITEMS: usize = 65535;

/// The greatest number of 16 bits.
const MOST_SMALL: u64 = 65535;

/// The greatest number of a call.
const MOST_CALL_NUMBER: u64 = 4294967295;

/// How many hexadecimal digits a client's id has.
const CLIENT_DIGITS: usize = 32;

/// The members of an object that are left to read, one for each key from the next on.
#[derive(Drop)]
pub struct ObjectSource<'a> {
    pub alloc: Global,
    pub object: &'a Value,
    pub keys: &'a [&'static str],
    pub next: usize,
}

// The value at the next key.
fn value_at<'a>(
    object: &'a Value,
    keys: &[&'static str],
    next: usize,
) -> Result<&'a Value, ReadError<BadObject>>
    ensures value { Gives (λ value. (view value.now, drop (next + 1) (map (λ key. key.now) keys.now))) result (next_value (view object.now) (drop next (map (λ key. key.now) keys.now))) }
    ensures there { IfOk result (λ value. next < length keys.now) }
{
    if next >= keys.len() {
        return Err(ReadError::Fault(BadObject));
    }
    match object.get(keys[next]) {
        Some(value) => Ok(value),
        None => Err(ReadError::Fault(BadObject)),
    }
}

// A number of digits alone, of at most so much.
fn read_within(value: &Value, most: u64) -> Result<u64, ReadError<BadObject>>
    ensures { Gives (λ n. n) result (ok_or (number_in most (view value.now)) bad_object) }
{
    match value.as_u64() {
        Some(n) => {
            if n > most {
                Err(ReadError::Fault(BadObject))
            } else {
                Ok(n)
            }
        }
        None => Err(ReadError::Fault(BadObject)),
    }
}

// A printable text of at most so many bytes.
#[tactic(auto, unfolding(crate::specs::Values::fields_in))]
fn read_text(alloc: Global, value: &Value, most: usize) -> Result<Name, ReadError<BadObject>>
    ensures { (t : Text) → limit t ≡ most → Gives (λ x. Text_ t x ∷ []) result (value_read (text t) (view value.now)) }
{
    let Some(said) = value.as_str() else {
        return Err(ReadError::Fault(BadObject));
    };
    let bytes = said.as_bytes();
    if bytes.len() > most {
        return Err(ReadError::Fault(BadObject));
    }
    if !is_printable(bytes) {
        return Err(ReadError::Fault(BadObject));
    }
    Ok(Name::from_slice(alloc, bytes)?)
}

// The 16 bytes that hexadecimal digits write.
#[tactic(auto, using(edit_codec::proofs::SayWords::clients))]
fn read_client_id(word: &[u8]) -> Result<[u8; 16], ReadError<BadObject>>
    ensures { Gives (λ x. x) result (ok_or (client_said word.now) bad_object) }
{
    if word.len() != CLIENT_DIGITS {
        return Err(ReadError::Fault(BadObject));
    }
    let mut client = [0u8; 16];
    if !read_hex(word, &mut client) {
        return Err(ReadError::Fault(BadObject));
    }
    Ok(client)
}

// The number of a value, as a time, a size, a length or a quota.
fn read_one_number(value: &Value) -> Result<u64, ReadError<BadObject>>
    ensures { Gives (λ n. n) result (ok_or (number_in 4611686018427387904 (view value.now)) bad_object) }
{
    read_within(value, MAX)
}

// The path of a value.
fn read_one_path(alloc: Global, value: &Value) -> Result<Name, ReadError<BadObject>>
    ensures { Gives (λ x. x) result (ok_or (text_in path (view value.now)) bad_object) }
{
    let Some(said) = value.as_str() else {
        return Err(ReadError::Fault(BadObject));
    };
    let bytes = said.as_bytes();
    if bytes.len() > MOST_PATH {
        return Err(ReadError::Fault(BadObject));
    }
    if !is_printable(bytes) {
        return Err(ReadError::Fault(BadObject));
    }
    Ok(Name::from_slice(alloc, bytes)?)
}

// The items of an array that has no more than a count can say.
fn items_of(value: &Value) -> Option<&[Value]>
    ensures { option_map (λ items. items_view items.now) result ≡ option_and_then few (as_array (view value.now)) }
{
    let items = value.as_array()?.as_slice();
    if items.len() > MOST_ITEMS {
        return None;
    }
    Some(items)
}

// The numbers of these values.
fn read_each_number(alloc: Global, values: &[Value]) -> Result<NumberList, ReadError<BadObject>>
    ensures { Gives (λ x. x) result (ok_or (list_in (number_in 4611686018427387904) (items_view values.now)) bad_object) }
{
    let mut items = NumberList::new(alloc);
    for value in values {
        items.push(read_one_number(value)?)?;
    }
    Ok(items)
}

// The paths of these values.
fn read_each_path(alloc: Global, values: &[Value]) -> Result<NameList, ReadError<BadObject>>
    ensures { Gives (λ x. x) result (ok_or (list_in (text_in path) (items_view values.now)) bad_object) }
{
    let mut items = NameList::new(alloc);
    for value in values {
        items.push(read_one_path(alloc, value)?)?;
    }
    Ok(items)
}

impl FieldSource for ObjectSource<'_> {
    ghost use Rattle.std.specs.Prelude.{map, drop};
    ghost use Rattle.serde_json.specs.View.{view};
    ghost use Rattle.list_back.specs.Values.{Left, object_group};

    type Fault = BadObject;

    ghost Left = { Left };

    ghost left = { λ source. record { value = view source.object.now; keys = drop source.next (map (λ key. key.now) source.keys.now) } };

    ghost group = { object_group };

    #[tactic(auto, unfolding(crate::specs::Values::fields_in))]
    fn read_path(&mut self) -> Result<Name, ReadError<BadObject>> {
        let value = value_at(self.object, self.keys, self.next)?;
        self.next += 1;
        read_text(self.alloc, value, MOST_PATH)
    }

    #[tactic(auto, unfolding(crate::specs::Values::fields_in))]
    fn read_owner(&mut self) -> Result<Name, ReadError<BadObject>> {
        let value = value_at(self.object, self.keys, self.next)?;
        self.next += 1;
        read_text(self.alloc, value, MOST_OWNER)
    }

    #[tactic(auto, unfolding(crate::specs::Values::fields_in))]
    fn read_new_owner(&mut self) -> Result<Name, ReadError<BadObject>> {
        let value = value_at(self.object, self.keys, self.next)?;
        self.next += 1;
        read_text(self.alloc, value, MOST_OWNER)
    }

    #[tactic(auto, unfolding(crate::specs::Values::fields_in))]
    fn read_replication(&mut self) -> Result<u16, ReadError<BadObject>> {
        let value = value_at(self.object, self.keys, self.next)?;
        let replication = read_within(value, MOST_SMALL)?;
        self.next += 1;
        Ok(replication as u16)
    }

    #[tactic(auto, unfolding(crate::specs::Values::fields_in))]
    fn read_permission(&mut self) -> Result<u16, ReadError<BadObject>> {
        let value = value_at(self.object, self.keys, self.next)?;
        let permission = read_within(value, MOST_SMALL)?;
        self.next += 1;
        Ok(permission as u16)
    }

    #[tactic(auto, unfolding(crate::specs::Values::fields_in))]
    fn read_number(&mut self) -> Result<u64, ReadError<BadObject>> {
        let value = value_at(self.object, self.keys, self.next)?;
        let number = read_one_number(value)?;
        self.next += 1;
        Ok(number)
    }

    #[tactic(auto, unfolding(crate::specs::Values::fields_in))]
    fn read_flag(&mut self) -> Result<bool, ReadError<BadObject>> {
        let value = value_at(self.object, self.keys, self.next)?;
        self.next += 1;
        match value.as_bool() {
            Some(flag) => Ok(flag),
            None => Err(ReadError::Fault(BadObject)),
        }
    }

    #[tactic(auto, unfolding(crate::specs::Values::fields_in))]
    fn read_client(&mut self) -> Result<[u8; 16], ReadError<BadObject>> {
        let value = value_at(self.object, self.keys, self.next)?;
        let Some(word) = value.as_str() else {
            return Err(ReadError::Fault(BadObject));
        };
        let client = read_client_id(word.as_bytes())?;
        self.next += 1;
        Ok(client)
    }

    #[tactic(auto, unfolding(crate::specs::Values::fields_in))]
    fn read_call_number(&mut self) -> Result<u32, ReadError<BadObject>> {
        let value = value_at(self.object, self.keys, self.next)?;
        let number = read_within(value, MOST_CALL_NUMBER)?;
        self.next += 1;
        Ok(number as u32)
    }

    #[tactic(auto, unfolding(crate::specs::Values::fields_in))]
    fn read_numbers(&mut self) -> Result<NumberList, ReadError<BadObject>> {
        let value = value_at(self.object, self.keys, self.next)?;
        let Some(items) = items_of(value) else {
            return Err(ReadError::Fault(BadObject));
        };
        let numbers = read_each_number(self.alloc, items)?;
        self.next += 1;
        Ok(numbers)
    }

    #[tactic(auto, unfolding(crate::specs::Values::fields_in))]
    fn read_paths(&mut self) -> Result<NameList, ReadError<BadObject>> {
        let value = value_at(self.object, self.keys, self.next)?;
        let Some(items) = items_of(value) else {
            return Err(ReadError::Fault(BadObject));
        };
        let paths = read_each_path(self.alloc, items)?;
        self.next += 1;
        Ok(paths)
    }
}

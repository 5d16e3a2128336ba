//! Members and arrays, written.
ghost use Rattle.std.specs.Prelude.{◌≡◌, ◌∷◌, [], ◌++◌, List, map, codes, Option, IsAscii, IfOk};
ghost use Rattle.std.specs.List.{flat_map, AllByRecursion};
ghost use Rattle.json.specs.Json.{Json, string};
ghost use Rattle.json.specs.Token.{Token};
ghost use Rattle.json.specs.Tree.{json_tokens};
ghost use Rattle.list_text.specs.Values.{number_of, limit_of, array_of, object_of, json_line, member_tokens, IsAsciiMember};
ghost use Rattle.list_text.specs.Shown.{shown};
ghost use Rattle.list_text.specs.Written.{Adds};

use crate::member::Member;
use base_words::{Name, OutOfMemory};
use json::Writer;
use std::alloc::Global;

// Adds a text.
fn put_text(writer: &mut Writer, text: &[u8]) -> Result<(), OutOfMemory>
    requires { IsAscii text.now }
    ensures { Adds result writer.old writer.new (json_tokens (string text.now)) }
{
    match str::from_utf8(text) {
        Ok(text) => writer.string(text),
        Err(_) => unreachable!(),
    }
}

// Begins an array.
fn open_array(writer: &mut Writer) -> Result<(), OutOfMemory>
    ensures { Adds result writer.old writer.new (Token.begin_array ∷ []) }
{
    writer.begin_array()
}

// Ends an array.
fn close_array(writer: &mut Writer) -> Result<(), OutOfMemory>
    ensures { Adds result writer.old writer.new (Token.end_array ∷ []) }
{
    writer.end_array()
}

// Adds numbers one after the other.
fn put_each_number(writer: &mut Writer, numbers: &[u64]) -> Result<(), OutOfMemory>
    ensures { Adds result writer.old writer.new (flat_map json_tokens (map number_of numbers.now)) }
{
    for number in numbers {
        writer.u64(*number)?;
    }
    Ok(())
}

// Adds texts one after the other.
fn put_each_text(writer: &mut Writer, texts: &[Name]) -> Result<(), OutOfMemory>
    requires { AllByRecursion IsAscii texts.now }
    ensures { Adds result writer.old writer.new (flat_map json_tokens (map string texts.now)) }
{
    for text in texts {
        put_text(writer, text.as_slice())?;
    }
    Ok(())
}

// Adds an array of numbers.
fn put_numbers(writer: &mut Writer, numbers: &[u64]) -> Result<(), OutOfMemory>
    ensures { Adds result writer.old writer.new (json_tokens (array_of (map number_of numbers.now))) }
{
    open_array(writer)?;
    put_each_number(writer, numbers)?;
    close_array(writer)
}

// Adds an array of texts.
fn put_texts(writer: &mut Writer, texts: &[Name]) -> Result<(), OutOfMemory>
    requires { AllByRecursion IsAscii texts.now }
    ensures { Adds result writer.old writer.new (json_tokens (array_of (map string texts.now))) }
{
    open_array(writer)?;
    put_each_text(writer, texts)?;
    close_array(writer)
}

// Adds the number -1.
fn put_minus_one(writer: &mut Writer) -> Result<(), OutOfMemory>
    ensures { Adds result writer.old writer.new (Token.number (codes "-1") ∷ []) }
{
    writer.number("-1")
}

// Adds a number, -1 for none.
fn put_limit(writer: &mut Writer, limit: Option<u64>) -> Result<(), OutOfMemory>
    ensures { Adds result writer.old writer.new (json_tokens (limit_of limit)) }
{
    match limit {
        None => put_minus_one(writer),
        Some(number) => writer.u64(number),
    }
}

// Adds a key.
fn put_key(writer: &mut Writer, key: &str) -> Result<(), OutOfMemory>
    ensures { Adds result writer.old writer.new (Token.key key.now ∷ []) }
{
    writer.key(key)
}

// Adds a member to the object that was begun.
fn put_member(writer: &mut Writer, member: Member<'_>) -> Result<(), OutOfMemory>
    requires { IsAsciiMember (shown member) }
    ensures { Adds result writer.old writer.new (member_tokens (shown member.entry)) }
{
    match member {
        Member::Number(key, number) => {
            put_key(writer, key)?;
            writer.u64(number)
        }
        Member::Limit(key, limit) => {
            put_key(writer, key)?;
            put_limit(writer, limit)
        }
        Member::Word(key, text) => {
            put_key(writer, key)?;
            writer.string(text)
        }
        Member::Text(key, text) => {
            put_key(writer, key)?;
            put_text(writer, text)
        }
        Member::Flag(key, set) => {
            put_key(writer, key)?;
            writer.boolean(set)
        }
        Member::Numbers(key, numbers) => {
            put_key(writer, key)?;
            put_numbers(writer, numbers)
        }
        Member::Texts(key, texts) => {
            put_key(writer, key)?;
            put_texts(writer, texts)
        }
    }
}

/// Adds members to the object that was begun. After an `Err` some of them may stand there.
pub fn put_members(writer: &mut Writer, members: &[Member<'_>]) -> Result<(), OutOfMemory>
    requires { AllByRecursion IsAsciiMember (map shown members.now) }
    ensures { Adds result writer.old writer.new (flat_map member_tokens (map shown members.now)) }
{
    for member in members {
        put_member(writer, *member)?;
    }
    Ok(())
}

/// Begins an object.
pub fn open_object(writer: &mut Writer) -> Result<(), OutOfMemory>
    ensures { Adds result writer.old writer.new (Token.begin_object ∷ []) }
{
    writer.begin_object()
}

/// Ends the object that was begun.
pub fn close_object(writer: &mut Writer) -> Result<(), OutOfMemory>
    ensures { Adds result writer.old writer.new (Token.end_object ∷ []) }
{
    writer.end_object()
}

/// Adds an object of these members. After an `Err` some of it may stand there.
pub fn put_object(writer: &mut Writer, members: &[Member<'_>]) -> Result<(), OutOfMemory>
    requires { AllByRecursion IsAsciiMember (map shown members.now) }
    ensures { Adds result writer.old writer.new (json_tokens (object_of (map shown members.now))) }
{
    open_object(writer)?;
    put_members(writer, members)?;
    close_object(writer)
}

/// An array that was begun.
pub fn begun_array(alloc: Global) -> Result<Writer, OutOfMemory>
    ensures before { IfOk result (λ writer. writer.before ≡ []) }
    ensures tokens { IfOk result (λ writer. writer.tokens ≡ Token.begin_array ∷ []) }
{
    let mut writer = Writer::new(Vec::new(alloc));
    open_array(&mut writer)?;
    Ok(writer)
}

/// The line of an array that was begun, with all items that were written.
pub fn array_text(writer: Writer) -> Result<Vec<u8>, OutOfMemory>
    requires { writer.before ≡ [] }
    ensures { (items : List Json) → writer.tokens ≡ Token.begin_array ∷ flat_map json_tokens items
        → IfOk result (λ text. text.items ≡ json_line (array_of items)) }
{
    let mut writer = writer;
    close_array(&mut writer)?;
    let mut text = writer.into_inner();
    text.push(b'\n')?;
    Ok(text)
}

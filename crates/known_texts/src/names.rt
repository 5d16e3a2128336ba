//! The log of a namespace, and which edits are admitted after it.
ghost use Rattle.std.specs.Prelude.{◌≡◌, []};

use crate::shown::{put_shown, put_space};
use base_words::{Bytes, MAX, OutOfMemory, read_hex};
use edit_codec::{ReadText, encode, read_text};
use journal_core::{Batch, BodyList};
use ns_edits::{AdmitRefusal, admit, replay};
use ns_tree::Namespace;
use std::alloc::{AllocError, Global};

/// Lines of a log and of questions.
pub fn tell_names(alloc: Global, input: &[u8], out: &mut Vec<u8>) -> Result<(), OutOfMemory> {
    let Ok(text) = str::from_utf8(input) else {
        return out.extend_from_slice(b"no text");
    };
    let mut space = Namespace::new(alloc)?;
    let told = tell_space(alloc, &mut space, text, out);
    drop(space);
    told
}

fn tell_space(
    alloc: Global,
    space: &mut Namespace,
    text: &str,
    out: &mut Vec<u8>,
) -> Result<(), OutOfMemory>
    requires { space.old.calls ≡ [] }
{
    let bodies = log_of(alloc, text, out)?;
    replay_in(alloc, space, bodies, out)?;
    for line in text.lines() {
        if let Some(edit) = line.strip_prefix("? ") {
            judge(alloc, space, edit, out)?;
        } else if let Some(path) = line.strip_prefix("children ") {
            put_children(alloc, space, path, out)?;
        }
    }
    put_space(alloc, space, out)
}

// The bodies of the lines that are no questions.
fn log_of(alloc: Global, text: &str, out: &mut Vec<u8>) -> Result<BodyList, OutOfMemory> {
    let mut bodies = BodyList::new(alloc);
    for line in text.lines() {
        match body_of(alloc, line)? {
            Some(body) => bodies.push(body)?,
            None => {
                if !line.starts_with("? ") && !line.starts_with("children ") {
                    out.extend_from_slice(b"no edit\n")?;
                }
            }
        }
    }
    Ok(bodies)
}

fn body_of(alloc: Global, line: &str) -> Result<Option<Bytes>, OutOfMemory> {
    if let Some(digits) = line.strip_prefix("x ") {
        return record_of(alloc, digits);
    }
    match read_text(alloc, line.as_bytes()) {
        ReadText::Edit(edit) => {
            let body = encode(alloc, &edit);
            drop(edit);
            Ok(Some(body?))
        }
        ReadText::BadText => Ok(None),
        ReadText::OutOfMemory => Err(AllocError),
    }
}

fn record_of(alloc: Global, digits: &str) -> Result<Option<Bytes>, OutOfMemory> {
    let mut record = vec![in alloc; 0u8; digits.len()]?;
    if !read_hex(digits.as_bytes(), &mut record) {
        return Ok(None);
    }
    record.truncate(digits.len() / 2);
    Bytes::copy_of(alloc, &record)
}

// Replays a log from the txid 1 on.
fn replay_in(
    alloc: Global,
    space: &mut Namespace,
    bodies: BodyList,
    out: &mut Vec<u8>,
) -> Result<(), OutOfMemory>
    requires { space.old.calls ≡ [] }
{
    if bodies.is_empty() {
        return Ok(());
    }
    let batch = Batch::new(1, bodies);
    if batch.last_within(MAX).is_none() {
        return Ok(());
    }
    let replayed = replay(alloc, space, &batch);
    put_shown(alloc, &replayed, out)?;
    out.extend_from_slice(b"\n")
}

// The names under a path.
fn put_children(
    alloc: Global,
    space: &Namespace,
    path: &str,
    out: &mut Vec<u8>,
) -> Result<(), OutOfMemory> {
    out.extend_from_slice(path.as_bytes())?;
    for name in space.children(alloc, path.as_bytes())?.iter() {
        out.push(b' ')?;
        out.extend_from_slice(name.as_slice())?;
    }
    out.extend_from_slice(b"\n")
}

// Whether the edit of a text is admitted.
fn judge(
    alloc: Global,
    space: &Namespace,
    text: &str,
    out: &mut Vec<u8>,
) -> Result<(), OutOfMemory> {
    match read_text(alloc, text.as_bytes()) {
        ReadText::Edit(edit) => {
            let judged = admit(space, &edit);
            drop(edit);
            put_judged(alloc, text, judged, out)
        }
        ReadText::BadText => out.extend_from_slice(b"no edit\n"),
        ReadText::OutOfMemory => Err(AllocError),
    }
}

fn put_judged(
    alloc: Global,
    text: &str,
    judged: Result<(), AdmitRefusal>,
    out: &mut Vec<u8>,
) -> Result<(), OutOfMemory> {
    out.extend_from_slice(text.as_bytes())?;
    match judged {
        Ok(()) => out.extend_from_slice(b": Admitted\n"),
        Err(refusal) => {
            out.extend_from_slice(b": ")?;
            put_shown(alloc, &refusal, out)?;
            out.extend_from_slice(b"\n")
        }
    }
}

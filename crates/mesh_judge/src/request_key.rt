//! Requests to nodes as lists of numbers.
ghost use Rattle.std.specs.Prelude.{◌≡◌, ◌++◌, OnOk, IfOk};
ghost use Rattle.mesh_judge.specs.Keys.{body_key, bodies_key, head_key, request_key, ask_key};

use journal_core::{BodyList, Head, OutOfMemory, Request};
use std::alloc::Global;

/// Adds numbers.
fn push_numbers(key: &mut Vec<u64>, numbers: &[u64]) -> Result<(), OutOfMemory>
    ensures { OnOk result (key.new.items ≡ key.old.items ++ numbers.now) }
{
    key.extend_from_slice(numbers)?;
    Ok(())
}

/// Adds a body: its bytes, each as one more than it is, and 0 as its end.
fn push_body(key: &mut Vec<u64>, body: &[u8]) -> Result<(), OutOfMemory>
    ensures { OnOk result (key.new.items ≡ key.old.items ++ body_key body.now) }
{
    for byte in body {
        key.push(*byte as u64 + 1)?;
    }
    key.push(0)?;
    Ok(())
}

/// Adds bodies.
fn push_bodies(key: &mut Vec<u64>, bodies: &BodyList) -> Result<(), OutOfMemory>
    ensures { OnOk result (key.new.items ≡ key.old.items ++ bodies_key bodies.now) }
{
    for body in bodies.as_slice() {
        push_body(key, body.as_slice())?;
    }
    Ok(())
}

/// Adds the number of a kind of requests, a head and further numbers.
fn push_headed(
    key: &mut Vec<u64>,
    kind: u64,
    head: &Head,
    numbers: &[u64],
) -> Result<(), OutOfMemory>
    ensures { OnOk result (key.new.items ≡ key.old.items ++ head_key kind head.now numbers.now) }
{
    push_numbers(key, &[kind, head.epoch(), head.serial(), head.committed()])?;
    push_numbers(key, numbers)
}

/// Adds a request.
fn push_request(key: &mut Vec<u64>, request: &Request) -> Result<(), OutOfMemory>
    ensures { OnOk result (key.new.items ≡ key.old.items ++ request_key request.now) }
{
    match request {
        Request::State => push_numbers(key, &[0]),
        Request::NewEpoch { epoch } => push_numbers(key, &[1, *epoch]),
        Request::Start { head, start } => push_headed(key, 2, head, &[*start]),
        Request::Journal { head, start, batch } => {
            push_headed(key, 3, head, &[*start, batch.first()])?;
            push_bodies(key, batch.bodies())
        }
        Request::Finalize { head, start, end } => push_headed(key, 4, head, &[*start, *end]),
        Request::Prepare { head, start } => push_headed(key, 5, head, &[*start]),
        Request::Fetch { head, start, from } => push_headed(key, 6, head, &[*start, *from]),
        Request::Accept { head, batch } => {
            push_headed(key, 7, head, &[batch.first()])?;
            push_bodies(key, batch.bodies())
        }
        Request::Purge { head, min } => push_headed(key, 8, head, &[*min]),
        Request::Read { from } => push_numbers(key, &[9, *from]),
        Request::Manifest => push_numbers(key, &[10]),
    }
}

/// A request to a node as a list of numbers: equal lists are of one node and of equal requests.
pub(crate) fn key_of(alloc: Global, node: usize, request: &Request) -> Result<Vec<u64>, OutOfMemory>
    ensures { IfOk result (λ key. key.items ≡ ask_key node request.now) }
{
    let mut key = Vec::new(alloc);
    key.push(node as u64)?;
    push_request(&mut key, request)?;
    Ok(key)
}

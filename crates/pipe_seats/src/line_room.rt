//! Room for a request's line.
ghost use Rattle.std.specs.Prelude.{◌≡◌, OnOk};
ghost use Rattle.pipe_seats.specs.Calls.{request_line};

use crate::tagged_line::put_tagged;
use journal_core::{OutOfMemory, Request};
use journal_text::print_request;
use std::alloc::Global;

/// Room for a request's text and for its line, which is used again for each call.
#[derive(Drop)]
pub struct LineRoom {
    text: Vec<u8>,
    pub(crate) line: Vec<u8>,
}

impl LineRoom {
    /// Room that holds nothing yet.
    pub fn new(alloc: Global) -> LineRoom {
        LineRoom {
            text: Vec::new(alloc),
            line: Vec::new(alloc),
        }
    }
}

/// Makes the room's line that of a request, as this call of this life.
pub(crate) fn print_line(
    life: u64,
    call: u64,
    request: &Request,
    room: &mut LineRoom,
) -> Result<(), OutOfMemory>
    ensures { OnOk result (room.new.line.items ≡ request_line life call request.now) }
{
    room.text.clear();
    print_request(request, &mut room.text)?;
    room.line.clear();
    put_tagged(&mut room.line, life, call, &room.text)?;
    room.line.push(b'\n')?;
    Ok(())
}

//! The words after the program's name.

use crate::OutOfMemory;
use std::alloc::AllocError;
use std::env::FillError;
use std::rt::Env;

/// The room for a word that is asked for first. It is doubled while the word is longer.
const ROOM: usize = 256;

/// The words after the program's name.
#[derive(Drop)]
pub struct Words {
    /// Those before the first that isn't UTF-8.
    pub texts: Vec<String>,
    /// Whether these are all.
    pub are_all: bool,
}

/// The bytes of the word with this number, if there is one; the program's name has the number 0.
fn read_word<R: Env + AllocGlobal>(rt: &R, number: usize) -> Result<Option<Vec<u8>>, OutOfMemory> {
    let mut room = ROOM;
    for _ in 0..usize::BITS {
        let mut bytes = vec![in rt.alloc(); 0u8; room]?;
        match rt.arg(number, &mut bytes) {
            Ok(count) => {
                bytes.truncate(count);
                return Ok(Some(bytes));
            }
            Err(FillError::NotPresent) => return Ok(None),
            Err(FillError::TooLong) => room = room.saturating_mul(2),
        }
    }
    Err(AllocError)
}

/// Reads the words after the program's name, up to the first that isn't UTF-8. An error is lack of
/// memory.
pub fn read_words<R: Env + AllocGlobal>(rt: &R) -> Result<Words, OutOfMemory> {
    let mut texts = Vec::new(rt.alloc());
    for number in 1..usize::MAX {
        let Some(bytes) = read_word(rt, number)? else {
            break;
        };
        let Ok(text) = String::from_utf8(bytes) else {
            return Ok(Words {
                texts,
                are_all: false,
            });
        };
        texts.push(text)?;
    }
    Ok(Words {
        texts,
        are_all: true,
    })
}

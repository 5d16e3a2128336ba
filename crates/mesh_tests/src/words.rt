//! The words of the program as bytes of the system, and what is told of a folder that was not
//! locked.
use base_outside::{LockFail, MemSink, read_words};
use cli_commands::{Status, refuse_folder, refuse_words};
use std::env::FillError;
use std::rt::Env;
use std::test::Fail;

/// A system with these words.
#[derive(Clone, Copy)]
struct Words<'a> {
    words: &'a [&'a [u8]],
}

impl Env for Words<'_> {
    fn arg(&self, i: usize, buf: &mut [u8]) -> Result<usize, FillError> {
        let Some(word) = self.words.get(i) else {
            return Err(FillError::NotPresent);
        };
        if buf.len() < word.len() {
            return Err(FillError::TooLong);
        }
        buf[..word.len()].copy_from_slice(word);
        Ok(word.len())
    }

    fn var(&self, _name: &str, _buf: &mut [u8]) -> Result<usize, FillError> {
        Err(FillError::NotPresent)
    }

    fn var_at(&self, _i: usize, _buf: &mut [u8]) -> Result<usize, FillError> {
        Err(FillError::NotPresent)
    }
}

#[test]
fn words_that_are_no_text_are_told_at_their_place(rt: HostRuntime) -> Result<(), Fail> {
    let cases: [(&[&[u8]], &[u8]); 8] = [
        (&[b"qjm", b"\xff"], b"error Usage 0\n"),
        (&[b"qjm", b"fly", b"\xff"], b"error Usage 0\n"),
        (&[b"qjm", b"play", b"\xff"], b"error Usage 1\n"),
        (&[b"qjm", b"node", b"\xc3", b"x"], b"error Usage 1\n"),
        (&[b"qjm", b"oev", b"\xff"], b"error Usage 1\n"),
        (&[b"qjm", b"oev", b"x", b"\xff"], b"error Usage 1\n"),
        (&[b"qjm", b"oev", b"list", b"\xff"], b"error Usage 2\n"),
        (
            &[b"qjm", b"oiv", b"json", b"image", b"\xff"],
            b"error Usage 3\n",
        ),
    ];
    for (words, text) in cases {
        let told = read_words(&(Words { words }, rt.alloc()))?;
        assert!(rt; !told.are_all);
        let mut sink = MemSink::new(rt.alloc(), 100, Vec::new(rt.alloc()))?;
        let status = refuse_words(rt.alloc(), &told.texts, &mut sink);
        assert!(rt; matches!(status, Status::Usage));
        assert!(rt; sink.bytes() == text);
    }
    Ok(())
}

#[test]
fn words_are_read_whole(rt: HostRuntime) -> Result<(), Fail> {
    let long = "n".repeat(rt.alloc(), 70_000)?;
    let words: [&[u8]; 5] = [b"qjm", b"", long.as_bytes(), "\u{e9}".as_bytes(), b"x y"];
    let told = read_words(&(Words { words: &words }, rt.alloc()))?;
    assert!(rt; told.are_all);
    assert!(rt; told.texts.len() == 4);
    for (text, word) in told.texts.iter().zip(words.iter().skip(1)) {
        assert!(rt; text.as_bytes() == *word);
    }
    Ok(())
}

#[test]
fn a_folder_that_was_not_locked_is_told(rt: HostRuntime) -> Result<(), Fail> {
    let cases: [(LockFail, Status, &[u8]); 3] = [
        (LockFail::Taken, Status::Locked, b"error Locked\n"),
        (LockFail::Failed, Status::DiskFault, b"error DiskFault\n"),
        (
            LockFail::OutOfMemory,
            Status::OutOfMemory,
            b"error OutOfMemory\n",
        ),
    ];
    for (fail, want, text) in cases {
        let mut sink = MemSink::new(rt.alloc(), 100, Vec::new(rt.alloc()))?;
        let status = refuse_folder(fail, &mut sink);
        assert!(rt; status == want);
        assert!(rt; sink.bytes() == text);
    }
    Ok(())
}

//! What is shared or copied is the same.
use base_words::{Bytes, Name, OutOfMemory};
use journal_core::{Batch, BodyList, SegmentInfo, SegmentLine, SegmentLines, ToldSegment};
use std::alloc::Global;
use std::test::Fail;

const INFO: SegmentInfo = SegmentInfo {
    start: 1,
    end: 2,
    epoch: 2,
    is_final: false,
    accepted: true,
};

fn is_told(alloc: Global) -> Result<bool, OutOfMemory> {
    let told = ToldSegment::of(alloc, INFO)?;
    Ok(told.share(alloc)?.get() == Some(INFO))
}

const LINE: SegmentLine = SegmentLine {
    start: 1,
    end: 2,
    is_final: false,
    epoch: 1,
};

fn is_listed(alloc: Global) -> Result<bool, OutOfMemory> {
    let mut lines = SegmentLines::new(alloc);
    lines.push(LINE)?;
    Ok(lines.share(alloc)?.as_slice() == [LINE].as_slice())
}

// Whether the text is the same in its name, and where that is copied.
fn is_name(alloc: Global, text: &[u8]) -> Result<bool, OutOfMemory> {
    let name = Name::from_slice(alloc, text)?;
    Ok(name.copy(alloc)?.as_slice() == text && name.as_slice() == text)
}

// A body, its copy and a piece of them.
fn three(alloc: Global) -> Result<BodyList, OutOfMemory> {
    let mut list = BodyList::new(alloc);
    if let Some(body) = Bytes::copy_of(alloc, &[24])? {
        list.push(body)?;
    }
    let copy = list.share(alloc)?;
    list.append_shared(&copy)?;
    let piece = list.share_piece(alloc, 1, 5)?;
    list.append(piece)?;
    Ok(list)
}

#[test]
fn what_is_shared_is_the_same(rt: HostRuntime) -> Result<(), Fail> {
    assert!(rt; is_told(rt.alloc())?);
    assert!(rt; is_listed(rt.alloc())?);
    assert!(rt; is_name(rt.alloc(), b"/sixteen/letters")?);
    assert!(rt; is_name(rt.alloc(), b"/seventeen/letter")?);
    let list = three(rt.alloc())?;
    assert!(rt; list.len() == 3);
    assert!(rt; Batch::new(3, list).share(rt.alloc())?.bodies().len() == 3);
    Ok(())
}

//! What is told of a standby that began from an image.
ghost use Rattle.std.specs.Prelude.{◌≡◌, ◌++◌, [], ◌∷◌, codes, IfOk};
ghost use Rattle.journal_text.specs.Texts.{numbers_text};
ghost use Rattle.play_report.specs.Booted.{image_words, booted_text, unreachable_text, booted_behind_text};

use crate::parts::{put_pair, put_spaced};
use crate::pieces::put_numbers;
use crate::rows::put_rows;
use crate::taker::{Printable, Taker};
use journal_core::OutOfMemory;
use ns_tree::LastSpace;
use play_names::push_causes;
use std::alloc::Global;
use writer_core::Cause;

/// The txid of an image after a space, or that there was none.
fn put_image<T: Taker>(out: &mut T, image: Option<u64>)
    ensures { T.adds out.old out.new (image_words image) }
{
    match image {
        Some(txid) => put_numbers(out, &[txid]),
        None => out.put(b" none"),
    }
}

/// All that is told of a standby that began.
#[tactic(auto, unfolding(crate::specs::Booted::booted_text))]
fn put_booted<T: Taker>(out: &mut T, image: Option<u64>, last: &LastSpace)
    ensures { T.adds out.old out.new (booted_text image last.now) }
{
    out.put(b"boot");
    put_image(out, image);
    put_numbers(out, &[last.position]);
    out.put(b"\n");
    put_rows(out, last.rows.as_slice());
    out.put(b"end\n");
}

/// What is told of a standby that began: the txid of its image, if there was one, how many entries
/// it has applied, and its namespace's rows.
#[derive(Drop)]
pub struct BootText<'a> {
    pub image: Option<u64>,
    pub last: &'a LastSpace,
}

impl Printable for BootText<'_> {
    ghost text = { λ b. booted_text b.image b.last.now };

    fn print<T: Taker>(&self, out: &mut T) {
        put_booted(out, self.image, self.last);
    }
}

/// A standby at the position `have`, after which nothing is served any more: the least first txid
/// that was told is `first`.
#[tactic(auto, unfolding(crate::specs::Booted::unreachable_text))]
pub fn print_unreachable(alloc: Global, have: u64, first: u64) -> Result<Vec<u8>, OutOfMemory>
    ensures { IfOk result (λ text. text.items ≡ unreachable_text have first) }
{
    let mut out = Vec::new(alloc);
    out.extend_from_slice(b"boot unreachable")?;
    put_pair(&mut out, have, first)?;
    out.extend_from_slice(b"\nend\n")?;
    Ok(out)
}

/// A standby at this position, which too few nodes answered; what came of each.
#[tactic(auto, unfolding(crate::specs::Booted::booted_behind_text))]
pub fn print_booted_behind(
    alloc: Global,
    txid: u64,
    causes: &[Cause],
) -> Result<Vec<u8>, OutOfMemory>
    ensures { IfOk result (λ text. text.items ≡ booted_behind_text txid causes.now) }
{
    let mut out = Vec::new(alloc);
    out.extend_from_slice(b"boot behind")?;
    put_spaced(&mut out, txid)?;
    push_causes(&mut out, causes)?;
    out.extend_from_slice(b"\nend\n")?;
    Ok(out)
}

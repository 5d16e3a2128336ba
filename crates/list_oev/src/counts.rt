//! How many edits there are of each kind.
ghost use Rattle.std.specs.Prelude.{◌≡◌, ◌++◌, ◌∷◌, [], ◌<◌, ◌-◌, ◌^◌, ℕ, List, length, slice_index, true, false, OnOk};
ghost use Rattle.std.specs.List.{flat_map};
ghost use Rattle.edit_ops.specs.Records.{EditView, opcode};
ghost use Rattle.list_oev.specs.Counts.{AreCounts, code_of, tally_by, statistics_by};

use base_words::{OutOfMemory, put_decimal};
use edit_ops::{Edit, KINDS, OpKind};

// The first byte of the records of a kind, with a client's call or without.
fn opcode(kind: OpKind, with_call: bool) -> u8
    ensures code { result ≡ opcode kind with_call }
    ensures small { result < 128 }
{
    let code = kind.code();
    if with_call { code + 64 } else { code }
}

// The first byte of an edit's record.
fn code_of(edit: &Edit) -> u8
    ensures code { result ≡ code_of edit.now }
    ensures small { result < 128 }
{
    opcode(edit.op.kind(), edit.call.is_some())
}

// Counts an edit.
fn count(counts: &mut [u64; 128], edit: &Edit)
    requires { slice_index counts.old (code_of edit.now) < 2 ^ 64 - 1 }
    ensures { (edits : List EditView) → AreCounts counts.old edits → AreCounts counts.new (edits ++ edit.now ∷ []) }
{
    counts[usize::from(code_of(edit))] += 1;
}

/// Counts an edit, and drops it.
pub(crate) fn count_owned(counts: &mut [u64; 128], edit: Edit)
    requires { slice_index counts.old (code_of edit) < 2 ^ 64 - 1 }
    ensures { (edits : List EditView) → AreCounts counts.old edits → AreCounts counts.new (edits ++ edit ∷ []) }
{
    count(counts, &edit);
}

// Appends a kind's name, the first byte of its records and how many there are; nothing where there
// are none.
fn put_tally(
    out: &mut Vec<u8>,
    counts: &[u64; 128],
    with_call: bool,
    kind: OpKind,
) -> Result<(), OutOfMemory>
    ensures { OnOk result (out.new.items ≡ out.old.items ++ tally_by (λ code. slice_index counts.now code) with_call kind) }
{
    let code = opcode(kind, with_call);
    let number = counts[usize::from(code)];
    if number == 0 {
        return Ok(());
    }
    out.extend_from_slice(b"OP_")?;
    out.extend_from_slice(kind.name().as_bytes())?;
    out.push(b' ')?;
    put_decimal(out, u64::from(code))?;
    out.push(b' ')?;
    put_decimal(out, number)?;
    out.push(b'\n')?;
    Ok(())
}

// Appends the tallies of these kinds, with a client's call or without.
fn put_tallies(
    out: &mut Vec<u8>,
    counts: &[u64; 128],
    with_call: bool,
    kinds: &[OpKind],
) -> Result<(), OutOfMemory>
    ensures { OnOk result (out.new.items ≡ out.old.items ++ flat_map (tally_by (λ code. slice_index counts.now code) with_call) kinds.now) }
{
    for kind in kinds {
        put_tally(out, counts, with_call, *kind)?;
    }
    Ok(())
}

/// Appends how many edits there are of each kind, and of all.
pub(crate) fn put_statistics(
    out: &mut Vec<u8>,
    counts: &[u64; 128],
    total: u64,
) -> Result<(), OutOfMemory>
    ensures { OnOk result (out.new.items ≡ out.old.items ++ statistics_by (λ code. slice_index counts.now code) total) }
{
    put_tallies(out, counts, false, &KINDS)?;
    put_tallies(out, counts, true, &KINDS)?;
    out.extend_from_slice(b"total ")?;
    put_decimal(out, total)?;
    out.push(b'\n')?;
    Ok(())
}

//! What is written of a line of the input.
ghost use Rattle.std.specs.Prelude.{◌≡◌, ◌++◌, OnOk};
ghost use Rattle.pipe_lead.specs.Leads.{result_text, results_text, refusal_text};
ghost use Rattle.pipe_lead.specs.States.{state_text};

use crate::lead_state::LeadState;
use base_words::{OutOfMemory, put, put_decimal};
use journal_history::{LentRecord, ListedRecord, Told};

/// Adds a line of the record, if it is a result.
fn put_result(out: &mut Vec<u8>, listed: &ListedRecord) -> Result<(), OutOfMemory>
    ensures { OnOk result (out.new.items ≡ out.old.items ++ result_text listed.now) }
{
    let ok = Told::OK;
    let LentRecord::Outcome { text } = listed.lend(&ok) else {
        return Ok(());
    };
    put(out, b"= ")?;
    put(out, text.as_slice())?;
    out.push(b'\n')?;
    Ok(())
}

/// Makes `out` the results of these lines of a record, a line each.
pub(crate) fn print_results(out: &mut Vec<u8>, records: &[ListedRecord]) -> Result<(), OutOfMemory>
    ensures { OnOk result (out.new.items ≡ results_text records.now) }
{
    out.clear();
    for listed in records {
        put_result(out, listed)?;
    }
    Ok(())
}

/// Makes `out` the answer to a line that breaks this rule.
pub(crate) fn print_refusal(out: &mut Vec<u8>, rule: u32) -> Result<(), OutOfMemory>
    ensures { OnOk result (out.new.items ≡ refusal_text rule) }
{
    out.clear();
    put(out, b"= bad ")?;
    put_decimal(out, rule as u64)?;
    out.push(b'\n')?;
    Ok(())
}

/// Makes `out` the answer to who asks what the name node is.
pub(crate) fn print_state(out: &mut Vec<u8>, state: LeadState) -> Result<(), OutOfMemory>
    ensures { OnOk result (out.new.items ≡ state_text state) }
{
    out.clear();
    match state {
        LeadState::Active { epoch } => {
            put(out, b"= active ")?;
            put_decimal(out, epoch)?;
        }
        LeadState::Standby { txid } => {
            put(out, b"= standby ")?;
            put_decimal(out, txid)?;
        }
        LeadState::Broken => put(out, b"= broken")?,
    }
    out.push(b'\n')?;
    Ok(())
}

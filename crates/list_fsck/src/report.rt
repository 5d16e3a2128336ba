//! The text of a check.
ghost use Rattle.std.specs.Prelude.{◌≡◌, ◌+◌, ◌++◌, ◌∷◌, [], Some, None, OnOk, codes, decimal};
ghost use Rattle.list_fsck.specs.Reports.{line_of, one_if};

use crate::finding::Finding;
use base_words::{OutOfMemory, put_decimal};
use std::alloc::Global;

/// What was found so far.
#[derive(Drop)]
pub struct SoFar {
    /// The lines.
    pub text: Vec<u8>,
    /// How many of them tell a finding.
    pub findings: u64,
    /// The end of the last final segment, by the names; 0 before the first.
    pub before: u64,
}

impl SoFar {
    /// Nothing yet.
    pub fn new(alloc: Global) -> SoFar
        ensures text { result.text.items ≡ [] }
        ensures findings { result.findings ≡ 0 }
        ensures before { result.before ≡ 0 }
    {
        SoFar {
            text: Vec::new(alloc),
            findings: 0,
            before: 0,
        }
    }
}

// Appends two numbers and the end of a line.
fn put_pair(out: &mut Vec<u8>, first: u64, second: u64) -> Result<(), OutOfMemory>
    ensures { OnOk result (out.new.items ≡ out.old.items ++ (decimal first ++ 32 ∷ (decimal second ++ 10 ∷ []))) }
{
    put_decimal(out, first)?;
    out.push(b' ')?;
    put_decimal(out, second)?;
    out.push(b'\n')?;
    Ok(())
}

// Appends the line of a file that breaks a rule.
fn put_finding(out: &mut Vec<u8>, name: &[u8], finding: &Finding) -> Result<(), OutOfMemory>
    ensures { OnOk result (out.new.items ≡ out.old.items ++ line_of name.now (Some finding.now)) }
{
    out.extend_from_slice(b"bad ")?;
    out.extend_from_slice(name)?;
    out.push(b' ')?;
    put_decimal(out, finding.rule.number())?;
    out.push(b' ')?;
    put_pair(out, finding.first, finding.second)
}

// Appends the line of a file that breaks none.
fn put_ok(out: &mut Vec<u8>, name: &[u8]) -> Result<(), OutOfMemory>
    ensures { OnOk result (out.new.items ≡ out.old.items ++ line_of name.now None) }
{
    out.extend_from_slice(b"ok ")?;
    out.extend_from_slice(name)?;
    out.push(b'\n')?;
    Ok(())
}

/// Appends the line of a file.
pub fn put_line(out: &mut Vec<u8>, name: &[u8], found: &Option<Finding>) -> Result<(), OutOfMemory>
    ensures { OnOk result (out.new.items ≡ out.old.items ++ line_of name.now found.now) }
{
    match found {
        Some(finding) => put_finding(out, name, finding),
        None => put_ok(out, name),
    }
}

/// How many findings a file has.
pub fn one_if(found: &Option<Finding>) -> u64
    ensures { result ≡ one_if found.now }
{
    match found {
        Some(_) => 1,
        None => 0,
    }
}

/// Appends the last line.
pub fn put_count(out: &mut Vec<u8>, findings: u64) -> Result<(), OutOfMemory>
    ensures { OnOk result (out.new.items ≡ out.old.items ++ (codes "findings " ++ (decimal findings ++ 10 ∷ []))) }
{
    out.extend_from_slice(b"findings ")?;
    put_decimal(out, findings)?;
    out.push(b'\n')?;
    Ok(())
}

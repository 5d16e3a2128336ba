//! The tests of an edit's names and numbers.
ghost use Rattle.std.specs.Prelude.{◌≡◌};
ghost use Rattle.std.specs.Result.{result_err};
ghost use Rattle.ns_edits.specs.Admit.{refused_if, bad_path, bad_owner, bad_new_owner, bad_permission, bad_replication, bad_block_size};

use crate::refusal::AdmitRefusal;
use ns_tree::{is_good_owner, is_good_path};

const MOST_PERMISSION: u16 = 0o1777;

const MOST_REPLICATION: u16 = 512;

const MOST_BLOCK_SIZE: u64 = 1099511627776;

/// Refuses where a condition is broken.
pub(crate) fn refuse_if(broken: bool, refusal: AdmitRefusal) -> Result<(), AdmitRefusal>
    ensures { result_err result ≡ refused_if broken refusal }
{
    if broken { Err(refusal) } else { Ok(()) }
}

pub(crate) fn check_path(path: &[u8]) -> Result<(), AdmitRefusal>
    ensures { result_err result ≡ bad_path path.now }
{
    refuse_if(!is_good_path(path), AdmitRefusal::BadName)
}

pub(crate) fn check_owner(name: &[u8]) -> Result<(), AdmitRefusal>
    ensures { result_err result ≡ bad_owner name.now }
{
    refuse_if(!is_good_owner(name), AdmitRefusal::BadName)
}

/// A user or a group that may be empty: it stays as it is then.
pub(crate) fn check_new_owner(name: &[u8]) -> Result<(), AdmitRefusal>
    ensures { result_err result ≡ bad_new_owner name.now }
{
    if name.is_empty() {
        return Ok(());
    }
    check_owner(name)
}

pub(crate) fn check_permission(permission: u16) -> Result<(), AdmitRefusal>
    ensures { result_err result ≡ bad_permission permission }
{
    refuse_if(permission > MOST_PERMISSION, AdmitRefusal::BadNumber)
}

pub(crate) fn check_replication(replication: u16) -> Result<(), AdmitRefusal>
    ensures { result_err result ≡ bad_replication replication }
{
    refuse_if(
        replication < 1 || replication > MOST_REPLICATION,
        AdmitRefusal::BadNumber,
    )
}

pub(crate) fn check_block_size(block_size: u64) -> Result<(), AdmitRefusal>
    ensures { result_err result ≡ bad_block_size block_size }
{
    refuse_if(
        block_size < 1 || block_size > MOST_BLOCK_SIZE,
        AdmitRefusal::BadNumber,
    )
}

//! The summary of a small mesh.
use play_report::summary_of;
use report_judge::{Reading, read_report};
use std::alloc::Global;
use std::test::Fail;

/// The report of a standby that made three journal rounds: all three nodes, two, and one answer
/// with Ok. Behind them stand results of every kind, and of takeovers that took no epoch.
const REPORT: &str = "nodes 3\nnode 1\nnode 2\nnode 3\nactor s\n\
1 journal 1 2 0 1 5 78 79 -> ok\n2 journal 1 2 0 1 5 78 79 -> ok\n3 journal 1 2 0 1 5 78 79 -> ok\n\
1 journal 1 3 0 1 7 78 79 -> ok\n2 journal 1 3 0 1 7 78 79 -> ok\n3 journal 1 3 0 1 7 78 79 -> muted\n\
1 journal 1 4 0 1 9 78 79 -> ok\n2 journal 1 4 0 1 9 78 79 -> muted\n3 journal 1 4 0 1 9 78 79 -> muted\n\
= takeover 1 1\n= takeover limit 7\n= takeover aborted ok Down Down\n= takeover behind 3 silent\n\
= acked 2\n= acked 3\n= refused 2 Exists\n= aborted ok silent silent\n= inactive\n= roll inactive\n\
= toolong 256\n= repeated 2\n= active\n= tail 9\nposition 6\n\
. /\t0\t0\t0\t0\t0\t0\t-1\t-1\tdrwxr-xr-x\thdfs\tsupergroup\nend\n";

const SUMMARY: &[u8] =
    b"nodes 3\nedits 7\nacked 2\nrefused 1\naborted 1\ninactive 1\ntoolong 1\ntakeovers 1\nlast 8\nstandby 6\n";

/// The summary of the lists of a report.
fn summary_in(alloc: Global, report: &str) -> Result<Vec<u8>, Fail> {
    let Reading::Read(lists) = read_report(alloc, report.as_bytes())? else {
        return Err("no report".into());
    };
    let text = summary_of(alloc, &lists.mesh, &lists.ends);
    drop(lists);
    Ok(text?)
}

#[test]
fn a_summary_counts_results(rt: HostRuntime) -> Result<(), Fail> {
    assert!(rt; summary_in(rt.alloc(), REPORT)?.as_slice() == SUMMARY);
    Ok(())
}

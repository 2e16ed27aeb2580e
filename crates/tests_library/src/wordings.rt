// The words by which faults are displayed, where no clause states them.
use script_doc::ScriptFault;
use std::alloc::{AllocError, Global};
use std::fmt::Display;
use std::test::Fail;
use tab_core::{CoreNo, VcpuNo};
use tab_io::{ReadAll, WriteFault};
use table_check::CheckFault;

const READS: [(ReadAll, &str); 3] = [
    (ReadAll::ReadFault, "the input failed"),
    (
        ReadAll::TooLong { limit: 7 },
        "the input has more than 7 bytes",
    ),
    (ReadAll::NoMemory, "out of memory"),
];

// Those of the lines by which scripts are refused.
const SCRIPTS: [(ScriptFault, &str); 6] = [
    (ScriptFault::BadLine { line: 1 }, "script line 1"),
    (
        ScriptFault::UnknownName { line: 2 },
        "unknown name in script line 2",
    ),
    (
        ScriptFault::OutOfOrder { line: 30 },
        "script line 30 goes back",
    ),
    (
        ScriptFault::LateEvent { line: 4 },
        "script line 4 is past the run",
    ),
    (
        ScriptFault::TooManyEvents { line: 65_536 },
        "more than 65535 events at script line 65536",
    ),
    (
        ScriptFault::TooManyChanges { line: 17 },
        "more than 15 changes at script line 17",
    ),
];

const CLASH: CheckFault = CheckFault::Twice {
    vcpu: VcpuNo(1),
    tick: 102_599,
    core: CoreNo(0),
    other: CoreNo(2),
};

fn is_worded<T: Display>(alloc: Global, fault: &T, words: &str) -> Result<bool, AllocError> {
    Ok(format!(in alloc; "{fault}")?.as_str() == words)
}

#[test]
fn faults_are_worded(rt: HostRuntime) -> Result<(), Fail> {
    for (fault, words) in &READS {
        assert!(rt; is_worded(rt.alloc(), fault, words)?);
    }
    for (fault, words) in &SCRIPTS {
        assert!(rt; is_worded(rt.alloc(), fault, words)?);
    }
    assert!(rt; is_worded(rt.alloc(), &WriteFault, "the output failed")?);
    let words = "vCPU 1 stands on cores 0 and 2 at tick 102599";
    assert!(rt; is_worded(rt.alloc(), &CLASH, words)?);
    Ok(())
}

ghost use Rattle.std.specs.Prelude.{◌<◌, ◌≤◌, ◌≡◌, ◌^◌, IfOk, length};
ghost use Rattle.tab_io.specs.Sinks.{Writes};
ghost use Rattle.tool_input.specs.Verdicts.{IsTaskVerdict, IsVerdict, verdict_line};
ghost use Rattle.vcpu_names.specs.Names.{names_of};

use crate::fault::Fault;
use period_choice::{TaskFault, tasks_of};
use plan_make::put_no_period;
use plan_text::{ReadPlan, put_plan_fault, read_plan};
use std::alloc::{AllocError, Global};
use tab_core::{Host, NoMemory, Vcpu, VcpuNo};
use tab_io::{MemSink, Sink, WriteFault};
use table_check::{CheckFault, first_fault, put_check_fault};
use vcpu_names::name_in;

// More bytes than the longest line of a refusal has.
const LINE_ROOM: usize = 256;

/// What `tableau check` says of the text of a plan beside its host.
#[derive(Clone, Copy, PartialEq, Eq)]
pub enum Verdict {
    /// The text's tables are a plan of the host.
    Plan,
    /// No period meets the latency of this vCPU, so the host has no plan.
    NoPeriod { vcpu: VcpuNo },
    /// This line of the text, from 1, is none of a plan of the host.
    BadLine { line: u32 },
    /// The tables have this fault.
    BadTables(CheckFault),
}

/// What `tableau check` says of a text beside a host, by the code of that command: `period_choice` has the tasks,
/// `plan_text` reads the tables, and `table_check` names their first fault.
pub fn verdict_of(alloc: Global, host: &Host, text: &[u8]) -> Result<Verdict, NoMemory>
    requires { length text.now < 2 ^ 32 }
    ensures { IfOk result (IsVerdict host.now text.now) }
{
    let tasks = match tasks_of(alloc, host) {
        Ok(tasks) => tasks,
        Err(fault) => return verdict_of_tasks(fault),
    };
    let raw = match read_plan(alloc, text, host, &tasks) {
        Ok(raw) => raw,
        Err(ReadPlan::BadLine { line }) => return Ok(Verdict::BadLine { line }),
        Err(ReadPlan::NoMemory) => return Err(AllocError),
    };
    match first_fault(alloc, tasks.items(), raw.rows.items())? {
        None => Ok(Verdict::Plan),
        Some(fault) => Ok(Verdict::BadTables(fault)),
    }
}

// What is said where the host has no tasks.
fn verdict_of_tasks(fault: TaskFault) -> Result<Verdict, NoMemory>
    ensures { IfOk result (λ verdict. IsTaskVerdict fault verdict) }
{
    match fault {
        TaskFault::NoPeriod { vcpu } => Ok(Verdict::NoPeriod { vcpu }),
        TaskFault::NoMemory => Err(AllocError),
    }
}

/// Writes the line of a refusal by `tableau check`, of a host of these vCPUs; nothing where it refuses nothing.
///
/// A fault of the sink leaves a prefix of the line in it. Nothing is settled.
pub fn put_verdict<K: Sink>(
    sink: &mut K,
    verdict: &Verdict,
    vcpus: &[Vcpu],
) -> Result<(), WriteFault>
    ensures { Writes (K.state sink.old) (K.state sink.new) (verdict_line (names_of vcpus.now) verdict.now) result }
{
    match verdict {
        Verdict::Plan => Ok(()),
        Verdict::NoPeriod { vcpu } => put_no_period(sink, name_in(vcpus, vcpu)),
        Verdict::BadLine { line } => put_plan_fault(sink, *line),
        Verdict::BadTables(fault) => put_check_fault(sink, fault, vcpus),
    }
}

/// The line by which `tableau check` refuses the text of a plan beside its host, without its end; empty where the text is
/// a plan of the host.
pub fn refusal_of(alloc: Global, host: &Host, text: &[u8]) -> Result<Vec<u8>, Fault>
    requires { length text.now < 2 ^ 32 }
{
    match verdict_of(alloc, host, text) {
        Ok(verdict) => line_of_verdict(alloc, &verdict, host.vcpus.items()),
        Err(_) => Err(Fault::NoMemory),
    }
}

// The line of a refusal without its end, of a host of these vCPUs; nothing where nothing is refused.
fn line_of_verdict(alloc: Global, verdict: &Verdict, vcpus: &[Vcpu]) -> Result<Vec<u8>, Fault> {
    let mut sink = MemSink::with_room(alloc, LINE_ROOM)?;
    put_verdict(&mut sink, verdict, vcpus)?;
    let line = sink.bytes();
    let (line, _) = line.split_at(line.len().saturating_sub(1));
    Ok(Vec::from_slice(alloc, line)?)
}

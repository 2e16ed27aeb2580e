ghost use Rattle.std.specs.Prelude.{◌≡◌, ◌≤◌, MatchOption, length};
ghost use Rattle.tab_core.specs.declared.TheConstants.{MAX_VCPUS};
ghost use Rattle.view_trace.specs.Drawable.{HasLane, IsUnplaced};

use crate::fault::{LineCause, TraceFault};
use crate::names::number_for;
use host_trace::{Mark, State, told_of};
use std::alloc::Global;
use tab_core::{MAX_CORES, Name};

// What is kept of a trace whose lines are read.
#[derive(Drop)]
pub(crate) struct Reading {
    // the vCPUs' names, in the order in which lines name them first
    pub(crate) names: Vec<Name>,
    pub(crate) marks: Vec<Mark>,
    // the time of the last mark, and 0 before the first
    pub(crate) time_ns: u64,
    ghost few: { length names.items ≤ MAX_VCPUS },
}

impl Reading {
    ghost use Rattle.std.specs.Prelude.{◌≡◌, [], ◌∷◌, ◌++◌, IfErr, List, OnOk};
    ghost use Rattle.host_trace.specs.TraceLines.{TraceRow};
    ghost use Rattle.view_trace.specs.Drawable.{drawable_row};
    ghost use Rattle.view_trace.specs.Inside.Readings.{HasReadRows, IsRowFault};

    // Before the first line.
    pub(crate) fn begin(alloc: Global) -> Reading
        ensures { HasReadRows [] result }
    {
        Reading {
            names: Vec::new(alloc),
            marks: Vec::new(alloc),
            time_ns: 0,
        }
    }

    // Reads the next line, which isn't passed over.
    pub(crate) fn take_line(
        &mut self,
        alloc: Global,
        number: u64,
        line: &[u8],
    ) -> Result<(), TraceFault>
        ensures read { OnOk result ((rows : List TraceRow) → HasReadRows rows self.old
            → HasReadRows (rows ++ drawable_row number line.now ∷ []) self.new) }
        ensures fault { IfErr result (λ fault. (rows : List TraceRow) → HasReadRows rows self.old
            → IsRowFault rows number line.now fault) }
    {
        let Some(told) = told_of(line) else {
            return Err(fault_at(number, LineCause::NoForm));
        };
        if told.time_ns < self.time_ns {
            return Err(fault_at(number, LineCause::Falls));
        }
        if !Name::has_form(told.name) {
            return Err(fault_at(number, LineCause::NoName));
        }
        if let Some(cause) = unplaced(told.state, told.cpu) {
            return Err(fault_at(number, cause));
        }
        let Ok(found) = number_for(alloc, &mut self.names, told.name) else {
            return Err(TraceFault::NoMemory);
        };
        let Some(vcpu) = found else {
            return Err(fault_at(number, LineCause::ManyVcpus));
        };
        let mark = Mark {
            line: number,
            time_ns: told.time_ns,
            vcpu: Some(vcpu),
            state: told.state,
            cpu: told.cpu,
        };
        if self.marks.push(mark).is_err() {
            return Err(TraceFault::NoMemory);
        }
        self.time_ns = told.time_ns;
        Ok(())
    }
}

// The fault of a line.
fn fault_at(line: u64, cause: LineCause) -> TraceFault
    ensures { result ≡ TraceFault.BadLine line cause }
{
    TraceFault::BadLine { line, cause }
}

// Why a vCPU can't be drawn in a state on a CPU, if it can't.
fn unplaced(state: State, cpu: Option<u32>) -> Option<LineCause>
    ensures { MatchOption result (HasLane state cpu) (IsUnplaced state cpu) }
{
    match (state, cpu) {
        (State::Run, None) => Some(LineCause::NoCpu),
        (State::Run, Some(cpu)) if cpu >= MAX_CORES => Some(LineCause::HighCpu),
        _ => None,
    }
}

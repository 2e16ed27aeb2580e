ghost use Rattle.std.specs.Prelude.{◌≡◌, ◌+◌, ◌<◌, ◌≤◌, ◌^◌, IfOk, length};
ghost use Rattle.std.specs.List.{list_any};
ghost use Rattle.host_judge.specs.Clashes.{are_same, are_two, cpu_of_run};

use crate::counts::{counted_if, no_lines};
use crate::report::LineCount;
use host_trace::{Mark, State};
use std::alloc::Global;
use tab_core::NoMemory;

// Where the vCPUs run, and the lines that can't be because of it.
#[derive(Drop)]
pub(crate) struct Clashes {
    // the CPU on which each runs by its last mark
    pub(crate) cpus: Vec<Option<u32>>,
    pub(crate) shared: LineCount,
    pub(crate) doubled: LineCount,
}

impl Clashes {
    ghost use Rattle.std.specs.Prelude.{◌≡◌, ℕ, ◌+◌, ◌<◌, ◌≤◌, ◌^◌, [], ◌∷◌, ◌++◌, List, IfOk, Some, length};
    ghost use Rattle.host_trace.specs.declared.mark.Mark.{Mark};
    ghost use Rattle.host_judge.specs.Inside.Clashed.{HasClashes};

    // So many vCPUs, of which nothing is known.
    pub(crate) fn begin(alloc: Global, vcpus: usize) -> Result<Clashes, NoMemory>
        ensures many { IfOk result (λ clashes. length clashes.cpus.items ≡ vcpus) }
        ensures few { IfOk result (λ clashes. (clashes.shared.count ≡ 0) × (clashes.doubled.count ≡ 0)) }
        ensures begun { IfOk result (HasClashes []) }
    {
        Ok(Clashes {
            cpus: vec![in alloc; None; vcpus]?,
            shared: no_lines(),
            doubled: no_lines(),
        })
    }

    // Takes the next mark, which is of this vCPU.
    pub(crate) fn take(&mut self, vcpu: usize, mark: &Mark)
        requires own { mark.now.vcpu ≡ Some vcpu }
        requires known { vcpu < length self.old.cpus.items }
        requires few_shared { self.old.shared.count + 1 < 2 ^ 64 }
        requires few_doubled { self.old.doubled.count + 1 < 2 ^ 64 }
        ensures many { length self.new.cpus.items ≡ length self.old.cpus.items }
        ensures few_shared { self.new.shared.count ≤ self.old.shared.count + 1 }
        ensures few_doubled { self.new.doubled.count ≤ self.old.doubled.count + 1 }
        ensures taken { (marks : List Mark) → HasClashes marks self.old
            → HasClashes (marks ++ mark.now ∷ []) self.new }
    {
        let to = cpu_of(mark);
        let from = self.cpus[vcpu];
        self.cpus[vcpu] = None;
        self.shared = counted_if(&self.shared, is_any_on(&self.cpus, to), mark.line);
        self.doubled = counted_if(&self.doubled, are_cpus_two(from, to), mark.line);
        self.cpus[vcpu] = to;
    }
}

// The CPU on which a mark says that its vCPU runs.
fn cpu_of(mark: &Mark) -> Option<u32>
    ensures { result ≡ cpu_of_run mark.now }
{
    match mark.state {
        State::Run => mark.cpu,
        State::Wait | State::Block => None,
    }
}

// Whether one of them runs on a CPU.
fn is_any_on(cpus: &[Option<u32>], cpu: Option<u32>) -> bool
    ensures { result ≡ list_any (λ other. are_same other cpu) cpus.now }
{
    cpu.is_some() && cpus.contains(&cpu)
}

// Whether both are known, and differ.
fn are_cpus_two(from: Option<u32>, to: Option<u32>) -> bool
    ensures { result ≡ are_two from to }
{
    match (from, to) {
        (Some(from), Some(to)) => from != to,
        _ => false,
    }
}

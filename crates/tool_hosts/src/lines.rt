ghost use Rattle.std.specs.Prelude.{◌≡◌, ◌<◌, ◌≤◌, ◌^◌, ◌+◌, IfOk, length, map};
ghost use Rattle.std.specs.List.{range_with_len};
ghost use Rattle.tab_core.specs.declared.TheConstants.{MAX_CORES, MAX_VCPUS};
ghost use Rattle.tab_io.specs.Sinks.{Writes};
ghost use Rattle.tool_hosts.specs.declared.lines.TheConstants.{MAX_CPU};
ghost use Rattle.tool_hosts.specs.Exports.{export_fault, export_text, guest_fault, scheduler_of};

use crate::map::{rename, renamed, renamings_of};
use std::alloc::Global;
use tab_core::{Host, NoMemory, Vcpu};
use tab_io::{Sink, WriteFault};
use tab_words::cut_sections;
use tool_input::{
    Fault, Input, Refusal, finish, host_of, input_beside, no_host, output_of, plan_of, refusal_of,
    shown, shown_whole,
};
use view_doc::View;
use view_schedulers::{
    CpuListFault, Scheduler, Unkept, cpus_of, unkept_of, unlike_of, write_cgroup, write_deadline,
    write_libvirt, write_rtds,
};

// The greatest number of a CPU that the words name as the first. (They were refused if it is greater.)
const MAX_CPU: u32 = 8191;

/// What the lines are for.
#[derive(Clone, Copy)]
pub enum LineForm {
    /// Xen's RTDS.
    Rtds,
    /// Linux's deadline tasks.
    Deadline,
    /// Linux's deadline tasks, which are given whole cores.
    FullDeadline,
    /// Linux's cgroups.
    Cgroup,
    /// libvirt.
    Libvirt,
}

impl LineForm {
    // The scheduler that carries the lines out.
    fn scheduler(self) -> Scheduler
        ensures { result ≡ scheduler_of self }
    {
        match self {
            LineForm::Rtds => Scheduler::Rtds,
            LineForm::Deadline => Scheduler::Deadline,
            LineForm::FullDeadline => Scheduler::FullDeadline,
            LineForm::Cgroup | LineForm::Libvirt => Scheduler::Quota,
        }
    }
}

/// What the words of `export` say, where they name a scheduler.
#[derive(Clone, Copy)]
pub struct LineWords<'w> {
    /// What the lines are for.
    pub form: LineForm,
    /// The file to read; standard input where there is none.
    pub file: Option<&'w str>,
    /// The file that gives vCPUs other names.
    pub map: Option<&'w str>,
    /// The CPU that core 0 is, from which on the cores are CPUs one after the other.
    pub first_cpu: Option<u32>,
    /// The list of the CPUs that the cores are, in place of the first.
    pub cpus: Option<&'w str>,
}

/// Does `export` for a scheduler: it reads a host and its plan, which `tableau check` has to accept, and writes the lines that put the plan's vCPUs there, by
/// the names that a map gives them where one is named.
pub fn export_lines(rt: &HostRuntime, words: &LineWords<'_>) -> Result<(), Fault> {
    let (form, map) = (words.form, words.map);
    let Input { place, bytes } = input_beside(rt, words.file, map)?;
    let sections = cut_sections(&bytes);
    if sections.count() != 2 {
        return Err(no_host(place, &bytes, sections.count()));
    }
    let host = host_of(rt.alloc(), &place, sections.part(0))?;
    let mut view = plan_of(rt.alloc(), &place, sections.part(1))?;
    let renamings = renamings_of(rt, map)?;
    rename(rt.alloc(), &renamings, &mut view.names)?;
    let vcpus = renamed(rt.alloc(), &renamings, host.vcpus.items())?;
    if let Some(fault) = refused(form, host.tick_ns, &vcpus, &view) {
        let fault = Refusal::of(rt.alloc(), &fault, &view)?;
        return Err(Fault::Unkept { place, fault });
    }
    checked(rt.alloc(), place, &host, sections.part(1))?;
    let cpus = cpus_for(rt.alloc(), words, view.cores)?;
    let mut sink = output_of(rt)?;
    put_lines(&mut sink, form, &cpus, host.tick_ns, &vcpus, &view)?;
    finish(&mut sink)
}

// The CPUs that so many cores are: those that the words list, of which there may be more, or as many from the first on.
fn cpus_for(alloc: Global, words: &LineWords<'_>, cores: u32) -> Result<Vec<u32>, Fault>
    requires { cores ≤ MAX_CORES }
    ensures { IfOk result (λ cpus. cores ≤ length cpus.items) }
{
    let Some(list) = words.cpus else {
        return Ok(cpus_from(alloc, words.first_cpu.unwrap_or(0).min(MAX_CPU), cores)?);
    };
    match cpus_of(alloc, list.as_bytes()) {
        Ok(cpus) if cpus.len() < cores as usize => Err(Fault::FewCpus {
            cpus: cpus.len(),
            cores,
        }),
        Ok(cpus) => Ok(cpus),
        Err(CpuListFault::Twice(cpu)) => Err(Fault::CpuTwice { cpu }),
        Err(CpuListFault::NoList) => Err(Fault::BadCpus {
            text: shown(alloc, list.as_bytes())?,
        }),
        Err(CpuListFault::NoMemory) => Err(Fault::NoMemory),
    }
}

// As many CPUs as there are cores, one after the other.
fn cpus_from(alloc: Global, first: u32, cores: u32) -> Result<Vec<u32>, NoMemory>
    requires low { first ≤ MAX_CPU }
    requires few { cores ≤ MAX_CORES }
    ensures cpus { IfOk result (λ cpus. cpus.items ≡ map (λ core. first + core) (range_with_len 0 cores)) }
    ensures size { IfOk result (λ cpus. length cpus.items ≡ cores) }
{
    let mut cpus = Vec::with_capacity(alloc, cores as usize)?;
    for core in 0..cores {
        cpus.push(first + core)?;
    }
    Ok(cpus)
}

// Refuses the text of a plan that `tableau check` refuses beside this host, with its line.
fn checked(alloc: Global, place: String, host: &Host, text: &[u8]) -> Result<(), Fault>
    requires { length text.now < 2 ^ 31 }
{
    let line = refusal_of(alloc, host, text)?;
    if line.is_empty() {
        return Ok(());
    }
    Err(Fault::BadTables {
        place,
        line: shown_whole(alloc, &line)?,
    })
}

// Why the plan isn't put there, if it isn't.
fn refused(form: LineForm, tick_ns: u32, vcpus: &[Vcpu], view: &View) -> Option<Unkept>
    requires { length view.now.tasks.items ≤ MAX_VCPUS }
    ensures { result ≡ export_fault form tick_ns vcpus.now view.now }
{
    if let Some(fault) = unkept_of(form.scheduler(), tick_ns, vcpus, view) {
        return Some(fault);
    }
    guest_fault(form, tick_ns, view)
}

// The fault of guests whose vCPUs have to be alike and aren't.
fn guest_fault(form: LineForm, tick_ns: u32, view: &View) -> Option<Unkept>
    requires { length view.now.tasks.items ≤ MAX_VCPUS }
    ensures { result ≡ guest_fault form tick_ns view.now }
{
    match form {
        LineForm::Libvirt => unlike_of(tick_ns, view),
        LineForm::Rtds | LineForm::Deadline | LineForm::FullDeadline | LineForm::Cgroup => None,
    }
}

// Writes the lines.
fn put_lines<K: Sink>(
    sink: &mut K,
    form: LineForm,
    cpus: &[u32],
    tick_ns: u32,
    vcpus: &[Vcpu],
    view: &View,
) -> Result<(), WriteFault>
    ensures { Writes (K.state sink.old) (K.state sink.new) (export_text form cpus.now tick_ns vcpus.now view.now) result }
{
    match form {
        LineForm::Rtds => write_rtds(sink, cpus, tick_ns, vcpus, view),
        LineForm::Deadline => { write_deadline(sink, Scheduler::Deadline, cpus, tick_ns, view) }
        LineForm::FullDeadline => {
            write_deadline(sink, Scheduler::FullDeadline, cpus, tick_ns, view)
        }
        LineForm::Cgroup => write_cgroup(sink, cpus, tick_ns, view),
        LineForm::Libvirt => write_libvirt(sink, cpus, tick_ns, view),
    }
}

ghost use Rattle.std.specs.Prelude.{◌≡◌, ◌+◌, ◌<◌, ◌++◌, codes, length};
ghost use Rattle.tab_io.specs.Sinks.{Writes};
ghost use Rattle.tab_words.specs.Texts.{texts_below};
ghost use Rattle.view_schedulers.specs.Lines.{each_vcpu_text};
ghost use Rattle.view_schedulers.specs.QuotaLines.{cgroup_text, cgroup_text_of, max_lines, own_lines, quota_of};

use crate::budget::{budget_in, period_in, weight_of};
use crate::guest::{guest_of, number_of};
use crate::heads::{CGROUP_HEAD, GROUPS};
use crate::lines::{cpu_of, put_head, put_made};
use crate::scheduler::Scheduler;
use crate::unkept::name_at;
use tab_core::Name;
use tab_io::{Sink, WriteFault, write_all};
use tab_words::{TextPiece, put_pieces};
use view_doc::{Task, View};

/// Writes the lines that give a plan's vCPUs quotas of Linux's cgroups: for each a group of its own,
/// with the CPU of its home, a quota and a period in microseconds, and a weight. `cpus` has the CPU
/// of each core by its number, and a tick has so many nanoseconds.
///
/// A fault leaves a prefix of the text in the sink. Nothing is settled, and nothing is allocated.
pub fn write_cgroup<K: Sink>(
    sink: &mut K,
    cpus: &[u32],
    tick_ns: u32,
    view: &View,
) -> Result<(), WriteFault>
    ensures { Writes (K.state sink.old) (K.state sink.new) (cgroup_text cpus.now tick_ns view.now) result }
{
    put_cgroup_text(sink, cpus, tick_ns, view.cores, &view.names, &view.tasks)
}

// Writes the text of a plan of these vCPUs.
fn put_cgroup_text<K: Sink>(
    sink: &mut K,
    cpus: &[u32],
    tick_ns: u32,
    cores: u32,
    names: &[Name],
    tasks: &[Task],
) -> Result<(), WriteFault>
    ensures { Writes (K.state sink.old) (K.state sink.new)
        (cgroup_text_of cpus.now tick_ns cores names.now tasks.now) result }
{
    put_head(sink, CGROUP_HEAD)?;
    put_made(sink, cores, tasks, tick_ns, cpus)?;
    write_all(sink, GROUPS)?;
    put_quota_vcpus(sink, cpus, tick_ns, names, tasks)
}

// Writes the lines of each vCPU.
fn put_quota_vcpus<K: Sink>(
    sink: &mut K,
    cpus: &[u32],
    tick_ns: u32,
    names: &[Name],
    tasks: &[Task],
) -> Result<(), WriteFault>
    ensures { Writes (K.state sink.old) (K.state sink.new)
        (texts_below (each_vcpu_text (quota_of cpus.now tick_ns) names.now tasks.now) (length tasks.now)) result }
{
    for vcpu in 0..tasks.len() {
        put_quota_at(sink, cpus, tick_ns, names, tasks, vcpu)?;
    }
    Ok(())
}

fn put_quota_at<K: Sink>(
    sink: &mut K,
    cpus: &[u32],
    tick_ns: u32,
    names: &[Name],
    tasks: &[Task],
    vcpu: usize,
) -> Result<(), WriteFault>
    requires { vcpu < length tasks.now }
    ensures { Writes (K.state sink.old) (K.state sink.new)
        (each_vcpu_text (quota_of cpus.now tick_ns) names.now tasks.now vcpu) result }
{
    put_quota(sink, cpus, tick_ns, name_at(names, vcpu), &tasks[vcpu])
}

fn put_quota<K: Sink>(
    sink: &mut K,
    cpus: &[u32],
    tick_ns: u32,
    name: &[u8],
    task: &Task,
) -> Result<(), WriteFault>
    ensures { Writes (K.state sink.old) (K.state sink.new)
        (quota_of cpus.now tick_ns name.now task.now) result }
{
    let guest = guest_of(name);
    let number = number_of(name);
    let period = period_in(Scheduler::Quota, tick_ns, task);
    let budget = budget_in(Scheduler::Quota, tick_ns, task);
    let cpu = cpu_of(cpus, task);
    put_quota_lines(sink, guest, number, cpu, period, budget, weight_of(task))
}

fn put_quota_lines<'a, K: Sink>(
    sink: &mut K,
    guest: &'a [u8],
    number: &'a [u8],
    cpu: u64,
    period: u64,
    budget: u64,
    weight: u64,
) -> Result<(), WriteFault>
    ensures { Writes (K.state sink.old) (K.state sink.new)
        (own_lines guest.now number.now cpu ++ max_lines period budget weight) result }
{
    put_own(sink, guest, number, cpu)?;
    put_max(sink, period, budget, weight)
}

#[tactic(auto, unfolding(crate::specs::QuotaLines::own_lines))]
fn put_own<'a, K: Sink>(
    sink: &mut K,
    guest: &'a [u8],
    number: &'a [u8],
    cpu: u64,
) -> Result<(), WriteFault>
    ensures { Writes (K.state sink.old) (K.state sink.new) (own_lines guest.now number.now cpu) result }
{
    put_pieces(
        sink,
        &[
            TextPiece::Text(b"vcpu "),
            TextPiece::Text(guest),
            TextPiece::Text(b" "),
            TextPiece::Text(number),
            TextPiece::Text(b"\necho "),
            TextPiece::Wide(cpu),
            TextPiece::Text(b" > \"$own/cpuset.cpus\"\n"),
        ],
    )
}

#[tactic(auto, unfolding(crate::specs::QuotaLines::max_lines))]
fn put_max<K: Sink>(sink: &mut K, period: u64, budget: u64, weight: u64) -> Result<(), WriteFault>
    ensures { Writes (K.state sink.old) (K.state sink.new) (max_lines period budget weight) result }
{
    put_pieces(
        sink,
        &[
            TextPiece::Text(b"echo "),
            TextPiece::Wide(budget),
            TextPiece::Text(b" "),
            TextPiece::Wide(period),
            TextPiece::Text(b" > \"$own/cpu.max\"\necho "),
            TextPiece::Wide(weight),
            TextPiece::Text(b" > \"$own/cpu.weight\"\n"),
        ],
    )
}

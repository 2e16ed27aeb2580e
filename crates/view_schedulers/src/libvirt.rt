ghost use Rattle.std.specs.Prelude.{◌≡◌, ◌+◌, ◌<◌, ◌≤◌, ◌++◌, [], codes, if◌then◌else◌, length};
ghost use Rattle.std.specs.Str.{bytes_eq};
ghost use Rattle.tab_io.specs.Sinks.{Writes};
ghost use Rattle.tab_words.specs.Texts.{texts_below};
ghost use Rattle.vcpu_names.specs.Names.{name_at};
ghost use Rattle.view_schedulers.specs.Guests.{guest_of};
ghost use Rattle.view_schedulers.specs.Lines.{each_vcpu_text};
ghost use Rattle.view_schedulers.specs.LibvirtLines.{cputune_line, guest_lines, has_one_below, libvirt_at, libvirt_text, libvirt_text_of, pin_part, pin_part_of, quota_part, schedinfo_line, virsh_line, virsh_of};

use crate::budget::{budget_in, period_in};
use crate::guest::{guest_of, number_of};
use crate::heads::LIBVIRT_HEAD;
use crate::lines::{cpu_of, put_made};
use crate::scheduler::Scheduler;
use crate::unkept::name_at;
use tab_core::Name;
use tab_io::{Sink, WriteFault, write_all};
use tab_words::{TextPiece, put_pieces};
use view_doc::{Task, View};

/// Writes the commands of virsh that pin a plan's vCPUs and give each guest a period and a quota in
/// microseconds, and in comments the part of each guest's XML that says the same. `cpus` has the
/// CPU of each core by its number, and a tick has so many nanoseconds.
///
/// A fault leaves a prefix of the text in the sink. Nothing is settled, and nothing is allocated.
pub fn write_libvirt<K: Sink>(
    sink: &mut K,
    cpus: &[u32],
    tick_ns: u32,
    view: &View,
) -> Result<(), WriteFault>
    ensures { Writes (K.state sink.old) (K.state sink.new) (libvirt_text cpus.now tick_ns view.now) result }
{
    put_libvirt_text(sink, cpus, tick_ns, view.cores, &view.names, &view.tasks)
}

// Writes the text of a plan of these vCPUs.
fn put_libvirt_text<K: Sink>(
    sink: &mut K,
    cpus: &[u32],
    tick_ns: u32,
    cores: u32,
    names: &[Name],
    tasks: &[Task],
) -> Result<(), WriteFault>
    ensures { Writes (K.state sink.old) (K.state sink.new)
        (libvirt_text_of cpus.now tick_ns cores names.now tasks.now) result }
{
    write_all(sink, LIBVIRT_HEAD)?;
    put_made(sink, cores, tasks, tick_ns, cpus)?;
    put_libvirt_vcpus(sink, cpus, tick_ns, names, tasks)
}

// Writes the lines of each vCPU.
fn put_libvirt_vcpus<K: Sink>(
    sink: &mut K,
    cpus: &[u32],
    tick_ns: u32,
    names: &[Name],
    tasks: &[Task],
) -> Result<(), WriteFault>
    ensures { Writes (K.state sink.old) (K.state sink.new)
        (texts_below (libvirt_at cpus.now tick_ns names.now tasks.now) (length tasks.now)) result }
{
    for vcpu in 0..tasks.len() {
        put_libvirt_at(sink, cpus, tick_ns, names, tasks, vcpu)?;
    }
    Ok(())
}

fn put_libvirt_at<K: Sink>(
    sink: &mut K,
    cpus: &[u32],
    tick_ns: u32,
    names: &[Name],
    tasks: &[Task],
    vcpu: usize,
) -> Result<(), WriteFault>
    requires { vcpu < length tasks.now }
    ensures { Writes (K.state sink.old) (K.state sink.new)
        (libvirt_at cpus.now tick_ns names.now tasks.now vcpu) result }
{
    put_virsh_at(sink, cpus, names, tasks, vcpu)?;
    put_guest_at(sink, cpus, tick_ns, names, tasks, vcpu)
}

fn put_virsh_at<K: Sink>(
    sink: &mut K,
    cpus: &[u32],
    names: &[Name],
    tasks: &[Task],
    vcpu: usize,
) -> Result<(), WriteFault>
    requires { vcpu < length tasks.now }
    ensures { Writes (K.state sink.old) (K.state sink.new)
        (each_vcpu_text (virsh_of cpus.now) names.now tasks.now vcpu) result }
{
    put_virsh(sink, cpus, name_at(names, vcpu), &tasks[vcpu])
}

fn put_virsh<K: Sink>(
    sink: &mut K,
    cpus: &[u32],
    name: &[u8],
    task: &Task,
) -> Result<(), WriteFault>
    ensures { Writes (K.state sink.old) (K.state sink.new) (virsh_of cpus.now name.now task.now) result }
{
    put_virsh_line(sink, guest_of(name), number_of(name), cpu_of(cpus, task))
}

#[tactic(auto, unfolding(crate::specs::LibvirtLines::virsh_line))]
fn put_virsh_line<'a, K: Sink>(
    sink: &mut K,
    guest: &'a [u8],
    number: &'a [u8],
    cpu: u64,
) -> Result<(), WriteFault>
    ensures { Writes (K.state sink.old) (K.state sink.new) (virsh_line guest.now number.now cpu) result }
{
    put_pieces(
        sink,
        &[
            TextPiece::Text(b"virsh vcpupin "),
            TextPiece::Text(guest),
            TextPiece::Text(b" "),
            TextPiece::Text(number),
            TextPiece::Text(b" "),
            TextPiece::Wide(cpu),
            TextPiece::Text(b"\n"),
        ],
    )
}

// Writes the lines of the guest of a vCPU that is its first.
#[tactic(auto, using(tab_io::proofs::SinkLemmas::writes_nothing))]
fn put_guest_at<K: Sink>(
    sink: &mut K,
    cpus: &[u32],
    tick_ns: u32,
    names: &[Name],
    tasks: &[Task],
    vcpu: usize,
) -> Result<(), WriteFault>
    requires { vcpu < length tasks.now }
    ensures { Writes (K.state sink.old) (K.state sink.new)
        (if has_one_below names.now (guest_of (name_at names.now vcpu)) vcpu then []
        else each_vcpu_text (guest_lines cpus.now tick_ns names.now tasks.now) names.now tasks.now vcpu) result }
{
    let name = name_at(names, vcpu);
    if has_one_below(names, guest_of(name), vcpu) {
        return Ok(());
    }
    put_guest(sink, cpus, tick_ns, names, tasks, name, &tasks[vcpu])
}

// Whether one of the vCPUs below this number is the guest's.
fn has_one_below(names: &[Name], guest: &[u8], below: usize) -> bool
    ensures { result ≡ has_one_below names.now guest.now below }
{
    let mut found = false;
    for vcpu in 0..below {
        if is_guests(names, guest, vcpu) {
            found = true;
        }
    }
    found
}

fn is_guests(names: &[Name], guest: &[u8], vcpu: usize) -> bool
    ensures { result ≡ bytes_eq (guest_of (name_at names.now vcpu)) guest.now }
{
    guest_of(name_at(names, vcpu)) == guest
}

fn put_guest<K: Sink>(
    sink: &mut K,
    cpus: &[u32],
    tick_ns: u32,
    names: &[Name],
    tasks: &[Task],
    name: &[u8],
    task: &Task,
) -> Result<(), WriteFault>
    ensures { Writes (K.state sink.old) (K.state sink.new)
        (guest_lines cpus.now tick_ns names.now tasks.now name.now task.now) result }
{
    let guest = guest_of(name);
    let period = period_in(Scheduler::Quota, tick_ns, task);
    let budget = budget_in(Scheduler::Quota, tick_ns, task);
    put_guest_lines(sink, cpus, names, tasks, guest, period, budget)
}

fn put_guest_lines<K: Sink>(
    sink: &mut K,
    cpus: &[u32],
    names: &[Name],
    tasks: &[Task],
    guest: &[u8],
    period: u64,
    budget: u64,
) -> Result<(), WriteFault>
    ensures { Writes (K.state sink.old) (K.state sink.new)
        (schedinfo_line guest.now period budget
        ++ cputune_line cpus.now names.now tasks.now guest.now period budget) result }
{
    put_schedinfo(sink, guest, period, budget)?;
    put_cputune(sink, cpus, names, tasks, guest, period, budget)
}

#[tactic(auto, unfolding(crate::specs::LibvirtLines::schedinfo_line))]
fn put_schedinfo<'a, K: Sink>(
    sink: &mut K,
    guest: &'a [u8],
    period: u64,
    budget: u64,
) -> Result<(), WriteFault>
    ensures { Writes (K.state sink.old) (K.state sink.new) (schedinfo_line guest.now period budget) result }
{
    put_pieces(
        sink,
        &[
            TextPiece::Text(b"virsh schedinfo "),
            TextPiece::Text(guest),
            TextPiece::Text(b" --set vcpu_period="),
            TextPiece::Wide(period),
            TextPiece::Text(b" vcpu_quota="),
            TextPiece::Wide(budget),
            TextPiece::Text(b"\n"),
        ],
    )
}

fn put_cputune<K: Sink>(
    sink: &mut K,
    cpus: &[u32],
    names: &[Name],
    tasks: &[Task],
    guest: &[u8],
    period: u64,
    budget: u64,
) -> Result<(), WriteFault>
    ensures { Writes (K.state sink.old) (K.state sink.new)
        (cputune_line cpus.now names.now tasks.now guest.now period budget) result }
{
    write_all(sink, b"# <cputune>")?;
    put_pin_parts(sink, cpus, names, tasks, guest)?;
    put_quota_part(sink, period, budget)
}

// Writes the CPUs of a guest's vCPUs.
fn put_pin_parts<K: Sink>(
    sink: &mut K,
    cpus: &[u32],
    names: &[Name],
    tasks: &[Task],
    guest: &[u8],
) -> Result<(), WriteFault>
    ensures { Writes (K.state sink.old) (K.state sink.new)
        (texts_below (each_vcpu_text (pin_part_of cpus.now guest.now) names.now tasks.now) (length tasks.now)) result }
{
    for vcpu in 0..tasks.len() {
        put_pin_part_at(sink, cpus, names, tasks, guest, vcpu)?;
    }
    Ok(())
}

fn put_pin_part_at<K: Sink>(
    sink: &mut K,
    cpus: &[u32],
    names: &[Name],
    tasks: &[Task],
    guest: &[u8],
    vcpu: usize,
) -> Result<(), WriteFault>
    requires { vcpu < length tasks.now }
    ensures { Writes (K.state sink.old) (K.state sink.new)
        (each_vcpu_text (pin_part_of cpus.now guest.now) names.now tasks.now vcpu) result }
{
    put_pin_part_of(sink, cpus, guest, name_at(names, vcpu), &tasks[vcpu])
}

#[tactic(auto, using(tab_io::proofs::SinkLemmas::writes_nothing))]
fn put_pin_part_of<K: Sink>(
    sink: &mut K,
    cpus: &[u32],
    guest: &[u8],
    name: &[u8],
    task: &Task,
) -> Result<(), WriteFault>
    ensures { Writes (K.state sink.old) (K.state sink.new)
        (pin_part_of cpus.now guest.now name.now task.now) result }
{
    if guest_of(name) == guest {
        put_pin_part(sink, number_of(name), cpu_of(cpus, task))
    } else {
        Ok(())
    }
}

#[tactic(auto, unfolding(crate::specs::LibvirtLines::pin_part))]
fn put_pin_part<'a, K: Sink>(sink: &mut K, number: &'a [u8], cpu: u64) -> Result<(), WriteFault>
    ensures { Writes (K.state sink.old) (K.state sink.new) (pin_part number.now cpu) result }
{
    put_pieces(
        sink,
        &[
            TextPiece::Text(b"<vcpupin vcpu='"),
            TextPiece::Text(number),
            TextPiece::Text(b"' cpuset='"),
            TextPiece::Wide(cpu),
            TextPiece::Text(b"'/>"),
        ],
    )
}

#[tactic(auto, unfolding(crate::specs::LibvirtLines::quota_part))]
fn put_quota_part<K: Sink>(sink: &mut K, period: u64, budget: u64) -> Result<(), WriteFault>
    ensures { Writes (K.state sink.old) (K.state sink.new) (quota_part period budget) result }
{
    put_pieces(
        sink,
        &[
            TextPiece::Text(b"<period>"),
            TextPiece::Wide(period),
            TextPiece::Text(b"</period><quota>"),
            TextPiece::Wide(budget),
            TextPiece::Text(b"</quota></cputune>\n"),
        ],
    )
}

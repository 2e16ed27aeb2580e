ghost use Rattle.std.specs.Prelude.{◌*◌, ◌≡◌, ◌≤◌, codes, option_map};
ghost use Rattle.tab_core.specs.declared.TheConstants.{MAX_TICK_NS, MIN_TICK_NS, ROUND};
ghost use Rattle.tab_io.specs.Sinks.{Writes};
ghost use Rattle.period_choice.specs.Tasks.{AreTasksOf};
ghost use Rattle.advice.specs.Advice.{IsHostAdvice, IsHostKeyAdvice, IsOtherText, IsPathAdvice, IsPeriodText, IsPlanLineAdvice, IsRoomText, IsSameText, IsStayText, IsTomlText, IsVcpuKeyText, IsVcpuText, TellsOfPlan, WhereThereIs, WritesSome};
ghost use Rattle.advice.specs.KeyLines.{vcpu_line};
ghost use Rattle.advice.specs.Periods.{period_text};
ghost use Rattle.advice.specs.Room.{due_of_tasks, room_text};

use crate::again::{has_plan, host_again, table_again, tasks_again};
use crate::fault::{AdviceFault, of_sink};
use crate::host_keys::{put_other_key, put_rule, put_same_name, put_vcpu_key};
use crate::host_text::{put_toml_fault, put_too_many};
use crate::key_lines::{line_part, vcpu_line};
use crate::least::{least_latency, least_share};
use crate::part::{Part, put_parts};
use crate::plan_lines::put_plan_line;
use crate::room::{due_of, put_planned, put_room, put_unplanned};
use host_doc::{HostFault, Key, Path};
use std::alloc::Global;
use tab_core::{Host, ROUND, Reservation, Tasks, Vcpu, VcpuNo};
use tab_io::{Sink, WriteFault};

// The longest text of which places are named.
const LONGEST: usize = 2_000_000_000;

// Writes the advice on a section that is no host.
pub(crate) fn put_host<K: Sink>(
    alloc: Global,
    sink: &mut K,
    section: &[u8],
    fault: &HostFault,
) -> Result<(), AdviceFault>
    ensures { WritesSome (IsHostAdvice section.now fault.now) (K.state sink.old) (K.state sink.new) result }
{
    match fault {
        HostFault::NotToml => put_not_toml(alloc, sink, section),
        HostFault::BadKey { path } => put_bad_key(alloc, sink, section, path),
        HostFault::OutOfRange { path } => put_bad_key(alloc, sink, section, path),
        HostFault::SameName { vcpu } => put_same(alloc, sink, section, *vcpu),
        HostFault::TooMany { count } => of_sink(put_too_many(sink, section, *count)),
        HostFault::NoMemory => Ok(()),
    }
}

// Writes the advice on the key of this path. The document is read again only where its words are quoted.
fn put_bad_key<K: Sink>(
    alloc: Global,
    sink: &mut K,
    section: &[u8],
    path: &Path,
) -> Result<(), AdviceFault>
    ensures { WritesSome (IsPathAdvice section.now path.now) (K.state sink.old) (K.state sink.new) result }
{
    match path.vcpu {
        None => put_host_key(alloc, sink, section, path.key),
        Some(number) => put_key_of_vcpu(alloc, sink, section, number, path.key),
    }
}

// Writes the advice on the key of the host that this path names.
fn put_host_key<K: Sink>(
    alloc: Global,
    sink: &mut K,
    section: &[u8],
    key: Key,
) -> Result<(), AdviceFault>
    ensures { WritesSome (IsHostKeyAdvice section.now key) (K.state sink.old) (K.state sink.new) result }
{
    if key == Key::Unknown {
        put_other(alloc, sink, section)
    } else {
        of_sink(put_rule(sink, section, key))
    }
}

// Writes the advice on a document that has an unknown key of a host.
fn put_other<K: Sink>(alloc: Global, sink: &mut K, section: &[u8]) -> Result<(), AdviceFault>
    ensures { WritesSome (WhereThereIs (IsOtherText section.now)) (K.state sink.old) (K.state sink.new) result }
{
    match table_again(alloc, section)? {
        Some(table) => of_sink(put_other_key(sink, section, &table)),
        None => Ok(()),
    }
}

// Writes the advice on a key of the vCPU of this number of a document.
fn put_key_of_vcpu<K: Sink>(
    alloc: Global,
    sink: &mut K,
    section: &[u8],
    vcpu: u32,
    key: Key,
) -> Result<(), AdviceFault>
    ensures { WritesSome (WhereThereIs (IsVcpuKeyText section.now vcpu key)) (K.state sink.old) (K.state sink.new) result }
{
    match table_again(alloc, section)? {
        Some(table) => of_sink(put_vcpu_key(sink, section, &table, vcpu, key)),
        None => Ok(()),
    }
}

// Writes the advice on a vCPU of a document that has the name of an earlier one.
fn put_same<K: Sink>(
    alloc: Global,
    sink: &mut K,
    section: &[u8],
    vcpu: u32,
) -> Result<(), AdviceFault>
    ensures { WritesSome (WhereThereIs (IsSameText section.now vcpu)) (K.state sink.old) (K.state sink.new) result }
{
    match table_again(alloc, section)? {
        Some(table) => of_sink(put_same_name(sink, section, &table, vcpu)),
        None => Ok(()),
    }
}

// Writes where the section is no TOML, as its reader says.
fn put_not_toml<K: Sink>(alloc: Global, sink: &mut K, section: &[u8]) -> Result<(), AdviceFault>
    ensures { WritesSome (WhereThereIs (IsTomlText section.now)) (K.state sink.old) (K.state sink.new) result }
{
    if section.len() > LONGEST {
        return Ok(());
    }
    let Err(fault) = toml::table_from_slice(alloc, section) else {
        return Ok(());
    };
    match fault.span() {
        Some(span) => of_sink(put_toml_fault(
            sink,
            section,
            span.start,
            fault.message().as_bytes(),
        )),
        None => Err(AdviceFault::NoMemory),
    }
}

// Writes the advice on a host of which no period meets the latency of this vCPU.
pub(crate) fn put_no_period<K: Sink>(
    alloc: Global,
    sink: &mut K,
    section: &[u8],
    vcpu: &VcpuNo,
) -> Result<(), AdviceFault>
    ensures { WritesSome (WhereThereIs (IsPeriodText section.now vcpu.now)) (K.state sink.old) (K.state sink.new) result }
{
    let Some(host) = host_again(alloc, section)? else {
        return Ok(());
    };
    let Some(found) = host.vcpus.items().get(vcpu.index()) else {
        return Ok(());
    };
    let line = latency_line(section, *vcpu);
    put_vcpu_period(sink, line, found, host.tick_ns)
}

// The line of a host that gives this vCPU its latency.
fn latency_line(section: &[u8], vcpu: VcpuNo) -> Option<(u32, &[u8])>
    ensures { option_map (λ line. (line.0, line.1.now)) result
        ≡ vcpu_line vcpu (codes "latency_ns") section.now }
{
    vcpu_line(section, vcpu.0, b"latency_ns")
}

// Writes the advice on this vCPU, which this line tells of, with a tick of so many nanoseconds.
fn put_vcpu_period<'a, K: Sink>(
    sink: &mut K,
    line: Option<(u32, &'a [u8])>,
    vcpu: &'a Vcpu,
    tick_ns: u32,
) -> Result<(), AdviceFault>
    requires at_least { MIN_TICK_NS ≤ tick_ns }
    requires at_most { tick_ns ≤ MAX_TICK_NS }
    ensures { WritesSome (WhereThereIs (IsVcpuText (option_map (λ line. (line.0, line.1.now)) line.entry) vcpu.now tick_ns))
        (K.state sink.old) (K.state sink.new) result }
{
    let Some(reservation) = vcpu.reservation else {
        return Ok(());
    };
    let Some(latency) = least_latency(&reservation, tick_ns) else {
        return Ok(());
    };
    let Some(share) = least_share(&reservation, tick_ns) else {
        return Ok(());
    };
    of_sink(put_period(sink, line, vcpu.name.bytes(), &reservation, latency, share))
}

fn put_period<'a, K: Sink>(
    sink: &mut K,
    line: Option<(u32, &'a [u8])>,
    name: &'a [u8],
    reservation: &Reservation,
    latency: u64,
    share: u32,
) -> Result<(), WriteFault>
    ensures { Writes (K.state sink.old) (K.state sink.new)
        (period_text (option_map (λ line. (line.0, line.1.now)) line.entry) name.now reservation.now latency share)
        result }
{
    put_parts(
        sink,
        &[
            Part::Text(b"tableau: host"),
            line_part(line),
            Part::Text(b": "),
            Part::Text(name),
            Part::Text(b" asks share_ppm "),
            Part::Number(reservation.share_ppm),
            Part::Text(b" within latency_ns "),
            Part::Wide(reservation.latency_ns),
            Part::Text(b";\ntableau: the least latency for that share is "),
            Part::Wide(latency),
            Part::Text(b", the least share for that latency "),
            Part::Number(share),
            Part::Text(b"\n"),
        ],
    )
}

// Writes the advice on a host of which a vCPU can't be split.
pub(crate) fn put_no_room<K: Sink>(
    alloc: Global,
    sink: &mut K,
    host: &Host,
) -> Result<(), AdviceFault>
    ensures { WritesSome (WhereThereIs (IsRoomText host.now)) (K.state sink.old) (K.state sink.new) result }
{
    match tasks_again(alloc, host)? {
        Some(tasks) => of_sink(put_room_of(sink, host, &tasks)),
        None => Ok(()),
    }
}

fn put_room_of<K: Sink>(sink: &mut K, host: &Host, tasks: &Tasks) -> Result<(), WriteFault>
    ensures { Writes (K.state sink.old) (K.state sink.new)
        (room_text (due_of_tasks tasks.now) (host.now.cores * ROUND)) result }
{
    put_room(
        sink,
        due_of(tasks),
        u64::from(host.cores) * u64::from(ROUND),
    )
}

// Writes the advice on a host of which a vCPU can't be split beside those that stay.
pub(crate) fn put_no_room_to_stay<K: Sink>(
    alloc: Global,
    sink: &mut K,
    host: &Host,
) -> Result<(), AdviceFault>
    ensures { WritesSome (WhereThereIs (IsStayText host.now)) (K.state sink.old) (K.state sink.new) result }
{
    match tasks_again(alloc, host)? {
        Some(tasks) => put_whether_planned(alloc, sink, host, tasks),
        None => Ok(()),
    }
}

// Writes what the host's vCPUs are due, and whether `plan` has a plan for them.
fn put_whether_planned<K: Sink>(
    alloc: Global,
    sink: &mut K,
    host: &Host,
    tasks: Tasks,
) -> Result<(), AdviceFault>
    requires { AreTasksOf host.now tasks }
    ensures { WritesSome (TellsOfPlan host.now tasks) (K.state sink.old) (K.state sink.new) result }
{
    let due = due_of(&tasks);
    let room = u64::from(host.cores) * u64::from(ROUND);
    if has_plan(alloc, host, tasks)? {
        of_sink(put_planned(sink, due, room))
    } else {
        of_sink(put_unplanned(sink, due, room))
    }
}

// Writes the advice on a plan text whose line of this number is none for the host of the section.
pub(crate) fn put_plan<K: Sink>(
    alloc: Global,
    sink: &mut K,
    section: &[u8],
    plan: &[u8],
    line: u32,
) -> Result<(), AdviceFault>
    ensures { WritesSome (WhereThereIs (IsPlanLineAdvice section.now plan.now line)) (K.state sink.old) (K.state sink.new) result }
{
    let Some(host) = host_again(alloc, section)? else {
        return Ok(());
    };
    match tasks_again(alloc, &host)? {
        Some(tasks) => of_sink(put_plan_line(sink, plan, line, &host, &tasks)),
        None => Ok(()),
    }
}

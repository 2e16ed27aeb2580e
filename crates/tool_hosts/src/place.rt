ghost use Rattle.std.specs.Prelude.{◌≡◌, ◌<◌, ◌≤◌, ◌^◌, IfOk, length};
ghost use Rattle.fleet_place.specs.Deals.{IsPlacing};
ghost use Rattle.tool_hosts.specs.Earlier.{IsPlacingBeside, held_in};
ghost use Rattle.tool_hosts.specs.declared.fleet.TheConstants.{MAX_HOSTS};
ghost use Rattle.tool_hosts.specs.declared.vms.TheConstants.{MAX_VMS};

use crate::documents::put_documents;
use crate::earlier::{Stay, put_back, stays_of};
use crate::enough::more_hosts;
use crate::fleet::{Fleet, fleet_of};
use crate::hosts::{bad_name, text_of};
use crate::vms::{NamedVm, named_vms, vms_of};
use fleet_place::{
    FleetHost, Group, PlaceFault, Placing, Policy, Vm, place, splits_of, write_placing,
    write_summary,
};
use sizes_doc::SizesFault;
use std::alloc::Global;
use tab_core::{MAX_TICK_NS, MIN_TICK_NS, TICK_NS};
use tool_input::{Fault, finish, output_of};

// What is written of a placing.
#[derive(Clone, Copy)]
enum Form {
    // A line for each VM.
    Lines,
    // The document of the host of this number.
    Document(u32),
    // The documents of all hosts.
    Documents,
    // How full each host is, and who is left over.
    Summary,
}

// What the words ask for, beside hosts and sizes.
#[derive(Clone, Copy)]
struct Asked<'w> {
    form: Form,
    // The file of an earlier placing.
    stay: Option<&'w str>,
    policy: Policy,
}

/// What the words of `place` say.
#[derive(Clone, Copy)]
pub struct PlaceWords<'w> {
    /// How many hosts there are.
    pub hosts: Option<u32>,
    /// The cores of each of them.
    pub cores: Option<u32>,
    /// The file of hosts of several kinds.
    pub kinds: Option<&'w str>,
    /// The file of an earlier placing.
    pub stay: Option<&'w str>,
    /// The host whose document is written.
    pub host: Option<u32>,
    /// Whether the documents of all hosts are written.
    pub documents: bool,
    /// Whether a summary is written.
    pub summary: bool,
    /// Nanoseconds of a tick.
    pub tick_ns: Option<u32>,
    /// Whether a host has no room for VMs if its plan would split a vCPU.
    pub no_split: bool,
    /// Whether a VM goes to the host of least load.
    pub spread: bool,
    /// The sizes; lines of standard input where there are none.
    pub sizes: Option<&'w [&'w str]>,
    /// Whether there may be no size.
    pub empty: bool,
}

/// Does `place`: it writes which VM goes on which host, a summary, or documents of hosts. It answers whether each VM has
/// a host.
pub fn place_vms(rt: &HostRuntime, words: &PlaceWords<'_>) -> Result<bool, Fault> {
    let asked = asked_of(words)?;
    let fleet = fleet_of(rt, words.kinds, words.hosts, words.cores)?;
    has_host(asked.form, fleet.hosts.len())?;
    let text = text_of(rt, words.sizes)?;
    let vms = named_vms(rt.alloc(), &text, words.empty)?;
    place_sizes(rt, &asked, fleet, &vms)
}

// Places the VMs of sizes.
fn place_sizes(
    rt: &HostRuntime,
    asked: &Asked<'_>,
    fleet: Fleet<'_>,
    vms: &[NamedVm<'_>],
) -> Result<bool, Fault>
    requires { length vms.now ≤ MAX_VMS }
{
    let placing = placing_of(rt, asked, fleet, vms)?;
    let filling = Policy {
        tick_ns: asked.policy.tick_ns,
        no_split: asked.policy.no_split,
        spread: false,
    };
    let more = more_hosts(rt.alloc(), &filling, &placing)?;
    put(rt, asked, &placing)?;
    tell_left(rt, &asked.policy, &placing, more);
    Ok(placing.left.is_empty())
}

// What the words ask for. (They were refused where the tick is out of its range.)
fn asked_of<'w>(words: &PlaceWords<'w>) -> Result<Asked<'w>, Fault> {
    read_once(words)?;
    Ok(Asked {
        form: form_of(words)?,
        stay: words.stay,
        policy: policy_of(words),
    })
}

// By which rules the words place VMs.
fn policy_of(words: &PlaceWords<'_>) -> Policy {
    Policy {
        tick_ns: words
            .tick_ns
            .unwrap_or(TICK_NS)
            .clamp(MIN_TICK_NS, MAX_TICK_NS),
        no_split: words.no_split,
        spread: words.spread,
    }
}

// Which text the words ask for.
fn form_of(words: &PlaceWords<'_>) -> Result<Form, Fault> {
    match (words.host, words.documents, words.summary) {
        (None, false, false) => Ok(Form::Lines),
        (Some(number), false, false) => Ok(Form::Document(number)),
        (None, true, false) => Ok(Form::Documents),
        (None, false, true) => Ok(Form::Summary),
        _ => Err(Fault::OtherTexts),
    }
}

// Refuses words by which standard input would be read twice.
fn read_once(words: &PlaceWords<'_>) -> Result<(), Fault> {
    match (
        words.kinds == Some("-"),
        words.stay == Some("-"),
        words.sizes.is_some(),
    ) {
        (true, true, _) | (true, _, false) | (_, true, false) => Err(Fault::InputTwice),
        _ => Ok(()),
    }
}

// Refuses the number of a host that isn't there.
fn has_host(form: Form, count: usize) -> Result<(), Fault> {
    match form {
        Form::Document(number) if number as usize >= count => Err(Fault::NoSuchHost { count }),
        _ => Ok(()),
    }
}

// Places the VMs on the hosts, where those stay that were there by the lines of an earlier placing.
fn placing_of<'a>(
    rt: &HostRuntime,
    asked: &Asked<'_>,
    fleet: Fleet<'a>,
    vms: &'a [NamedVm<'_>],
) -> Result<Placing<'a>, Fault>
    requires { length vms.now ≤ MAX_VMS }
    ensures some { IfOk result (λ placing. 1 ≤ length placing.hosts.items) }
    ensures few { IfOk result (λ placing. length placing.hosts.items ≤ MAX_HOSTS) }
{
    let Fleet { mut hosts } = fleet;
    let stays = stays_of(rt, asked.stay, vms)?;
    let all = vms_of(rt.alloc(), asked.policy.tick_ns, vms)?;
    placed_beside(rt.alloc(), &asked.policy, &mut hosts, &all, &stays)
}

// The VMs placed, where those stay on their hosts that were there by these lines.
fn placed_beside<'a>(
    alloc: Global,
    policy: &Policy,
    hosts: &mut [Group<'a>],
    vms: &[Vm<'a>],
    stays: &[Stay],
) -> Result<Placing<'a>, Fault>
    ensures placing { IfOk result (λ placing. IsPlacingBeside policy.now (held_in hosts.old) vms.now stays.now
        placing.hosts.items placing.left.items) }
    ensures hosts { IfOk result (λ placing. length placing.hosts.items ≡ length hosts.old) }
{
    let others = put_back(alloc, hosts, vms, stays)?;
    let placing = placed(alloc, policy, hosts, &others)?;
    Ok(placing)
}

/// The VMs of the groups and the others, placed.
pub(crate) fn placed<'a>(
    alloc: Global,
    policy: &Policy,
    groups: &[Group<'a>],
    others: &[Vm<'a>],
) -> Result<Placing<'a>, Fault>
    ensures placing { IfOk result (λ placing. IsPlacing policy.now groups.now others.now placing.hosts.items
        placing.left.items) }
    ensures hosts { IfOk result (λ placing. length placing.hosts.items ≡ length groups.now) }
{
    match place(alloc, policy, groups, others) {
        Ok(placing) => Ok(placing),
        Err(PlaceFault::NoHost(fault)) => Err(vm_fault(alloc, others, fault)),
        Err(PlaceFault::NoMemory) => Err(Fault::NoMemory),
    }
}

// Why VMs make no host, with the name that is at fault.
fn vm_fault(alloc: Global, vms: &[Vm<'_>], fault: SizesFault) -> Fault {
    let SizesFault::BadName { line } = fault else {
        return Fault::from(fault);
    };
    for vm in vms {
        if vm.size.line == line {
            return bad_name(alloc, vm.size.name, line);
        }
    }
    Fault::from(fault)
}

// Writes what the words ask for.
fn put(rt: &HostRuntime, asked: &Asked<'_>, placing: &Placing<'_>) -> Result<(), Fault>
    requires some { 1 ≤ length placing.now.hosts.items }
    requires few { length placing.now.hosts.items ≤ MAX_HOSTS }
{
    let hosts = placing.hosts.as_slice();
    match asked.form {
        Form::Lines => put_lines(rt, hosts, &placing.left),
        Form::Document(number) => put_documents(rt, asked.policy.tick_ns, alone(hosts, number)),
        Form::Documents => put_documents(rt, asked.policy.tick_ns, hosts),
        Form::Summary => put_summary(rt, &asked.policy, hosts, &placing.left),
    }
}

// The host of this number, if it is there.
fn alone<'h, 'a>(hosts: &'h [FleetHost<'a>], number: u32) -> &'h [FleetHost<'a>] {
    let first = (number as usize).min(hosts.len());
    let end = (first + 1).min(hosts.len());
    &hosts[first..end]
}

// Writes a line for each VM.
fn put_lines(rt: &HostRuntime, hosts: &[FleetHost<'_>], left: &[Vm<'_>]) -> Result<(), Fault>
    requires { length hosts.now ≤ MAX_HOSTS }
{
    let mut sink = output_of(rt)?;
    write_placing(&mut sink, hosts, left)?;
    finish(&mut sink)
}

// Writes how full each host is, and a line for each VM that is left over.
fn put_summary(
    rt: &HostRuntime,
    policy: &Policy,
    hosts: &[FleetHost<'_>],
    left: &[Vm<'_>],
) -> Result<(), Fault>
    requires some { 1 ≤ length hosts.now }
    requires few { length hosts.now ≤ MAX_HOSTS }
{
    let splits = splits_on(rt.alloc(), policy, hosts)?;
    let mut sink = output_of(rt)?;
    write_summary(&mut sink, hosts, &splits)?;
    write_placing(&mut sink, &[], left)?;
    finish(&mut sink)
}

// How many vCPUs the plan of each host splits.
fn splits_on(alloc: Global, policy: &Policy, hosts: &[FleetHost<'_>]) -> Result<Vec<u32>, Fault>
    ensures { IfOk result (λ splits. length splits.items ≡ length hosts.now) }
{
    match splits_of(alloc, policy, hosts) {
        Ok(splits) => Ok(splits),
        Err(PlaceFault::NoHost(fault)) => Err(Fault::from(fault)),
        Err(PlaceFault::NoMemory) => Err(Fault::NoMemory),
    }
}

// Tells how many VMs are left over, if some are, and how many hosts would do, which are known only for VMs that fill host
// after host.
fn tell_left(rt: &HostRuntime, policy: &Policy, placing: &Placing<'_>, more: usize) {
    let count = placing.left.len();
    if count > 0 && policy.spread {
        let _ = eprintln!(rt;
            "tableau-tools: VMs left over: {count}; take more hosts, or leave --spread out, which fills host after host"
        );
    } else if count > 0 {
        let enough = placing.hosts.len().saturating_add(more);
        // (where the line can't be written, the status says it)
        let _ = eprintln!(rt;
            "tableau-tools: VMs left over: {count}; hosts that would do: {enough}"
        );
    }
}

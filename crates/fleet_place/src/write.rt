ghost use Rattle.std.specs.Prelude.{◌≡◌, ◌*◌, ◌<◌, ◌≤◌, ◌^◌, ◌++◌, codes, flat_map, length, sum};
ghost use Rattle.std.specs.List.{sum_by};
ghost use Rattle.tab_io.specs.Sinks.{Writes};
ghost use Rattle.tab_words.specs.Texts.{texts_below};
ghost use Rattle.view_cells.specs.CellTexts.{cell_text};
ghost use Rattle.fleet_place.specs.FleetText.{fleet_row, full_cells, host_lines, host_row, left_line, placing_text, summary_text, vm_line};
ghost use Rattle.fleet_place.specs.Held.{load_of_vms, vcpu_count_of};
ghost use Rattle.size_fit.specs.FitText.{ppm_of};

use crate::fleet_host::FleetHost;
use crate::vm::Vm;
use tab_core::{ROUND, WHOLE_PPM};
use tab_io::{Sink, WriteFault, write_all};
use tab_words::{TextPiece, put_pieces};
use view_cells::{Cell, put_cells};

/// Writes a line for each VM: `host K vm NAME` for those on hosts, host by host, and `left vm NAME` for those that are
/// left over. There are fewer than 2^32 hosts.
///
/// A fault leaves a prefix of the text in the sink. Nothing is settled, and nothing is allocated.
pub fn write_placing<K: Sink>(
    sink: &mut K,
    hosts: &[FleetHost<'_>],
    left: &[Vm<'_>],
) -> Result<(), WriteFault>
    requires { length hosts.now < 2 ^ 32 }
    ensures { Writes (K.state sink.old) (K.state sink.new) (placing_text hosts.now left.now) result }
{
    put_hosts(sink, hosts)?;
    put_left(sink, left)
}

// Writes the lines of all hosts.
fn put_hosts<K: Sink>(sink: &mut K, hosts: &[FleetHost<'_>]) -> Result<(), WriteFault>
    requires { length hosts.now < 2 ^ 32 }
    ensures { Writes (K.state sink.old) (K.state sink.new) (texts_below (host_lines hosts.now) (length hosts.now)) result }
{
    for number in 0..hosts.len() {
        put_vms(sink, number as u32, hosts[number].vms())?;
    }
    Ok(())
}

// Writes the lines of the VMs of a host.
fn put_vms<K: Sink>(sink: &mut K, host: u32, vms: &[Vm<'_>]) -> Result<(), WriteFault>
    ensures { Writes (K.state sink.old) (K.state sink.new) (flat_map (vm_line host) vms.now) result }
{
    for vm in vms {
        put_vm(sink, host, vm)?;
    }
    Ok(())
}

#[tactic(auto, unfolding(crate::specs::FleetText::vm_line))]
fn put_vm<K: Sink>(sink: &mut K, host: u32, vm: &Vm<'_>) -> Result<(), WriteFault>
    ensures { Writes (K.state sink.old) (K.state sink.new) (vm_line host vm.now) result }
{
    put_pieces(
        sink,
        &[
            TextPiece::Text(b"host "),
            TextPiece::Number(host),
            TextPiece::Text(b" vm "),
            TextPiece::Text(vm.size.name),
            TextPiece::Text(b"\n"),
        ],
    )
}

// Writes the lines of the VMs that are left over.
fn put_left<K: Sink>(sink: &mut K, left: &[Vm<'_>]) -> Result<(), WriteFault>
    ensures { Writes (K.state sink.old) (K.state sink.new) (flat_map left_line left.now) result }
{
    for vm in left {
        put_left_vm(sink, vm)?;
    }
    Ok(())
}

#[tactic(auto, unfolding(crate::specs::FleetText::left_line))]
fn put_left_vm<K: Sink>(sink: &mut K, vm: &Vm<'_>) -> Result<(), WriteFault>
    ensures { Writes (K.state sink.old) (K.state sink.new) (left_line vm.now) result }
{
    put_pieces(
        sink,
        &[
            TextPiece::Text(b"left vm "),
            TextPiece::Text(vm.size.name),
            TextPiece::Text(b"\n"),
        ],
    )
}

/// Writes how full each host is and how many of its vCPUs are split, a row for each, and a row for all together. There are
/// 1 to 65,535 hosts.
///
/// Loads are in percent with four digits, rounded down. A fault leaves a prefix of the text in the sink. Nothing is
/// settled, and nothing is allocated.
pub fn write_summary<K: Sink>(
    sink: &mut K,
    hosts: &[FleetHost<'_>],
    splits: &[u32],
) -> Result<(), WriteFault>
    requires some { 1 ≤ length hosts.now }
    requires few { length hosts.now ≤ 65535 }
    requires each { length splits.now ≡ length hosts.now }
    ensures { Writes (K.state sink.old) (K.state sink.new) (summary_text hosts.now splits.now) result }
{
    write_all(
        sink,
        b"host  cores   VMs  vCPUs  split    load %  headroom %\n",
    )?;
    put_rows(sink, hosts, splits)?;
    put_fleet(sink, hosts, sum_of(splits))
}

// Writes the row of each host.
fn put_rows<K: Sink>(
    sink: &mut K,
    hosts: &[FleetHost<'_>],
    splits: &[u32],
) -> Result<(), WriteFault>
    requires few { length hosts.now ≤ 65535 }
    requires each { length splits.now ≡ length hosts.now }
    ensures { Writes (K.state sink.old) (K.state sink.new)
        (texts_below (host_row hosts.now splits.now) (length hosts.now)) result }
{
    for number in 0..hosts.len() {
        put_row(sink, hosts, splits, number)?;
    }
    Ok(())
}

// Writes the row of a host.
fn put_row<K: Sink>(
    sink: &mut K,
    hosts: &[FleetHost<'_>],
    splits: &[u32],
    number: usize,
) -> Result<(), WriteFault>
    requires low { number < length hosts.now }
    requires each { length splits.now ≡ length hosts.now }
    ensures { Writes (K.state sink.old) (K.state sink.new) (host_row hosts.now splits.now number) result }
{
    let host = &hosts[number];
    put_full(
        sink,
        &Cell::Count(4, number as u64),
        &Full {
            cores: u64::from(host.cores()),
            vms: host.vms().len() as u64,
            vcpus: u64::from(host.vcpus()),
            split: u64::from(splits[number]),
            load: host.load(),
        },
    )
}

// How full cores are.
#[derive(Clone, Copy)]
struct Full {
    cores: u64,
    vms: u64,
    vcpus: u64,
    split: u64,
    load: u64,
}

// Writes the row of all hosts.
fn put_fleet<K: Sink>(sink: &mut K, hosts: &[FleetHost<'_>], split: u64) -> Result<(), WriteFault>
    requires some { 1 ≤ length hosts.now }
    requires few { length hosts.now ≤ 65535 }
    ensures { Writes (K.state sink.old) (K.state sink.new)
        (codes " all" ++ full_cells (sum_by (λ held. held.cores) hosts.now) (sum_by (λ held. length held.vms) hosts.now)
        (sum_by (λ held. vcpu_count_of held.vms) hosts.now) split (sum_by (λ held. load_of_vms held.vms) hosts.now)) result }
{
    let mut all = Full {
        cores: 0,
        vms: 0,
        vcpus: 0,
        split,
        load: 0,
    };
    for host in hosts {
        all.cores += u64::from(host.cores());
        all.vms += host.vms().len() as u64;
        all.vcpus += u64::from(host.vcpus());
        all.load += host.load();
    }
    put_full(sink, &Cell::Text(b" all"), &all)
}

// Writes a row. Its first cell says whose it is.
#[tactic(auto, unfolding(crate::specs::FleetText::full_cells))]
fn put_full<K: Sink>(sink: &mut K, first: &Cell<'_>, full: &Full) -> Result<(), WriteFault>
    requires some { 1 ≤ full.now.cores }
    requires few { full.now.cores < 2 ^ 22 }
    requires load { full.now.load < 2 ^ 40 }
    ensures { Writes (K.state sink.old) (K.state sink.new)
        (cell_text first.now ++ full_cells full.now.cores full.now.vms full.now.vcpus full.now.split full.now.load) result }
{
    let ticks = full.cores * u64::from(ROUND);
    put_cells(
        sink,
        &[
            *first,
            Cell::Count(7, full.cores),
            Cell::Count(6, full.vms),
            Cell::Count(7, full.vcpus),
            Cell::Count(7, full.split),
            Cell::Percent(5, ppm_of(full.load, ticks)),
            Cell::Percent(7, ppm_of(ticks.saturating_sub(full.load), ticks)),
            Cell::Text(b"\n"),
        ],
    )
}

// How many vCPUs are split together.
fn sum_of(splits: &[u32]) -> u64
    requires { length splits.now ≤ 65535 }
    ensures { result ≡ sum splits.now }
{
    let mut sum = 0;
    for split in splits {
        sum += u64::from(*split);
    }
    sum
}

// A part of a whole, in parts per million.
fn ppm_of(part: u64, whole: u64) -> u64
    requires small { part < 2 ^ 40 }
    requires some { 1 ≤ whole }
    ensures { result ≡ ppm_of part whole }
{
    part * u64::from(WHOLE_PPM) / whole
}

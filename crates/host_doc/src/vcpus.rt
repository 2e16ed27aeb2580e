ghost use Rattle.std.specs.Prelude.{◌≡◌, ◌≤◌, ◌⊎◌, not, ◌||◌, List, [], ℕ, None, Some, Ok, Err, IfErr, IfOk, OnOk, bytes_eq, length};
ghost use Rattle.std.specs.Result.{result_err};
ghost use Rattle.tab_core.specs.declared.TheConstants.{MAX_LATENCY_NS, MAX_VCPUS};
ghost use Rattle.toml.specs.Data.{as_table};
ghost use Rattle.toml.specs.View.{items_view, table_view};
ghost use Rattle.host_doc.specs.KeyTable.{admitted_of, capped_of, runnable_of};
ghost use Rattle.host_doc.specs.Value.{integer_at};
ghost use Rattle.host_doc.specs.VcpuFaults.{reservation_fault, settings_fault, vcpus_fault};
ghost use Rattle.host_doc.specs.Vcpus.{AreVcpusOf, IsReservationOf};
ghost use Rattle.host_doc.specs.Inside.TextSets.{has_text};

use crate::fault::{HostFault, Key, Path};
use crate::value::{has_other_key, integer_at, integer_in, name_from, text_at, truth_at, value_at};
use std::alloc::{AllocError, Global};
use std::collections::BTreeSet;
use tab_core::{MAX_LATENCY_NS, Name, Reservation, Vcpu, Vcpus, WHOLE_PPM};
use toml::{Table, Value};

const VCPU_KEYS: [Key; 6] = [
    Key::Name,
    Key::Admitted,
    Key::Runnable,
    Key::Share,
    Key::Latency,
    Key::Capped,
];

// The vCPUs that the members of `vcpu` stand for.
pub(crate) fn vcpus_of(alloc: Global, values: &[Value]) -> Result<Vcpus, HostFault>
    requires { length values.now ≤ MAX_VCPUS }
    ensures ok { IfOk result (AreVcpusOf (items_view values.now)) }
    ensures faultless { IfOk result (λ _. vcpus_fault [] 0 (items_view values.now) ≡ None) }
    ensures fault { IfErr result (λ fault. (fault ≡ HostFault.NoMemory)
        ⊎ (vcpus_fault [] 0 (items_view values.now) ≡ Some fault)) }
{
    let mut names = BTreeSet::new(alloc);
    let mut vcpus = Vec::new(alloc);
    for (index, value) in values.iter().enumerate() {
        let number = index as u32;
        let Some(table) = value.as_table() else {
            return Err(HostFault::BadKey {
                path: Path::of_vcpu(number, Key::Vcpu),
            });
        };
        let path = Path::of_vcpu(number, Key::Name);
        let text = text_at(table, path)?;
        let name = name_from(alloc, text, path)?;
        if !add_text(&mut names, text)? {
            return Err(HostFault::SameName { vcpu: number });
        }
        let vcpu = vcpu_of(table, number, name)?;
        vcpus.push(vcpu)?;
    }
    Ok(Vcpus::of(vcpus))
}

// Adds a text to the set, and says whether it is new.
fn add_text<'a>(texts: &mut BTreeSet<&'a str, Global>, text: &'a str) -> Result<bool, AllocError>
    ensures added { IfOk result (λ added. added ≡ not (has_text texts.old text.now)) }
    ensures holds { OnOk result ((other : List ℕ)
        → has_text texts.new other ≡ (bytes_eq other text.now || has_text texts.old other)) }
{
    let added = texts.insert(text)?;
    Ok(added)
}

// The vCPU of this number and name that a member stands for.
fn vcpu_of(table: &Table, number: u32, name: Name) -> Result<Vcpu, HostFault>
    ensures name { IfOk result (λ vcpu. vcpu.name ≡ name) }
    ensures reservation { IfOk result (λ vcpu.
        IsReservationOf number (table_view table.now) vcpu.reservation) }
    ensures runnable { IfOk result (λ vcpu. runnable_of number (table_view table.now) ≡ Ok vcpu.runnable) }
    ensures capped { IfOk result (λ vcpu. capped_of number (table_view table.now) ≡ Ok vcpu.capped) }
    ensures fault { result_err result ≡ settings_fault number (table_view table.now) }
{
    let admitted = truth_at(table, Path::of_vcpu(number, Key::Admitted), true)?;
    let runnable = truth_at(table, Path::of_vcpu(number, Key::Runnable), true)?;
    let reservation = reservation_of(table, number, admitted)?;
    let capped = truth_at(table, Path::of_vcpu(number, Key::Capped), false)?;
    if has_other_key(table, &VCPU_KEYS) {
        return Err(HostFault::BadKey {
            path: Path::of_vcpu(number, Key::Unknown),
        });
    }
    Ok(Vcpu {
        name,
        reservation,
        runnable,
        capped,
    })
}

// The reservation of a member, where it is admitted.
fn reservation_of(
    table: &Table,
    number: u32,
    admitted: bool,
) -> Result<Option<Reservation>, HostFault>
    requires { admitted_of number (table_view table.now) ≡ Ok admitted }
    ensures ok { IfOk result (IsReservationOf number (table_view table.now)) }
    ensures fault { result_err result ≡ reservation_fault number (table_view table.now) }
{
    if !admitted {
        return Ok(None);
    }
    let share_ppm = integer_at(table, Path::of_vcpu(number, Key::Share), 1, WHOLE_PPM, None)?;
    let latency_ns = latency_of(table, Path::of_vcpu(number, Key::Latency))?;
    Ok(Some(Reservation {
        share_ppm,
        latency_ns,
    }))
}

// A latency in nanoseconds at a key, which is required.
fn latency_of(table: &Table, path: Path) -> Result<u64, HostFault>
    ensures same { result ≡ integer_at path 0 MAX_LATENCY_NS None (table_view table.now) }
    ensures within { IfOk result (λ latency. latency ≤ MAX_LATENCY_NS) }
{
    match value_at(table, path) {
        Some(value) => integer_in(value, path, 0, MAX_LATENCY_NS),
        None => Err(HostFault::BadKey { path }),
    }
}

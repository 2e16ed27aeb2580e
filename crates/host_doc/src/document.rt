ghost use Rattle.std.specs.Prelude.{◌≡◌, ◌≢◌, ◌≤◌, ◌⊎◌, Some, Ok, IfOk, IfErr, IsErrOf, MatchResult};
ghost use Rattle.tab_core.specs.declared.TheConstants.{MAX_TICK_NS, MIN_TICK_NS};
ghost use Rattle.toml.specs.Data.{Members};
ghost use Rattle.toml.specs.View.{table_view};
ghost use Rattle.host_doc.specs.Document.{HasFirstFault, IsDocument, IsHostOf, IsHostText, first_fault};
ghost use Rattle.host_doc.specs.KeyTable.{document_keys, format_of, tick_of};
ghost use Rattle.host_doc.specs.OtherKeys.{has_other_key};

use crate::fault::{HostFault, Key, Path};
use crate::value::{has_other_key, integer_at, values_at};
use crate::vcpus::vcpus_of;
use std::alloc::Global;
use tab_core::{Host, MAX_CORES, MAX_SLIVER, MAX_TICK_NS, MIN_TICK_NS, ROUND, TICK_NS};
use toml::Table;

// The keys of a document of format 1.
const FIRST_KEYS: [Key; 6] = [
    Key::Format,
    Key::Cores,
    Key::Lag,
    Key::Sliver,
    Key::Quantum,
    Key::Vcpu,
];

// Those of format 2.
const SECOND_KEYS: [Key; 7] = [
    Key::TickNs,
    Key::Format,
    Key::Cores,
    Key::Lag,
    Key::Sliver,
    Key::Quantum,
    Key::Vcpu,
];

/// The host that the bytes stand for, or the first fault by the table of keys.
///
/// The keys are examined in the order of the table, each its type and then its range before the next
/// one, then the members of `vcpu` in their order. A key that is absent where it is required, or that
/// isn't in the table, is a bad key. The tick is a key of format 2 alone. Where a vCPU isn't admitted
/// its share and its latency aren't examined. Bytes that the crate `toml` refuses are no document.
///
/// `NoMemory` comes when memory runs out, and also where `vcpu` has more members than `u32::MAX`,
/// which `TooMany` couldn't count; no document below 4 GiB has so many.
pub fn read_host(alloc: Global, bytes: &[u8]) -> Result<Host, HostFault>
    ensures ok { IfOk result (IsHostText bytes.now) }
    ensures fault { IfErr result (λ fault. (fault ≡ HostFault.NotToml)
        ⊎ ((fault ≡ HostFault.NoMemory) ⊎ HasFirstFault bytes.now fault)) }

    // Where the bytes are a document, nothing but running out of memory takes the place of its host or
    // fault.
    ensures due { (members : Members) → IsDocument bytes.now members → result ≢ Err HostFault.NoMemory
        → MatchResult result (IsHostOf members) (λ fault. first_fault members ≡ Some fault) }

    // `NotToml` comes exactly where they are none.
    ensures not_toml { IsErrOf result HostFault.NotToml
        → (members : Members) → IsDocument bytes.now members → ⊥ }
    ensures not_toml_due { ((members : Members) → IsDocument bytes.now members → ⊥)
        → IsErrOf result HostFault.NotToml ⊎ IsErrOf result HostFault.NoMemory }
{
    match toml::table_from_slice(alloc, bytes) {
        Ok(table) => host_of(alloc, &table),
        Err(fault) => {
            if fault.is_memory() {
                Err(HostFault::NoMemory)
            } else {
                Err(HostFault::NotToml)
            }
        }
    }
}

// The host that a document stands for.
#[tactic(auto, unfolding(crate::specs::Document::first_fault))]
fn host_of(alloc: Global, table: &Table) -> Result<Host, HostFault>
    ensures ok { IfOk result (IsHostOf (table_view table.now)) }
    ensures fault { IfErr result (λ fault. (fault ≡ HostFault.NoMemory)
        ⊎ (first_fault (table_view table.now) ≡ Some fault)) }
{
    let format = integer_at(table, Path::of_document(Key::Format), 1, 2, Some(1))?;
    let tick_ns = tick_in(table, format)?;
    let cores = integer_at(table, Path::of_document(Key::Cores), 1, MAX_CORES, None)?;
    let lag = integer_at(table, Path::of_document(Key::Lag), 1, ROUND, Some(1000))?;
    let sliver = integer_at(
        table,
        Path::of_document(Key::Sliver),
        0,
        MAX_SLIVER,
        Some(30),
    )?;
    let quantum = integer_at(table, Path::of_document(Key::Quantum), 1, ROUND, Some(1000))?;
    let values = values_at(table, Path::of_document(Key::Vcpu))?;
    if has_unknown_key(table, format) {
        return Err(HostFault::BadKey {
            path: Path::of_document(Key::Unknown),
        });
    }
    Ok(Host {
        tick_ns,
        cores,
        lag,
        sliver,
        quantum,
        vcpus: vcpus_of(alloc, values)?,
    })
}

// The length of a tick in nanoseconds, which format 1 doesn't name.
fn tick_in(table: &Table, format: u32) -> Result<u32, HostFault>
    requires { format_of (table_view table.now) ≡ Ok format }
    ensures same { result ≡ tick_of (table_view table.now) }
    ensures within { IfOk result (λ tick. (MIN_TICK_NS ≤ tick) × (tick ≤ MAX_TICK_NS)) }
{
    if format == 2 {
        integer_at(
            table,
            Path::of_document(Key::TickNs),
            MIN_TICK_NS,
            MAX_TICK_NS,
            Some(TICK_NS),
        )
    } else {
        Ok(TICK_NS)
    }
}

// Whether a document of this format has a key that isn't one of its keys.
fn has_unknown_key(table: &Table, format: u32) -> bool
    requires { format_of (table_view table.now) ≡ Ok format }
    ensures { result ≡ has_other_key (document_keys (table_view table.now)) (table_view table.now) }
{
    if format == 2 {
        has_other_key(table, &SECOND_KEYS)
    } else {
        has_other_key(table, &FIRST_KEYS)
    }
}

ghost use Rattle.std.specs.Prelude.{◌≡◌, ◌<◌, ◌≤◌, IfOk, MatchOption, length};
ghost use Rattle.tab_core.specs.Name.{IsName};
ghost use Rattle.tab_core.specs.declared.TheConstants.{MAX_VCPUS};
ghost use Rattle.vcpu_names.specs.Names.{IsUnknown, name_at};
ghost use Rattle.view_trace.specs.Inside.Named.{IsKnownAs};

use std::alloc::{AllocError, Global};
use tab_core::{MAX_VCPUS, Name, NoMemory, VcpuNo};

// The number of the vCPU of a name, which is put to the others where it is new; none where there are 256 others.
pub(crate) fn number_for(
    alloc: Global,
    names: &mut Vec<Name>,
    name: &[u8],
) -> Result<Option<VcpuNo>, NoMemory>
    requires few { length names.old.items ≤ MAX_VCPUS }
    requires good { IsName name.now }
    ensures few { length names.new.items ≤ MAX_VCPUS }
    ensures found { IfOk result (λ found. MatchOption found
        ((MAX_VCPUS ≤ length names.old.items) × IsUnknown names.old.items name.now)
        (IsKnownAs names.old.items names.new.items name.now)) }
{
    if let Some(vcpu) = number_in(names, name) {
        return Ok(Some(vcpu));
    }
    let count = names.len();
    if count >= MAX_VCPUS as usize {
        return Ok(None);
    }
    let Ok(own) = Name::of(alloc, name) else {
        return Err(AllocError);
    };
    if names.push(own).is_err() {
        return Err(AllocError);
    }
    Ok(Some(VcpuNo(count as u32)))
}

// The number of the vCPU of a name, if one of these has it.
fn number_in(names: &[Name], name: &[u8]) -> Option<VcpuNo>
    requires { length names.now ≤ MAX_VCPUS }
    ensures { MatchOption result (IsUnknown names.now name.now)
        (λ vcpu. (vcpu < length names.now) × (name_at names.now vcpu ≡ name.now)) }
{
    for v in 0..names.len() {
        if names[v].bytes() == name {
            return Some(VcpuNo(v as u32));
        }
    }
    None
}

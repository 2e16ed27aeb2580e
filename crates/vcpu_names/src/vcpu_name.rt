ghost use Rattle.std.specs.Prelude.{◌≡◌};
ghost use Rattle.vcpu_names.specs.Names.{name_at, names_of};

use tab_core::{Vcpu, VcpuNo};

/// The name of the vCPU of this number, or nothing where there is none.
pub fn name_in<'a>(vcpus: &'a [Vcpu], vcpu: &VcpuNo) -> &'a [u8]
    ensures { result.now ≡ name_at (names_of vcpus.now) vcpu.now }
{
    match vcpus.get(vcpu.index()) {
        Some(found) => found.name.bytes(),
        None => &[],
    }
}

ghost use Rattle.std.specs.Prelude.{◌≡◌, ◌≤◌, length};
ghost use Rattle.vcpu_names.specs.Names.{name_at as name_of};

use tab_core::Name;

/// The name of the vCPU of this number, or nothing where there is none.
pub fn name_at(names: &[Name], vcpu: usize) -> &[u8]
    ensures value { result.now ≡ name_of names.now vcpu }
    ensures short { length result.now ≤ 32 }
{
    match names.get(vcpu) {
        Some(name) => name.bytes(),
        None => &[],
    }
}

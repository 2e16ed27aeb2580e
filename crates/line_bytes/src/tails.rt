ghost use Rattle.std.specs.Prelude.{◌≡◌, ◌≤◌, [], ◌∷◌, ◌++◌, Some, length};
ghost use Rattle.tab_core.specs.declared.TheConstants.{MAX_NAME, MAX_VCPUS};
ghost use Rattle.vcpu_names.specs.Names.{names_of};
ghost use Rattle.line_bytes.specs.Tails.{AreTails, tail_bytes, tail_place, tail_text};

use crate::tail::Tail;
use tab_core::{MAX_VCPUS, Vcpu, VcpuNo};

/// The tails of all owners, each at its place, with this byte after the name. Idle cells have `-` for a
/// name, and a number that no vCPU has an empty one.
pub fn tails_of(vcpus: &[Vcpu], behind: u8) -> [Tail; 257]
    ensures { AreTails (names_of vcpus.now) behind MAX_VCPUS result }
{
    let mut tails = [tail_of(b"-", behind); 257];
    for vcpu in 0..MAX_VCPUS {
        tails[vcpu as usize + 1] = vcpu_tail(vcpus, VcpuNo(vcpu), behind);
    }
    tails
}

/// The place that an owner's tail has in `tails_of`: 0 for an idle cell, and one more than its number
/// for a vCPU.
pub fn tail_place(owner: &Option<VcpuNo>) -> usize
    ensures place { result ≡ tail_place owner.now }
    ensures small { result ≤ MAX_VCPUS }
{
    match owner {
        None => 0,
        Some(vcpu) => vcpu.index() + 1,
    }
}

fn vcpu_tail(vcpus: &[Vcpu], vcpu: VcpuNo, behind: u8) -> Tail
    ensures { tail_bytes result ≡ tail_text (names_of vcpus.now) behind (Some vcpu) }
{
    match vcpus.get(vcpu.index()) {
        Some(found) => tail_of(found.name.bytes(), behind),
        None => tail_of(&[], behind),
    }
}

fn tail_of(word: &[u8], behind: u8) -> Tail
    requires { length word.now ≤ MAX_NAME }
    ensures { tail_bytes result ≡ 32 ∷ (word.now ++ behind ∷ []) }
{
    let mut bytes = [0; 40];
    bytes[0] = b' ';
    for at in 0..word.len() {
        bytes[at + 1] = word[at];
    }
    bytes[word.len() + 1] = behind;
    Tail {
        bytes,
        len: word.len() + 2,
    }
}

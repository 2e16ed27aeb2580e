ghost use Rattle.std.specs.Prelude.{◌≡◌, ◌<◌, ◌≤◌, length, IfOk, IfSome, IfNone};
ghost use Rattle.tab_core.specs.Name.{IsName};
ghost use Rattle.tab_core.specs.declared.TheConstants.{MAX_VCPUS};
ghost use Rattle.vcpu_names.specs.Names.{AreNames, IsUnknown, name_at, names_of};

use std::alloc::{AllocError, Global};
use std::collections::BTreeMap;
use std::marker::Model;
use tab_core::{Vcpu, VcpuNo};

/// The vCPUs of a host, to be found by name. Contracts see their names, by number.
#[derive(Drop)]
pub struct Names<'a> {
    vcpus: &'a [Vcpu],
    numbers: BTreeMap<&'a [u8], VcpuNo, Global>,
    // at a name's place the number of a vCPU that may have it
    hints: Vec<u8>,
}

// How many places there are for hints, a power of two.
const PLACES: usize = 2048;

impl<'a> Model for Names<'a> {
    ghost use Rattle.std.specs.Prelude.{ℕ, List};
    ghost use Rattle.vcpu_names.specs.Names.{HasNumbers, names_of};

    ghost Value = { List (List ℕ) };

    ghost view = { λ names. names_of names.vcpus.now };

    ghost invariant = { λ names. HasNumbers (names_of names.vcpus.now) names.numbers };
}

impl<'a> Names<'a> {
    /// The names of these vCPUs, of which there are at most 256, each with the form of a name. Fails
    /// only when memory runs out.
    pub fn of(alloc: Global, vcpus: &'a [Vcpu]) -> Result<Names<'a>, AllocError>
        requires { length vcpus.now ≤ MAX_VCPUS }
        ensures names { IfOk result (λ names. names ≡ names_of vcpus.now) }
        ensures good { IfOk result (λ names. AreNames names) }
    {
        let hints = hints_of(alloc, vcpus)?;
        let mut numbers = BTreeMap::new(alloc);
        for (index, vcpu) in vcpus.iter().enumerate() {
            if numbers
                .insert(vcpu.name.bytes(), VcpuNo(index as u32))
                .is_err()
            {
                return Err(AllocError);
            }
        }
        Ok(Names {
            vcpus,
            numbers,
            hints,
        })
    }

    /// The number of the vCPU of this name. None exactly where no vCPU has it.
    #[inline(always)]
    pub fn number_of(&self, name: &[u8]) -> Option<VcpuNo>
        ensures known { IfSome result (λ vcpu. (vcpu < length self.now) × (name_at self.now vcpu ≡ name.now)
            × IsName name.now) }
        ensures unknown { IfNone result (IsUnknown self.now name.now) }
    {
        let place = place_of(name);
        if let Some(vcpu) = hinted(self.vcpus, &self.hints, place, name) {
            return Some(vcpu);
        }
        if let Some(vcpu) = hinted(self.vcpus, &self.hints, place ^ 1, name) {
            return Some(vcpu);
        }
        self.found_in_map(name)
    }

    // The number of the vCPU of this name, by the map alone. It stays out of the look-up, since
    // most names are found by a hint.
    #[inline(never)]
    fn found_in_map(&self, name: &[u8]) -> Option<VcpuNo>
        ensures known { IfSome result (λ vcpu. (vcpu < length self.now) × (name_at self.now vcpu ≡ name.now)
            × IsName name.now) }
        ensures unknown { IfNone result (IsUnknown self.now name.now) }
    {
        self.numbers.get(name).copied()
    }
}

// The place of a name's hint.
fn place_of(name: &[u8]) -> usize
    ensures { result < 2048 }
{
    let mut sum = 0u32;
    for byte in name {
        sum = sum.wrapping_mul(0x9E37_79B1).wrapping_add(u32::from(*byte));
    }
    (sum.wrapping_mul(0x9E37_79B1) >> 21) as usize
}

// The vCPU that the hint at the place names, if that has this name.
fn hinted(vcpus: &[Vcpu], hints: &[u8], place: usize, name: &[u8]) -> Option<VcpuNo>
    ensures { IfSome result (λ vcpu. (vcpu < length (names_of vcpus.now))
        × (name_at (names_of vcpus.now) vcpu ≡ name.now) × IsName name.now) }
{
    if place >= hints.len() {
        return None;
    }
    let at = usize::from(hints[place]);
    if at >= vcpus.len() {
        return None;
    }
    let held = vcpus[at].name.bytes();
    if held == name {
        Some(VcpuNo(at as u32))
    } else {
        None
    }
}

// A hint for each name, at its place or, where that is taken, at the one beside it.
fn hints_of(alloc: Global, vcpus: &[Vcpu]) -> Result<Vec<u8>, AllocError>
    requires { length vcpus.now ≤ MAX_VCPUS }
{
    let mut hints = vec![in alloc; 0u8; PLACES]?;
    for (index, vcpu) in vcpus.iter().enumerate() {
        let place = place_of(vcpu.name.bytes());
        if place < hints.len() {
            if hints[place] == 0 {
                hints[place] = index as u8;
            } else if (place ^ 1) < hints.len() {
                hints[place ^ 1] = index as u8;
            }
        }
    }
    Ok(hints)
}

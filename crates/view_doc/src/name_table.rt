ghost use Rattle.std.specs.Prelude.{◌≡◌, ◌<◌, ◌≤◌, [], true, false, length, Some, None, IfOk, IfSome, IfNone, MatchOption};
ghost use Rattle.tab_core.specs.Name.{IsName};
ghost use Rattle.vcpu_names.specs.Names.{name_at};
ghost use Rattle.view_doc.specs.Grammar.{is_known, with_name};

use std::alloc::{AllocError, Global};
use std::collections::BTreeMap;
use std::marker::Model;
use tab_core::{MAX_VCPUS, Name, NoMemory, VcpuNo};

// The names of vCPUs by number, as they came first, each to be found. Contracts see the names.
#[derive(Drop)]
pub(crate) struct NameTable<'a> {
    names: Vec<Name>,
    numbers: BTreeMap<&'a [u8], VcpuNo, Global>,
    // at a name's place the number of a vCPU that may have it
    hints: [u8; PLACES],
}

// How many places there are for hints, a power of two.
const PLACES: usize = 4096;

impl<'a> Model for NameTable<'a> {
    ghost use Rattle.std.specs.Prelude.{ℕ, ◌≤◌, List, length};
    ghost use Rattle.tab_core.specs.declared.TheConstants.{MAX_VCPUS};
    ghost use Rattle.vcpu_names.specs.Names.{HasNumbers};

    ghost Value = { List (List ℕ) };

    ghost view = { λ table. table.names.items };

    ghost invariant = { λ table. (length table.names.items ≤ MAX_VCPUS)
        × HasNumbers table.names.items table.numbers };
}

impl<'a> NameTable<'a> {
    pub(crate) fn empty(alloc: Global) -> NameTable<'a>
        ensures { result ≡ [] }
    {
        NameTable {
            names: Vec::new(alloc),
            numbers: BTreeMap::new(alloc),
            hints: [0; PLACES],
        }
    }

    // The number of the vCPU of this name, if a hint names it.
    pub(crate) fn hinted(&self, name: &[u8]) -> Option<VcpuNo>
        ensures { IfSome result (λ vcpu. (vcpu < length self.now) × (name_at self.now vcpu ≡ name.now)
            × IsName name.now) }
    {
        let place = place_of(name);
        if let Some(vcpu) = hinted_at(&self.names, &self.hints, place, name) {
            return Some(vcpu);
        }
        hinted_at(&self.names, &self.hints, place ^ 1, name)
    }

    // The number of the vCPU of this name, if it is known.
    pub(crate) fn find(&self, name: &[u8]) -> Option<VcpuNo>
        ensures known { IfSome result (λ vcpu. (vcpu < length self.now) × (name_at self.now vcpu ≡ name.now)
            × (is_known self.now name.now ≡ true)) }
        ensures unknown { IfNone result (is_known self.now name.now ≡ false) }
    {
        if let Some(vcpu) = self.hinted(name) {
            return Some(vcpu);
        }
        self.found_in_map(name)
    }

    // The number of the vCPU of this name, by the map alone.
    fn found_in_map(&self, name: &[u8]) -> Option<VcpuNo>
        ensures known { IfSome result (λ vcpu. (vcpu < length self.now) × (name_at self.now vcpu ≡ name.now)
            × (is_known self.now name.now ≡ true)) }
        ensures unknown { IfNone result (is_known self.now name.now ≡ false) }
    {
        self.numbers.get(name).copied()
    }

    // The number of the vCPU of this name, which is new or known; none where there is no room for it.
    pub(crate) fn put(&mut self, alloc: Global, name: &'a [u8]) -> Result<Option<VcpuNo>, NoMemory>
        requires { IsName name.now }
        ensures { IfOk result (λ found. MatchOption found (with_name self.old name.now ≡ None)
            (λ vcpu. (with_name self.old name.now ≡ Some self.new) × (vcpu < length self.new)
            × (name_at self.new vcpu ≡ name.now))) }
    {
        if let Some(vcpu) = self.find(name) {
            return Ok(Some(vcpu));
        }
        if self.names.len() >= MAX_VCPUS as usize {
            return Ok(None);
        }
        let vcpu = VcpuNo(self.names.len() as u32);
        let Ok(own) = Name::of(alloc, name) else {
            return Err(AllocError);
        };
        if self.names.push(own).is_err() {
            return Err(AllocError);
        }
        if self.numbers.insert(name, vcpu).is_err() {
            self.names.pop();
            return Err(AllocError);
        }
        put_hint(&mut self.hints, name, vcpu);
        Ok(Some(vcpu))
    }

    // The names alone.
    pub(crate) fn into_names(self) -> Vec<Name>
        ensures { result.items ≡ self.entry }
    {
        self.names
    }
}

// The place of a name's hint.
fn place_of(name: &[u8]) -> usize
    ensures { result < 4096 }
{
    let mut sum = 0u32;
    for byte in name {
        sum = sum.wrapping_mul(0x9E37_79B1).wrapping_add(u32::from(*byte));
    }
    (sum.wrapping_mul(0x9E37_79B1) >> 20) as usize
}

// The vCPU that the hint at the place names, if that has this name.
fn hinted_at(names: &[Name], hints: &[u8], place: usize, name: &[u8]) -> Option<VcpuNo>
    ensures { IfSome result (λ vcpu. (vcpu < length names.now) × (name_at names.now vcpu ≡ name.now)
        × IsName name.now) }
{
    if place >= hints.len() {
        return None;
    }
    let at = usize::from(hints[place]);
    if at >= names.len() {
        return None;
    }
    let held = names[at].bytes();
    if held == name {
        Some(VcpuNo(at as u32))
    } else {
        None
    }
}

// Puts a hint at the place of a name or, where that is taken, at the one beside it.
fn put_hint(hints: &mut [u8], name: &[u8], vcpu: VcpuNo) {
    let place = place_of(name);
    if place >= hints.len() {
        return;
    }
    if hints[place] == 0 {
        hints[place] = vcpu.0 as u8;
    } else if (place ^ 1) < hints.len() {
        hints[place ^ 1] = vcpu.0 as u8;
    }
}

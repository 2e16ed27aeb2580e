ghost use Rattle.std.specs.Prelude.{◌≡◌, ◌≤◌, ◌||◌, ℕ, List, IfOk, MatchOption, OnOk, bytes_eq, length, not};
ghost use Rattle.tab_core.specs.declared.TheConstants.{MAX_VCPUS};
ghost use Rattle.host_doc.specs.Inside.TextSets.{has_text};
ghost use Rattle.sizes_doc.specs.SizedHost.{HaveGoodNames, IsTwice};

use std::alloc::{AllocError, Global};
use std::collections::BTreeSet;
use tab_core::Vcpu;

// The first vCPU, of at most 256, that has the name of an earlier one.
pub(crate) fn first_twice(alloc: Global, vcpus: &[Vcpu]) -> Result<Option<u32>, AllocError>
    requires { length vcpus.now ≤ MAX_VCPUS }
    ensures { IfOk result (λ found. MatchOption found (HaveGoodNames vcpus.now) (IsTwice vcpus.now)) }
{
    let mut names = BTreeSet::new(alloc);
    for (index, vcpu) in vcpus.iter().enumerate() {
        if !add_name(&mut names, vcpu.name.bytes())? {
            return Ok(Some(index as u32));
        }
    }
    Ok(None)
}

// Adds a name to the set, and says whether it is new.
fn add_name<'a>(names: &mut BTreeSet<&'a [u8], Global>, name: &'a [u8]) -> Result<bool, AllocError>
    ensures added { IfOk result (λ added. added ≡ not (has_text names.old name.now)) }
    ensures holds { OnOk result ((other : List ℕ)
        → has_text names.new other ≡ (bytes_eq other name.now || has_text names.old other)) }
{
    let added = names.insert(name)?;
    Ok(added)
}

ghost use Rattle.std.specs.Prelude.{◌≡◌, ◌<◌, ◌^◌, ℕ, IfOk, IsErrOf, Option, get_or, length};
ghost use Rattle.tab_words.specs.Texts.{worded};
ghost use Rattle.vcpu_names.specs.Names.{name_at, names_of};
ghost use Rattle.plan_text.specs.FirstBad.{IsFirstBadFor};
ghost use Rattle.plan_text.specs.Names.{AreHostNames};
ghost use Rattle.plan_text.specs.OldHomes.{AreHomesNamed, AreOldHomes, core_of_home, home_behind};
ghost use Rattle.plan_text.specs.OldText.{IsSomeOldText};
ghost use Rattle.plan_text.specs.declared.read_fault.ReadPlan.{ReadPlan};

use crate::read_fault::ReadPlan;
use crate::read_old::{OldHome, read_old_vcpus};
use std::alloc::{AllocError, Global};
use tab_core::{CoreNo, Host, MAX_CORES};
use vcpu_names::Names;

/// The old homes of this host's vCPUs by their numbers: those that the text of an earlier plan gives to
/// their names. The text has less than 2^32 bytes.
///
/// The text is read without its own host. Its first line, the lines of its vCPUs and its end are those
/// of a plan text, and between them each line begins a core or is a segment's; what the numbers and
/// owners are isn't looked at, but that a number is below 2^64. `BadLine` comes exactly where the bytes
/// are no such text. A name that the host doesn't have is passed over, and a home that is no core's
/// number is none.
pub fn read_old_homes(
    alloc: Global,
    bytes: &[u8],
    host: &Host,
) -> Result<Vec<Option<CoreNo>>, ReadPlan>
    requires short { length bytes.now < 2 ^ 32 }
    ensures ok { IfOk result (λ homes. AreOldHomes (names_of host.now.vcpus) (worded bytes.now) homes.items) }
    ensures bad_line { (bad : ℕ) → IsErrOf result (ReadPlan.BadLine bad)
        → IsFirstBadFor IsSomeOldText 1 (worded bytes.now) bad }
{
    let vcpus = match read_old_vcpus(alloc, bytes) {
        Ok(vcpus) => vcpus,
        Err(fault) => return Err(fault),
    };
    match homes_of(alloc, host, &vcpus) {
        Ok(homes) => Ok(homes),
        Err(_) => Err(ReadPlan::NoMemory),
    }
}

// The homes of the host's vCPUs by the lines with their names.
fn homes_of(
    alloc: Global,
    host: &Host,
    vcpus: &[OldHome<'_>],
) -> Result<Vec<Option<CoreNo>>, AllocError>
    ensures { IfOk result (λ homes. AreHomesNamed (names_of host.now.vcpus) vcpus.now homes.items) }
{
    let names = Names::of(alloc, host.vcpus.items())?;
    let mut homes = vec![in alloc; None; host.vcpus.items().len()]?;
    for vcpu in vcpus {
        put_home(&names, vcpu, &mut homes);
    }
    Ok(homes)
}

// Puts the home that a line gives in place of the one that its name has.
fn put_home(names: &Names<'_>, vcpu: &OldHome<'_>, homes: &mut [Option<CoreNo>])
    requires good { AreHostNames names.now }
    requires as_many { length homes.old ≡ length names.now }
    ensures as_many { length homes.new ≡ length homes.old }
    ensures each { (v : ℕ) (none : Option ℕ) → v < length names.now
        → get_or homes.new v none ≡ home_behind (name_at names.now v) vcpu.now (get_or homes.old v none) }
{
    if let Some(number) = names.number_of(vcpu.name()) {
        homes[number.index()] = core_of_home(vcpu.home());
    }
}

// A home, if it is a core's number.
fn core_of_home(home: u64) -> Option<CoreNo>
    ensures { result ≡ core_of_home home }
{
    if home < u64::from(MAX_CORES) {
        Some(CoreNo(home as u32))
    } else {
        None
    }
}

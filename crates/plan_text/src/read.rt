ghost use Rattle.std.specs.Prelude.{◌≡◌, ◌⊎◌, ◌<◌, ◌≤◌, ◌^◌, IfOk, IsErrOf, IsTrue, Ok, Err, length, ℕ};
ghost use Rattle.tab_core.specs.declared.TheConstants.{MAX_CORES};
ghost use Rattle.tab_words.specs.Texts.{worded};
ghost use Rattle.table_form.specs.Tables.Homes.{are_housed};
ghost use Rattle.table_form.specs.declared.raw_tables.RawTables.{RawTables};
ghost use Rattle.plan_text.specs.FirstBad.{IsFirstBadFor};
ghost use Rattle.plan_text.specs.Names.{AreHostNames};
ghost use Rattle.plan_text.specs.Meaning.{AreFineRows, IsPlanText, IsSomePlan};
ghost use Rattle.vcpu_names.specs.Names.{names_of};
ghost use Rattle.plan_text.specs.declared.read_fault.ReadPlan.{ReadPlan};

use crate::read_cores::read_cores;
use crate::read_fault::ReadPlan;
use crate::read_front::read_front;
use std::alloc::Global;
use tab_core::{Host, Tasks};
use table_form::{Homes, RawRows, RawTables};
use vcpu_names::Names;

/// The tables that a plan text of less than 2^32 bytes stands for, for this host and these tasks, of
/// which it has one exactly for each admitted vCPU.
///
/// Each line is words with one space or more between them, and no line is skipped. Segments are as
/// they are written: neighbours may have one owner, and the ends may be in any order below 2^32.
///
/// The text of a host and tasks stands for one pair of tables at most, and is read as that.
/// `BadLine` comes exactly where the bytes are the text of none.
pub fn read_plan(
    alloc: Global,
    bytes: &[u8],
    host: &Host,
    tasks: &Tasks,
) -> Result<RawTables, ReadPlan>
    requires named { length tasks.now ≡ length host.now.vcpus }
    requires short { length bytes.now < 2 ^ 32 }
    ensures ok { IfOk result (IsPlanText (names_of host.now.vcpus) host.now.cores tasks.now bytes.now) }
    ensures bad_line { (bad : ℕ) → IsErrOf result (ReadPlan.BadLine bad)
        → IsFirstBadFor (IsSomePlan (names_of host.now.vcpus) host.now.cores tasks.now) 1
        (worded bytes.now) bad }
    // What checked tables need: rows, homes and owners.
    ensures few { IfOk result (λ raw. length raw.rows ≤ MAX_CORES) }
    ensures housed { IfOk result (λ raw. IsTrue (are_housed (length raw.rows) tasks.now raw.homes)) }
    ensures fine { IfOk result (λ raw. AreFineRows tasks.now raw.rows) }
    // A text is read, and another is refused with its line.
    ensures read { (raw : RawTables) → IsPlanText
        (names_of host.now.vcpus) host.now.cores tasks.now bytes.now raw
        → (result ≡ Ok raw) ⊎ (result ≡ Err ReadPlan.NoMemory) }
    ensures refused { (bad : ℕ)
        → IsFirstBadFor (IsSomePlan (names_of host.now.vcpus) host.now.cores tasks.now) 1
        (worded bytes.now) bad
        → (result ≡ Err (ReadPlan.BadLine bad)) ⊎ (result ≡ Err ReadPlan.NoMemory) }
{
    let names = Names::of(alloc, host.vcpus.items())?;
    read_text(alloc, bytes, host, tasks, &names)
}

// Reads the text of a host whose vCPUs have these names.
fn read_text(
    alloc: Global,
    bytes: &[u8],
    host: &Host,
    tasks: &Tasks,
    names: &Names<'_>,
) -> Result<RawTables, ReadPlan>
    requires good { AreHostNames names.now }
    requires own { names.now ≡ names_of host.now.vcpus }
    requires named { length tasks.now ≡ length host.now.vcpus }
    requires short { length bytes.now < 2 ^ 32 }
    ensures ok { IfOk result (IsPlanText names.now host.now.cores tasks.now bytes.now) }
    ensures bad_line { (bad : ℕ) → IsErrOf result (ReadPlan.BadLine bad)
        → IsFirstBadFor (IsSomePlan names.now host.now.cores tasks.now) 1 (worded bytes.now) bad }
{
    let mut front = read_front(alloc, bytes, host, tasks)?;
    let rows = read_cores(alloc, &mut front.left, names, tasks.items(), host.cores)?;
    Ok(RawTables {
        homes: Homes::of(front.homes),
        rows: RawRows::of(rows),
    })
}

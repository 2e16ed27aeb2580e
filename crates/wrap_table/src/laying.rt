ghost use Rattle.std.specs.Prelude.{◌≡◌, ◌+◌, ◌*◌, ◌-◌, ◌<◌, ◌≤◌, ◌++◌, IfOk, Some, length, replicate};
ghost use Rattle.tab_core.specs.declared.TheConstants.{MAX_CORES, MAX_VCPUS, ROUND};
ghost use Rattle.flow_net.specs.Allotted.{allotment_view};
ghost use Rattle.flow_net.specs.Rows.{row_at};
ghost use Rattle.wrap_table.specs.Inside.Laying.{AreLaidTo, HasIntervals, IsLaidTo, IsRowOfCore, laid_at, owners};
ghost use Rattle.wrap_table.specs.Wrapping.{AreWrapped, length_at};

use flow_net::Allotment;
use std::alloc::Global;
use tab_core::{NoMemory, VcpuNo};
use table_form::{CoreTable, RowBuilder};

// How far an interval's ticks are laid: those of the vCPUs before `vcpu`, and so many of it.
#[derive(Clone, Copy)]
pub(crate) struct Laid {
    pub(crate) vcpu: usize,
    pub(crate) ticks: u32,
}

// Appends so many ticks of a vCPU.
fn append(row: &mut RowBuilder, vcpu: usize, count: u32) -> Result<(), NoMemory>
    requires vcpu { vcpu < MAX_VCPUS }
    requires room { length row.old + count ≤ ROUND }
    ensures { IfOk result (λ _. row.new ≡ row.old ++ replicate count (Some vcpu)) }
{
    if count == 0 {
        return Ok(());
    }
    row.push_run(Some(VcpuNo(vcpu as u32)), count)
}

// Lays an interval's ticks along one core, which offers `span` ticks, from where the cores before it
// have laid them: position `from`. What no vCPU gets is idle.
fn lay(
    row: &mut RowBuilder,
    ticks: &[u32],
    at: Laid,
    from: u32,
    span: u32,
) -> Result<Laid, NoMemory>
    requires few { length ticks.now ≤ MAX_VCPUS }
    requires at { IsLaidTo ticks.now from at }
    requires some { 0 < span }
    requires room { length row.old + span ≤ ROUND }
    ensures row { IfOk result (λ _. row.new ≡ row.old ++ owners ticks.now from span) }
    ensures next { IfOk result (λ next. IsLaidTo ticks.now (from + span) next) }
{
    let mut left = span;
    let mut begun = at.ticks;
    for vcpu in at.vcpu..ticks.len() {
        let count = (ticks[vcpu] - begun).min(left);
        append(row, vcpu, count)?;
        left -= count;
        if left == 0 {
            return Ok(Laid {
                vcpu,
                ticks: begun + count,
            });
        }
        begun = 0;
    }
    row.push_run(None, left)?;
    Ok(Laid {
        vcpu: ticks.len(),
        ticks: 0,
    })
}

// The ticks of an interval, by vCPU number.
fn ticks_in(allotment: &Allotment, i: usize) -> &[u32]
    requires { i < length allotment.now.ticks }
    ensures { result.now ≡ row_at allotment.now.ticks i }
{
    allotment.ticks.items()[i].items()
}

// The length of an interval.
fn length_of(allotment: &Allotment, i: usize) -> u32
    requires intervals { HasIntervals (allotment_view allotment.now) }
    requires interval { i < length allotment.now.ticks }
    ensures { result ≡ length_at (allotment_view allotment.now) i }
{
    let marks = allotment.marks.items();
    marks[i + 1] - marks[i]
}

// How far the ticks of an interval are laid.
fn laid_of(at: &Vec<Laid>, i: usize) -> Laid
    requires { i < length at.now.items }
    ensures { result ≡ laid_at at.now.items i }
{
    at[i]
}

// The row of a core.
fn row_of(
    alloc: Global,
    allotment: &Allotment,
    core: u32,
    at: &mut Vec<Laid>,
) -> Result<CoreTable, NoMemory>
    requires intervals { HasIntervals (allotment_view allotment.now) }
    requires core { core < MAX_CORES }
    requires size { length at.old.items ≡ length allotment.now.ticks }
    requires at { AreLaidTo (allotment_view allotment.now) core at.old.items }
    ensures row { IfOk result (IsRowOfCore (allotment_view allotment.now) core) }
    ensures size { length at.new.items ≡ length at.old.items }
    ensures next { IfOk result (λ _. AreLaidTo (allotment_view allotment.now) (core + 1) at.new.items) }
{
    let mut row = RowBuilder::new(alloc);
    for i in 0..at.len() {
        let span = length_of(allotment, i);
        let begun = laid_of(at, i);
        at[i] = lay(&mut row, ticks_in(allotment, i), begun, core * span, span)?;
    }
    Ok(row.finish())
}

// The rows of an allotment, core by core.
pub(crate) fn rows_of(
    alloc: Global,
    allotment: &Allotment,
    cores: u32,
) -> Result<Vec<CoreTable>, NoMemory>
    requires intervals { HasIntervals (allotment_view allotment.now) }
    requires cores { cores ≤ MAX_CORES }
    ensures { IfOk result (λ rows. AreWrapped (allotment_view allotment.now) cores rows.items) }
{
    let mut at = vec![in alloc; Laid { vcpu: 0, ticks: 0 }; allotment.ticks.items().len()]?;
    let mut rows = Vec::with_capacity(alloc, cores as usize)?;
    for core in 0..cores {
        rows.push(row_of(alloc, allotment, core, &mut at)?)?;
    }
    Ok(rows)
}

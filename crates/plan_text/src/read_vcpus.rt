ghost use Rattle.std.specs.Prelude.{◌≡◌, ◌++◌, ◌+◌, ◌<◌, ◌≤◌, IfOk, IsErrOf, MatchOption, OnOk, length, true, ℕ};
ghost use Rattle.tab_core.specs.declared.TheConstants.{MAX_CORES};
ghost use Rattle.table_form.specs.Tables.Homes.{are_housed, is_housed};
ghost use Rattle.tab_words.specs.Words.{words_of};
ghost use Rattle.plan_text.specs.FirstBad.{IsFirstBadFor};
ghost use Rattle.plan_text.specs.PlanLines.{vcpu_lines, vcpu_part, vcpu_words};
ghost use Rattle.vcpu_names.specs.Names.{names_of};
ghost use Rattle.plan_text.specs.Inside.Reading.{AreFromCore, AreFromVcpu, IsNoVcpu};
ghost use Rattle.plan_text.specs.declared.read_fault.ReadPlan.{ReadPlan};

use crate::line_words::words_behind;
use crate::lines_left::LinesLeft;
use crate::read_fault::ReadPlan;
use std::alloc::Global;
use tab_core::{CoreNo, Periodic, Vcpu};
use tab_words::{TextPiece, read_core};

// Reads the lines of the vCPUs that have a task.
pub(crate) fn read_vcpus(
    alloc: Global,
    left: &mut LinesLeft<'_>,
    vcpus: &[Vcpu],
    tasks: &[Option<Periodic>],
    cores: u32,
) -> Result<Vec<Option<CoreNo>>, ReadPlan>
    requires named { length vcpus.now ≡ length tasks.now }
    requires some_core { 1 ≤ cores }
    requires few_cores { cores ≤ MAX_CORES }
    ensures lines { IfOk result (λ homes. left.old.lines
        ≡ vcpu_lines (names_of vcpus.now) tasks.now homes.items ++ left.new.lines) }
    ensures many { IfOk result (λ homes. length homes.items ≡ length tasks.now) }
    ensures housed { IfOk result (λ homes. are_housed cores tasks.now homes.items ≡ true) }
    ensures behind { OnOk result ((bad : ℕ)
        → IsFirstBadFor (AreFromCore (names_of vcpus.now) tasks.now 0 cores)
        left.new.number left.new.lines bad
        → IsFirstBadFor (AreFromVcpu (names_of vcpus.now) tasks.now cores 0)
        left.old.number left.old.lines bad) }
    ensures bad_line { (bad : ℕ) → IsErrOf result (ReadPlan.BadLine bad)
        → IsFirstBadFor (AreFromVcpu (names_of vcpus.now) tasks.now cores 0)
        left.old.number left.old.lines bad }
{
    let mut homes = Vec::new(alloc);
    for v in 0..tasks.len() {
        let home = read_vcpu(left, vcpus[v].name.bytes(), &tasks[v], cores)?;
        if homes.push(home).is_err() {
            return Err(ReadPlan::NoMemory);
        }
    }
    Ok(homes)
}

// Reads the line of a vCPU, if it has a task.
fn read_vcpu(
    left: &mut LinesLeft<'_>,
    name: &[u8],
    task: &Option<Periodic>,
    cores: u32,
) -> Result<Option<CoreNo>, ReadPlan>
    requires few_cores { cores ≤ MAX_CORES }
    ensures lines { IfOk result (λ home.
        left.old.lines ≡ vcpu_part name.now task.now home ++ left.new.lines) }
    ensures number { IfOk result (λ home.
        left.new.number ≡ left.old.number + length (vcpu_part name.now task.now home)) }
    ensures housed { IfOk result (λ home. is_housed cores task.now home ≡ true) }
    ensures bad_line { (bad : ℕ) → IsErrOf result (ReadPlan.BadLine bad)
        → (bad ≡ left.old.number) × IsNoVcpu name.now task.now cores left.old.lines }
{
    let Some(task) = task else {
        return Ok(None);
    };
    let Some((line, behind)) = left.first() else {
        return Err(left.bad_line());
    };
    let Some(home) = home_of(line, name, task, cores) else {
        return Err(left.bad_line());
    };
    left.step_to(behind);
    Ok(Some(home))
}

// The home that a vCPU's line gives.
fn home_of(line: &[u8], name: &[u8], task: &Periodic, cores: u32) -> Option<CoreNo>
    requires few_cores { cores ≤ MAX_CORES }
    ensures { MatchOption result
        ((home : ℕ) → home < cores → words_of line.now ≡ vcpu_words name.now task.now home → ⊥)
        (λ home. (home < cores) × (words_of line.now ≡ vcpu_words name.now task.now home)) }
{
    let front = [
        TextPiece::Text(b"vcpu"),
        TextPiece::Text(name),
        TextPiece::Text(b"period"),
        TextPiece::Number(task.period),
        TextPiece::Text(b"cost"),
        TextPiece::Number(task.cost),
        TextPiece::Text(b"home"),
    ];
    let Some(mut words) = words_behind(line, &front) else {
        return None;
    };
    let (Some(word), None) = (words.next(), words.next()) else {
        return None;
    };
    read_core(word, cores)
}

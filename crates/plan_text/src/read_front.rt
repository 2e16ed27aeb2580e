ghost use Rattle.std.specs.Prelude.{◌≡◌, ◌↔◌, ◌<◌, ◌≤◌, ◌^◌, [], IfOk, IsErrOf, IsTrue, count_by, length, ℕ};
ghost use Rattle.tab_core.specs.declared.TheConstants.{MAX_VCPUS};
ghost use Rattle.plan_text.specs.FirstBad.{IsFirstBadFor};
ghost use Rattle.plan_text.specs.Inside.Reading.{IsReadTo};
ghost use Rattle.plan_text.specs.Meaning.{IsSomePlan};
ghost use Rattle.plan_text.specs.PlanLines.{head_words, is_admitted};
ghost use Rattle.plan_text.specs.declared.read_fault.ReadPlan.{ReadPlan};
ghost use Rattle.tab_words.specs.Words.{words_of};
ghost use Rattle.tab_words.specs.Texts.{worded};
ghost use Rattle.vcpu_names.specs.Names.{names_of};

use crate::line_words::has_words;
use crate::lines_left::{LinesLeft, first_line};
use crate::read_fault::ReadPlan;
use crate::read_vcpus::read_vcpus;
use crate::vcpus::count_admitted;
use std::alloc::Global;
use tab_core::{CoreNo, Host, Periodic, Tasks};
use tab_words::TextPiece;

// What is before the cores: the homes, and the lines that are left after them.
#[derive(Drop)]
pub(crate) struct Front<'a> {
    pub(crate) homes: Vec<Option<CoreNo>>,
    pub(crate) left: LinesLeft<'a>,
}

// Reads the first line and those of the vCPUs.
pub(crate) fn read_front<'a>(
    alloc: Global,
    bytes: &'a [u8],
    host: &Host,
    tasks: &Tasks,
) -> Result<Front<'a>, ReadPlan>
    requires named { length tasks.now ≡ length host.now.vcpus }
    requires short { length bytes.now < 2 ^ 32 }
    ensures ok { IfOk result (λ front. IsReadTo (names_of host.now.vcpus) host.now.cores tasks.now bytes.now
        front.homes.items [] front.left) }
    ensures bad_line { (bad : ℕ) → IsErrOf result (ReadPlan.BadLine bad)
        → IsFirstBadFor (IsSomePlan (names_of host.now.vcpus) host.now.cores tasks.now) 1
        (worded bytes.now) bad }
{
    let Some((head, behind)) = first_line(bytes) else {
        return Err(ReadPlan::BadLine { line: 1 });
    };
    if !is_head(head, host.cores, tasks.items()) {
        return Err(ReadPlan::BadLine { line: 1 });
    }
    let mut left = LinesLeft::from(behind, 2);
    let homes = read_vcpus(
        alloc,
        &mut left,
        host.vcpus.items(),
        tasks.items(),
        host.cores,
    )?;
    Ok(Front { homes, left })
}

fn is_head(line: &[u8], cores: u32, tasks: &[Option<Periodic>]) -> bool
    requires { length tasks.now ≤ MAX_VCPUS }
    ensures { IsTrue result ↔ (words_of line.now ≡ head_words cores (count_by is_admitted tasks.now)) }
{
    has_words(
        line,
        &[
            TextPiece::Text(b"plan"),
            TextPiece::Text(b"cores"),
            TextPiece::Number(cores),
            TextPiece::Text(b"vcpus"),
            TextPiece::Number(count_admitted(tasks)),
        ],
    )
}

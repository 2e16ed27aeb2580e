ghost use Rattle.std.specs.Prelude.{◌≡◌, ◌≤◌, count_by, length};
ghost use Rattle.tab_core.specs.declared.TheConstants.{MAX_VCPUS};
ghost use Rattle.tab_io.specs.Sinks.{Writes};
ghost use Rattle.tab_words.specs.Texts.{text_of};
ghost use Rattle.vcpu_names.specs.Names.{names_of};
ghost use Rattle.plan_text.specs.PlanLines.{is_admitted, vcpu_lines, vcpu_part};

use tab_core::{CoreNo, Periodic, Vcpu};
use tab_io::{Sink, WriteFault};
use tab_words::{TextPiece, put_line};

// How many of the vCPUs have a task.
pub(crate) fn count_admitted(tasks: &[Option<Periodic>]) -> u32
    requires { length tasks.now ≤ MAX_VCPUS }
    ensures { result ≡ count_by is_admitted tasks.now }
{
    tasks.iter().filter(|task| task.is_some()).count() as u32
}

// Writes the lines of the vCPUs that have a task.
pub(crate) fn put_vcpus<K: Sink>(
    sink: &mut K,
    vcpus: &[Vcpu],
    tasks: &[Option<Periodic>],
    homes: &[Option<CoreNo>],
) -> Result<(), WriteFault>
    requires named { length vcpus.now ≡ length tasks.now }
    requires housed { length homes.now ≡ length tasks.now }
    ensures { Writes (K.state sink.old) (K.state sink.new)
        (text_of (vcpu_lines (names_of vcpus.now) tasks.now homes.now)) result }
{
    for v in 0..tasks.len() {
        put_vcpu(sink, &vcpus[v], &tasks[v], &homes[v])?;
    }
    Ok(())
}

// Writes the line of a vCPU, if it has a task.
fn put_vcpu<K: Sink>(
    sink: &mut K,
    vcpu: &Vcpu,
    task: &Option<Periodic>,
    home: &Option<CoreNo>,
) -> Result<(), WriteFault>
    ensures { Writes (K.state sink.old) (K.state sink.new)
        (text_of (vcpu_part vcpu.now.name task.now home.now)) result }
{
    let Some(task) = task else {
        return Ok(());
    };
    let Some(home) = home else {
        return Ok(());
    };
    put_line(
        sink,
        &[
            TextPiece::Text(b"vcpu"),
            TextPiece::Text(vcpu.name.bytes()),
            TextPiece::Text(b"period"),
            TextPiece::Number(task.period),
            TextPiece::Text(b"cost"),
            TextPiece::Number(task.cost),
            TextPiece::Text(b"home"),
            TextPiece::Number(home.0),
        ],
    )
}

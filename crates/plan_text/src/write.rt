ghost use Rattle.std.specs.Prelude.{◌≡◌, ◌≤◌, Bool, List, length};
ghost use Rattle.tab_core.specs.declared.TheConstants.{MAX_CORES, MAX_VCPUS};
ghost use Rattle.tab_io.specs.Sinks.{Writes};
ghost use Rattle.table_form.specs.Tables.Plans.{IsPlanFor};
ghost use Rattle.table_form.specs.Tables.Views.{plan_view};
ghost use Rattle.vcpu_names.specs.Names.{names_of};
ghost use Rattle.plan_text.specs.PlanLines.{head_words};
ghost use Rattle.plan_text.specs.PlanText.{plan_text};
ghost use Rattle.tab_words.specs.Texts.{line_of};

use crate::cores::put_cores;
use crate::vcpus::{count_admitted, put_vcpus};
use tab_core::{CoreNo, Host, Periodic, Vcpu};
use tab_io::{Sink, WriteFault};
use tab_words::{TextPiece, put_line};
use table_form::{CoreTable, Plan};

/// Writes the text of a plan for this host.
///
/// The plan has a task exactly for each admitted vCPU of the host, and a row for each of its cores. A
/// fault leaves a prefix of the text in the sink. Nothing is settled.
pub fn write_plan<K: Sink>(sink: &mut K, host: &Host, plan: &Plan) -> Result<(), WriteFault>
    requires { IsPlanFor host.now (plan_view plan.now) }
    ensures { Writes (K.state sink.old) (K.state sink.new)
        (plan_text (names_of host.now.vcpus) (plan_view plan.now)) result }
{
    let vcpus = host.vcpus.items();
    let tasks = plan.tasks.items();
    let homes = plan.tables.homes.items();
    let rows = plan.tables.rows.items();
    put_plan(sink, vcpus, tasks, homes, rows)
}

// Writes the text of a plan that is given by its parts. It doesn't tell which vCPUs are capped.
fn put_plan<K: Sink>(
    sink: &mut K,
    vcpus: &[Vcpu],
    tasks: &[Option<Periodic>],
    homes: &[Option<CoreNo>],
    rows: &[CoreTable],
) -> Result<(), WriteFault>
    requires named { length vcpus.now ≡ length tasks.now }
    requires few { length tasks.now ≤ MAX_VCPUS }
    requires housed { length homes.now ≡ length tasks.now }
    requires few_rows { length rows.now ≤ MAX_CORES }
    ensures { (capped : List Bool) → Writes (K.state sink.old) (K.state sink.new)
        (plan_text (names_of vcpus.now)
        (record { tasks = tasks.now; homes = homes.now; rows = rows.now; capped = capped })) result }
{
    put_head(sink, rows.len() as u32, count_admitted(tasks))?;
    put_vcpus(sink, vcpus, tasks, homes)?;
    put_cores(sink, vcpus, rows)?;
    put_line(sink, &[TextPiece::Text(b"end")])
}

// Writes the first line.
fn put_head<K: Sink>(sink: &mut K, cores: u32, admitted: u32) -> Result<(), WriteFault>
    ensures { Writes (K.state sink.old) (K.state sink.new) (line_of (head_words cores admitted)) result }
{
    put_line(
        sink,
        &[
            TextPiece::Text(b"plan"),
            TextPiece::Text(b"cores"),
            TextPiece::Number(cores),
            TextPiece::Text(b"vcpus"),
            TextPiece::Number(admitted),
        ],
    )
}

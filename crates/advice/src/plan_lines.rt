ghost use Rattle.std.specs.Prelude.{◌≡◌, ◌≤◌, [], length, slice_get, slice_index_or};
ghost use Rattle.tab_core.specs.declared.TheConstants.{MAX_VCPUS};
ghost use Rattle.tab_io.specs.Sinks.{Writes};
ghost use Rattle.tab_words.specs.Words.{words_of};
ghost use Rattle.vcpu_names.specs.Names.{names_of};
ghost use Rattle.advice.specs.Lines.{line_at};
ghost use Rattle.advice.specs.PlanLines.{admitted_from, are_end, bad_after, bad_line, behind_head, found_line_text, old_line_text, old_unwanted_text, old_wanted_text, plan_line_text, shape_text, short_text, trailing_text, truncated_text, twice_text, unwanted_text, wanted_head_text, wanted_line_text, wanted_table_text, wanted_vcpu_text};

use crate::line::{first_of, lines_after};
use crate::mistaken::{kind_of_plan_line, plan_kind_text};
use crate::part::{Part, put_parts};
use tab_core::{CoreNo, Host, Periodic, Tasks, Vcpu, VcpuNo};
use tab_io::{Sink, WriteFault, write_all};
use tab_words::{Lines, Words};
use vcpu_names::name_in;

// How a line of a plan text is wrong.
#[derive(Clone, Copy)]
pub(crate) enum BadLine {
    // The text stops before it.
    Truncated,
    // It follows the line `end`.
    Trailing,
    // It isn't the line that is wanted there.
    Unwanted,
}

// Writes the advice on a plan text whose line of this number is none for the host.
pub(crate) fn put_plan_line<K: Sink>(
    sink: &mut K,
    plan: &[u8],
    number: u32,
    host: &Host,
    tasks: &Tasks,
) -> Result<(), WriteFault>
    ensures { Writes (K.state sink.old) (K.state sink.new)
        (plan_line_text plan.now number host.now.cores (names_of host.now.vcpus) tasks.now) result }
{
    let (bad, line) = bad_line(plan, number);
    match bad {
        BadLine::Truncated => put_truncated(sink, number),
        BadLine::Trailing => put_trailing(sink, number, line),
        BadLine::Unwanted => put_unwanted(sink, number, line, host, tasks),
    }
}

// How the line of this number, from 1, of a plan text is wrong, and that line, or nothing where there is none.
fn bad_line(plan: &[u8], number: u32) -> (BadLine, &[u8])
    ensures bad { result.0 ≡ bad_line number plan.now }
    ensures line { result.1.now ≡ line_at number plan.now }
{
    if number <= 1 {
        return first_bad(&mut Lines::over(plan), false);
    }
    let mut lines = lines_after(plan, number - 2);
    let ended = is_end(first_of(&mut lines));
    first_bad(&mut lines, ended)
}

// How the first of these lines is wrong, before which the plan may have ended, and that line.
fn first_bad<'a>(lines: &mut Lines<'a>, ended: bool) -> (BadLine, &'a [u8])
    ensures bad { result.0 ≡ bad_after ended (slice_get lines.old 0) }
    ensures line { result.1.now ≡ slice_index_or lines.old 0 [] }
{
    match lines.next() {
        None => (BadLine::Truncated, b""),
        Some(line) if ended => (BadLine::Trailing, line),
        Some(line) => (BadLine::Unwanted, line),
    }
}

// Whether the line is the last one of a plan text.
fn is_end(line: &[u8]) -> bool
    ensures { result ≡ are_end (words_of line.now) }
{
    let mut words = Words::of(line);
    match words.next() {
        Some(word) => word == b"end".as_slice() && words.next().is_none(),
        None => false,
    }
}

fn put_truncated<K: Sink>(sink: &mut K, number: u32) -> Result<(), WriteFault>
    ensures { Writes (K.state sink.old) (K.state sink.new) (truncated_text number) result }
{
    put_parts(
        sink,
        &[
            Part::Text(b"tableau: the plan text stops before its line "),
            Part::Number(number),
            Part::Text(b"; a whole one ends with the line end\n"),
        ],
    )
}

fn put_trailing<K: Sink>(sink: &mut K, number: u32, line: &[u8]) -> Result<(), WriteFault>
    ensures { Writes (K.state sink.old) (K.state sink.new) (trailing_text number line.now) result }
{
    put_parts(
        sink,
        &[
            Part::Text(b"tableau: plan line "),
            Part::Number(number),
            Part::Text(b" is "),
            Part::Quoted(line),
            Part::Text(b", and nothing follows the line end\n"),
        ],
    )
}

// Writes which line is there, and the one that is wanted for the host.
fn put_unwanted<K: Sink>(
    sink: &mut K,
    number: u32,
    line: &[u8],
    host: &Host,
    tasks: &Tasks,
) -> Result<(), WriteFault>
    ensures { Writes (K.state sink.old) (K.state sink.new)
        (unwanted_text number line.now host.now.cores (names_of host.now.vcpus) tasks.now) result }
{
    if let Err(fault) = put_found(sink, number, line) {
        return Err(fault);
    }
    put_wanted(sink, number, host, tasks)
}

fn put_found<K: Sink>(sink: &mut K, number: u32, line: &[u8]) -> Result<(), WriteFault>
    ensures { Writes (K.state sink.old) (K.state sink.new) (found_line_text number line.now) result }
{
    put_parts(
        sink,
        &[
            Part::Text(b"tableau: plan line "),
            Part::Number(number),
            Part::Text(b" is "),
            Part::Quoted(line),
            Part::Text(plan_kind_text(
                kind_of_plan_line(line),
                b"; was the host changed since the plan was made?",
            )),
            Part::Text(b"\n"),
        ],
    )
}

// Writes the line that has to be there.
fn put_wanted<K: Sink>(
    sink: &mut K,
    number: u32,
    host: &Host,
    tasks: &Tasks,
) -> Result<(), WriteFault>
    ensures { Writes (K.state sink.old) (K.state sink.new)
        (wanted_line_text number host.now.cores (names_of host.now.vcpus) tasks.now) result }
{
    if number <= 1 {
        return put_head(sink, host.cores, count_admitted(tasks.items()));
    }
    put_behind_head(sink, host, tasks, number - 2)
}

// Writes the line that has to be so far after the first of the vCPUs.
fn put_behind_head<K: Sink>(
    sink: &mut K,
    host: &Host,
    tasks: &Tasks,
    behind: u32,
) -> Result<(), WriteFault>
    ensures { Writes (K.state sink.old) (K.state sink.new)
        (behind_head (names_of host.now.vcpus) (slice_get (admitted_from 0 tasks.now) behind)) result }
{
    match admitted_at(tasks.items(), behind) {
        Some((vcpu, task)) => put_vcpu(sink, name_in(host.vcpus.items(), &vcpu), &task),
        None => put_table_line(sink),
    }
}

fn put_table_line<K: Sink>(sink: &mut K) -> Result<(), WriteFault>
    ensures { Writes (K.state sink.old) (K.state sink.new) wanted_table_text result }
{
    write_all(
        sink,
        b"tableau: wanted is END NAME or END - of a segment, core C before the first of each core, or the last line end\n",
    )
}

fn put_head<K: Sink>(sink: &mut K, cores: u32, admitted: u32) -> Result<(), WriteFault>
    ensures { Writes (K.state sink.old) (K.state sink.new) (wanted_head_text cores admitted) result }
{
    put_parts(
        sink,
        &[
            Part::Text(b"tableau: wanted is plan cores "),
            Part::Number(cores),
            Part::Text(b" vcpus "),
            Part::Number(admitted),
            Part::Text(b"\n"),
        ],
    )
}

fn put_vcpu<K: Sink>(sink: &mut K, name: &[u8], task: &Periodic) -> Result<(), WriteFault>
    ensures { Writes (K.state sink.old) (K.state sink.new) (wanted_vcpu_text name.now task.now) result }
{
    put_parts(
        sink,
        &[
            Part::Text(b"tableau: wanted is vcpu "),
            Part::Text(name),
            Part::Text(b" period "),
            Part::Number(task.period),
            Part::Text(b" cost "),
            Part::Number(task.cost),
            Part::Text(b" home CORE\n"),
        ],
    )
}

// How many vCPUs have a budget.
fn count_admitted(tasks: &[Option<Periodic>]) -> u32
    requires { length tasks.now ≤ MAX_VCPUS }
    ensures { result ≡ length (admitted_from 0 tasks.now) }
{
    let mut count = 0;
    for task in tasks {
        count += u32::from(task.is_some());
    }
    count
}

// The number and the budget of the admitted vCPU after so many others.
fn admitted_at(tasks: &[Option<Periodic>], behind: u32) -> Option<(VcpuNo, Periodic)>
    requires { length tasks.now ≤ MAX_VCPUS }
    ensures { result ≡ slice_get (admitted_from 0 tasks.now) behind }
{
    let mut left = behind;
    for number in 0..tasks.len() {
        if let Some(task) = tasks[number] {
            if left == 0 {
                return Some((VcpuNo(number as u32), task));
            }
            left -= 1;
        }
    }
    None
}

// Writes the advice on an earlier plan's text whose line of this number is none.
pub(crate) fn put_old_line<K: Sink>(
    sink: &mut K,
    plan: &[u8],
    number: u32,
) -> Result<(), WriteFault>
    ensures { Writes (K.state sink.old) (K.state sink.new) (old_line_text plan.now number) result }
{
    let (bad, line) = bad_line(plan, number);
    match bad {
        BadLine::Truncated => put_truncated(sink, number),
        BadLine::Trailing => put_trailing(sink, number, line),
        BadLine::Unwanted => put_old_unwanted(sink, number, line),
    }
}

// Writes which line is there, and the form that is wanted.
fn put_old_unwanted<K: Sink>(sink: &mut K, number: u32, line: &[u8]) -> Result<(), WriteFault>
    ensures { Writes (K.state sink.old) (K.state sink.new) (old_unwanted_text number line.now) result }
{
    put_parts(
        sink,
        &[
            Part::Text(b"tableau: plan line "),
            Part::Number(number),
            Part::Text(b" is "),
            Part::Quoted(line),
            Part::Text(plan_kind_text(
                kind_of_plan_line(line),
                b", and no line of a plan text there",
            )),
            Part::Text(b"\ntableau: wanted "),
            Part::Text(old_wanted_text(number)),
            Part::Text(b"\n"),
        ],
    )
}

// What is wanted on this line of an earlier plan's text.
fn old_wanted_text(number: u32) -> &'static [u8]
    ensures { result.now ≡ old_wanted_text number }
{
    if number <= 1 {
        b"is plan cores CORES vcpus COUNT, the first line that tableau plan writes"
    } else {
        b"are lines vcpu NAME period TICKS cost TICKS home CORE, then for each core its line core C\ntableau: and END NAME or END - of its segments, and end as the last line"
    }
}

// Writes the advice on segments of a core that make no row.
pub(crate) fn put_shape<K: Sink>(sink: &mut K, core: CoreNo, place: u32) -> Result<(), WriteFault>
    ensures { Writes (K.state sink.old) (K.state sink.new) (shape_text core place) result }
{
    put_segment(sink, core.0, place)
}

fn put_segment<K: Sink>(sink: &mut K, core: u32, place: u32) -> Result<(), WriteFault>
    ensures { Writes (K.state sink.old) (K.state sink.new) (shape_text core place) result }
{
    put_parts(
        sink,
        &[
            Part::Text(b"tableau: in the row of core "),
            Part::Number(core),
            Part::Text(b", segment "),
            Part::Number(place),
            Part::Text(
                b" (from 0) has to end above the one before it, and at 102600 at most,\ntableau: where the last one ends\n",
            ),
        ],
    )
}

// Writes the advice on a vCPU that is on two cores at a tick.
pub(crate) fn put_twice<K: Sink>(
    sink: &mut K,
    tick: u32,
    core: CoreNo,
    other: CoreNo,
) -> Result<(), WriteFault>
    ensures { Writes (K.state sink.old) (K.state sink.new) (twice_text tick core other) result }
{
    put_cores(sink, tick, core.0, other.0)
}

fn put_cores<K: Sink>(sink: &mut K, tick: u32, core: u32, other: u32) -> Result<(), WriteFault>
    ensures { Writes (K.state sink.old) (K.state sink.new) (twice_text tick core other) result }
{
    put_parts(
        sink,
        &[
            Part::Text(b"tableau: a vCPU has one core at a time; take tick "),
            Part::Number(tick),
            Part::Text(b" from it on core "),
            Part::Number(core),
            Part::Text(b" or on core "),
            Part::Number(other),
            Part::Text(b"\n"),
        ],
    )
}

// Writes the advice on a vCPU that gets too little or too much in a period.
pub(crate) fn put_short<K: Sink>(
    sink: &mut K,
    period_no: u32,
    got: u32,
    cost: u32,
) -> Result<(), WriteFault>
    ensures { Writes (K.state sink.old) (K.state sink.new) (short_text period_no got cost) result }
{
    put_parts(
        sink,
        &[
            Part::Text(b"tableau: its segments have to sum to "),
            Part::Number(cost),
            Part::Text(b" ticks in each of its periods, and sum to "),
            Part::Number(got),
            Part::Text(b" in that of number "),
            Part::Number(period_no),
            Part::Text(b" (from 0)\n"),
        ],
    )
}

// Runs that the machine's own next steps lead to their end, as inputs of `replay`.
ghost use Rattle.std.specs.Prelude.{◌≡◌, ◌<◌, ◌≤◌, length};
ghost use Rattle.table_form.specs.Running.Courses.{FitsRounds};

use super::{SPLIT, call_with};
use core_workers::FreeGate;
use host_doc::read_host;
use plan_book::make_book;
use script_doc::{Step, read_script};
use std::alloc::Global;
use std::sync::Wait;
use std::test::Fail;
use std::thread::Threads;
use std::time::Clock;
use step_machine::World;
use tab_core::NoMemory;
use table_form::Course;

// More steps than any of these runs takes.
const TURNS: u32 = 200_000;

const ROOM: usize = 8_000_000;

// The machine's next steps until the run is whole. None where it takes more than `TURNS`.
fn steps_to_the_end(
    alloc: Global,
    course: &Course,
    rounds: u32,
) -> Result<Option<Vec<Step>>, NoMemory>
    requires { FitsRounds course.now rounds }
{
    let mut world = World::make(alloc, course, rounds, TURNS)?;
    let mut steps = Vec::new(alloc);
    for _turn in 0..TURNS {
        let Some(step) = world.next() else {
            return Ok(Some(steps));
        };
        let _answer = world.apply(copy_of(&step));
        steps.push(step)?;
    }
    Ok(None)
}

fn copy_of(step: &Step) -> Step
    ensures { result ≡ step.now }
{
    *step
}

// The input of a replay of these steps, and how many of them have a line in its text.
fn input_of(
    alloc: Global,
    host: &str,
    script: &str,
    steps: &[Step],
) -> Result<(String, usize), NoMemory> {
    let mut text = String::from_str(alloc, host)?;
    text.push_str("%%\n")?;
    text.push_str(script)?;
    text.push_str("%%\n")?;
    let mut lines = 0usize;
    for step in steps {
        let line = match step {
            Step::Post => String::from_str(alloc, "post\n")?,
            Step::See(core) => format!(in alloc; "see {}\n", core.0)?,
            Step::Decide(core) => format!(in alloc; "decide {}\n", core.0)?,
            Step::Run(core) => format!(in alloc; "run {}\n", core.0)?,
        };
        text.push_str(line.as_str())?;
        if matches!(step, Step::Decide(_) | Step::Run(_)) {
            lines = lines.saturating_add(1);
        }
    }
    Ok((text, lines))
}

// Whether a replay of the run to its end is done, has a line for each step that has one, and ends
// with this line.
fn ends_whole<R: Threads + Wait + Clock + Sync>(
    rt: &R,
    alloc: Global,
    host: &str,
    script: &str,
    rounds: u32,
    last: &str,
) -> Result<bool, Fail>
    requires some { 1 ≤ rounds }
    requires few { rounds ≤ 64 }
    requires short { length script.now < 1000 }
{
    let read = read_host(alloc, host.as_bytes())?;
    let events = read_script(alloc, script.as_bytes(), &read, rounds)?;
    let book = match make_book(alloc, &read, &events) {
        Ok(book) => book,
        Err(_) => return Err(Fail::from("no book")),
    };
    let Some(steps) = steps_to_the_end(alloc, book.course(), rounds)? else {
        return Err(Fail::from("too many steps"));
    };
    let (input, lines) = input_of(alloc, host, script, &steps)?;
    let words = format!(in alloc; "replay {rounds}")?;
    let called = call_with(
        rt,
        alloc,
        words.as_str(),
        input.as_str(),
        &[],
        ROOM,
        &FreeGate,
    )?;
    let text = called.sink.bytes();
    let found = text.iter().filter(|byte| **byte == b'\n').count();
    Ok(called.exit == 0 && found == lines.saturating_add(1) && text.ends_with(last.as_bytes()))
}

// Blocks, changes of which one is refused, and wakes up to the run's end.
const BUSY: &str = "0 block b
10000 block a
20000 change set b 300000 100000000
50000 wake a
102600 change leave c
150000 block b
160000 change set c 900000 100000000 set a 900000 100000000 set b 900000 100000000
160000 wake c
205199 wake b
";

// Three cores that are at most 7 ticks apart, with tables of short slots.
const CLOSE: &str = "cores = 3
lag = 7
quantum = 5
sliver = 0
[[vcpu]]
name = \"a\"
share_ppm = 100000
latency_ns = 180180
[[vcpu]]
name = \"b\"
share_ppm = 900000
latency_ns = 102702600
[[vcpu]]
name = \"c\"
share_ppm = 500000
latency_ns = 5000000
[[vcpu]]
name = \"x\"
admitted = false
";

const FEW: &str = "7 block b\n8 wake x\n99999 change leave c\n102599 wake b\n";

// A host, a script, rounds, and the last line.
const RUNS: [(&str, &str, u32, &str); 5] = [
    (SPLIT, "", 1, "posted 0\n"),
    (SPLIT, BUSY, 2, "posted 9\n"),
    (SPLIT, BUSY, 3, "posted 9\n"),
    (CLOSE, "", 1, "posted 0\n"),
    (CLOSE, FEW, 1, "posted 4\n"),
];

#[test]
fn runs_end_whole(rt: HostRuntime) -> Result<(), Fail> {
    for (host, script, rounds, last) in RUNS {
        assert!(rt;
            ends_whole(&rt, rt.alloc(), host, script, rounds, last)?,
            "of {script}"
        );
    }
    Ok(())
}

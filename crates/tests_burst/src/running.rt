//! Runs of a scene by threads, and what they show.
ghost use Rattle.std.specs.Prelude.{◌≡◌, ◌≤◌, length};
ghost use Rattle.tab_core.specs.declared.TheConstants.{MAX_ROUNDS};
ghost use Rattle.table_form.specs.Running.State.{State};
ghost use Rattle.burst_bound.specs.KeptRuns.{IsKeptRun};

use crate::scenes::Scene;
use burst_bound::{BurstAnswer, BurstReport, bound_of};
use core_workers::{Crew, Gate};
use round_words::RoundBoard;
use run_course::{TRACE_LIMIT, run_course};
use run_limit::stint_bound;
use script_doc::{Act, Script};
use std::alloc::Global;
use std::test::Fail;
use std::thread::Threads;
use std::time::Clock;
use tab_core::{CoreNo, NoMemory, Stint};
use tab_words::RunMode;
use table_form::Course;

// How many bursts of a run are asked about by themselves.
const ALONE: usize = 6;

// What a run shows: the used count of each round, the stints of each core, what is reported of each burst, and
// what is answered of the first ones by themselves.
#[derive(Drop)]
pub(crate) struct Shown {
    pub(crate) used: Vec<u32>,
    pub(crate) stints: Vec<Vec<Stint>>,
    pub(crate) answers: Vec<BurstAnswer>,
    pub(crate) alone: Vec<BurstAnswer>,
}

// What `bound_of` answers of the first bursts of the script.
fn answers_alone(
    alloc: Global,
    course: &Course,
    rounds: u32,
    script: &Script,
    crew: &Crew<'_>,
) -> Result<Vec<BurstAnswer>, NoMemory>
    requires few { rounds ≤ MAX_ROUNDS }
    requires events { length script.now ≡ length course.now.ticks }
    requires kept { (s : State) × IsKeptRun course.now rounds crew.now s }
{
    let mut answers = Vec::new(alloc);
    for (number, event) in script.events().iter().enumerate() {
        if let Act::Burst { vcpu, work } = &event.act {
            if *work >= 1 && answers.len() < ALONE {
                answers.push(bound_of(course, rounds, number as u32, *vcpu, *work, crew))?;
            }
        }
    }
    Ok(answers)
}

fn shown_of(
    alloc: Global,
    crew: &Crew<'_>,
    answers: &[BurstAnswer],
    alone: Vec<BurstAnswer>,
) -> Result<Shown, NoMemory> {
    let mut stints = Vec::new(alloc);
    let mut used = Vec::new(alloc);
    for core in 0..crew.course().cores() {
        let state = crew.actor(CoreNo(core));
        stints.push(Vec::from_slice(alloc, state.stints())?)?;
        used = Vec::from_slice(alloc, state.used())?;
    }
    Ok(Shown {
        used,
        stints,
        answers: Vec::from_slice(alloc, answers)?,
        alone,
    })
}

// A run of a scene, whose bursts are reported.
pub(crate) fn run_scene<R: Threads + Clock + Sync, G: Gate>(
    rt: &R,
    alloc: Global,
    scene: &Scene,
    gate: &G,
) -> Result<Shown, Fail> {
    let rounds = scene.rounds;
    let course = scene.book.course();
    let stints = stint_bound(course, rounds).min(TRACE_LIMIT);
    let events = scene.script.events().len();
    let mut report = BurstReport::room(alloc, rounds, stints as u32, events as u32)?;
    let (board, seat) = RoundBoard::make(alloc)?;
    let mode = RunMode::Burst;
    match run_course(rt, alloc, course, rounds, mode, &board, seat, gate) {
        Ok((_, ran)) => {
            report.fill(course, rounds, &scene.script, ran.crew());
            let alone = answers_alone(alloc, course, rounds, &scene.script, ran.crew())?;
            Ok(shown_of(alloc, ran.crew(), report.answers(), alone)?)
        }
        Err(_) => Err(Fail::from("no run")),
    }
}

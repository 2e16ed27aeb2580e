//! Runs of a course, and what they show.
ghost use Rattle.std.specs.Prelude.{◌<◌};
ghost use Rattle.table_form.specs.Running.Courses.{FitsRounds};

use core_workers::{Crew, Gate, drive, run_all};
use round_words::RoundBoard;
use run_counts::CoreAccount;
use std::alloc::Global;
use std::test::Fail;
use std::thread::Threads;
use std::time::Clock;
use tab_core::{CoreNo, NoMemory, ROUND, Stint};
use table_form::Course;

// What a run shows of each core: the used count of each round, the stints, and in how many ticks it ran whom.
#[derive(Drop)]
pub(crate) struct Shown {
    pub(crate) used: Vec<Vec<u32>>,
    pub(crate) stints: Vec<Vec<Stint>>,
    pub(crate) accounts: Vec<CoreAccount>,
}

fn shown_of(alloc: Global, crew: &Crew<'_>) -> Result<Shown, NoMemory> {
    let mut used = Vec::new(alloc);
    let mut stints = Vec::new(alloc);
    let mut accounts = Vec::new(alloc);
    for core in 0..crew.course().cores() {
        let state = crew.actor(CoreNo(core));
        used.push(Vec::from_slice(alloc, state.used())?)?;
        stints.push(Vec::from_slice(alloc, state.stints())?)?;
        let CoreAccount {
            slots,
            shared,
            idle,
        } = *state.account();
        accounts.push(CoreAccount {
            slots,
            shared,
            idle,
        })?;
    }
    Ok(Shown {
        used,
        stints,
        accounts,
    })
}

// A run of so many rounds, by threads or by turns in this one. All stints are kept, since each has a tick.
pub(crate) fn run_course<R: Threads + Clock + Sync, G: Gate>(
    rt: &R,
    alloc: Global,
    course: &Course,
    rounds: u32,
    threads: bool,
    gate: &G,
) -> Result<Shown, Fail>
    requires { FitsRounds course.now rounds }
{
    let keep = [rounds.saturating_mul(ROUND); 32];
    let cores = course.cores();
    let mut crew = Crew::make(alloc, course, rounds, &keep[..cores as usize])?;
    let (board, mut seat) = RoundBoard::make(alloc)?;
    board.start(&mut seat, course.lag(), cores, course.count());
    if threads {
        (_, crew) = run_all(rt, &board, seat, crew, gate);
    } else {
        drive(&board, &mut seat, &mut crew, gate);
    }
    Ok(shown_of(alloc, &crew)?)
}

ghost use Rattle.std.specs.Prelude.{◌≡◌, ◌<◌, ◌≤◌, [], ℕ, IfOk, length, slice_index, vec_capacity};
ghost use Rattle.tab_core.specs.declared.TheConstants.{MAX_ROUNDS};
ghost use Rattle.table_form.specs.Running.State.{State as StateValue};
ghost use Rattle.burst_bound.specs.Answers.{IsBurstAnswer};
ghost use Rattle.burst_bound.specs.Inside.Bounding.{AreReady, AreSince};
ghost use Rattle.burst_bound.specs.Inside.Runs.{AreRuns};
ghost use Rattle.burst_bound.specs.Inside.Seeing.{IsSeenBelow};
ghost use Rattle.burst_bound.specs.KeptRuns.{IsKeptRun};
ghost use Rattle.burst_bound.specs.Reports.{AreBurstAnswers, HasRoomFor};
ghost use Rattle.burst_bound.specs.ScriptBursts.{bursts_of};

use crate::ahead::{Ahead, Burst, bound_ahead};
use crate::answer::BurstAnswer;
use crate::ran::done_in;
use crate::runs::Runs;
use crate::sights::fill_sights;
use core_workers::Crew;
use script_doc::{Act, Script};
use std::alloc::Global;
use std::marker::Model;
use tab_core::{CoreNo, NoMemory, ROUND, VcpuNo};
use table_form::Course;

/// What is reported of all bursts of a run. All its memory is taken as it is made.
///
/// No burst walks all stints: when each event is seen is found once for all of them, and what each vCPU ran is
/// put in order once, and found by bisection. Contracts see
/// the answers, and for how many rounds, stints and events there is room.
#[derive(Drop)]
pub struct BurstReport {
    runs: Runs,
    ahead: Ahead,
    sights: Vec<u32>,
    answers: Vec<BurstAnswer>,
    rounds: u32,
    stints: u32,
    events: u32,
}

impl Model for BurstReport {
    ghost use Rattle.std.specs.Prelude.{◌≡◌, ◌≤◌, length, vec_capacity};
    ghost use Rattle.tab_core.specs.declared.TheConstants.{MAX_VCPUS};
    ghost use Rattle.burst_bound.specs.Reports.{BurstReportView, burst_report_view};

    ghost Value = { BurstReportView };

    ghost view = { λ r. burst_report_view r.answers.items r.rounds r.stints r.events };

    ghost invariant = { λ r. (r.stints ≤ vec_capacity r.runs.pieces) × (r.stints ≤ vec_capacity r.runs.before)
        × (r.rounds ≤ vec_capacity r.ahead.since) × (length r.ahead.ready.items ≡ MAX_VCPUS)
        × (r.events ≤ vec_capacity r.answers) × (length r.sights.items ≡ r.events) };
}

impl BurstReport {
    /// A report without answers, with room for a run of so many rounds, stints and events.
    ///
    /// Fails only when memory runs out.
    pub fn room(
        alloc: Global,
        rounds: u32,
        stints: u32,
        events: u32,
    ) -> Result<BurstReport, NoMemory>
        ensures empty { IfOk result (λ report. report.answers ≡ []) }
        ensures room { IfOk result (λ report. (report.rounds ≡ rounds) × (report.stints ≡ stints)
            × (report.events ≡ events)) }
    {
        Ok(BurstReport {
            runs: Runs::room(alloc, stints)?,
            ahead: Ahead::room(alloc, rounds)?,
            sights: vec![in alloc; 0; events as usize]?,
            answers: Vec::with_capacity(alloc, events as usize)?,
            rounds,
            stints,
            events,
        })
    }

    /// Tells of each burst of the script in a whole run that the crew keeps, as `bound_of` does.
    ///
    /// The course is that of the script. Takes no memory.
    pub fn fill(&mut self, course: &Course, rounds: u32, script: &Script, crew: &Crew<'_>)
        requires few { rounds ≤ MAX_ROUNDS }
        requires events { length script.now ≡ length course.now.ticks }
        requires kept { (s : StateValue) × IsKeptRun course.now rounds crew.now s
            × HasRoomFor rounds s script.now self.old }
        ensures answers { (s : StateValue) → IsKeptRun course.now rounds crew.now s
            → AreBurstAnswers course.now rounds s script.now self.new.answers }
        ensures room { (self.new.rounds ≡ self.old.rounds) × (self.new.stints ≡ self.old.stints)
            × (self.new.events ≡ self.old.events) }
    {
        course.count();
        let used = crew.actor(CoreNo(0)).used();
        self.runs.fill(course, rounds, crew);
        self.ahead.fill(course, used);
        fill_sights(course, rounds, crew, &mut self.sights);
        let known = Known {
            runs: &self.runs,
            ahead: &self.ahead,
            sights: &self.sights,
        };
        answer_all(course, rounds, script, crew, &known, &mut self.answers);
    }

    /// What is reported of each burst, in the order of the script.
    pub fn answers(&self) -> &[BurstAnswer]
        ensures { result.now ≡ self.now.answers }
    {
        &self.answers
    }
}

/// How many bursts the script has.
pub fn burst_count(script: &Script) -> u32
    ensures { result ≡ length (bursts_of script.now) }
{
    let events = script.events();
    let mut count = 0;
    for i in 0..events.len() {
        let event = &events[i];
        if let Act::Burst { .. } = &event.act {
            count += 1;
        }
    }
    count
}

// What the bursts of a run are answered by: what each vCPU ran, what the used counts say, and for each event a tick from which
// on all cores have seen it.
#[derive(Clone, Copy)]
struct Known<'a> {
    runs: &'a Runs,
    ahead: &'a Ahead,
    sights: &'a [u32],
}

// What is reported of each burst of the script.
fn answer_all(
    course: &Course,
    rounds: u32,
    script: &Script,
    crew: &Crew<'_>,
    known: &Known<'_>,
    answers: &mut Vec<BurstAnswer>,
)
    requires few { rounds ≤ MAX_ROUNDS }
    requires events { length script.now ≡ length course.now.ticks }
    requires kept { (s : StateValue) × IsKeptRun course.now rounds crew.now s
        × AreRuns rounds s known.now.runs.now.pieces.items known.now.runs.now.before.items
        × AreSince course.now s.decided known.now.ahead.now.since.items }
    requires ready { AreReady course.now known.now.ahead.now.ready.items }
    requires size { length course.now.ticks ≤ length known.now.sights.now }
    requires sights { (s : StateValue) (event : ℕ) → IsKeptRun course.now rounds crew.now s
        → event < length course.now.ticks
        → IsSeenBelow s course.now.cores event (slice_index known.now.sights.now event) }
    requires room { length (bursts_of script.now) ≤ vec_capacity answers.old }
    ensures answers { (s : StateValue) → IsKeptRun course.now rounds crew.now s
        → AreRuns rounds s known.now.runs.now.pieces.items known.now.runs.now.before.items
        → AreBurstAnswers course.now rounds s script.now answers.new.items }
    ensures room { vec_capacity answers.new ≡ vec_capacity answers.old }
{
    answers.clear();
    let events = script.events();
    for i in 0..events.len() {
        let event = &events[i];
        if let Act::Burst { vcpu, work } = &event.act {
            let burst = Burst {
                event: i as u32,
                vcpu: *vcpu,
                work: *work,
            };
            let answer = answer_of(course, rounds, crew, known, known.sights[i], burst);
            answers.push_reserved(answer);
        }
    }
}

// What is reported of the burst that this event is, which all cores have seen from the tick `latest`
// on.
fn answer_of(
    course: &Course,
    rounds: u32,
    crew: &Crew<'_>,
    known: &Known<'_>,
    latest: u32,
    burst: Burst,
) -> BurstAnswer
    requires few { rounds ≤ MAX_ROUNDS }
    requires event { burst.event < length course.now.ticks }
    requires latest { (s : StateValue) → IsKeptRun course.now rounds crew.now s
        → IsSeenBelow s course.now.cores burst.event latest }
    requires kept { (s : StateValue) × IsKeptRun course.now rounds crew.now s
        × AreRuns rounds s known.now.runs.now.pieces.items known.now.runs.now.before.items
        × AreSince course.now s.decided known.now.ahead.now.since.items }
    requires ready { AreReady course.now known.now.ahead.now.ready.items }
    ensures { (s : StateValue) → IsKeptRun course.now rounds crew.now s
        → AreRuns rounds s known.now.runs.now.pieces.items known.now.runs.now.before.items
        → IsBurstAnswer course.now rounds s burst.event burst.vcpu burst.work result }
{
    if u64::from(latest) >= u64::from(rounds) * u64::from(ROUND) {
        return BurstAnswer {
            seen: None,
            bound: None,
            done: None,
        };
    }
    course.count();
    let used = crew.actor(CoreNo(0)).used();
    let Burst { vcpu, work, .. } = burst;
    let bound = bound_ahead(
        course,
        rounds,
        used,
        &known.ahead.since,
        &known.ahead.ready,
        burst,
        latest,
    );
    let done = done_in(
        &known.runs.pieces,
        &known.runs.before,
        vcpu.index() as u32,
        work,
        latest,
    );
    BurstAnswer {
        seen: Some(latest),
        bound,
        done,
    }
}

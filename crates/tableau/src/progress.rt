//! How far a long run is, and at its end who made it.
use core_workers::Gate;
use std::sync::atomic::Ordering::SeqCst;
use std::sync::atomic::{AtomicU32, AtomicU64};
use std::time::{Clock, Instant};
use tab_core::{MAX_CORES, ROUND};
use tab_io::{Put, Sink};
use tab_words::{Command, read_words};

// A thread looks at the clock once in so many steps of an actor.
const STRIDE: u64 = 4096;

// The least time between two tellings, and before the first, in milliseconds.
const PAUSE: u64 = 1000;

// The rounds of a self test.
const TEST_ROUNDS: u32 = 4;

// What covers the line, which is shorter, and begins it again.
const CLEARED: &[u8] = b"\r                                                  \r";

// What so many threads made of a run, 0 where there is no such part: in ticks of all cores together.
#[derive(Drop)]
struct Part {
    threads: AtomicU32,
    ticks: AtomicU64,
}

impl Part {
    // A part that hasn't begun.
    fn none() -> Part {
        Part {
            threads: AtomicU32::new(0),
            ticks: AtomicU64::new(0),
        }
    }
}

/// A gate that lets everybody pass, and writes the furthest round in which it saw a core, once a second at most and on
/// one line. At the end of the run it writes whose threads made which part of it.
#[derive(Drop)]
pub(crate) struct ProgressGate<C: Clock, P: Print> {
    clock: C,
    output: P,
    // Where there is none, nothing is written.
    begin: Option<Instant>,
    // How many rounds the run has.
    rounds: u32,
    // The latest clock of a core that was written, in ticks: cores aren't at one tick.
    latest: AtomicU64,
    // The milliseconds from the begin to the last telling, 0 where there is none.
    told: AtomicU64,
    // That of the workers, and then one for each smaller number of threads that made a phase: of 32 cores there are six at most.
    parts: [Part; 8],
    // Which of them makes the present phase, and how far all cores were together when it began, in ticks.
    present: AtomicU32,
    from: AtomicU64,
}

impl<C: Clock, P: Print> ProgressGate<C, P> {
    /// A gate that tells this output of a run by these words from now on, or tells nothing.
    pub(crate) fn new(clock: C, output: P, tells: bool, words: &[String]) -> ProgressGate<C, P> {
        let rounds = rounds_of(words);
        let begin = if tells && rounds > 0 {
            Instant::now(&clock).ok()
        } else {
            None
        };
        ProgressGate {
            clock,
            output,
            begin,
            rounds,
            latest: AtomicU64::new(0),
            told: AtomicU64::new(0),
            parts: [
                Part::none(),
                Part::none(),
                Part::none(),
                Part::none(),
                Part::none(),
                Part::none(),
                Part::none(),
                Part::none(),
            ],
            present: AtomicU32::new(0),
            from: AtomicU64::new(0),
        }
    }

    /// Clears the line, if anything was written, once no actor steps any more.
    pub(crate) fn clear(&self) {
        if self.told.swap(0, SeqCst) != 0 {
            // (a line that can't be cleared stays)
            let _ = self.output.write_all(CLEARED);
        }
    }

    /// Writes whose threads made a run that has ended, on a line of its own, or nothing where no run began.
    pub(crate) fn tell_threads(&self) {
        let workers = self.parts[0].threads.load(SeqCst).saturating_sub(1);
        if self.begin.is_none() || workers == 0 {
            return;
        }
        let whole = u64::from(workers)
            .saturating_mul(u64::from(self.rounds))
            .saturating_mul(u64::from(ROUND));
        self.end_part(whole);
        // (what can't be written is left out)
        let _ = if self.parts[0].ticks.load(SeqCst) >= whole {
            self.tell_workers(workers)
        } else {
            self.tell_parts(whole);
            self.output.write_all(b"\n")
        };
    }

    // Writes that workers made the whole run.
    fn tell_workers(&self, workers: u32) -> Result<(), std::io::Error> {
        if workers == 1 {
            return self.output.write_all(
                b"tableau: 1 worker, of the one core, went on to the end\n",
            );
        }
        self.output.print(format_args!(
            "tableau: {workers} workers, one for each core, went on to the end\n"
        ))
    }

    // Writes how many percent of all ticks each part has, where it has one. No worker is in the controller's thread.
    fn tell_parts(&self, whole: u64) {
        let (mut who, mut others) = ("worker", 1u32);
        let (mut ticks, mut told) = (0u64, 0u64);
        for part in &self.parts {
            let threads = part.threads.load(SeqCst);
            ticks = ticks.saturating_add(part.ticks.load(SeqCst)).min(whole);
            let upto = ticks.saturating_mul(100) / whole.max(1);
            if threads > 0 && upto > told {
                let percent = upto - told;
                let count = threads.saturating_sub(others);
                let many = if count == 1 { "" } else { "s" };
                let _ = if told > 0 {
                    self.output
                        .print(format_args!(", {count} {who}{many} {percent} %"))
                } else {
                    self.output.print(format_args!(
                        "tableau: {count} {who}{many} did {percent} % of the run"
                    ))
                };
                told = upto;
            }
            (who, others) = ("thread", 0);
        }
    }

    // The present phase has ended, with all cores so far together.
    fn end_part(&self, ticks: u64) {
        let made = ticks.saturating_sub(self.from.swap(ticks, SeqCst));
        if let Some(part) = self.parts.get(self.present.load(SeqCst) as usize) {
            part.ticks.fetch_add(made, SeqCst);
        }
    }

    // Looks at the clock, where the actor is a core, which is at this tick. It is a function of its own, so that what
    // each step calls is short.
    #[cold]
    #[inline(never)]
    fn look(&self, actor: u32, place: u32) {
        if actor >= MAX_CORES {
            return;
        }
        if let Some(begin) = self.begin {
            self.tell(begin, place);
        }
    }

    // Tells the round, where that is due, once a core was seen at this clock. Of several threads one tells it.
    fn tell(&self, begin: Instant, clock: u32) {
        let Ok(elapsed) = begin.elapsed(&self.clock) else {
            return;
        };
        let now = u64::try_from(elapsed.as_millis()).unwrap_or(u64::MAX);
        let last = self.told.load(SeqCst);
        if now.saturating_sub(last) < PAUSE {
            return;
        }
        if self
            .told
            .compare_exchange(last, now, SeqCst, SeqCst)
            .is_ok()
        {
            let ticks = self
                .latest
                .fetch_max(u64::from(clock), SeqCst)
                .max(u64::from(clock));
            let (rounds, round) = (u64::from(self.rounds), u64::from(ROUND));
            let percent = ticks.saturating_mul(100) / (rounds * round).max(1);
            // (what can't be written is left out)
            let _ = self.output.print(format_args!(
                "\rround {} of {rounds}, {percent} %",
                (ticks / round).saturating_add(1).min(rounds)
            ));
        }
    }
}

impl<C: Clock + Sync, P: Print + Sync> Gate for ProgressGate<C, P> {
    #[inline(always)]
    fn pass(&self, _actor: u32, _step: u64) {}

    #[inline(always)]
    fn reached(&self, actor: u32, step: u64, place: u32) {
        // (the sum is what a player counts its steps up to next, so this costs a step one test)
        if step.wrapping_add(1) % STRIDE == 0 {
            self.look(actor, place);
        }
    }

    fn dealt(&self, threads: u32, ticks: u64) {
        self.end_part(ticks);
        let mut place = 0u32;
        for part in &self.parts {
            let there = part.threads.load(SeqCst);
            if there == 0 || there == threads {
                part.threads.store(threads, SeqCst);
                self.present.store(place, SeqCst);
                return;
            }
            place = place.wrapping_add(1);
        }
    }
}

// How many rounds a run by these words has, or 0 where they make none.
fn rounds_of(words: &[String]) -> u32 {
    match read_words(words) {
        Ok(Command::Run { rounds, mode: _ }) => rounds,
        Ok(Command::Selftest { seed: _ }) => TEST_ROUNDS,
        _ => 0,
    }
}

/// A sink over another, which clears the line of the progress before it takes bytes.
#[derive(Drop)]
pub(crate) struct ClearedSink<'a, K: Sink + Drop, C: Clock, P: Print> {
    pub(crate) inner: K,
    pub(crate) gate: &'a ProgressGate<C, P>,
}

impl<'a, K: Sink + Drop, C: Clock, P: Print> Sink for ClearedSink<'a, K, C, P> {
    ghost state = { λ sink. K.state sink.inner };

    fn write(&mut self, piece: &[u8]) -> Put {
        self.gate.clear();
        self.inner.write(piece)
    }

    fn finish(&mut self) -> Put {
        self.inner.finish()
    }
}

use std::sync::atomic::Ordering::SeqCst;
use std::sync::atomic::{AtomicBool, AtomicU32};
use std::time::Duration;

// A core's own worker with a processor of its own may wait for this part of its work, and for so many microseconds whatever its
// work: there a long wait is one for a thread that another program keeps from its processor.
const PART: u32 = 2;

const FREE: u64 = 20_000;

// A phase that took so many times its time was late. On an idle machine 33 threads take less than twice theirs.
const LATE: u32 = 4;

/// What the threads of one phase share, beside the board: how many of them have come and how many are done, and whether one of
/// them has ended it, so that the others don't wait for its actors.
///
/// Nothing is claimed of it. A run's answer is the same whatever the threads read here.
#[derive(Drop)]
pub(crate) struct Phase<'a> {
    threads: u32,
    // Whether each core has a worker of its own.
    own: bool,
    processors: u32,
    // How long it may take where time ends it.
    allowed: Duration,
    come: AtomicU32,
    done: AtomicU32,
    over: AtomicBool,
    ready: &'a AtomicBool,
}

impl<'a> Phase<'a> {
    /// A phase of so many threads, to which none has come, on so many processors. `own` says whether each core has one of them;
    /// `ready` says whether time counts yet.
    pub(crate) fn of(
        threads: u32,
        own: bool,
        processors: u32,
        allowed: Duration,
        ready: &'a AtomicBool,
    ) -> Self {
        Phase {
            threads,
            own,
            processors,
            allowed,
            come: AtomicU32::new(0),
            done: AtomicU32::new(0),
            over: AtomicBool::new(false),
            ready,
        }
    }

    /// How many threads make it.
    pub(crate) fn threads(&self) -> u32 {
        self.threads
    }

    /// Whether it took several times as long as it may until all seats had met: then its threads waited for processors that
    /// other programs had.
    pub(crate) fn is_late(&self, spent: Duration) -> bool {
        spent > self.allowed.saturating_mul(LATE)
    }

    /// Whether one thread makes it.
    pub(crate) fn is_alone(&self) -> bool {
        self.threads <= 1
    }

    /// Another thread has come.
    pub(crate) fn come(&self) {
        self.come.fetch_add(1, SeqCst);
    }

    /// Whether all threads have come.
    pub(crate) fn has_all(&self) -> bool {
        self.come.load(SeqCst) >= self.threads
    }

    /// A thread has nothing left to do.
    pub(crate) fn done(&self) {
        self.done.fetch_add(1, SeqCst);
    }

    /// Whether a thread goes on that has been in the phase for so long, and has waited for so long of it. Where each core's worker
    /// has a processor of its own, and the controller another, only waiting counts: there workers go on to the end. Elsewhere a
    /// phase ends when its time is over, so that its pace is compared.
    pub(crate) fn allows(&self, spent: Duration, waited: Duration) -> bool {
        let left = self.threads.saturating_sub(self.done.load(SeqCst));
        if !self.own || left > self.processors {
            return spent <= self.allowed;
        }
        let worked = spent.saturating_sub(waited);
        let part = worked.checked_div(PART).unwrap_or(Duration::ZERO);
        waited <= Duration::from_micros(FREE).saturating_add(part)
    }

    /// Whether time counts: where plans are made beside the run, only once all of them are made.
    pub(crate) fn is_ready(&self) -> bool {
        self.ready.load(SeqCst)
    }

    /// Whether a thread has ended the phase.
    pub(crate) fn is_over(&self) -> bool {
        self.over.load(SeqCst)
    }

    /// A thread ends the phase.
    pub(crate) fn end(&self) {
        self.over.store(true, SeqCst);
    }
}

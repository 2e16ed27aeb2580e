ghost use Rattle.std.specs.Prelude.{◌≡◌, ℕ, ◌+◌, ◌<◌, ◌≤◌, ◌^◌, All, length, map};
ghost use Rattle.std.specs.Option.{ForSome};

use crate::clashes::Clashes;
use crate::counts::counted_if;
use crate::report::LineCount;
use crate::tracker::Tracker;
use host_trace::Mark;
use std::alloc::AllocError;

// What is kept of a trace.
#[derive(Drop)]
pub(crate) struct Judge {
    // the latest time
    pub(crate) end_ns: u64,
    // the number of the last line
    pub(crate) line: u64,
    pub(crate) trackers: Vec<Tracker>,
    pub(crate) falls: LineCount,
    pub(crate) unknown: LineCount,
    pub(crate) clashes: Clashes,
    ghost past: { All (λ tracker. tracker.since_ns ≤ end_ns) trackers.items },
    ghost few_falls: { falls.count ≤ line },
    ghost few_unknown: { unknown.count ≤ line },
    ghost few_shared: { clashes.shared.count ≤ line },
    ghost few_doubled: { clashes.doubled.count ≤ line },
    ghost alike: { length clashes.cpus.items ≡ length trackers.items },
}

impl Judge {
    ghost use Rattle.std.specs.Prelude.{◌≡◌, ℕ, ◌<◌, ◌≤◌, [], ◌∷◌, ◌++◌, List, OnOk, length, map};
    ghost use Rattle.std.specs.Option.{ForSome};
    ghost use Rattle.host_trace.specs.declared.mark.Mark.{Mark};
    ghost use Rattle.host_judge.specs.Inside.Judged.{HasJudged, terms_of};

    // Takes the mark of the next line that says something.
    pub(crate) fn take(&mut self, mark: &Mark) -> Result<(), AllocError>
        requires later { self.old.line < mark.now.line }
        requires known { ForSome mark.now.vcpu (λ vcpu. vcpu < length self.old.trackers.items) }
        ensures line { self.new.line ≡ mark.now.line }
        ensures terms { map terms_of self.new.trackers.items ≡ map terms_of self.old.trackers.items }
        ensures judged { OnOk result ((marks : List Mark) → HasJudged marks self.old
            → HasJudged (marks ++ mark.now ∷ []) self.new) }
    {
        let fell = mark.time_ns < self.end_ns;
        self.falls = counted_if(&self.falls, fell, mark.line);
        self.unknown = counted_if(&self.unknown, mark.vcpu.is_none(), mark.line);
        self.end_ns = self.end_ns.max(mark.time_ns);
        self.line = mark.line;
        let Some(vcpu) = mark.vcpu else {
            return Ok(());
        };
        self.clashes.take(vcpu.index(), mark);
        let risen = Mark {
            line: mark.line,
            time_ns: self.end_ns,
            vcpu: mark.vcpu,
            state: mark.state,
            cpu: mark.cpu,
        };
        let tracker = &mut self.trackers[vcpu.index()];
        tracker.take(&risen)
    }
}

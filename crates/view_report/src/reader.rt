ghost use Rattle.std.specs.Prelude.{◌≡◌, IfOk, IsTrue, OnOk, false, nat_lt, true};
ghost use Rattle.view_report.specs.Reports.{HasSaid, is_up_to, may_be_next, no_line_yet, with_line};

use crate::report::RunReport;
use crate::said::{ReportedChange, Said};
use std::alloc::{AllocError, Global};
use std::marker::Model;
use tab_core::NoMemory;

// What was read so far, and how far it goes.
#[derive(Drop)]
pub(crate) struct Reader<'a> {
    place: u32,
    counted: u32,
    report: RunReport<'a>,
}

impl<'a> Model for Reader<'a> {
    ghost use Rattle.view_report.specs.Reports.{ReportSoFar};

    ghost Value = { ReportSoFar };

    ghost view = { λ reader. record {
      place = reader.place;
      counted = reader.counted;
      rounds = reader.report.rounds;
      events = reader.report.events;
      changes = reader.report.changes.items;
      plans = reader.report.plans.items;
      vcpus = reader.report.vcpus.items;
      cores = reader.report.cores.items;
    } };
}

impl<'a> Reader<'a> {
    // Before the first line.
    pub(crate) fn begin(alloc: Global) -> Reader<'a>
        ensures { result ≡ no_line_yet }
    {
        Reader {
            place: 0,
            counted: 0,
            report: RunReport {
                rounds: 0,
                events: 0,
                changes: Vec::new(alloc),
                plans: Vec::new(alloc),
                vcpus: Vec::new(alloc),
                cores: Vec::new(alloc),
            },
        }
    }

    // Whether the first line was read.
    pub(crate) fn has_begun(&self) -> bool
        ensures { result ≡ nat_lt 0 self.now.place }
    {
        0 < self.place
    }

    // Whether the last line was read.
    pub(crate) fn has_ended(&self) -> bool
        ensures ended { result ≡ true → self.now.place ≡ 5 }
        ensures open { result ≡ false → self.now.place ≡ 5 → ⊥ }
    {
        self.place == 5
    }

    // The report that was read.
    pub(crate) fn into_report(self) -> RunReport<'a>
        ensures { HasSaid self.entry result }
    {
        self.report
    }

    // Takes what a line says, if it may be next.
    pub(crate) fn take(&mut self, said: &Said<'a>) -> Result<bool, NoMemory>
        ensures taken { IfOk result (λ taken. IsTrue taken → may_be_next self.old said.now ≡ true) }
        ensures more { IfOk result (λ taken. IsTrue taken → self.new ≡ with_line self.old said.now) }
        ensures refused { IfOk result (λ taken. taken ≡ false → may_be_next self.old said.now ≡ false) }
    {
        if !self.may_be_next(said) {
            return Ok(false);
        }
        self.put(said)?;
        Ok(true)
    }

    fn may_be_next(&self, said: &Said<'a>) -> bool
        ensures { result ≡ may_be_next self.now said.now }
    {
        match *said {
            Said::Begun { .. } => self.place == 0,
            Said::Changed { number, .. } => {
                self.is_up_to(1) && number as usize == self.report.changes.len()
            }
            Said::Planned(_) => self.is_up_to(2),
            Said::Vcpu(_) => self.is_up_to(3),
            Said::Core { number, .. } => {
                self.is_up_to(4) && number as usize == self.report.cores.len()
            }
            Said::Done => self.is_up_to(4) && self.report.cores.len() == self.counted as usize,
        }
    }

    // Whether the report has begun, and goes to no later place than this.
    fn is_up_to(&self, place: u32) -> bool
        ensures { result ≡ is_up_to place self.now }
    {
        0 < self.place && self.place <= place
    }

    // Puts what a line says to the rest.
    fn put(&mut self, said: &Said<'a>) -> Result<(), NoMemory>
        ensures { OnOk result (self.new ≡ with_line self.old said.now) }
    {
        match *said {
            Said::Begun {
                rounds,
                cores,
                events,
            } => {
                self.counted = cores;
                self.report.rounds = rounds;
                self.report.events = events;
                self.place = 1;
            }
            Said::Changed { change, .. } => {
                self.report.changes.push(change)?;
                self.place = 1;
            }
            Said::Planned(start) => {
                self.report.plans.push(start)?;
                self.place = 2;
            }
            Said::Vcpu(ran) => {
                self.report.vcpus.push(ran)?;
                self.place = 3;
            }
            Said::Core { ran, .. } => {
                self.report.cores.push(ran)?;
                self.place = 4;
            }
            Said::Done => self.place = 5,
        }
        Ok(())
    }
}

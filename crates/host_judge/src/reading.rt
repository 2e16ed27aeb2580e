ghost use Rattle.std.specs.Prelude.{◌≡◌, ℕ, ◌≤◌, List, length};
ghost use Rattle.host_judge.specs.Faults.{IsBadLine};

use crate::fault::JudgeFault;
use crate::judge::Judge;
use host_trace::{is_passed_over, mark_of};
use std::alloc::Global;
use tab_words::Lines;
use vcpu_names::Names;

// What is kept of a trace whose lines are read.
#[derive(Drop)]
pub(crate) struct Reading<'a> {
    pub(crate) names: Names<'a>,
    pub(crate) judge: Judge,
    // how many lines were read
    pub(crate) lines: u64,
    ghost known: { length names ≡ length judge.trackers.items },
    ghost behind: { judge.line ≤ lines },
}

impl<'a> Reading<'a> {
    ghost use Rattle.std.specs.Prelude.{◌≡◌, ℕ, ◌∷◌, [], ◌++◌, List, IfErr, OnOk, map};
    ghost use Rattle.tab_words.specs.Lines.{lines_of};
    ghost use Rattle.host_judge.specs.Faults.{IsFaultIn};
    ghost use Rattle.host_judge.specs.Inside.Judged.{terms_of};
    ghost use Rattle.host_judge.specs.Inside.Readings.{HasReadLines};

    // Reads the lines of a text, of which each has its end.
    pub(crate) fn take_lines(&mut self, alloc: Global, text: &[u8]) -> Result<(), JudgeFault>
        ensures names { self.new.names ≡ self.old.names }
        ensures terms { map terms_of self.new.judge.trackers.items
            ≡ map terms_of self.old.judge.trackers.items }
        ensures read { OnOk result ((lines : List (List ℕ)) → HasReadLines lines self.old
            → HasReadLines (lines ++ lines_of text.now) self.new) }
        ensures fault { IfErr result (λ fault. (lines : List (List ℕ)) → HasReadLines lines self.old
            → IsFaultIn self.old.names (lines ++ lines_of text.now) fault) }
    {
        for line in Lines::over(text) {
            if let Err(fault) = self.take_line(alloc, line) {
                return Err(fault);
            }
        }
        Ok(())
    }

    // Reads the next line.
    fn take_line(&mut self, alloc: Global, line: &[u8]) -> Result<(), JudgeFault>
        ensures names { self.new.names ≡ self.old.names }
        ensures terms { map terms_of self.new.judge.trackers.items
            ≡ map terms_of self.old.judge.trackers.items }
        ensures read { OnOk result ((lines : List (List ℕ)) → HasReadLines lines self.old
            → HasReadLines (lines ++ line.now ∷ []) self.new) }
        ensures fault { IfErr result (λ fault. (lines : List (List ℕ)) → HasReadLines lines self.old
            → IsFaultIn self.old.names (lines ++ line.now ∷ []) fault) }
    {
        let Some(number) = self.lines.checked_add(1) else {
            return Err(JudgeFault::TooLong);
        };
        if is_passed_over(line) {
            self.lines = number;
            return Ok(());
        }
        let Some(mark) = mark_of(&self.names, number, line) else {
            return Err(bad_line(alloc, number, line));
        };
        self.lines = number;
        self.judge.take(&mark)?;
        Ok(())
    }
}

// The fault of a line that says nothing.
fn bad_line(alloc: Global, line: u64, text: &[u8]) -> JudgeFault
    ensures { IsBadLine line text.now result }
{
    match text.to_vec(alloc) {
        Ok(text) => JudgeFault::BadLine { line, text },
        Err(_) => JudgeFault::NoMemory,
    }
}

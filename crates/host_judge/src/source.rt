ghost use Rattle.std.specs.Prelude.{◌≡◌, ℕ, ◌<◌, ◌++◌, List, IfErr, MatchOption, OnOk, length, map, slice_index, ⊤};

use crate::fault::JudgeFault;
use crate::reading::Reading;
use std::alloc::Global;

impl<'a> Reading<'a> {
    ghost use Rattle.std.specs.Prelude.{◌≡◌, ℕ, ◌++◌, List, IfErr, OnOk, map};
    ghost use Rattle.tab_words.specs.Lines.{lines_of};
    ghost use Rattle.host_judge.specs.Faults.{IsFaultIn};
    ghost use Rattle.host_judge.specs.Inside.Judged.{terms_of};
    ghost use Rattle.host_judge.specs.Inside.Readings.{HasReadBytes};

    // Reads the next piece of the trace's bytes, before which these were held, and holds those after its last line
    // feed.
    pub(crate) fn take_piece(
        &mut self,
        alloc: Global,
        held: &mut Vec<u8>,
        piece: &[u8],
    ) -> Result<(), JudgeFault>
        ensures names { self.new.names ≡ self.old.names }
        ensures terms { map terms_of self.new.judge.trackers.items
            ≡ map terms_of self.old.judge.trackers.items }
        ensures read { OnOk result ((bytes : List ℕ) → HasReadBytes bytes held.old.items self.old
            → HasReadBytes (bytes ++ piece.now) held.new.items self.new) }
        ensures fault { IfErr result (λ fault. (bytes : List ℕ) → HasReadBytes bytes held.old.items self.old
            → IsFaultIn self.old.names (lines_of (bytes ++ piece.now)) fault) }
    {
        let Some(end) = last_feed(piece) else {
            if held.extend_from_slice(piece).is_err() {
                return Err(JudgeFault::NoMemory);
            }
            return Ok(());
        };
        let (front, back) = piece.split_at(end + 1);
        if held.extend_from_slice(front).is_err() {
            return Err(JudgeFault::NoMemory);
        }
        if let Err(fault) = self.take_lines(alloc, held) {
            return Err(fault);
        }
        held.clear();
        if held.extend_from_slice(back).is_err() {
            return Err(JudgeFault::NoMemory);
        }
        Ok(())
    }
}

// Where the last line feed is.
fn last_feed(bytes: &[u8]) -> Option<usize>
    ensures { MatchOption result ⊤ (λ end. (end < length bytes.now) × (slice_index bytes.now end ≡ 10)) }
{
    bytes.iter().rposition(|byte| *byte == b'\n')
}

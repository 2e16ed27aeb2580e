ghost use Rattle.std.specs.Prelude.{◌≡◌, ◌↔◌, ◌∷◌, ◌+◌, ◌<◌, ◌^◌, IfOk, IsErrOf, IsTrue, List, MatchOption, OnOk, IfNone, IfSome, length, ℕ};
ghost use Rattle.tab_words.specs.Words.{words_of};
ghost use Rattle.tab_words.specs.Texts.{Line, worded};
ghost use Rattle.plan_text.specs.FirstBad.{IsFirstBadFor};
ghost use Rattle.plan_text.specs.Inside.OldReading.{AreSomeOldVcpus, BeginsWithKeyAndNumber, IsRowLine, StartsOtherwise, IsSomeHomeLine};
ghost use Rattle.plan_text.specs.OldText.{AreOldRows, AreOldVcpus, IsCoreLine, IsHomeLine, IsOldHead, IsOldText, IsSegmentLine, IsSomeOldText, NamedHome};
ghost use Rattle.plan_text.specs.declared.read_fault.ReadPlan.{ReadPlan};

use crate::line_words::words_behind;
use crate::lines_left::{LinesLeft, first_line};
use crate::read_cores::read_end;
use crate::read_fault::ReadPlan;
use std::alloc::{AllocError, Global};
use std::marker::Model;
use tab_words::{TextPiece, Words, read_number};

// What the line of a vCPU in a plan text says, where the text's host isn't known: the name and the home.
#[derive(Drop)]
pub(crate) struct OldHome<'a> {
    name: &'a [u8],
    home: u64,
}

impl<'a> Model for OldHome<'a> {
    ghost use Rattle.plan_text.specs.OldText.{NamedHome};

    ghost Value = { NamedHome };

    ghost view = { λ vcpu. record { name = vcpu.name.now; home = vcpu.home } };
}

impl<'a> OldHome<'a> {
    pub(crate) fn name(&self) -> &'a [u8]
        ensures { result.now ≡ self.now.name }
    {
        self.name
    }

    // The number that the line gives as the home, which needn't be a core's.
    pub(crate) fn home(&self) -> u64
        ensures { result ≡ self.now.home }
    {
        self.home
    }
}

// The vCPUs of a plan text of less than 2^32 bytes whose host isn't known, in the order of its lines.
pub(crate) fn read_old_vcpus(alloc: Global, bytes: &[u8]) -> Result<Vec<OldHome<'_>>, ReadPlan>
    requires short { length bytes.now < 2 ^ 32 }
    ensures ok { IfOk result (λ vcpus. IsOldText vcpus.items (worded bytes.now)) }
    ensures bad_line { (bad : ℕ) → IsErrOf result (ReadPlan.BadLine bad)
        → IsFirstBadFor IsSomeOldText 1 (worded bytes.now) bad }
{
    let Some((head, behind)) = first_line(bytes) else {
        return Err(ReadPlan::BadLine { line: 1 });
    };
    if !is_old_head(head) {
        return Err(ReadPlan::BadLine { line: 1 });
    }
    read_behind_head(alloc, LinesLeft::from(behind, 2))
}

// Reads what comes after the first line.
fn read_behind_head<'a>(
    alloc: Global,
    mut left: LinesLeft<'a>,
) -> Result<Vec<OldHome<'a>>, ReadPlan>
    ensures ok { IfOk result (λ vcpus. AreOldVcpus vcpus.items left.entry.lines) }
    ensures bad_line { (bad : ℕ) → IsErrOf result (ReadPlan.BadLine bad)
        → IsFirstBadFor AreSomeOldVcpus left.entry.number left.entry.lines bad }
{
    let vcpus = take_vcpus(alloc, &mut left)?;
    skip_rows(&mut left);
    read_end(&mut left)?;
    Ok(vcpus)
}

// Steps over the lines of vCPUs, and gives these.
fn take_vcpus<'a>(alloc: Global, left: &mut LinesLeft<'a>) -> Result<Vec<OldHome<'a>>, AllocError>
    ensures text { IfOk result (λ vcpus. AreOldRows left.new.lines → AreOldVcpus vcpus.items left.old.lines) }
    ensures behind { OnOk result ((bad : ℕ) → IsFirstBadFor AreOldRows left.new.number left.new.lines bad
        → IsFirstBadFor AreSomeOldVcpus left.old.number left.old.lines bad) }
{
    let mut vcpus = Vec::new(alloc);
    while let Some(vcpu) = take_vcpu(left) {
        vcpus.push(vcpu)?;
    }
    Ok(vcpus)
}

// Steps over the first line, if it is a vCPU's, and gives that.
fn take_vcpu<'a>(left: &mut LinesLeft<'a>) -> Option<OldHome<'a>>
    ensures some { IfSome result (λ vcpu. (line : Line) × (IsHomeLine line vcpu)
        × (left.old.lines ≡ line ∷ left.new.lines)
        × (left.new.number ≡ left.old.number + 1)) }
    ensures none { IfNone result ((left.new ≡ left.old) × StartsOtherwise IsSomeHomeLine left.old.lines) }
{
    let Some((line, behind)) = left.first() else {
        return None;
    };
    let Some(vcpu) = home_of_line(line) else {
        return None;
    };
    left.step_to(behind);
    Some(vcpu)
}

// Steps over the lines of cores.
fn skip_rows(left: &mut LinesLeft<'_>)
    ensures text { AreOldRows left.new.lines → AreOldRows left.old.lines }
    ensures behind { (bad : ℕ) → IsFirstBadFor AreOldRows left.new.number left.new.lines bad
        → IsFirstBadFor AreOldRows left.old.number left.old.lines bad }
    ensures last { StartsOtherwise IsRowLine left.new.lines }
{
    while skip_row_line(left) {}
}

// Whether the first line is a core's, which it steps over.
fn skip_row_line(left: &mut LinesLeft<'_>) -> bool
    ensures yes { IsTrue result → (line : Line) × IsRowLine line
        × (left.old.lines ≡ line ∷ left.new.lines)
        × (left.new.number ≡ left.old.number + 1) }
    ensures no { (IsTrue result → ⊥) → (left.new ≡ left.old) × StartsOtherwise IsRowLine left.old.lines }
{
    let Some((line, behind)) = left.first() else {
        return false;
    };
    if !is_row_line(line) {
        return false;
    }
    left.step_to(behind);
    true
}

// Whether the line is the first of a plan text, whatever it counts.
fn is_old_head(line: &[u8]) -> bool
    ensures { IsTrue result ↔ IsOldHead (words_of line.now) }
{
    let Some(mut words) = words_behind(line, &[TextPiece::Text(b"plan")]) else {
        return false;
    };
    if take_number(&mut words, b"cores").is_none() {
        return false;
    }
    if take_number(&mut words, b"vcpus").is_none() {
        return false;
    }
    words.next().is_none()
}

// What the line of a vCPU says, if it is one.
fn home_of_line(line: &[u8]) -> Option<OldHome<'_>>
    ensures { MatchOption result ((vcpu : NamedHome) → IsHomeLine (words_of line.now) vcpu → ⊥)
        (λ vcpu. IsHomeLine (words_of line.now) vcpu) }
{
    let Some(mut words) = words_behind(line, &[TextPiece::Text(b"vcpu")]) else {
        return None;
    };
    let Some(name) = words.next() else {
        return None;
    };
    if take_number(&mut words, b"period").is_none() {
        return None;
    }
    if take_number(&mut words, b"cost").is_none() {
        return None;
    }
    let Some(home) = take_number(&mut words, b"home") else {
        return None;
    };
    if words.next().is_some() {
        return None;
    }
    Some(OldHome { name, home })
}

// Whether the line begins a core or is a segment's.
fn is_row_line(line: &[u8]) -> bool
    ensures { IsTrue result ↔ IsRowLine (words_of line.now) }
{
    is_core_line(line) || is_segment_line(line)
}

fn is_core_line(line: &[u8]) -> bool
    ensures { IsTrue result ↔ IsCoreLine (words_of line.now) }
{
    let mut words = Words::of(line);
    take_number(&mut words, b"core").is_some() && words.next().is_none()
}

fn is_segment_line(line: &[u8]) -> bool
    ensures { IsTrue result ↔ IsSegmentLine (words_of line.now) }
{
    let mut words = Words::of(line);
    let (Some(end), Some(_), None) = (words.next(), words.next(), words.next()) else {
        return false;
    };
    read_number(end).is_some()
}

// The number after this word, where the words that are left begin with the two.
fn take_number(words: &mut Words<'_>, key: &[u8]) -> Option<u64>
    ensures some { IfSome result (λ n. BeginsWithKeyAndNumber words.old key.now n words.new) }
    ensures none { IfNone result ((n : ℕ) (rest : Line) → BeginsWithKeyAndNumber words.old key.now n rest → ⊥) }
{
    let (Some(word), Some(number)) = (words.next(), words.next()) else {
        return None;
    };
    if word != key {
        return None;
    }
    read_number(number)
}

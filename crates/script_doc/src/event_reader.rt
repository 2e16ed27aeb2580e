ghost use Rattle.std.specs.Prelude.{◌≡◌, ℕ, ◌<◌, ◌≤◌, ◌∷◌, codes, length, decimal, IfOk, IsErrOf, MatchOption, OnOk};
ghost use Rattle.tab_core.specs.Name.{IsName};
ghost use Rattle.tab_core.specs.declared.TheConstants.{MAX_LATENCY_NS, WHOLE_PPM};
ghost use Rattle.tab_words.specs.Words.{words_of};
ghost use Rattle.script_doc.specs.Inside.NamedLines.{IsNamedEvent, IsNoNamedLine, IsUnknownNamedLine};
ghost use Rattle.script_doc.specs.declared.event_reader.LineFault.TheVariants.{NoMemory};
ghost use Rattle.vcpu_names.specs.Names.{IsUnknown, name_at};
ghost use Rattle.script_doc.specs.Inside.Reading.{AreEdits, AreNoEdits, AreUnknownEdits, IsAct, IsEdit, IsNoAct, IsNoEdit, IsNoName, IsOnly, IsUnknownAct, IsUnknownName};

use crate::event::{Act, Edits, Event, MAX_WORK};
use std::alloc::{AllocFailed, Global};
use tab_core::{Edit, MAX_LATENCY_NS, Name, Reservation, VcpuNo, WHOLE_PPM};
use tab_words::{Words, read_number};
use vcpu_names::Names;

// Why a line isn't read as an event.
#[derive(Clone, Copy, PartialEq, Eq)]
pub(crate) enum LineFault {
    BadLine,
    UnknownName,
    NoMemory,
}

impl<T: Drop> From<AllocFailed<T>> for LineFault {
    ghost from_gives = { λ _ fault. fault ≡ NoMemory };

    fn from(_: AllocFailed<T>) -> LineFault {
        LineFault::NoMemory
    }
}

// The event that a line is.
pub(crate) fn event_of(alloc: Global, line: &[u8], names: &Names<'_>) -> Result<Event, LineFault>
    ensures ok { IfOk result (λ event. IsNamedEvent names.now (words_of line.now) event) }
    ensures bad_line { IsErrOf result LineFault.BadLine → IsNoNamedLine (words_of line.now) }
    ensures unknown_name { IsErrOf result LineFault.UnknownName
        → IsUnknownNamedLine names.now (words_of line.now) }
{
    let mut words = Words::of(line);
    let Some(first) = words.next() else {
        return Err(LineFault::BadLine);
    };
    let Some(tick) = number_within(first, 0, u64::from(u32::MAX)) else {
        return Err(LineFault::BadLine);
    };
    let act = act_of(alloc, &mut words, names)?;
    Ok(Event {
        tick: tick as u32,
        act,
    })
}

// What happens, as all these words say it.
fn act_of(alloc: Global, words: &mut Words<'_>, names: &Names<'_>) -> Result<Act, LineFault>
    ensures ok { IfOk result (IsAct names.now words.old) }
    ensures bad_line { IsErrOf result LineFault.BadLine → IsNoAct words.old }
    ensures unknown_name { IsErrOf result LineFault.UnknownName → IsUnknownAct names.now words.old }
{
    let Some(kind) = words.next() else {
        return Err(LineFault::BadLine);
    };
    if kind == b"wake".as_slice() {
        let vcpu = only_vcpu(words, names)?;
        Ok(Act::Wake(vcpu))
    } else if kind == b"block".as_slice() {
        let vcpu = only_vcpu(words, names)?;
        Ok(Act::Block(vcpu))
    } else if kind == b"change".as_slice() {
        let edits = edits_of(alloc, words, names)?;
        Ok(Act::Change(edits))
    } else if kind == b"burst".as_slice() {
        burst_of(words, names)
    } else {
        Err(LineFault::BadLine)
    }
}

// The burst that the word `burst` and all these words are.
fn burst_of(words: &mut Words<'_>, names: &Names<'_>) -> Result<Act, LineFault>
    ensures ok { IfOk result (IsAct names.now (codes "burst" ∷ words.old)) }
    ensures bad_line { IsErrOf result LineFault.BadLine → IsNoAct (codes "burst" ∷ words.old) }
    ensures unknown_name { IsErrOf result LineFault.UnknownName
        → IsUnknownAct names.now (codes "burst" ∷ words.old) }
{
    let (Some(name), Some(work), None) = (words.next(), words.next(), words.next()) else {
        return Err(LineFault::BadLine);
    };
    let Some(work) = number_within(work, 1, u64::from(MAX_WORK)) else {
        return Err(LineFault::BadLine);
    };
    match vcpu_of(name, names)? {
        Some(vcpu) => Ok(Act::Burst {
            vcpu,
            work: work as u32,
        }),
        None => Err(LineFault::UnknownName),
    }
}

// The vCPU whose name all these words are.
fn only_vcpu(words: &mut Words<'_>, names: &Names<'_>) -> Result<VcpuNo, LineFault>
    ensures ok { IfOk result (IsOnly names.now words.old) }
    ensures bad_line { IsErrOf result LineFault.BadLine → IsNoName words.old }
    ensures unknown_name { IsErrOf result LineFault.UnknownName → IsUnknownName names.now words.old }
{
    let (Some(name), None) = (words.next(), words.next()) else {
        return Err(LineFault::BadLine);
    };
    match vcpu_of(name, names)? {
        Some(vcpu) => Ok(vcpu),
        None => Err(LineFault::UnknownName),
    }
}

// The vCPU of this name, if there is one.
fn vcpu_of(name: &[u8], names: &Names<'_>) -> Result<Option<VcpuNo>, LineFault>
    ensures name { OnOk result (IsName name.now) }
    ensures found { IfOk result (λ found. MatchOption found (IsUnknown names.now name.now)
        (λ vcpu. (vcpu < length names.now) × (name_at names.now vcpu ≡ name.now))) }
    ensures bad_line { IsErrOf result LineFault.BadLine → ¬ (IsName name.now) }
    ensures not_unknown { ¬ (IsErrOf result LineFault.UnknownName) }
{
    if let Some(vcpu) = names.number_of(name) {
        return Ok(Some(vcpu));
    }
    if Name::has_form(name) {
        Ok(None)
    } else {
        Err(LineFault::BadLine)
    }
}

// The edits that all these words are.
fn edits_of(alloc: Global, words: &mut Words<'_>, names: &Names<'_>) -> Result<Edits, LineFault>
    ensures ok { IfOk result (AreEdits names.now words.old) }
    ensures bad_line { IsErrOf result LineFault.BadLine → AreNoEdits words.old }
    ensures unknown_name { IsErrOf result LineFault.UnknownName → AreUnknownEdits names.now words.old }
{
    let mut edits = Vec::new(alloc);
    let mut all_known = true;
    while let Some(kind) = words.next() {
        match edit_of(kind, words, names)? {
            Some(edit) => edits.push(edit)?,
            None => all_known = false,
        }
    }
    if !all_known {
        return Err(LineFault::UnknownName);
    }
    if edits.is_empty() {
        return Err(LineFault::BadLine);
    }
    Ok(Edits::of(edits))
}

// The edit that begins with the word `kind` and these words; none where its name is no vCPU's.
fn edit_of(kind: &[u8], words: &mut Words<'_>, names: &Names<'_>) -> Result<Option<Edit>, LineFault>
    ensures ok { IfOk result (IsEdit names.now (kind.now ∷ words.old) words.new) }
    ensures shorter { OnOk result (length words.new < length words.old) }
    ensures bad_line { IsErrOf result LineFault.BadLine → IsNoEdit (kind.now ∷ words.old) }
    ensures not_unknown { ¬ (IsErrOf result LineFault.UnknownName) }
{
    let Some(name) = words.next() else {
        return Err(LineFault::BadLine);
    };
    if kind == b"leave".as_slice() {
        return match vcpu_of(name, names)? {
            Some(vcpu) => Ok(Some(Edit::Leave { vcpu })),
            None => Ok(None),
        };
    }
    if kind != b"set".as_slice() {
        return Err(LineFault::BadLine);
    }
    let (Some(share), Some(latency)) = (words.next(), words.next()) else {
        return Err(LineFault::BadLine);
    };
    let Some(reservation) = reservation_of(share, latency) else {
        return Err(LineFault::BadLine);
    };
    match vcpu_of(name, names)? {
        Some(vcpu) => Ok(Some(Edit::Set { vcpu, reservation })),
        None => Ok(None),
    }
}

// The reservation of this share, in parts per million, and this latency, in nanoseconds.
fn reservation_of(share: &[u8], latency: &[u8]) -> Option<Reservation>
    ensures { MatchOption result
        ((ppm ns : ℕ) → 1 ≤ ppm → ppm ≤ WHOLE_PPM → ns ≤ MAX_LATENCY_NS
        → share.now ≡ decimal ppm → latency.now ≡ decimal ns → ⊥)
        (λ reservation. (share.now ≡ decimal reservation.share_ppm)
        × (latency.now ≡ decimal reservation.latency_ns)
        × (1 ≤ reservation.share_ppm) × (reservation.share_ppm ≤ WHOLE_PPM)
        × (reservation.latency_ns ≤ MAX_LATENCY_NS)) }
{
    let share_ppm = number_within(share, 1, u64::from(WHOLE_PPM))?;
    let latency_ns = number_within(latency, 0, MAX_LATENCY_NS)?;
    Some(Reservation {
        share_ppm: share_ppm as u32,
        latency_ns,
    })
}

// The number that the word spells, where it is within these bounds.
fn number_within(word: &[u8], least: u64, most: u64) -> Option<u64>
    ensures { MatchOption result ((n : ℕ) → least ≤ n → n ≤ most → word.now ≡ decimal n → ⊥)
        (λ n. (least ≤ n) × (n ≤ most) × (word.now ≡ decimal n)) }
{
    let number = read_number(word)?;
    if number < least || number > most {
        return None;
    }
    Some(number)
}

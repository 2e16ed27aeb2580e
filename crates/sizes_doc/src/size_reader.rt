ghost use Rattle.std.specs.Prelude.{◌≡◌, ℕ, ◌<◌, ◌^◌, ◌⊎◌, ◌∷◌, Bool, List, length, IfErr, IfOk, MatchOption};
ghost use Rattle.tab_words.specs.Words.{words_of};
ghost use Rattle.script_doc.specs.Statements.{statements_of};
ghost use Rattle.sizes_doc.specs.Sizes.{HasBadPart, HasSizeParts, IsBadPart, IsSize, IsSizeOf, SizeParts, last_words};
ghost use Rattle.sizes_doc.specs.Inside.Written.{HasHead, parts_in};
ghost use Rattle.sizes_doc.specs.SizeLines.{AreSizes, IsFirstBadSize};
ghost use Rattle.sizes_doc.specs.declared.fault.SizesFault.TheVariants.{NoMemory};

use crate::fault::{Part, SizesFault};
use crate::measure::{count_of, latency_of, share_of};
use crate::size::Size;
use script_doc::is_skipped;
use std::alloc::Global;
use tab_core::Reservation;
use tab_words::{Lines, Words};

/// The sizes of a text of less than 2^32 bytes, a line each.
///
/// A size is NAME VMS x VCPUS SHARE LATENCY, or vm NAME VCPUS SHARE LATENCY for one VM; `capped` may follow as the
/// last word. Counts are 1 to 256. A share is in percent of a core, with up to four decimals, as `12.5%`, or in parts
/// per million, as `125000ppm`, above 0 and up to a whole core. A latency is a number of s, ms, us or ns, as `20ms`, with
/// up to nine decimals, as `1.5ms`; it comes to whole nanoseconds, at most 1000 s. A line without words and one whose first byte is `#` are skipped, and count as lines.
/// `BadSize` comes where another line is there, and names the first and its first bad part.
pub fn read_sizes(alloc: Global, bytes: &[u8]) -> Result<Vec<Size<'_>>, SizesFault>
    requires { length bytes.now < 2 ^ 32 }
    ensures ok { IfOk result (λ sizes. AreSizes (statements_of bytes.now) sizes.items) }
    ensures fault { IfErr result (λ fault. (fault ≡ NoMemory) ⊎ IsFirstBadSize (statements_of bytes.now) fault) }
{
    let mut sizes = Vec::new(alloc);
    let mut number = 0;
    for line in Lines::over(bytes) {
        number += 1;
        if !is_skipped(line) {
            match size_of(number, line) {
                Ok(size) => sizes.push(size)?,
                Err(part) => return Err(SizesFault::BadSize { line: number, part }),
            }
        }
    }
    Ok(sizes)
}

// The size that the line of this number is, or its first bad part.
fn size_of(number: u32, line: &[u8]) -> Result<Size<'_>, Part>
    ensures number { IfOk result (λ size. size.line ≡ number) }
    ensures ok { IfOk result (IsSize (words_of line.now)) }
    ensures part { IfErr result (HasBadPart (words_of line.now)) }
{
    match parts_of(line) {
        Some(parts) => size_from(number, &parts),
        None => Err(Part::Form),
    }
}

// The parts of a size, as they are written.
#[derive(Drop)]
struct Written<'a> {
    head: Head<'a>,
    rest: Rest<'a>,
}

// Those that say how many VMs and vCPUs there are, and their name.
#[derive(Drop)]
struct Head<'a> {
    alone: bool,
    name: &'a [u8],
    machines: &'a [u8],
    vcpus: &'a [u8],
}

// Those that say what each vCPU is sold.
#[derive(Drop)]
struct Rest<'a> {
    share: &'a [u8],
    latency: &'a [u8],
    capped: bool,
}

// The parts that the line has, if it has the form of a size.
fn parts_of(line: &[u8]) -> Option<Written<'_>>
    ensures { MatchOption result ((parts : SizeParts) → HasSizeParts (words_of line.now) parts → ⊥)
        (λ written. HasSizeParts (words_of line.now) (parts_in written)) }
{
    let mut words = Words::of(line);
    let Some(head) = head_of(&mut words) else {
        return None;
    };
    match rest_of(&mut words) {
        Some(rest) => Some(Written { head, rest }),
        None => None,
    }
}

// The parts of the head, which are taken off the words.
fn head_of<'a>(words: &mut Words<'a>) -> Option<Head<'a>>
    ensures { MatchOption result
        ((alone : Bool) (name machines vcpus : List ℕ) (rest : List (List ℕ))
        → HasHead words.old alone name machines vcpus rest → ⊥)
        (λ head. HasHead words.old head.alone head.name.now head.machines.now head.vcpus.now words.new) }
{
    let (Some(first), Some(second), Some(third)) = (words.next(), words.next(), words.next()) else {
        return None;
    };
    if third == b"x".as_slice() {
        let Some(vcpus) = words.next() else {
            return None;
        };
        return Some(Head {
            alone: false,
            name: first,
            machines: second,
            vcpus,
        });
    }
    if first != b"vm".as_slice() {
        return None;
    }
    Some(Head {
        alone: true,
        name: second,
        machines: b"1",
        vcpus: third,
    })
}

// The other parts, where these words are all of them.
fn rest_of<'a>(words: &mut Words<'a>) -> Option<Rest<'a>>
    ensures { MatchOption result
        ((share latency : List ℕ) (capped : Bool)
        → words.old ≡ share ∷ latency ∷ last_words capped → ⊥)
        (λ rest. words.old ≡ rest.share.now ∷ rest.latency.now ∷ last_words rest.capped) }
{
    let (Some(share), Some(latency)) = (words.next(), words.next()) else {
        return None;
    };
    match is_capped(words) {
        Some(capped) => Some(Rest {
            share,
            latency,
            capped,
        }),
        None => None,
    }
}

// Whether these words, after the latency, are `capped` or none.
fn is_capped(words: &mut Words<'_>) -> Option<bool>
    ensures { MatchOption result ((capped : Bool) → words.old ≡ last_words capped → ⊥)
        (λ capped. words.old ≡ last_words capped) }
{
    let Some(word) = words.next() else {
        return Some(false);
    };
    if word != b"capped".as_slice() {
        return None;
    }
    match words.next() {
        Some(_) => None,
        None => Some(true),
    }
}

// The size of these parts, or the first bad one.
fn size_from<'a>(number: u32, parts: &Written<'a>) -> Result<Size<'a>, Part>
    ensures number { IfOk result (λ size. size.line ≡ number) }
    ensures ok { IfOk result (IsSizeOf (parts_in parts.now)) }
    ensures part { IfErr result (IsBadPart (parts_in parts.now)) }
{
    let Some(machines) = count_of(parts.head.machines) else {
        return Err(Part::Machines);
    };
    let Some(vcpus) = count_of(parts.head.vcpus) else {
        return Err(Part::Vcpus);
    };
    let share_ppm = share_of(parts.rest.share)?;
    let latency_ns = latency_of(parts.rest.latency)?;
    Ok(Size {
        line: number,
        alone: parts.head.alone,
        name: parts.head.name,
        machines,
        vcpus,
        reservation: Reservation {
            share_ppm,
            latency_ns,
        },
        capped: parts.rest.capped,
    })
}

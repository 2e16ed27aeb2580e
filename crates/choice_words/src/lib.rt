//! Whom a core runs, for C: the choice of the second level on the words of its sets.
//!
//! A vCPU set is four words of 64 bits, as in `VcpuSet` of `tab_core`, and a number from 256 on stands for
//! nobody. The rule is `IsChoice` in `table_form/specs/Running/Choice.antt`, which `specs/Words.antt` takes
//! to words. Nothing here takes memory, and no word is read at a place that is computed, so that the library
//! can also be compiled for the kernel's own machine (BPF).
#![tactic(auto)]

ghost use Rattle.std.specs.Prelude.{◌≡◌, ◌<◌, ◌≤◌, ◌/◌, ℕ, false, slice_index, true};
ghost use Rattle.tab_core.specs.VcpuSets.{IsInBoth, members_of};
ghost use Rattle.table_form.specs.Running.Choice.{IsChoice, IsPick, after_last, owner_runs};
ghost use Rattle.table_form.specs.Tables.Plans.{PlanView};
ghost use Rattle.table_form.specs.Tables.Spans.{IsSpan};
ghost use Rattle.choice_words.specs.Inside.Bits.{HasBitFrom, IsFirst};
ghost use Rattle.choice_words.specs.Words.{vcpu_of};

// What stands for nobody: one more than the last number.
const NOBODY: u32 = 256;

/// The number of the vCPU that a core runs, or 256 for nobody.
///
/// `owner` has the slot, `sharers` are those who may share its unused time, `runnable` those who can run, and
/// `last` is the core's last shared pick. An owner or a last pick of 256 or more is nobody.
///
/// The owner runs if it is runnable. Otherwise it is the least runnable sharer above the last pick, else the
/// least runnable sharer. In each plan that shows the core this span it is the one that the rules choose.
#[unsafe(no_mangle)]
pub extern "C" fn tableau_choice(
    owner: u32,
    sharers: &[u64; 4],
    runnable: &[u64; 4],
    last: u32,
) -> u32
    ensures some { result ≤ NOBODY }
    ensures slot { owner_runs (vcpu_of owner) (members_of runnable.now) ≡ true → vcpu_of result ≡ vcpu_of owner }
    ensures pick { owner_runs (vcpu_of owner) (members_of runnable.now) ≡ false
        → IsPick (IsInBoth (members_of sharers.now) (members_of runnable.now)) (vcpu_of last) (vcpu_of result) }
    ensures choice { (plan : PlanView) (c place end : ℕ)
        → IsSpan plan c place (vcpu_of owner) (members_of sharers.now) end
        → IsChoice plan c place (members_of runnable.now) (vcpu_of last) (vcpu_of result) }
{
    if has(runnable, owner) {
        return owner;
    }
    pick(sharers, runnable, last)
}

// Whether the number is a member's. None from 256 on is.
fn has(words: &[u64; 4], number: u32) -> bool
    ensures { result ≡ owner_runs (vcpu_of number) (members_of words.now) }
{
    number < NOBODY && (word_of(words, number) >> (number % 64)) & 1 == 1
}

// The word that has the number's bit.
fn word_of(words: &[u64; 4], number: u32) -> u64
    requires { number < NOBODY }
    ensures { result ≡ slice_index words.now (number / 64) }
{
    if number < 64 {
        words[0]
    } else if number < 128 {
        words[1]
    } else if number < 192 {
        words[2]
    } else {
        words[3]
    }
}

// The least member of both sets above the last pick, else the least, else nobody.
fn pick(sharers: &[u64; 4], runnable: &[u64; 4], last: u32) -> u32
    ensures some { result ≤ NOBODY }
    ensures pick { IsPick (IsInBoth (members_of sharers.now) (members_of runnable.now)) (vcpu_of last)
        (vcpu_of result) }
{
    let above = first_from(sharers, runnable, after(last));
    if above < NOBODY {
        above
    } else {
        first_from(sharers, runnable, 0)
    }
}

// The number after the last pick, from which the next one is sought.
fn after(last: u32) -> u32
    ensures value { result ≡ after_last (vcpu_of last) }
    ensures small { result ≤ NOBODY }
{
    if last < NOBODY { last + 1 } else { 0 }
}

// The least member of both sets from a number on, or 256.
fn first_from(a: &[u64; 4], b: &[u64; 4], from: u32) -> u32
    requires { from ≤ NOBODY }
    ensures { IsFirst (IsInBoth (members_of a.now) (members_of b.now)) from result }
{
    let first = first_in(a[0] & b[0], 0, from);
    if first < NOBODY {
        return first;
    }
    let second = first_in(a[1] & b[1], 64, from);
    if second < NOBODY {
        return second;
    }
    let third = first_in(a[2] & b[2], 128, from);
    if third < NOBODY {
        return third;
    }
    first_in(a[3] & b[3], 192, from)
}

// The least number from one on whose bit is set in the word of the numbers from `base` on, or 256.
fn first_in(word: u64, base: u32, from: u32) -> u32
    requires low { base ≤ 192 }
    ensures { IsFirst (HasBitFrom word base) from result }
{
    let skip = from.saturating_sub(base);
    if skip >= 64 {
        return NOBODY;
    }
    let rest = word >> skip;
    if rest == 0 {
        return NOBODY;
    }
    base + skip + rest.trailing_zeros()
}

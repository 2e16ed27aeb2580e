ghost use Rattle.std.specs.Prelude.{◌≡◌, ◌≢◌, ℕ, ◌<◌, ◌≤◌, ◌^◌, List, [], ◌∷◌, MatchOption, codes, decimal};
ghost use Rattle.tab_core.specs.Name.{IsName};
ghost use Rattle.tab_core.specs.declared.TheConstants.{MAX_CORES, MAX_VCPUS};
ghost use Rattle.tab_words.specs.Words.{words_of};
ghost use Rattle.tab_words.specs.Texts.{Line};
ghost use Rattle.view_doc.specs.Inside.Statements.{SaysNoPlain, held_by, told_by};
ghost use Rattle.view_doc.specs.Lines.{IsGoodHolder, IsGoodOwner, Says, SaysNothing, how_of_holder, word_of_holder};
ghost use Rattle.view_doc.specs.Lines.{Holder as Held};

use crate::items::{is_item, is_report};
use crate::numbers::small_number;
use crate::statement::{Holder, Statement};
use crate::words::{take_core, take_end, take_name, take_number, take_word};
use tab_core::{CoreNo, MAX_CORES, MAX_VCPUS, Name};
use tab_words::Words;

// What the line says.
pub(crate) fn statement_of<'a>(line: &'a [u8]) -> Option<Statement<'a>>
    ensures { MatchOption result (SaysNothing (words_of line.now))
        (λ s. Says (words_of line.now) (told_by (words_of line.now) s)) }
{
    if let Some(statement) = plain_of(line) {
        return Some(statement);
    }
    if is_item(line) {
        Some(Statement::Item)
    } else if is_report(line) {
        Some(Statement::Report)
    } else {
        None
    }
}

// What the line says, but what a report has.
fn plain_of<'a>(line: &'a [u8]) -> Option<Statement<'a>>
    ensures { MatchOption result (SaysNoPlain (words_of line.now))
        (λ s. Says (words_of line.now) (told_by (words_of line.now) s)) }
{
    let mut words = Words::of(line);
    let first = words.next()?;
    if first == b"core".as_slice() {
        behind_core(&mut words)
    } else if first == b"vcpu".as_slice() {
        behind_vcpu(&mut words)
    } else if first == b"plan".as_slice() {
        behind_plan(&mut words)
    } else if first == b"posted".as_slice() {
        behind_posted(&mut words)
    } else {
        alone_or_segment(first, &mut words)
    }
}

// What the words say after `core`.
fn behind_core<'a>(words: &mut Words<'a>) -> Option<Statement<'a>>
    ensures { MatchOption result (SaysNoPlain (codes "core" ∷ words.old))
        (λ s. (all : Line) → Says (codes "core" ∷ words.old) (told_by all s)) }
{
    let core = take_core(words)?;
    behind_number(core, words)
}

// What the words say after `core` and a core's number.
fn behind_number<'a>(core: CoreNo, words: &mut Words<'a>) -> Option<Statement<'a>>
    ensures { MatchOption result (SaysNoPlain (codes "core" ∷ decimal core ∷ words.old))
        (λ s. (all : Line) → Says (codes "core" ∷ decimal core ∷ words.old) (told_by all s)) }
{
    let Some(word) = words.next() else {
        return Some(Statement::Core(core));
    };
    if word == b"round".as_slice() {
        entry_of(core, words)
    } else {
        let from = small_number(word)?;
        stint_of(core, from, words)
    }
}

// The entry that the words are after `core`, the core's number and `round`.
fn entry_of<'a>(core: CoreNo, words: &mut Words<'a>) -> Option<Statement<'a>>
    ensures { MatchOption result ((r n : ℕ) → r < 2 ^ 32 → n < 2 ^ 32
        → words.old ≡ decimal r ∷ codes "count" ∷ decimal n ∷ [] → ⊥)
        (λ s. (all : Line)
        → Says (codes "core" ∷ decimal core ∷ codes "round" ∷ words.old) (told_by all s)) }
{
    let round = take_number(words)?;
    take_word(words, b"count")?;
    let count = take_number(words)?;
    take_end(words)?;
    Some(Statement::Entry { core, round, count })
}

// The stint that the words are after `core`, the core's number and the first tick.
fn stint_of<'a>(core: CoreNo, from: u32, words: &mut Words<'a>) -> Option<Statement<'a>>
    requires core { core < MAX_CORES }
    requires from { from < 2 ^ 32 }
    ensures { MatchOption result ((t u v : ℕ) (held : Held)
        → t < 2 ^ 32 → u < 2 ^ 32 → v < 2 ^ 32 → IsGoodHolder held
        → words.old ≡ decimal t ∷ codes "used" ∷ decimal u ∷ codes "seen" ∷ decimal v
        ∷ word_of_holder held ∷ how_of_holder held ∷ [] → ⊥)
        (λ s. (all : Line)
        → Says (codes "core" ∷ decimal core ∷ decimal from ∷ words.old) (told_by all s)) }
{
    let end = take_number(words)?;
    take_word(words, b"used")?;
    let used = take_number(words)?;
    take_word(words, b"seen")?;
    let seen = take_number(words)?;
    let holder = take_holder(words)?;
    Some(Statement::Stint {
        core,
        from,
        end,
        used,
        seen,
        holder,
    })
}

// Takes the last two words of a stint.
fn take_holder<'a>(words: &mut Words<'a>) -> Option<Holder<'a>>
    ensures { MatchOption result
        ((held : Held) → IsGoodHolder held → words.old ≡ word_of_holder held ∷ how_of_holder held ∷ [] → ⊥)
        (λ holder. IsGoodHolder (held_by holder)
        × (words.old ≡ word_of_holder (held_by holder) ∷ how_of_holder (held_by holder) ∷ [])) }
{
    let name = words.next()?;
    let how = words.next()?;
    take_end(words)?;
    holder_of(name, how)
}

// Who the last two words of a stint are.
fn holder_of<'a>(name: &'a [u8], how: &[u8]) -> Option<Holder<'a>>
    ensures { MatchOption result
        ((held : Held) → IsGoodHolder held → name.now ≡ word_of_holder held → how.now ≡ how_of_holder held → ⊥)
        (λ holder. IsGoodHolder (held_by holder) × (name.now ≡ word_of_holder (held_by holder))
        × (how.now ≡ how_of_holder (held_by holder))) }
{
    if name == b"-".as_slice() {
        return if how == b"idle".as_slice() {
            Some(Holder::Nobody)
        } else {
            None
        };
    }
    if !Name::has_form(name) {
        return None;
    }
    if how == b"slot".as_slice() {
        Some(Holder::Slot(name))
    } else if how == b"shared".as_slice() {
        Some(Holder::Shared(name))
    } else {
        None
    }
}

// The vCPU's line that the words are after `vcpu`.
fn behind_vcpu<'a>(words: &mut Words<'a>) -> Option<Statement<'a>>
    ensures { MatchOption result ((name : List ℕ) (t n h : ℕ)
        → IsName name → t < 2 ^ 32 → n < 2 ^ 32 → h < MAX_CORES
        → words.old ≡ name ∷ codes "period" ∷ decimal t ∷ codes "cost" ∷ decimal n
        ∷ codes "home" ∷ decimal h ∷ [] → ⊥)
        (λ s. (all : Line) → Says (codes "vcpu" ∷ words.old) (told_by all s)) }
{
    let name = take_name(words)?;
    take_word(words, b"period")?;
    let period = take_number(words)?;
    take_word(words, b"cost")?;
    let cost = take_number(words)?;
    take_word(words, b"home")?;
    let home = take_core(words)?;
    take_end(words)?;
    Some(Statement::Task {
        name,
        period,
        cost,
        home,
    })
}

// The plan's head that the words are after `plan`.
fn behind_plan<'a>(words: &mut Words<'a>) -> Option<Statement<'a>>
    ensures { MatchOption result ((m k : ℕ) → 1 ≤ m → m ≤ MAX_CORES → k ≤ MAX_VCPUS
        → words.old ≡ codes "cores" ∷ decimal m ∷ codes "vcpus" ∷ decimal k ∷ [] → ⊥)
        (λ s. (all : Line) → Says (codes "plan" ∷ words.old) (told_by all s)) }
{
    take_word(words, b"cores")?;
    let cores = take_number(words)?;
    take_word(words, b"vcpus")?;
    let vcpus = take_number(words)?;
    take_end(words)?;
    if 1 <= cores && cores <= MAX_CORES && vcpus <= MAX_VCPUS {
        Some(Statement::Head { cores, vcpus })
    } else {
        None
    }
}

// The end of a replay that the words are after `posted`.
fn behind_posted<'a>(words: &mut Words<'a>) -> Option<Statement<'a>>
    ensures { MatchOption result ((n : ℕ) → n < 2 ^ 32 → words.old ≡ decimal n ∷ [] → ⊥)
        (λ s. (all : Line) → Says (codes "posted" ∷ words.old) (told_by all s)) }
{
    let count = take_number(words)?;
    take_end(words)?;
    Some(Statement::Posted { count })
}

// What the words say after one that begins no longer line.
fn alone_or_segment<'a>(first: &'a [u8], words: &mut Words<'a>) -> Option<Statement<'a>>
    requires no_core { first.now ≢ codes "core" }
    requires no_vcpu { first.now ≢ codes "vcpu" }
    requires no_plan { first.now ≢ codes "plan" }
    requires no_posted { first.now ≢ codes "posted" }
    ensures { MatchOption result (SaysNoPlain (first.now ∷ words.old))
        (λ s. (all : Line) → Says (first.now ∷ words.old) (told_by all s)) }
{
    let Some(second) = words.next() else {
        return alone_of(first);
    };
    take_end(words)?;
    segment_of(first, second)
}

// What one word says.
fn alone_of<'a>(word: &[u8]) -> Option<Statement<'a>>
    ensures { MatchOption result (SaysNoPlain (word.now ∷ []))
        (λ s. (all : Line) → Says (word.now ∷ []) (told_by all s)) }
{
    if word == b"end".as_slice() {
        Some(Statement::End)
    } else if word == b"%%".as_slice() {
        Some(Statement::Cut)
    } else if word == b"done".as_slice() {
        Some(Statement::Done)
    } else {
        None
    }
}

// The segment that two words are, which are no other line.
fn segment_of<'a>(first: &[u8], second: &'a [u8]) -> Option<Statement<'a>>
    requires no_core { first.now ≢ codes "core" }
    requires no_posted { first.now ≢ codes "posted" }
    ensures { MatchOption result (SaysNoPlain (first.now ∷ second.now ∷ []))
        (λ s. (all : Line) → Says (first.now ∷ second.now ∷ []) (told_by all s)) }
{
    let end = small_number(first)?;
    let holder = owner_of(second)?;
    Some(Statement::Segment { end, holder })
}

// Who the word of a segment is.
fn owner_of<'a>(word: &'a [u8]) -> Option<Holder<'a>>
    ensures { MatchOption result ((held : Held) → IsGoodOwner held → word.now ≡ word_of_holder held → ⊥)
        (λ holder. IsGoodOwner (held_by holder) × (word.now ≡ word_of_holder (held_by holder))) }
{
    if word == b"-".as_slice() {
        Some(Holder::Nobody)
    } else if Name::has_form(word) {
        Some(Holder::Slot(word))
    } else {
        None
    }
}

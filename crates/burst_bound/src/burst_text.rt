ghost use Rattle.std.specs.Prelude.{◌≡◌, ℕ, length};
ghost use Rattle.tab_io.specs.Sinks.{Writes};
ghost use Rattle.tab_words.specs.Pieces.{piece_text};
ghost use Rattle.vcpu_names.specs.Names.{name_at, names_of};
ghost use Rattle.burst_bound.specs.BurstText.{burst_line, bursts_text, tick_word};
ghost use Rattle.burst_bound.specs.ScriptBursts.{bursts_of};

use crate::answer::BurstAnswer;
use script_doc::{Act, Script};
use tab_core::{Host, Vcpu, VcpuNo};
use tab_io::{Sink, WriteFault};
use tab_words::{TextPiece, put_line};
use vcpu_names::name_in;

/// Writes a line for each burst of the script with what is reported of it, in their order, for the names of a
/// host: `burst K NAME at TICK work WORK seen TICK bound TICK done TICK`, with `-` for a tick that there isn't.
///
/// There is one answer for each burst. A fault leaves a prefix of the text in the sink. Nothing is
/// settled, and nothing is allocated.
pub fn write_bursts<K: Sink>(
    sink: &mut K,
    host: &Host,
    script: &Script,
    answers: &[BurstAnswer],
) -> Result<(), WriteFault>
    requires { length answers.now ≡ length (bursts_of script.now) }
    ensures { Writes (K.state sink.old) (K.state sink.new)
        (bursts_text host.now script.now answers.now) result }
{
    let vcpus = host.vcpus.items();
    let events = script.events();
    let mut k = 0;
    for i in 0..events.len() {
        let event = &events[i];
        if let Act::Burst { vcpu, work } = &event.act {
            let answer = &answers[k];
            put_burst(sink, vcpus, k, vcpu, event.tick, *work, answer)?;
            k += 1;
        }
    }
    Ok(())
}

// Writes the line of burst k.
#[tactic(auto, unfolding(crate::specs::BurstText::burst_line))]
fn put_burst<K: Sink>(
    sink: &mut K,
    vcpus: &[Vcpu],
    k: usize,
    vcpu: &VcpuNo,
    tick: u32,
    work: u32,
    answer: &BurstAnswer,
) -> Result<(), WriteFault>
    ensures { (event : ℕ) → Writes (K.state sink.old) (K.state sink.new)
        (burst_line (name_at (names_of vcpus.now) vcpu.now) k
        (record { event = event; tick = tick; vcpu = vcpu.now; work = work }) answer.now) result }
{
    put_line(
        sink,
        &[
            TextPiece::Text(b"burst"),
            TextPiece::Wide(k as u64),
            TextPiece::Text(name_in(vcpus, vcpu)),
            TextPiece::Text(b"at"),
            TextPiece::Number(tick),
            TextPiece::Text(b"work"),
            TextPiece::Number(work),
            TextPiece::Text(b"seen"),
            tick_piece(&answer.seen),
            TextPiece::Text(b"bound"),
            wide_piece(&answer.bound),
            TextPiece::Text(b"done"),
            tick_piece(&answer.done),
        ],
    )
}

// The tick, or `-` where there is none.
fn tick_piece(tick: &Option<u32>) -> TextPiece<'static>
    ensures { piece_text result ≡ tick_word tick.now }
{
    match tick {
        Some(tick) => TextPiece::Number(*tick),
        None => TextPiece::Text(b"-"),
    }
}

// The wide tick, or `-` where there is none.
fn wide_piece(tick: &Option<u64>) -> TextPiece<'static>
    ensures { piece_text result ≡ tick_word tick.now }
{
    match tick {
        Some(tick) => TextPiece::Wide(*tick),
        None => TextPiece::Text(b"-"),
    }
}

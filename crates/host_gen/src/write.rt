ghost use Rattle.std.specs.Prelude.{◌≡◌, flat_map};
ghost use Rattle.tab_io.specs.Sinks.{Writes};
ghost use Rattle.tab_words.specs.Texts.{text_of};
ghost use Rattle.host_gen.specs.HostText.{AreAdmitted, capped_lines, head_lines, host_text, truth_word, vcpu_text, format_lines, named_tick, number_lines};

use tab_core::{Host, TICK_NS, Vcpu};
use tab_io::{Sink, WriteFault, write_all};
use tab_words::{TextPiece, put_pieces};

/// Writes the host document of a host whose vCPUs are all admitted: in format 1 where its tick is the
/// default, and otherwise in format 2, which names the tick.
///
/// A fault leaves a prefix of the text in the sink. Nothing is settled.
pub fn write_host<K: Sink>(sink: &mut K, host: &Host) -> Result<(), WriteFault>
    requires { AreAdmitted host.now.vcpus }
    ensures { Writes (K.state sink.old) (K.state sink.new) (host_text host.now) result }
{
    put_head(sink, host)?;
    put_vcpus(sink, host.vcpus.items())
}

// Writes the lines of the host's own numbers.
fn put_head<K: Sink>(sink: &mut K, host: &Host) -> Result<(), WriteFault>
    ensures { Writes (K.state sink.old) (K.state sink.new) (text_of (head_lines host.now)) result }
{
    put_format(sink, host.tick_ns)?;
    put_numbers(sink, host)
}

// Writes the line of the format, and that of the tick where it is named.
fn put_format<K: Sink>(sink: &mut K, tick_ns: u32) -> Result<(), WriteFault>
    ensures { Writes (K.state sink.old) (K.state sink.new) (text_of (format_lines (named_tick tick_ns))) result }
{
    if tick_ns == TICK_NS {
        return write_all(sink, b"format = 1\n");
    }
    put_pieces(
        sink,
        &[
            TextPiece::Text(b"format = 2\ntick_ns = "),
            TextPiece::Number(tick_ns),
            TextPiece::Text(b"\n"),
        ],
    )
}

// Writes the lines of the host's other numbers.
fn put_numbers<K: Sink>(sink: &mut K, host: &Host) -> Result<(), WriteFault>
    ensures { Writes (K.state sink.old) (K.state sink.new) (text_of (number_lines host.now)) result }
{
    put_pieces(
        sink,
        &[
            TextPiece::Text(b"cores = "),
            TextPiece::Number(host.cores),
            TextPiece::Text(b"\nlag = "),
            TextPiece::Number(host.lag),
            TextPiece::Text(b"\nsliver = "),
            TextPiece::Number(host.sliver),
            TextPiece::Text(b"\nquantum = "),
            TextPiece::Number(host.quantum),
            TextPiece::Text(b"\n"),
        ],
    )
}

// Writes the lines of each vCPU.
fn put_vcpus<K: Sink>(sink: &mut K, vcpus: &[Vcpu]) -> Result<(), WriteFault>
    ensures { Writes (K.state sink.old) (K.state sink.new) (flat_map vcpu_text vcpus.now) result }
{
    for vcpu in vcpus {
        put_vcpu(sink, vcpu)?;
    }
    Ok(())
}

// Writes the lines of a vCPU, if it is admitted.
fn put_vcpu<K: Sink>(sink: &mut K, vcpu: &Vcpu) -> Result<(), WriteFault>
    ensures { Writes (K.state sink.old) (K.state sink.new) (vcpu_text vcpu.now) result }
{
    let Some(r) = &vcpu.reservation else {
        return Ok(());
    };
    put_pieces(
        sink,
        &[
            TextPiece::Text(b"\n[[vcpu]]\nname = \""),
            TextPiece::Text(vcpu.name.bytes()),
            TextPiece::Text(b"\"\nshare_ppm = "),
            TextPiece::Number(r.share_ppm),
            TextPiece::Text(b"\nlatency_ns = "),
            TextPiece::Wide(r.latency_ns),
            TextPiece::Text(b"\nrunnable = "),
            TextPiece::Text(word_of(vcpu.runnable)),
            TextPiece::Text(b"\n"),
            TextPiece::Text(capped_line(vcpu.capped)),
        ],
    )
}

// The truth value as a word.
fn word_of(truth: bool) -> &'static [u8]
    ensures { result.now ≡ truth_word truth }
{
    if truth { b"true" } else { b"false" }
}

// The line of a capped vCPU, or nothing.
fn capped_line(capped: bool) -> &'static [u8]
    ensures { result.now ≡ text_of (capped_lines capped) }
{
    if capped { b"capped = true\n" } else { b"" }
}

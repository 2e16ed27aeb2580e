ghost use Rattle.std.specs.Prelude.{◌≡◌, ◌≤◌, ◌*◌, length};
ghost use Rattle.tab_core.specs.declared.TheConstants.{MAX_VCPUS};
ghost use Rattle.tab_io.specs.Sinks.{Writes};
ghost use Rattle.view_lanes.specs.Titles.{counts_of, counts_text, head_in, head_of, kind_title, kind_word, lanes_note, lanes_word, plural, share_text, stints_text, sub_end, sub_text, ticks_text, title_of, title_text, title_times, trace_kind, trace_sub, trace_title};

use crate::amounts::tenths_ms;
use crate::frame::Frame;
use crate::lanes::{Lane, share_in, some_boxes, some_dense};
use crate::shown::{cores_in, rounds_of, shown_in, span_of};
use tab_io::{Sink, WriteFault, write_all};
use tab_words::{TextPiece, put_pieces};
use view_doc::{Stretch, View};

/// What the head of a picture or of a text says.
#[derive(Clone, Copy)]
pub struct Head {
    pub is_run: bool,
    pub by_vcpu: bool,
    pub cores: u32,
    pub vcpus: u64,
    /// How many rounds the stretches reach, and one at least.
    pub rounds: u64,
    /// How many stretches there are, drawn or not.
    pub stints: u64,
    /// The first tick that is shown.
    pub from: u32,
    /// The tick that ends what is shown.
    pub to: u32,
    /// How long what is shown lasts, in tenths of a millisecond.
    pub lasting: u64,
    /// How much of the lanes vCPUs have, in tenths of a percent.
    pub share: u64,
    /// Whether a lane is drawn in boxes.
    pub boxes: bool,
    /// Whether a lane is drawn in columns.
    pub columns: bool,
    /// The picture's number on its page.
    pub picture: u32,
}

/// What the head of a picture of these lanes says, for so many cores and vCPUs, of which there are at
/// most 256. `stretches` are all of the plan or the run.
#[tactic(auto, unfolding(crate::specs::Titles::head_of))]
pub fn head_of(frame: &Frame, stretches: &[Stretch], cores: u32, vcpus: u64, lanes: &[Lane]) -> Head
    requires { length lanes.now ≤ MAX_VCPUS }
    ensures { result ≡ head_of frame.now stretches.now cores vcpus lanes.now }
{
    Head {
        is_run: frame.is_run,
        by_vcpu: frame.by_vcpu,
        cores,
        vcpus,
        rounds: rounds_of(stretches),
        stints: stretches.len() as u64,
        from: frame.from,
        to: frame.to,
        lasting: tenths_ms(frame.tick, span_of(frame)),
        share: share_in(frame, lanes),
        boxes: some_boxes(lanes),
        columns: some_dense(lanes),
        picture: frame.picture,
    }
}

/// What the head of a picture of these lanes of a view says. There are at most 256 lanes.
pub fn head_in(frame: &Frame, view: &View, lanes: &[Lane]) -> Head
    requires { length lanes.now ≤ MAX_VCPUS }
    ensures { result ≡ head_in frame.now view.now lanes.now }
{
    head_of(
        frame,
        shown_in(view),
        cores_in(view),
        view.names.len() as u64,
        lanes,
    )
}

/// Writes the title: whether a plan or a run is shown, how many cores, vCPUs, rounds and stints it has,
/// and whose the lanes are.
///
/// A fault leaves a prefix of it in the sink. Nothing is settled.
pub fn put_title<K: Sink>(sink: &mut K, head: &Head) -> Result<(), WriteFault>
    ensures { Writes (K.state sink.old) (K.state sink.new) (title_text head.now) result }
{
    put_kind(sink, head)?;
    put_counts(sink, head.is_run, head.rounds, head.stints)?;
    put_lanes_word(sink, head.by_vcpu)
}

// Writes what it is of.
fn put_kind<K: Sink>(sink: &mut K, head: &Head) -> Result<(), WriteFault>
    ensures { Writes (K.state sink.old) (K.state sink.new) (kind_title head.now) result }
{
    put_title_of(
        sink,
        kind_word(head.is_run),
        head.cores,
        plural(u64::from(head.cores)),
        head.vcpus,
        plural(head.vcpus),
    )
}

fn put_lanes_word<K: Sink>(sink: &mut K, by_vcpu: bool) -> Result<(), WriteFault>
    ensures { Writes (K.state sink.old) (K.state sink.new) (lanes_word by_vcpu) result }
{
    write_all(sink, lanes_word(by_vcpu))
}

#[tactic(auto, unfolding(crate::specs::Titles::title_of))]
fn put_title_of<'a, K: Sink>(
    sink: &mut K,
    kind: &'a [u8],
    cores: u32,
    many: &'a [u8],
    vcpus: u64,
    more: &'a [u8],
) -> Result<(), WriteFault>
    ensures { Writes (K.state sink.old) (K.state sink.new)
        (title_of kind.now cores many.now vcpus more.now) result }
{
    put_pieces(
        sink,
        &[
            TextPiece::Text(kind),
            TextPiece::Text(b" of "),
            TextPiece::Number(cores),
            TextPiece::Text(b" core"),
            TextPiece::Text(many),
            TextPiece::Text(b", "),
            TextPiece::Wide(vcpus),
            TextPiece::Text(b" vCPU"),
            TextPiece::Text(more),
        ],
    )
}

// Writes how many rounds and stints a run has.
fn put_counts<K: Sink>(
    sink: &mut K,
    is_run: bool,
    rounds: u64,
    stints: u64,
) -> Result<(), WriteFault>
    ensures { Writes (K.state sink.old) (K.state sink.new) (counts_text is_run rounds stints) result }
{
    if is_run {
        put_counts_of(sink, rounds, plural(rounds), stints, plural(stints))
    } else {
        Ok(())
    }
}

#[tactic(auto, unfolding(crate::specs::Titles::counts_of))]
fn put_counts_of<'a, K: Sink>(
    sink: &mut K,
    rounds: u64,
    many: &'a [u8],
    stints: u64,
    more: &'a [u8],
) -> Result<(), WriteFault>
    ensures { Writes (K.state sink.old) (K.state sink.new) (counts_of rounds many.now stints more.now) result }
{
    put_pieces(
        sink,
        &[
            TextPiece::Text(b", "),
            TextPiece::Wide(rounds),
            TextPiece::Text(b" round"),
            TextPiece::Text(many),
            TextPiece::Text(b", "),
            TextPiece::Wide(stints),
            TextPiece::Text(b" stint"),
            TextPiece::Text(more),
        ],
    )
}

/// Writes the title of a host's trace.
pub fn put_trace_title<K: Sink>(sink: &mut K, head: &Head) -> Result<(), WriteFault>
    ensures { Writes (K.state sink.old) (K.state sink.new) (trace_title head.now) result }
{
    put_trace_kind(sink, head)?;
    put_stints(sink, head.stints)?;
    put_lanes_word(sink, head.by_vcpu)
}

fn put_trace_kind<K: Sink>(sink: &mut K, head: &Head) -> Result<(), WriteFault>
    ensures { Writes (K.state sink.old) (K.state sink.new) (trace_kind head.now) result }
{
    put_title_of(
        sink,
        b"Trace",
        head.cores,
        plural(u64::from(head.cores)),
        head.vcpus,
        plural(head.vcpus),
    )
}

// Writes how many stints it has.
fn put_stints<K: Sink>(sink: &mut K, stints: u64) -> Result<(), WriteFault>
    ensures { Writes (K.state sink.old) (K.state sink.new) (stints_text stints (plural stints)) result }
{
    put_stints_of(sink, stints, plural(stints))
}

#[tactic(auto, unfolding(crate::specs::Titles::stints_text))]
fn put_stints_of<K: Sink>(sink: &mut K, stints: u64, many: &[u8]) -> Result<(), WriteFault>
    ensures { Writes (K.state sink.old) (K.state sink.new) (stints_text stints many.now) result }
{
    put_pieces(
        sink,
        &[
            TextPiece::Text(b", "),
            TextPiece::Wide(stints),
            TextPiece::Text(b" stint"),
            TextPiece::Text(many),
        ],
    )
}

/// Writes which times of a host's trace are shown, whose ticks have so many ns, and what of them.
pub fn put_trace_sub<K: Sink>(sink: &mut K, head: &Head, tick: u16) -> Result<(), WriteFault>
    ensures { Writes (K.state sink.old) (K.state sink.new) (trace_sub head.now tick) result }
{
    put_times(sink, head, tick)?;
    put_sub_end(sink, head)
}

fn put_times<K: Sink>(sink: &mut K, head: &Head, tick: u16) -> Result<(), WriteFault>
    ensures { Writes (K.state sink.old) (K.state sink.new)
        (title_times (head.now.from * tick) (head.now.to * tick) head.now.lasting) result }
{
    put_times_of(
        sink,
        u64::from(head.from) * u64::from(tick),
        u64::from(head.to) * u64::from(tick),
        head.lasting,
    )
}

#[tactic(auto, unfolding(crate::specs::Titles::title_times))]
fn put_times_of<K: Sink>(sink: &mut K, from: u64, to: u64, lasting: u64) -> Result<(), WriteFault>
    ensures { Writes (K.state sink.old) (K.state sink.new) (title_times from to lasting) result }
{
    put_pieces(
        sink,
        &[
            TextPiece::Wide(from),
            TextPiece::Text(b" to "),
            TextPiece::Wide(to),
            TextPiece::Text(b" ns: "),
            TextPiece::Wide(lasting / 10),
            TextPiece::Text(b"."),
            TextPiece::Wide(lasting % 10),
            TextPiece::Text(b" ms"),
        ],
    )
}

// The word for what is shown.
fn kind_word(is_run: bool) -> &'static [u8]
    ensures { result.now ≡ kind_word is_run }
{
    if is_run { b"Run" } else { b"Plan" }
}

// What the lanes are, where it isn't cores.
fn lanes_word(by_vcpu: bool) -> &'static [u8]
    ensures { result.now ≡ lanes_word by_vcpu }
{
    if by_vcpu { b", by vCPU" } else { b"" }
}

/// Writes the line below the title: which ticks are shown and how long they last, and how much of the
/// lanes vCPUs have, or what is on lanes of vCPUs.
///
/// A fault leaves a prefix of it in the sink. Nothing is settled.
pub fn put_sub<K: Sink>(sink: &mut K, head: &Head) -> Result<(), WriteFault>
    ensures { Writes (K.state sink.old) (K.state sink.new) (sub_text head.now) result }
{
    put_ticks(sink, head.from, head.to, head.lasting)?;
    put_sub_end(sink, head)
}

#[tactic(auto, unfolding(crate::specs::Titles::ticks_text))]
fn put_ticks<K: Sink>(sink: &mut K, from: u32, to: u32, lasting: u64) -> Result<(), WriteFault>
    ensures { Writes (K.state sink.old) (K.state sink.new) (ticks_text from to lasting) result }
{
    put_pieces(
        sink,
        &[
            TextPiece::Text(b"Ticks "),
            TextPiece::Number(from),
            TextPiece::Text(b" to "),
            TextPiece::Number(to),
            TextPiece::Text(b": "),
            TextPiece::Wide(lasting / 10),
            TextPiece::Text(b"."),
            TextPiece::Wide(lasting % 10),
            TextPiece::Text(b" ms"),
        ],
    )
}

fn put_sub_end<K: Sink>(sink: &mut K, head: &Head) -> Result<(), WriteFault>
    ensures { Writes (K.state sink.old) (K.state sink.new) (sub_end head.now) result }
{
    if head.by_vcpu {
        write_all(sink, lanes_note(head.is_run))
    } else {
        put_share(sink, head.share)
    }
}

// What is on the lanes of vCPUs.
fn lanes_note(is_run: bool) -> &'static [u8]
    ensures { result.now ≡ lanes_note is_run }
{
    if is_run {
        b". The lanes are the vCPUs', the boxes the cores'."
    } else {
        b". A line is the longest wait for a slot; right of it how long that is."
    }
}

#[tactic(auto, unfolding(crate::specs::Titles::share_text))]
fn put_share<K: Sink>(sink: &mut K, share: u64) -> Result<(), WriteFault>
    ensures { Writes (K.state sink.old) (K.state sink.new) (share_text share) result }
{
    put_pieces(
        sink,
        &[
            TextPiece::Text(b", of which vCPUs have "),
            TextPiece::Wide(share / 10),
            TextPiece::Text(b"."),
            TextPiece::Wide(share % 10),
            TextPiece::Text(b" %."),
        ],
    )
}

// The ending of a word for so many.
pub(crate) fn plural(n: u64) -> &'static [u8]
    ensures { result.now ≡ plural n }
{
    if n == 1 { b"" } else { b"s" }
}

use tab_core::{MAX_TICK_NS, TICK_NS};
use tab_io::{Sink, WriteFault};
use tool_input::{Fault, finish, output_of, shown_of, tick_of};
use view_doc::View;
use view_export::{write_chrome, write_csv, write_json};

/// A format of what is shown, for other programs.
#[derive(Clone, Copy)]
pub enum Format {
    /// Comma-separated values.
    Csv,
    /// Trace events.
    Chrome,
    /// JSON.
    Json,
}

/// What the words of `export` say, where they name a format for other programs.
#[derive(Clone, Copy)]
pub struct ExportWords<'w> {
    /// The format.
    pub format: Format,
    /// The file to read; standard input where there is none.
    pub file: Option<&'w str>,
    /// Nanoseconds of a tick.
    pub tick_ns: Option<u32>,
}

/// Does `export` for other programs: it reads a text and writes its view in a format.
pub fn export_view(rt: &HostRuntime, words: &ExportWords<'_>) -> Result<(), Fault> {
    let (view, host_tick) = shown_of(rt, words.file)?;
    let tick_ns = match words.format {
        Format::Csv => TICK_NS,
        Format::Chrome | Format::Json => tick_of(rt, words.tick_ns, host_tick)?,
    };
    let mut sink = output_of(rt)?;
    put_view(&mut sink, words.format, &view, tick_ns)?;
    finish(&mut sink)
}

// Writes the view in a format.
fn put_view<K: Sink>(
    sink: &mut K,
    format: Format,
    view: &View,
    tick_ns: u32,
) -> Result<(), WriteFault> {
    match format {
        Format::Chrome => write_chrome(sink, view, tick_ns.min(MAX_TICK_NS)),
        Format::Json => write_json(sink, view, tick_ns),
        Format::Csv => write_csv(sink, view),
    }
}

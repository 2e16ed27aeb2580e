ghost use Rattle.std.specs.Prelude.{◌≤◌, length, option_copied};
ghost use Rattle.tab_core.specs.declared.TheConstants.{MAX_CORES, MAX_VCPUS};
ghost use Rattle.tab_io.specs.Sinks.{Writes};
ghost use Rattle.view_lanes.specs.Shown.{cores_in};
ghost use Rattle.view_page.specs.Pages.{both_tables, differences_part, framed_text, page_text, pictures_part, script_part, script_text, tables_part, top_text};
ghost use Rattle.view_page.specs.Written.{WritesPart};
ghost use Rattle.view_table.specs.Figures.{AreFigures};

use crate::escaped::put_escaped;
use crate::part::{part_result, put_picture, put_text};
use std::alloc::Global;
use tab_core::Vcpu;
use tab_io::{Sink, WriteFault, write_all};
use tab_words::{TextPiece, put_pieces};
use view_doc::View;
use view_lanes::{ChartFault, cores_in};
use view_table::{Figures, write_table, write_vm_table};

/// What a page shows.
#[derive(Clone, Copy)]
pub struct Page<'a> {
    /// The vCPUs of the host, whose reservations the tables of a plan have, where they are known.
    pub host: Option<&'a [Vcpu]>,
    /// The plan or the run.
    pub view: &'a View,
    /// The figures of the view.
    pub figures: &'a Figures,
    /// Nanoseconds of a tick.
    pub tick_ns: u16,
    /// The script of the run, where it is given.
    pub script: Option<&'a [u8]>,
    /// What differs from an older plan, as `write_diff` writes it, where it is given.
    pub differences: Option<&'a [u8]>,
}

/// Writes a view of at most 32 cores and 256 vCPUs as one page of HTML.
///
/// The page has the tables of a plan, beside what the vCPUs of a host have reserved, the pictures by core and by vCPU, the
/// script of a run, and what differs from an older plan. Where `tableau check` refuses the tables, its line is above them.
/// It loads nothing, and suits wide and narrow screens, light and
/// dark.
///
/// It fails where the sink does, or where memory runs out; a prefix of the page is in the sink then. Nothing is
/// settled.
pub fn write_page<K: Sink>(alloc: Global, sink: &mut K, page: &Page<'_>) -> Result<(), ChartFault>
    requires cores { page.now.view.now.cores ≤ MAX_CORES }
    requires vcpus { length page.now.view.now.names.items ≤ MAX_VCPUS }
    requires tasks { length page.now.view.now.tasks.items ≤ MAX_VCPUS }
    requires figures { AreFigures page.now.view.now page.now.figures.now }
    ensures { WritesPart (K.state sink.old) (K.state sink.new) (page_text page.now) result }
{
    put_top(sink, page.view, page.tick_ns)?;
    put_tables(sink, page.host, page.view, page.figures, page.tick_ns)?;
    put_pictures(alloc, sink, page.view, page.figures, page.tick_ns)?;
    put_script(sink, &page.script)?;
    put_differences(sink, &page.differences)?;
    put_text(sink, b"</body>\n</html>\n")
}

// Writes the head and the counts.
fn put_top<K: Sink>(sink: &mut K, view: &View, tick_ns: u16) -> Result<(), ChartFault>
    ensures { WritesPart (K.state sink.old) (K.state sink.new)
        (top_text (cores_in view.now) (length view.now.names.items) tick_ns) result }
{
    part_result(put_counts(
        sink,
        cores_in(view),
        view.names.len() as u64,
        u32::from(tick_ns),
    ))
}

#[tactic(auto, unfolding(crate::specs::Pages::top_text))]
fn put_counts<K: Sink>(sink: &mut K, cores: u32, vcpus: u64, tick_ns: u32) -> Result<(), WriteFault>
    ensures { Writes (K.state sink.old) (K.state sink.new) (top_text cores vcpus tick_ns) result }
{
    put_pieces(
        sink,
        &[
            TextPiece::Text(
                b"<!DOCTYPE html>\n<html lang=\"en\">\n<head>\n<meta charset=\"utf-8\">\n<meta name=\"viewport\" content=\"width=device-width,initial-scale=1\">\n<title>Cores and vCPUs</title>\n<style>\n:root{color-scheme:light dark;--ground:#ffffff;--words:#1d2433;--dim:#5d6778;--card:#f6f7f9;--line:#d5dae3}\n@media (prefers-color-scheme:dark){:root{--ground:#12161e;--words:#e4e8ef;--dim:#9aa5b5;--card:#1b212c;--line:#343d4c}}\nbody{margin:0 auto;max-width:96rem;padding:1rem;background:var(--ground);color:var(--words);font:1rem/1.5 system-ui,sans-serif}\nh1{font-size:1.5rem}h2{margin:1.5rem 0 .5rem;font-size:1.15rem}\ndl{display:grid;grid-template-columns:max-content 1fr;gap:.25rem 1rem}dt{color:var(--dim)}dd{margin:0}\npre,figure{margin:0;overflow-x:auto;background:var(--card);border:1px solid var(--line);border-radius:.5rem}\npre{padding:.75rem;font:.85rem/1.4 monospace}pre:empty::before{content:'nothing differs'}\nfigure svg{display:block;width:100%;min-width:60rem;height:auto}\n</style>\n</head>\n<body>\n<h1>Cores and vCPUs</h1>\n<dl><dt>cores</dt><dd>",
            ),
            TextPiece::Number(cores),
            TextPiece::Text(b"</dd><dt>vCPUs</dt><dd>"),
            TextPiece::Wide(vcpus),
            TextPiece::Text(b"</dd><dt>tick</dt><dd>"),
            TextPiece::Number(tick_ns),
            TextPiece::Text(b" ns</dd></dl>\n"),
        ],
    )
}

// Writes the tables, if the view has a plan's vCPUs.
fn put_tables<K: Sink>(
    sink: &mut K,
    host: Option<&[Vcpu]>,
    view: &View,
    figures: &Figures,
    tick_ns: u16,
) -> Result<(), ChartFault>
    requires figures { AreFigures view.now figures.now }
    requires cores { view.now.cores ≤ MAX_CORES }
    requires tasks { length view.now.tasks.items ≤ MAX_VCPUS }
    ensures { WritesPart (K.state sink.old) (K.state sink.new)
        (tables_part (option_copied host.entry) figures.now.refusal.items tick_ns view.now) result }
{
    if view.tasks.is_empty() {
        return Ok(());
    }
    part_result(put_both_tables(sink, host, view, figures, u32::from(tick_ns)))
}

fn put_both_tables<K: Sink>(
    sink: &mut K,
    host: Option<&[Vcpu]>,
    view: &View,
    figures: &Figures,
    tick_ns: u32,
) -> Result<(), WriteFault>
    requires figures { AreFigures view.now figures.now }
    requires cores { view.now.cores ≤ MAX_CORES }
    requires tasks { length view.now.tasks.items ≤ MAX_VCPUS }
    ensures { Writes (K.state sink.old) (K.state sink.new)
        (both_tables (option_copied host.entry) figures.now.refusal.items tick_ns view.now) result }
{
    write_all(sink, b"<h2>By vCPU and by core</h2>\n<pre tabindex=\"0\">")?;
    write_table(sink, host, view, figures, tick_ns)?;
    write_all(
        sink,
        b"</pre>\n<h2>By virtual machine and by core</h2>\n<pre tabindex=\"0\">",
    )?;
    write_vm_table(sink, host, view, figures, tick_ns)?;
    write_all(sink, b"</pre>\n")
}

// Draws both pictures.
fn put_pictures<K: Sink>(
    alloc: Global,
    sink: &mut K,
    view: &View,
    figures: &Figures,
    tick_ns: u16,
) -> Result<(), ChartFault>
    requires cores { view.now.cores ≤ MAX_CORES }
    requires vcpus { length view.now.names.items ≤ MAX_VCPUS }
    requires figures { AreFigures view.now figures.now }
    ensures { WritesPart (K.state sink.old) (K.state sink.new)
        (pictures_part tick_ns view.now figures.now) result }
{
    put_text(
        sink,
        b"<h2>Picture of the cores</h2>\n<figure tabindex=\"0\">\n",
    )?;
    put_picture(alloc, sink, view, figures, false, tick_ns)?;
    put_text(
        sink,
        b"</figure>\n<h2>Picture of the vCPUs</h2>\n<figure tabindex=\"0\">\n",
    )?;
    put_picture(alloc, sink, view, figures, true, tick_ns)?;
    put_text(sink, b"</figure>\n")
}

// Writes the script, where one is given.
fn put_script<K: Sink>(sink: &mut K, script: &Option<&[u8]>) -> Result<(), ChartFault>
    ensures { WritesPart (K.state sink.old) (K.state sink.new) (script_part (option_copied script.now)) result }
{
    match script {
        None => Ok(()),
        Some(text) => part_result(put_script_text(sink, text)),
    }
}

fn put_script_text<K: Sink>(sink: &mut K, script: &[u8]) -> Result<(), WriteFault>
    ensures { Writes (K.state sink.old) (K.state sink.new) (script_text script.now) result }
{
    write_all(sink, b"<h2>Script</h2>\n<pre tabindex=\"0\">")?;
    put_escaped(sink, script)?;
    write_all(sink, b"</pre>\n")
}

// Writes what differs, where an older plan is given.
fn put_differences<K: Sink>(sink: &mut K, differences: &Option<&[u8]>) -> Result<(), ChartFault>
    ensures { WritesPart (K.state sink.old) (K.state sink.new)
        (differences_part (option_copied differences.now)) result }
{
    match differences {
        None => Ok(()),
        Some(text) => part_result(put_framed(sink, text)),
    }
}

#[tactic(auto, unfolding(crate::specs::Pages::framed_text))]
fn put_framed<K: Sink>(sink: &mut K, text: &[u8]) -> Result<(), WriteFault>
    ensures { Writes (K.state sink.old) (K.state sink.new) (framed_text text.now) result }
{
    put_pieces(
        sink,
        &[
            TextPiece::Text(b"<h2>What differs from the older plan</h2>\n<pre tabindex=\"0\">"),
            TextPiece::Text(text),
            TextPiece::Text(b"</pre>\n"),
        ],
    )
}

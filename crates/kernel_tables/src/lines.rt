ghost use Rattle.std.specs.Prelude.{◌≡◌, ◌≤◌, ◌++◌, OnOk};
ghost use Rattle.tab_core.specs.declared.TheConstants.{ROUND};
ghost use Rattle.kernel_tables.specs.Lines.{row_line, span_line, stretch_line};

use crate::bytes::{put_bytes, put_number, put_some};
use crate::hexadecimal::put_set;
use std::alloc::AllocError;
use tab_core::{CoreNo, VcpuNo};
use table_form::Span;

/// Appends the line of a core's span, with so many nanoseconds in a tick and so many words in a set.
#[tactic(auto, unfolding(crate::specs::Lines::span_line))]
pub(crate) fn put_span(
    text: &mut Vec<u8>,
    tick_ns: u32,
    words: u32,
    span: &Span<'_>,
) -> Result<(), AllocError>
    requires few { words ≤ 4 }
    ensures { OnOk result (text.new.items ≡ text.old.items
        ++ span_line tick_ns words span.now.owner span.now.sharers.now span.now.end) }
{
    put_number(text, u64::from(span.end) * u64::from(tick_ns))?;
    put_bytes(text, b" ")?;
    put_some(text, number_of(span.owner))?;
    put_set(text, span.sharers, words)?;
    put_bytes(text, b"\n")
}

fn number_of(vcpu: Option<VcpuNo>) -> Option<u32>
    ensures { result ≡ vcpu }
{
    match vcpu {
        None => None,
        Some(vcpu) => Some(vcpu.0),
    }
}

/// The number of a core, if there is one.
pub(crate) fn core_number(core: Option<CoreNo>) -> Option<u32>
    ensures { result ≡ core }
{
    match core {
        None => None,
        Some(core) => Some(core.0),
    }
}

/// Appends the line of a vCPU's stretch.
#[tactic(auto, unfolding(crate::specs::Lines::stretch_line))]
pub(crate) fn put_stretch(
    text: &mut Vec<u8>,
    tick_ns: u32,
    core: Option<CoreNo>,
    end: u32,
) -> Result<(), AllocError>
    ensures { OnOk result (text.new.items ≡ text.old.items ++ stretch_line tick_ns core end) }
{
    put_number(text, u64::from(end) * u64::from(tick_ns))?;
    put_bytes(text, b" ")?;
    put_some(text, core_number(core))?;
    put_bytes(text, b"\n")
}

/// Appends the line before a row.
#[tactic(auto, unfolding(crate::specs::Lines::row_line))]
pub(crate) fn put_row_line(
    text: &mut Vec<u8>,
    what: &[u8],
    number: u32,
    count: u32,
) -> Result<(), AllocError>
    ensures { OnOk result (text.new.items ≡ text.old.items ++ row_line what.now number count) }
{
    put_bytes(text, what)?;
    put_number(text, u64::from(number))?;
    put_bytes(text, b" ")?;
    put_number(text, u64::from(count))?;
    put_bytes(text, b"\n")
}

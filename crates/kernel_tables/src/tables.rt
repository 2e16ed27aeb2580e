ghost use Rattle.std.specs.Prelude.{◌≡◌, ◌<◌, ◌≤◌, ◌++◌, ◌^◌, IfOk, OnOk, codes, decimal, length, slice_get};
ghost use Rattle.tab_core.specs.declared.TheConstants.{MAX_VCPUS};
ghost use Rattle.tab_words.specs.Texts.{texts_below};
ghost use Rattle.table_form.specs.Tables.Serves.{flat};
ghost use Rattle.table_form.specs.Tables.Views.{plan_view};
ghost use Rattle.vcpu_names.specs.Names.{names_of};
ghost use Rattle.kernel_tables.specs.Lines.{hex_text};
ghost use Rattle.kernel_tables.specs.TablesText.{IsBody, IsTablesText, count_lines, form_lines, head_text, share_word, time_lines, vcpu_line, vcpu_text};

use crate::bytes::{put_bytes, put_number, put_some};
use crate::hexadecimal::put_hex;
use crate::lines::core_number;
use crate::rows::{core_rows, vcpu_rows};
use crate::sum::checksum;
use slice_table::RowOwners;
use std::alloc::{AllocError, Global};
use tab_core::{Host, NoMemory, ROUND, Vcpu, VcpuNo};
use table_form::Plan;

/// The text of the tables of the host's plan, made of what has the checksum `made`.
///
/// Fails only when memory runs out.
pub fn tables_text(alloc: Global, made: u64, host: &Host, plan: &Plan) -> Result<Vec<u8>, NoMemory>
    ensures { IfOk result (λ text. IsTablesText made host.now (plan_view plan.now) text.items) }
{
    let mut text = body_of(alloc, made, host, plan)?;
    let sum = checksum(&text);
    put_sum(&mut text, sum)?;
    Ok(text)
}

// Appends the line of the checksum.
fn put_sum(text: &mut Vec<u8>, sum: u64) -> Result<(), AllocError>
    ensures { OnOk result (text.new.items ≡ text.old.items ++ (codes "sum " ++ (hex_text sum ++ codes "\n"))) }
{
    put_bytes(text, b"sum ")?;
    put_hex(text, sum)?;
    put_bytes(text, b"\n")
}

// The text up to its checksum.
fn body_of(alloc: Global, made: u64, host: &Host, plan: &Plan) -> Result<Vec<u8>, NoMemory>
    ensures { IfOk result (λ text. IsBody made host.now (plan_view plan.now) text.items) }
{
    let vcpus = host.vcpus.items();
    let words = (vcpus.len() as u32 + 63) / 64;
    let owners = RowOwners::of(alloc, plan)?;
    let cores = core_rows(alloc, plan, &owners, host.tick_ns, words)?;
    let places = vcpu_rows(alloc, plan, &owners, host.tick_ns, vcpus.len())?;
    let mut text = Vec::new(alloc);
    put_head(&mut text, made, host, plan.tables.rows.items().len())?;
    put_vcpus(&mut text, vcpus, plan)?;
    put_bytes(&mut text, &cores)?;
    put_bytes(&mut text, &places)?;
    Ok(text)
}

// Appends the first lines.
fn put_head(text: &mut Vec<u8>, made: u64, host: &Host, cores: usize) -> Result<(), AllocError>
    ensures { OnOk result (text.new.items ≡ text.old.items ++ head_text made host.now cores) }
{
    put_form(text, made)?;
    put_times(text, u64::from(host.tick_ns), u64::from(host.quantum))?;
    put_counts(text, cores as u64, host.vcpus.items().len() as u64)
}

#[tactic(auto, unfolding(crate::specs::TablesText::form_lines))]
fn put_form(text: &mut Vec<u8>, made: u64) -> Result<(), AllocError>
    ensures { OnOk result (text.new.items ≡ text.old.items ++ form_lines made) }
{
    put_bytes(text, b"tableau scx 1\nfrom ")?;
    put_hex(text, made)?;
    put_bytes(text, b"\n")
}

#[tactic(auto, unfolding(crate::specs::TablesText::time_lines))]
fn put_times(text: &mut Vec<u8>, tick_ns: u64, quantum: u64) -> Result<(), AllocError>
    requires tick { tick_ns < 2 ^ 32 }
    requires quantum { quantum < 2 ^ 32 }
    ensures { OnOk result (text.new.items ≡ text.old.items ++ time_lines tick_ns quantum) }
{
    put_named(text, b"tick ", tick_ns)?;
    put_named(text, b"\nround ", u64::from(ROUND) * tick_ns)?;
    put_named(text, b"\nquantum ", quantum * tick_ns)?;
    put_bytes(text, b"\n")
}

#[tactic(auto, unfolding(crate::specs::TablesText::count_lines))]
fn put_counts(text: &mut Vec<u8>, cores: u64, vcpus: u64) -> Result<(), AllocError>
    ensures { OnOk result (text.new.items ≡ text.old.items ++ count_lines cores vcpus) }
{
    put_named(text, b"cores ", cores)?;
    put_named(text, b"\nvcpus ", vcpus)?;
    put_bytes(text, b"\n")
}

fn put_named(text: &mut Vec<u8>, name: &[u8], number: u64) -> Result<(), AllocError>
    ensures { OnOk result (text.new.items ≡ text.old.items ++ (name.now ++ decimal number)) }
{
    put_bytes(text, name)?;
    put_number(text, number)
}

// Appends the lines of the vCPUs.
fn put_vcpus(text: &mut Vec<u8>, vcpus: &[Vcpu], plan: &Plan) -> Result<(), AllocError>
    requires { length vcpus.now ≤ MAX_VCPUS }
    ensures { OnOk result (text.new.items ≡ text.old.items
        ++ texts_below (vcpu_text (names_of vcpus.now) (plan_view plan.now)) (length vcpus.now)) }
{
    for number in 0..vcpus.len() {
        put_vcpu_at(text, vcpus, plan, number)?;
    }
    Ok(())
}

fn put_vcpu_at(
    text: &mut Vec<u8>,
    vcpus: &[Vcpu],
    plan: &Plan,
    number: usize,
) -> Result<(), AllocError>
    requires few { length vcpus.now ≤ MAX_VCPUS }
    requires low { number < length vcpus.now }
    ensures { OnOk result (text.new.items ≡ text.old.items
        ++ vcpu_text (names_of vcpus.now) (plan_view plan.now) number) }
{
    let vcpu = VcpuNo(number as u32);
    let home = home_of(plan, vcpu);
    put_vcpu(
        text,
        vcpu,
        vcpus[number].name.bytes(),
        home,
        plan.capped.has(vcpu),
    )
}

// The number of the home core of the vCPU, if it has one.
fn home_of(plan: &Plan, vcpu: VcpuNo) -> Option<u32>
    ensures { result ≡ flat (slice_get plan.now.tables.homes vcpu) }
{
    match plan.tables.homes.items().get(vcpu.index()) {
        Some(home) => core_number(*home),
        None => None,
    }
}

#[tactic(auto, unfolding(crate::specs::TablesText::vcpu_line))]
fn put_vcpu(
    text: &mut Vec<u8>,
    vcpu: VcpuNo,
    name: &[u8],
    home: Option<u32>,
    capped: bool,
) -> Result<(), AllocError>
    ensures { OnOk result (text.new.items ≡ text.old.items ++ vcpu_line vcpu name.now home capped) }
{
    put_named(text, b"vcpu ", u64::from(vcpu.0))?;
    put_bytes(text, b" ")?;
    put_bytes(text, name)?;
    put_bytes(text, b" ")?;
    put_some(text, home)?;
    put_bytes(text, share_word(capped))
}

fn share_word(capped: bool) -> &'static [u8]
    ensures { result.now ≡ share_word capped }
{
    if capped { b" capped\n" } else { b" shares\n" }
}

ghost use Rattle.std.specs.Prelude.{◌≡◌, ◌<◌, ◌↔◌, ◌++◌, IsTrue, [], ◌∷◌, IfOk, OnOk, length};
ghost use Rattle.tab_core.specs.declared.TheConstants.{ROUND};
ghost use Rattle.table_form.specs.Tables.Views.{plan_view};
ghost use Rattle.slice_table.specs.Inside.Sweeps.{IsScope};
ghost use Rattle.slice_table.specs.Owners.{AreRowOwners};
ghost use Rattle.slice_table.specs.Slices.{AreSpansOf};

use crate::full_span::FullSpan;
use crate::own_spans::{own_spans, owner_place};
use crate::owners::RowOwners;
use crate::scope::{Scope, scope_of};
use crate::sight::{first_numbers, look};
use crate::span_list::SpanList;
use std::alloc::{AllocError, Global};
use tab_core::{CoreNo, ROUND, VcpuSet};
use table_form::{Plan, Spot};

/// The spans of the core's row in the plan: its segments, where no other row matters, else by one sweep
/// over the segments of the rows that matter.
pub(crate) fn spans_of(
    alloc: Global,
    plan: &Plan,
    owners: &RowOwners,
    core: CoreNo,
) -> Result<SpanList, AllocError>
    requires core { core < length plan.now.tables.rows }
    requires owners { AreRowOwners (plan_view plan.now) owners.now }
    ensures { IfOk result (λ spans. AreSpansOf (plan_view plan.now) core 0 spans ROUND) }
{
    let scope = scope_of(alloc, plan, owners, core)?;
    if scope.others.is_empty() {
        return own_spans(alloc, plan, &scope);
    }
    sweep(alloc, plan, &scope)
}

fn sweep(alloc: Global, plan: &Plan, scope: &Scope) -> Result<SpanList, AllocError>
    requires { IsScope (plan_view plan.now) scope.now }
    ensures { IfOk result (λ spans. AreSpansOf (plan_view plan.now) scope.now.core 0 spans ROUND) }
{
    let mut numbers = first_numbers();
    let mut last = [0; PLACES];
    let mut spans = SpanList::with_room(alloc, own_segments(plan, scope))?;
    let mut spot = look(plan, scope, &mut numbers, 0);
    'growing: while spot.end < ROUND {
        let next = look(plan, scope, &mut numbers, spot.end);
        if is_alike(&spot, &next) {
            spot.end = next.end;
        } else {
            add(&mut spans, &mut last, FullSpan::of(spot, &scope.sharers))?;
            spot = next;
        }
    }
    add(&mut spans, &mut last, FullSpan::of(spot, &scope.sharers))?;
    spans.shrink();
    Ok(spans)
}

// How many segments the core's own row has: as many spans as there are where nobody is ever away.
fn own_segments(plan: &Plan, scope: &Scope) -> usize
    requires { scope.now.core < length plan.now.tables.rows }
{
    plan.tables.rows.items()[scope.core.index()]
        .segments()
        .len()
}

// Places for numbers of what spans show: two for each owner and for idle time.
const PLACES: usize = 514;

// Appends the span. What it shows is sought where the last one like it has it.
fn add(spans: &mut SpanList, last: &mut [u32; PLACES], span: FullSpan) -> Result<(), AllocError>
    requires { length spans.old < ROUND }
    ensures { OnOk result (spans.new ≡ spans.old ++ span ∷ []) }
{
    let place = place_of(&span);
    last[place] = spans.push(span, last[place])?;
    Ok(())
}

// The place in this list of the number of what the last span with this owner shows, apart for spans
// with and without vCPUs away.
fn place_of(span: &FullSpan) -> usize
    ensures { result < PLACES }
{
    let owner = owner_place(span.owner);
    if span.away.same(&VcpuSet::empty()) {
        2 * owner
    } else {
        2 * owner + 1
    }
}

// Whether the two have one owner and one set of vCPUs away.
fn is_alike(a: &Spot, b: &Spot) -> bool
    ensures { IsTrue result ↔ (a.now.owner ≡ b.now.owner) × (a.now.away ≡ b.now.away) }
{
    a.owner == b.owner && a.away.same(&b.away)
}

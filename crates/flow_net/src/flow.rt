ghost use Rattle.std.specs.Prelude.{ℕ, ◌≡◌, ◌-◌, ◌<◌, slice_index};
ghost use Rattle.flow_net.specs.Load.{job, jobs, span};
ghost use Rattle.flow_net.specs.Rows.{ticks_at, with_ticks};
ghost use Rattle.flow_net.specs.Inside.Demanded.{IsFlowOf, load};

use crate::demands::Demands;
use crate::ticks::{Ticks, lower_at, raise_at};

// A flow: for each interval the ticks of each vCPU and the room that is left, and for each vCPU
// what each of its jobs still needs.
#[derive(Drop)]
pub(crate) struct Flow {
    pub(crate) rows: Vec<Ticks>,
    pub(crate) lacks: Vec<Ticks>,
    pub(crate) room: Vec<u32>,
}

// Takes one tick of an interval's room, which no vCPU has yet.
pub(crate) fn take_room(_demands: &Demands, flow: &mut Flow, i: usize)
    requires whole { IsFlowOf _demands.now flow.old (load _demands.now).count }
    requires interval { i < (load _demands.now).count }
    requires room { 0 < slice_index flow.old.room.items i }
    ensures net { IsFlowOf _demands.now flow.new i }
    ensures rows { flow.new.rows.items ≡ flow.old.rows.items }
    ensures lacks { flow.new.lacks.items ≡ flow.old.lacks.items }
{
    flow.room[i] -= 1;
}

// A tick of a job moves from interval `p` to interval `j`, which was one short.
pub(crate) fn shift(_demands: &Demands, flow: &mut Flow, v: usize, j: usize, p: usize)
    requires net { IsFlowOf _demands.now flow.old j }
    requires vcpu { v < (load _demands.now).width }
    requires to { j < (load _demands.now).count }
    requires from { p < (load _demands.now).count }
    requires short { ticks_at flow.old.rows.items j v < span (load _demands.now) j }
    requires same { job (load _demands.now) v j ≡ job (load _demands.now) v p }
    requires some { 0 < ticks_at flow.old.rows.items p v }
    ensures net { IsFlowOf _demands.now flow.new p }
    ensures others { (w i : ℕ) → (w ≡ v → job (load _demands.now) v i ≡ job (load _demands.now) v j → ⊥)
        → ticks_at flow.new.rows.items i w ≡ ticks_at flow.old.rows.items i w }
    ensures lacks { flow.new.lacks.items ≡ flow.old.lacks.items }
{
    raise_at(&mut flow.rows, j, v);
    lower_at(&mut flow.rows, p, v);
}

// The interval that was one short gets a tick which its job `k` still needed.
pub(crate) fn give(_demands: &Demands, flow: &mut Flow, v: usize, k: usize, j: usize)
    requires net { IsFlowOf _demands.now flow.old j }
    requires vcpu { v < (load _demands.now).width }
    requires interval { j < (load _demands.now).count }
    requires job { k ≡ job (load _demands.now) v j }
    requires short { ticks_at flow.old.rows.items j v < span (load _demands.now) j }
    requires lacks { 0 < ticks_at flow.old.lacks.items v k }
    ensures net { IsFlowOf _demands.now flow.new (load _demands.now).count }
    ensures lacks { flow.new.lacks.items
        ≡ with_ticks flow.old.lacks.items v k (ticks_at flow.old.lacks.items v k - 1) }
{
    raise_at(&mut flow.rows, j, v);
    lower_at(&mut flow.lacks, v, k);
}

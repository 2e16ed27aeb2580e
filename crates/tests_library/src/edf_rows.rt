ghost use Rattle.std.specs.Prelude.{◌≤◌};
ghost use Rattle.table_form.specs.Planning.Windows.{DistinctVcpus};

use edf_table::{EdfFault, simulate};
use std::test::Fail;
use tab_core::{CoreNo, Piece, VcpuNo};
use table_form::CoreTable;

// vCPU 0 over whole periods, and vCPU 1 inside them.
#[tactic(auto, unfolding(tab_core::specs::Period::is_period))]
fn around(cost: u32) -> [Piece; 2]
    requires some { 1 ≤ cost }
    requires within { cost ≤ 100 }
    ensures { DistinctVcpus result }
{
    [
        Piece {
            vcpu: VcpuNo(0),
            core: CoreNo(0),
            cost,
            from: 0,
            to: 100,
            period: 100,
        },
        Piece {
            vcpu: VcpuNo(1),
            core: CoreNo(0),
            cost: 30,
            from: 50,
            to: 80,
            period: 100,
        },
    ]
}

// The owners and the ends of the first segments.
const FULL_BEGIN: [(Option<VcpuNo>, u32); 4] = [
    (Some(VcpuNo(0)), 50),
    (Some(VcpuNo(1)), 80),
    (Some(VcpuNo(0)), 150),
    (Some(VcpuNo(1)), 180),
];

// Whether the row begins with segments of these owners and ends.
fn begins_with(row: &CoreTable, expected: &[(Option<VcpuNo>, u32)]) -> bool {
    let segments = row.segments();
    if segments.len() < expected.len() {
        return false;
    }
    for i in 0..expected.len() {
        let segment = &segments[i];
        if (segment.owner.vcpu(), segment.end) != expected[i] {
            return false;
        }
    }
    true
}

#[test]
fn a_full_core(rt: HostRuntime) -> Result<(), Fail> {
    let row = simulate(rt.alloc(), &around(70))?;
    assert!(rt; begins_with(&row, &FULL_BEGIN));
    Ok(())
}

#[test]
fn an_overload(rt: HostRuntime) {
    let miss = EdfFault::Miss {
        from: 0,
        to: 100,
        demand: 110,
    };
    assert_eq!(rt; simulate(rt.alloc(), &around(80)).err(), Some(miss));
}

ghost use Rattle.std.specs.Prelude.{◌<◌, ◌≤◌, IfOk, length};
ghost use Rattle.tab_core.specs.declared.TheConstants.{WHOLE_PPM};
ghost use Rattle.table_form.specs.Running.Courses.{FitsRounds};

use crate::samples::vcpu_of;
use plan_book::{BookFault, Outcome, PlanBook, make_book};
use script_doc::{Script, read_script};
use std::alloc::Global;
use std::test::Fail;
use tab_core::{Host, Name, Reservation, TICK_NS, VcpuNo, Vcpus};

// A share in ppm of a core that may wait a round.
fn patient(share_ppm: u32) -> Option<Reservation>
    requires some { 1 ≤ share_ppm }
    requires whole { share_ppm ≤ WHOLE_PPM }
{
    Some(Reservation {
        share_ppm,
        latency_ns: 102_702_600,
    })
}

// One core with a, which is runnable, and b, which isn't.
fn host_of(
    alloc: Global,
    first: Option<Reservation>,
    second: Option<Reservation>,
) -> Result<Host, Fail> {
    let a = Name::of(alloc, b"a")?;
    let b = Name::of(alloc, b"b")?;
    let mut vcpus = Vec::new(alloc);
    vcpus.push(vcpu_of(a, first, true, false))?;
    vcpus.push(vcpu_of(b, second, false, false))?;
    Ok(Host {
        tick_ns: TICK_NS,
        cores: 1,
        lag: 1000,
        sliver: 30,
        quantum: 1000,
        vcpus: Vcpus::of(vcpus),
    })
}

// The book of the host and the script of this text, for one round.
pub(crate) fn book_of(alloc: Global, host: &Host, text: &[u8]) -> Result<PlanBook, Fail>
    requires { length text.now < 1000 }
    ensures { IfOk result (λ book. FitsRounds book.course 1) }
{
    let script = read_script(alloc, text, host, 1)?;
    make_book(alloc, host, &script).map_err(|fault| told(&fault))
}

fn told(fault: &BookFault) -> Fail {
    match fault {
        BookFault::NoPeriod { .. } => Fail::from("no period"),
        BookFault::NoRoom { .. } => Fail::from("no room"),
        BookFault::NoMemory => Fail::from("no memory"),
    }
}

// For each count of first events the plan's number, which vCPUs have a task in it, and which are runnable.
fn row_at(book: &PlanBook, n: u32) -> (u32, [bool; 2], [bool; 2])
    requires { n ≤ length book.now.course.ticks }
{
    let course = book.course();
    let tasks = course.plan_after(n).tasks.items();
    let runnable = course.runnable_after(n);
    let has_task = [
        matches!(tasks.first(), Some(Some(_))),
        matches!(tasks.get(1), Some(Some(_))),
    ];
    let runs = [runnable.has(VcpuNo(0)), runnable.has(VcpuNo(1))];
    (course.plan_number(n), has_task, runs)
}

const A: [bool; 2] = [true, false];

const B: [bool; 2] = [false, true];

const BOTH: [bool; 2] = [true, true];

const NOBODY: [bool; 2] = [false, false];

// A script, and for each count the plan's number, who has a task and who is runnable.
const CASES: [(&[u8], &[(u32, [bool; 2], [bool; 2])]); 9] = [
    (b"", &[(0, A, A)]),
    (
        b"20000 change set a 250000 102702600\n40000 change set a 1000 0\n60000 change set a 1000000 0",
        &[(0, A, A), (1, A, A), (1, A, A), (2, A, A)],
    ),
    (
        b"5 change leave a set a 1 102702600",
        &[(0, A, A), (1, A, A)],
    ),
    (
        b"5 change set a 1 102702600 leave a",
        &[(0, A, A), (1, NOBODY, A)],
    ),
    (
        b"5 change set b 600000 102702600\n5 change set b 500000 102702600",
        &[(0, A, A), (0, A, A), (1, BOTH, A)],
    ),
    (
        b"5 change leave a set b 1000 0\n6 change set b 500000 102702600",
        &[(0, A, A), (0, A, A), (1, BOTH, A)],
    ),
    (
        b"5 wake b\n5 block a\n6 block b",
        &[(0, A, A), (0, A, BOTH), (0, A, B), (0, A, NOBODY)],
    ),
    (
        b"5 change leave b\n5 wake b\n5 change leave b",
        &[(0, A, A), (1, A, A), (1, A, BOTH), (2, A, BOTH)],
    ),
    (
        b"5 wake b\n5 change leave a\n5 block a\n6 change set a 500000 102702600",
        &[
            (0, A, A),
            (0, A, BOTH),
            (1, NOBODY, BOTH),
            (1, NOBODY, B),
            (2, A, B),
        ],
    ),
];

// a has half of the core and is runnable, b isn't admitted and isn't runnable.
#[test]
fn each_count_has_its_plan_and_set(rt: HostRuntime) -> Result<(), Fail> {
    let host = host_of(rt.alloc(), patient(500_000), None)?;
    for (text, rows) in CASES {
        assert!(rt; text.len() < 1000);
        let book = book_of(rt.alloc(), &host, text)?;
        let count = book.course().count();
        assert_eq!(rt; count as usize + 1, rows.len(), "of {text:?}");
        for n in 0..count + 1 {
            assert_eq!(rt; row_at(&book, n), rows[n as usize], "after {n} of {text:?}");
        }
    }
    Ok(())
}

#[test]
fn the_course_has_the_ticks_and_the_numbers_of_the_host(rt: HostRuntime) -> Result<(), Fail> {
    let host = host_of(rt.alloc(), None, None)?;
    let book = book_of(
        rt.alloc(),
        &host,
        b"3 wake a\n3 change set b 1000 0\n9 block a",
    )?;
    let course = book.course();
    let numbers = (
        course.cores(),
        course.lag(),
        course.quantum(),
        course.count(),
    );
    assert_eq!(rt; numbers, (1, 1000, 1000, 3));
    if course.count() == 3 {
        assert_eq!(rt;
            (course.tick_of(0), course.tick_of(1), course.tick_of(2)),
            (3, 3, 9)
        );
    }
    let outcomes = book.outcomes();
    assert_eq!(rt; outcomes.len(), 1);
    if outcomes.len() == 1 {
        assert_eq!(rt; book.outcome_of(0), Outcome::NoPeriod { vcpu: VcpuNo(1) });
    }
    Ok(())
}

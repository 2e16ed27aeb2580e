//! A course as plain numbers: each plan tick by tick, and sets of vCPUs as the bits of a word, since hosts
//! here have at most 64 vCPUs. No search of the product is asked.
ghost use Rattle.std.specs.Prelude.{◌≤◌, length};

use std::alloc::Global;
use tab_core::{CoreNo, NoMemory, Periodic, ROUND, VcpuNo};
use table_form::{CoreTable, Course, Plan};
use tests_samples::bit;

// stands for the vCPU of a cell that has none, and has no bit
pub(crate) const NOBODY: u32 = 64;

// By core the vCPU of each of its cells, and who is at home there; and the tasks by vCPU.
#[derive(Drop)]
pub(crate) struct Picture {
    pub(crate) rows: Vec<Vec<u32>>,
    pub(crate) homes: Vec<u64>,
    pub(crate) tasks: Vec<Option<Periodic>>,
}

// What a core meets at a place: the cell's vCPU, and who of those at home there is on another core.
#[derive(Clone, Copy, PartialEq, Eq)]
pub(crate) struct Look {
    pub(crate) owner: u32,
    pub(crate) away: u64,
}

impl Picture {
    pub(crate) fn look(&self, core: usize, place: usize) -> Option<Look> {
        let home = *self.homes.get(core)?;
        let mut look = Look {
            owner: NOBODY,
            away: 0,
        };
        for (other, row) in self.rows.iter().enumerate() {
            let cell = *row.get(place)?;
            if other == core {
                look.owner = cell;
            } else {
                look.away |= bit(cell) & home;
            }
        }
        Some(look)
    }

    // Whether a vCPU is in the rows of two cores.
    pub(crate) fn splits(&self) -> bool {
        let mut met = 0;
        for row in &self.rows {
            let mut own = 0;
            for cell in row {
                own |= bit(*cell);
            }
            if met & own != 0 {
                return true;
            }
            met |= own;
        }
        false
    }
}

// What is known of a course and a run of it: times in ticks, the capped vCPUs, the events' ticks, and by count
// of first events the number of the plan and the runnable vCPUs.
#[derive(Drop)]
pub(crate) struct Setting {
    pub(crate) lag: u32,
    pub(crate) quantum: u32,
    pub(crate) rounds: u32,
    pub(crate) capped: u64,
    pub(crate) ticks: Vec<u32>,
    pub(crate) numbers: Vec<u32>,
    pub(crate) runnable: Vec<u64>,
    pub(crate) pictures: Vec<Picture>,
}

impl Setting {
    // The plan after so many events.
    pub(crate) fn picture_after(&self, count: u32) -> Option<&Picture> {
        let number = *self.numbers.get(count as usize)?;
        self.pictures.get(number as usize)
    }
}

// The capped vCPUs are given from outside, since the course's plans would be believed for them.
pub(crate) fn setting_of(
    alloc: Global,
    course: &Course,
    rounds: u32,
    capped: u64,
) -> Result<Setting, NoMemory> {
    let mut ticks = Vec::new(alloc);
    let mut numbers = Vec::new(alloc);
    let mut runnable = Vec::new(alloc);
    let mut pictures = Vec::new(alloc);
    for event in 0..course.count() {
        ticks.push(course.tick_of(event))?;
    }
    for count in 0..course.count() + 1 {
        numbers.push(course.plan_number(count))?;
        runnable.push(runnable_after(course, count))?;
    }
    for number in 0..course.plans() {
        pictures.push(picture_of(alloc, course.plan(number), course.cores())?)?;
    }
    Ok(Setting {
        lag: course.lag(),
        quantum: course.quantum(),
        rounds,
        capped,
        ticks,
        numbers,
        runnable,
        pictures,
    })
}

fn runnable_after(course: &Course, count: u32) -> u64
    requires { count ≤ length course.now.ticks }
{
    let set = course.runnable_after(count);
    let mut word = 0;
    for vcpu in 0..NOBODY {
        if set.has(VcpuNo(vcpu)) {
            word |= bit(vcpu);
        }
    }
    word
}

fn picture_of(alloc: Global, plan: &Plan, cores: u32) -> Result<Picture, NoMemory> {
    let mut rows = Vec::new(alloc);
    let mut homes = Vec::new(alloc);
    for row in plan.tables.rows.items() {
        rows.push(cells_of(alloc, row)?)?;
    }
    for core in 0..cores {
        homes.push(home_of(plan.tables.homes.items(), core))?;
    }
    let tasks = Vec::from_slice(alloc, plan.tasks.items())?;
    Ok(Picture { rows, homes, tasks })
}

fn cells_of(alloc: Global, row: &CoreTable) -> Result<Vec<u32>, NoMemory> {
    let mut cells = Vec::with_capacity(alloc, ROUND as usize)?;
    let mut from = 0;
    for segment in row.segments() {
        let owner = number_of(segment.owner.vcpu());
        for _ in from..segment.end {
            cells.push(owner)?;
        }
        from = segment.end;
    }
    Ok(cells)
}

// The vCPU's number, or that of nobody.
pub(crate) fn number_of(vcpu: Option<VcpuNo>) -> u32 {
    match vcpu {
        None => NOBODY,
        Some(vcpu) => vcpu.index() as u32,
    }
}

fn home_of(homes: &[Option<CoreNo>], core: u32) -> u64 {
    let mut word = 0;
    let mut vcpu: u32 = 0;
    for home in homes {
        if let Some(home) = home {
            if home.index() == core as usize {
                word |= bit(vcpu);
            }
        }
        vcpu = vcpu.saturating_add(1);
    }
    word
}

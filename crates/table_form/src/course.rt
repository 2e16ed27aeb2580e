ghost use Rattle.std.specs.Prelude.{◌≡◌, ◌<◌, ◌≤◌, length, slice_index_or};
ghost use Rattle.table_form.specs.Running.CourseViews.{course_view};
ghost use Rattle.table_form.specs.Running.Courses.{IsCourse, IsCourseForm, no_plan, outline_of, plan_after, plan_number_after, runnable_after, tick_at};
ghost use Rattle.table_form.specs.Tables.Views.{plan_view};

use crate::outline::Outline;
use crate::plan::Plan;
use std::marker::Model;
use tab_core::VcpuSet;

/// The events of a script by their ticks, and after each count of first events the plan and the
/// set of runnable vCPUs. Contracts see these lists, and the cores, lag and quantum of the host.
#[derive(Drop)]
pub struct Course {
    outline: Outline,
    plans: Vec<Plan>,
    numbers: Vec<u32>,
}

impl Model for Course {
    ghost use Rattle.std.specs.Prelude.{map};
    ghost use Rattle.table_form.specs.Running.Courses.{CourseView, IsCourse, with_plans};
    ghost use Rattle.table_form.specs.Tables.Views.{plan_view};

    ghost Value = { CourseView };

    ghost view = { λ c. with_plans c.outline (map plan_view c.plans.items) c.numbers.items };

    ghost invariant = { λ c. IsCourse
        (with_plans c.outline (map plan_view c.plans.items) c.numbers.items) };
}

impl Course {
    /// The course of these parts: the ticks of the events, which never fall, the plans, and for
    /// each count of first events the number of its plan and its runnable vCPUs.
    ///
    /// Lag and quantum are in ticks. Each plan is that of some count.
    pub fn of(
        cores: u32,
        lag: u32,
        quantum: u32,
        ticks: Vec<u32>,
        plans: Vec<Plan>,
        numbers: Vec<u32>,
        runnable: Vec<VcpuSet>,
    ) -> Course
        requires { IsCourseForm
            (course_view cores lag quantum ticks.items plans.items numbers.items runnable.items) }
        ensures { result ≡ course_view cores lag quantum ticks.items plans.items numbers.items
            runnable.items }
    {
        Course {
            outline: Outline::of(cores, lag, quantum, ticks, runnable),
            plans,
            numbers,
        }
    }

    /// The course without its plans. What every course keeps holds of it.
    pub fn outline(&self) -> &Outline
        ensures outline { outline_of self.now ≡ result.now }
        ensures kept { IsCourse self.now }
    {
        &self.outline
    }

    /// The tick of the run at which an event comes. Events are counted from 0.
    pub fn tick_of(&self, event: u32) -> u32
        requires { event < length self.now.ticks }
        ensures { result ≡ tick_at self.now event }
    {
        self.outline.tick_of(event)
    }

    /// How many events there are. What every course keeps holds of it.
    pub fn count(&self) -> u32
        ensures count { result ≡ length self.now.ticks }
        ensures kept { IsCourse self.now }
    {
        self.outline.count()
    }

    /// The number of the plan after the first `n` events. The course has so many events.
    pub fn plan_number(&self, n: u32) -> u32
        requires { n ≤ length self.now.ticks }
        ensures number { result ≡ plan_number_after self.now n }
        ensures within { result < length self.now.plans }
    {
        self.numbers[n as usize]
    }

    /// How many plans there are. What every course keeps holds of it.
    pub fn plans(&self) -> u32
        ensures count { result ≡ length self.now.plans }
        ensures kept { IsCourse self.now }
    {
        self.plans.len() as u32
    }

    /// The plan of a number, which are counted from 0.
    pub fn plan(&self, number: u32) -> &Plan
        requires { number < length self.now.plans }
        ensures plan { plan_view result.now ≡ slice_index_or self.now.plans number no_plan }
        ensures rows { length result.now.tables.rows ≡ self.now.cores }
    {
        &self.plans[number as usize]
    }

    /// The plan after the first `n` events.
    pub fn plan_after(&self, n: u32) -> &Plan
        requires { n ≤ length self.now.ticks }
        ensures plan { plan_view result.now ≡ plan_after self.now n }
        ensures rows { length result.now.tables.rows ≡ self.now.cores }
    {
        self.plan(self.plan_number(n))
    }

    /// The runnable vCPUs after the first `n` events.
    pub fn runnable_after(&self, n: u32) -> &VcpuSet
        requires { n ≤ length self.now.ticks }
        ensures { result.now ≡ runnable_after self.now n }
    {
        self.outline.runnable_after(n)
    }

    /// The host's cores. What every course keeps holds of it.
    pub fn cores(&self) -> u32
        ensures cores { result ≡ self.now.cores }
        ensures kept { IsCourse self.now }
    {
        self.outline.cores()
    }

    /// How many ticks the clocks of two cores may be apart. What every course keeps holds of it.
    pub fn lag(&self) -> u32
        ensures lag { result ≡ self.now.lag }
        ensures kept { IsCourse self.now }
    {
        self.outline.lag()
    }

    /// How many ticks a shared pick may run. What every course keeps holds of it.
    pub fn quantum(&self) -> u32
        ensures quantum { result ≡ self.now.quantum }
        ensures kept { IsCourse self.now }
    {
        self.outline.quantum()
    }
}

ghost use Rattle.std.specs.Prelude.{◌<◌, ◌≤◌};
ghost use Rattle.tab_core.specs.declared.TheConstants.{WHOLE_PPM};

/// A share of a CPU, less what the ends of a window hide.
#[derive(Clone, Copy)]
pub struct ShareOwed {
    /// In parts per million.
    pub share_ppm: u32,
    /// How many ns both ends of a window hide together.
    pub hidden_ns: u64,
    pub ghost whole: { share_ppm ≤ WHOLE_PPM },
}

/// So many ns of each period of a plan.
#[derive(Clone, Copy)]
pub struct PlanOwed {
    pub cost_ns: u64,
    pub period_ns: u64,
    pub ghost some: { 0 < period_ns },
    pub ghost within: { cost_ns ≤ period_ns },
}

/// What a vCPU is owed of a window.
#[derive(Clone, Copy)]
pub enum Owed {
    /// A share, whatever the scheduler.
    Share(ShareOwed),
    /// What a plan gives it.
    Plan(PlanOwed),
}

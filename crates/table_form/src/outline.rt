ghost use Rattle.std.specs.Prelude.{◌≡◌, ◌<◌, ◌≤◌, [], length, slice_index, slice_index_or};
ghost use Rattle.table_form.specs.Running.Outlines.{IsOutline, outline_view};

use std::marker::Model;
use tab_core::VcpuSet;

/// A course without its plans: the ticks of the events, after each count of first events the set of
/// runnable vCPUs, and the cores, lag and quantum of the host. Contracts see these.
#[derive(Drop)]
pub struct Outline {
    cores: u32,
    lag: u32,
    quantum: u32,
    ticks: Vec<u32>,
    runnable: Vec<VcpuSet>,
}

impl Model for Outline {
    ghost use Rattle.table_form.specs.Running.Outlines.{IsOutline, OutlineView, outline_view};

    ghost Value = { OutlineView };

    ghost view = { λ o. outline_view o.cores o.lag o.quantum o.ticks.items o.runnable.items };

    ghost invariant = { λ o. IsOutline (outline_view o.cores o.lag o.quantum o.ticks.items o.runnable.items) };
}

impl Outline {
    /// The outline of these parts: the ticks of the events, which never fall, and for each count of
    /// first events its runnable vCPUs.
    ///
    /// Lag and quantum are in ticks.
    pub fn of(
        cores: u32,
        lag: u32,
        quantum: u32,
        ticks: Vec<u32>,
        runnable: Vec<VcpuSet>,
    ) -> Outline
        requires { IsOutline (outline_view cores lag quantum ticks.items runnable.items) }
        ensures { result ≡ outline_view cores lag quantum ticks.items runnable.items }
    {
        Outline {
            cores,
            lag,
            quantum,
            ticks,
            runnable,
        }
    }

    /// The tick of the run at which an event comes. Events are counted from 0.
    pub fn tick_of(&self, event: u32) -> u32
        requires { event < length self.now.ticks }
        ensures { result ≡ slice_index self.now.ticks event }
    {
        self.ticks[event as usize]
    }

    /// How many events there are. What every outline keeps holds of it.
    pub fn count(&self) -> u32
        ensures count { result ≡ length self.now.ticks }
        ensures kept { IsOutline self.now }
    {
        self.ticks.len() as u32
    }

    /// The runnable vCPUs after the first `n` events.
    pub fn runnable_after(&self, n: u32) -> &VcpuSet
        requires { n ≤ length self.now.ticks }
        ensures { result.now ≡ slice_index_or self.now.runnable n [] }
    {
        &self.runnable[n as usize]
    }

    /// The host's cores. What every outline keeps holds of it.
    pub fn cores(&self) -> u32
        ensures cores { result ≡ self.now.cores }
        ensures kept { IsOutline self.now }
    {
        self.cores
    }

    /// How many ticks the clocks of two cores may be apart. What every outline keeps holds of it.
    pub fn lag(&self) -> u32
        ensures lag { result ≡ self.now.lag }
        ensures kept { IsOutline self.now }
    {
        self.lag
    }

    /// How many ticks a shared pick may run. What every outline keeps holds of it.
    pub fn quantum(&self) -> u32
        ensures quantum { result ≡ self.now.quantum }
        ensures kept { IsOutline self.now }
    {
        self.quantum
    }
}

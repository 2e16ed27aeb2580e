ghost use Rattle.std.specs.Prelude.{◌≡◌, ◌<◌, ◌≤◌, ℕ, length, replicate};
ghost use Rattle.run_counts.specs.Stretches.{stretch_at};
ghost use Rattle.trace_report.specs.Inside.Sound.{counted};
ghost use Rattle.trace_report.specs.ReportViews.{no_core_ticks, vcpu_at};

use crate::ticks::{CoreTicks, VcpuTicks};
use run_counts::Stretch;

// Takes over for each vCPU what the stretch of the whole run says. It ran nothing yet.
pub(crate) fn take_waits(run: &[Stretch], vcpus: &mut [VcpuTicks])
    requires { length vcpus.old ≤ length run.now }
    ensures size { length vcpus.new ≡ length vcpus.old }
    ensures counted { (v : ℕ) → v < length vcpus.old → vcpu_at vcpus.new v ≡ counted (stretch_at run.now v) }
{
    for v in 0..vcpus.len() {
        vcpus[v] = VcpuTicks {
            offered: u64::from(run[v].offered),
            slots: 0,
            shared: 0,
            gap: run[v].most,
        };
    }
}

// Nothing happened on any core.
pub(crate) fn clear_cores(cores: &mut [CoreTicks])
    ensures { cores.new ≡ replicate (length cores.old) no_core_ticks }
{
    cores.fill(CoreTicks::none());
}

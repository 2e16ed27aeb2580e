ghost use Rattle.std.specs.Prelude.{◌≡◌, ◌*◌, ◌<◌, ◌≤◌, ℕ, length, slice_index};
ghost use Rattle.tab_core.specs.declared.TheConstants.{MAX_CORES, MAX_ROUNDS, MAX_VCPUS, ROUND};
ghost use Rattle.run_counts.specs.Accounts.{IsWithin};
ghost use Rattle.trace_report.specs.ReportViews.{vcpu_at};
ghost use Rattle.trace_report.specs.RunReports.{core_ticks, sum_below, with_account};

use crate::ticks::{CoreTicks, VcpuTicks};
use run_counts::CoreAccount;
use tab_core::MAX_VCPUS;

// Adds to each vCPU's numbers what the account has of it.
pub(crate) fn add_vcpus(vcpus: &mut [VcpuTicks], account: &CoreAccount)
    requires few { length vcpus.old ≤ MAX_VCPUS }
    requires small { (v : ℕ) → v < length vcpus.old
        → ((vcpu_at vcpus.old v).slots ≤ MAX_CORES * (MAX_ROUNDS * ROUND))
        × ((vcpu_at vcpus.old v).shared ≤ MAX_CORES * (MAX_ROUNDS * ROUND)) }
    requires within { IsWithin account.now (MAX_ROUNDS * ROUND) }
    ensures size { length vcpus.new ≡ length vcpus.old }
    ensures added { (v : ℕ) → v < length vcpus.old
        → vcpu_at vcpus.new v ≡ with_account (vcpu_at vcpus.old v) account.now v }
{
    for v in 0..vcpus.len() {
        vcpus[v].slots += account.slots[v];
        vcpus[v].shared += account.shared[v];
    }
}

// What is reported of a core with this account.
pub(crate) fn core_ticks(account: &CoreAccount) -> CoreTicks
    requires { IsWithin account.now (MAX_ROUNDS * ROUND) }
    ensures { result ≡ core_ticks account.now }
{
    CoreTicks {
        slots: total_of(&account.slots),
        shared: total_of(&account.shared),
        idle: account.idle,
    }
}

// The sum of a list by vCPU number.
#[tactic(auto, using(crate::proofs::SumLemmas::sum_none, crate::proofs::SumLemmas::sum_more))]
fn total_of(ticks: &[u64; 256]) -> u64
    requires { (v : ℕ) → v < MAX_VCPUS → slice_index ticks.now v ≤ MAX_ROUNDS * ROUND }
    ensures { result ≡ sum_below ticks.now MAX_VCPUS }
{
    let mut total = 0;
    for v in 0..MAX_VCPUS as usize {
        total += ticks[v];
    }
    total
}

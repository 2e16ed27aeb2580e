//! What is read again of an input that was refused: none where there is no such thing in it.
ghost use Rattle.std.specs.Prelude.{◌≡◌, ◌↔◌, IfErr, IfOk, IsTrue, MatchOption};
ghost use Rattle.toml.specs.View.{table_view};
ghost use Rattle.host_doc.specs.Document.{IsDocument, IsHostText};
ghost use Rattle.period_choice.specs.Tasks.{AreTasksOf};
ghost use Rattle.advice.specs.Advice.{HostHasPlan};
ghost use Rattle.advice.specs.Inside.Again.{IsNoDocument, IsNoHost, LacksTasks};

use crate::fault::AdviceFault;
use host_doc::{HostFault, read_host};
use period_choice::{TaskFault, tasks_of};
use plan_make::{PlanFault, plan_with};
use std::alloc::Global;
use tab_core::{Host, Tasks};
use toml::Table;

// The table of the section's document.
pub(crate) fn table_again(alloc: Global, section: &[u8]) -> Result<Option<Table>, AdviceFault>
    ensures found { IfOk result (λ found. MatchOption found (IsNoDocument section.now)
        (λ table. IsDocument section.now (table_view table))) }
    ensures cause { IfErr result (λ fault. fault ≡ AdviceFault.NoMemory) }
{
    match toml::table_from_slice(alloc, section) {
        Ok(table) => Ok(Some(table)),
        Err(fault) => {
            if fault.is_memory() {
                Err(AdviceFault::NoMemory)
            } else {
                Ok(None)
            }
        }
    }
}

// The host of the section.
pub(crate) fn host_again(alloc: Global, section: &[u8]) -> Result<Option<Host>, AdviceFault>
    ensures found { IfOk result (λ found. MatchOption found (IsNoHost section.now) (IsHostText section.now)) }
    ensures cause { IfErr result (λ fault. fault ≡ AdviceFault.NoMemory) }
{
    match read_host(alloc, section) {
        Ok(host) => Ok(Some(host)),
        Err(HostFault::NoMemory) => Err(AdviceFault::NoMemory),
        Err(_) => Ok(None),
    }
}

// The budgets of the host's vCPUs.
pub(crate) fn tasks_again(alloc: Global, host: &Host) -> Result<Option<Tasks>, AdviceFault>
    ensures found { IfOk result (λ found. MatchOption found (LacksTasks host.now) (AreTasksOf host.now)) }
    ensures cause { IfErr result (λ fault. fault ≡ AdviceFault.NoMemory) }
{
    match tasks_of(alloc, host) {
        Ok(tasks) => Ok(Some(tasks)),
        Err(TaskFault::NoMemory) => Err(AdviceFault::NoMemory),
        Err(TaskFault::NoPeriod { .. }) => Ok(None),
    }
}

// Whether `plan` has a plan of the host, whose vCPUs have these budgets.
pub(crate) fn has_plan(alloc: Global, host: &Host, tasks: Tasks) -> Result<bool, AdviceFault>
    requires { AreTasksOf host.now tasks }
    ensures found { IfOk result (λ found. IsTrue found ↔ HostHasPlan host.now) }
    ensures cause { IfErr result (λ fault. fault ≡ AdviceFault.NoMemory) }
{
    match plan_with(alloc, host, tasks) {
        Ok(_) => Ok(true),
        Err(PlanFault::NoRoom { .. }) => Ok(false),
        Err(PlanFault::NoPeriod { .. }) => Ok(false),
        Err(PlanFault::NoMemory) => Err(AdviceFault::NoMemory),
    }
}

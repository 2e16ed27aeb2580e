ghost use Rattle.std.specs.Prelude.{◌≡◌, ◌<◌, Some, length, slice_get, vec_capacity};
ghost use Rattle.table_form.specs.Running.Entering.{enters};
ghost use Rattle.table_form.specs.Running.Stints.{runs};
ghost use Rattle.step_machine.specs.declared.core_log.CoreLog.{CoreLog as LogValue};
ghost use Rattle.step_machine.specs.Inside.Logs.{core_of_log, ChangesLog};

use crate::core_log::CoreLog;
use tab_core::{Entry, Stint, VcpuNo};

// The core has seen a count.
pub(crate) fn take_count(logs: &mut Vec<CoreLog>, c: usize, count: u32)
    requires { c < length logs.old.items }
    ensures { (before : LogValue) → slice_get logs.old.items c ≡ Some before
        → ChangesLog logs.old.items logs.new.items c before
        (record (core_of_log before) { seen = Some count }) before.last }
{
    logs[c].seen = Some(count);
}

// The core gets one more entry.
pub(crate) fn push_entry(logs: &mut Vec<CoreLog>, c: usize, entry: Entry)
    requires core { c < length logs.old.items }
    requires room { (before : LogValue) → slice_get logs.old.items c ≡ Some before
        → length before.entries.items < vec_capacity before.entries }
    ensures { (before : LogValue) → slice_get logs.old.items c ≡ Some before
        → ChangesLog logs.old.items logs.new.items c before (enters (core_of_log before) entry) before.last }
{
    logs[c].entries.push_reserved(entry);
}

// The core gets one more stint.
pub(crate) fn push_stint(logs: &mut Vec<CoreLog>, c: usize, stint: Stint, last: Option<VcpuNo>)
    requires core { c < length logs.old.items }
    requires room { (before : LogValue) → slice_get logs.old.items c ≡ Some before
        → length before.stints.items < vec_capacity before.stints }
    ensures { (before : LogValue) → slice_get logs.old.items c ≡ Some before
        → ChangesLog logs.old.items logs.new.items c before (runs (core_of_log before) stint) last }
{
    let log = &mut logs[c];
    log.clock = stint.end;
    log.seen = None;
    log.last = last;
    log.stints.push_reserved(stint);
}

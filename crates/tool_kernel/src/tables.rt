ghost use Rattle.std.specs.Prelude.{◌<◌, ◌^◌, length};

use kernel_tables::{NotStated, checksum, stated_plan, tables_text};
use std::alloc::Global;
use tab_core::{Host, VcpuNo};
use tab_io::write_all;
use tab_words::cut_sections;
use table_check::CheckFault;
use table_form::Plan;
use tool_input::{
    Fault, Input, Wanted, bad_line, finish, host_of, input_of, no_host, output_of, shown,
};

/// Does `export scx`: it reads a host and its plan, and writes the tables of the plan.
pub fn export_tables(rt: &HostRuntime, file: Option<&str>) -> Result<(), Fault> {
    let Input { place, bytes } = input_of(rt, file)?;
    let sections = cut_sections(&bytes);
    if sections.count() != 2 {
        return Err(no_host(place, &bytes, sections.count()));
    }
    let host = host_of(rt.alloc(), &place, sections.part(0))?;
    let plan = plan_for(rt.alloc(), &place, &host, sections.part(1))?;
    let text = match tables_text(rt.alloc(), checksum(&bytes), &host, &plan) {
        Ok(text) => text,
        Err(_) => return Err(Fault::NoMemory),
    };
    let mut sink = output_of(rt)?;
    write_all(&mut sink, &text)?;
    finish(&mut sink)
}

// The plan of the host that the text states. The place is that of a fault.
fn plan_for(alloc: Global, place: &str, host: &Host, text: &[u8]) -> Result<Plan, Fault>
    requires { length text.now < 2 ^ 31 }
{
    match stated_plan(alloc, host, text) {
        Ok(plan) => Ok(plan),
        Err(why) => Err(fault_of(alloc, place, host, text, why)),
    }
}

// The fault of a text that states no plan of the host.
fn fault_of(alloc: Global, place: &str, host: &Host, text: &[u8], why: NotStated) -> Fault {
    match why {
        NotStated::BadLine(line) => bad_line(alloc, place, text, line, Wanted::HostPlan),
        NotStated::NoPeriod(vcpu) => no_period(alloc, place, host, vcpu),
        NotStated::Faulty(fault) => faulty(alloc, place, fault),
        NotStated::MoreThanCapped => other_text(
            alloc,
            place,
            "the plan gives a capped vCPU more than its cost: plan the host again",
        ),
        NotStated::NoMemory => Fault::NoMemory,
    }
}

// The fault of a host that has no plan, since no period meets the latency of a vCPU.
fn no_period(alloc: Global, place: &str, host: &Host, vcpu: VcpuNo) -> Fault {
    let Some(found) = host.vcpus.items().get(vcpu.index()) else {
        return Fault::NoMemory;
    };
    match (
        String::from_str(alloc, place),
        shown(alloc, found.name.bytes()),
    ) {
        (Ok(place), Ok(name)) => Fault::Unplanned { place, name },
        _ => Fault::NoMemory,
    }
}

// The fault of tables that are no plan of the host.
fn faulty(alloc: Global, place: &str, fault: CheckFault) -> Fault {
    match (String::from_str(alloc, place), format!(in alloc; "{fault}")) {
        (Ok(place), Ok(why)) => Fault::Faulty { place, why },
        _ => Fault::NoMemory,
    }
}

fn other_text(alloc: Global, place: &str, what: &'static str) -> Fault {
    match String::from_str(alloc, place) {
        Ok(place) => Fault::OtherText { place, what },
        Err(_) => Fault::NoMemory,
    }
}

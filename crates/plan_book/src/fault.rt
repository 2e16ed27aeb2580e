use plan_make::PlanFault;

/// Why a host and a script have no plan book: the host itself has no plan, or memory ran out in
/// planning the host or a change of the script. A change that can't be planned is no fault.
pub type BookFault = PlanFault;

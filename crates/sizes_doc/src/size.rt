ghost use Rattle.std.specs.Prelude.{◌≤◌};
ghost use Rattle.tab_core.specs.declared.TheConstants.{MAX_VCPUS};

use tab_core::Reservation;

/// So many VMs of one size, or one VM with a name of its own: each has so many vCPUs, and each vCPU
/// this reservation.
#[derive(Clone, Copy)]
pub struct Size<'a> {
    /// The line of the text that states it, from 1.
    pub line: u32,
    /// Whether it is one VM of this very name. Otherwise each VM's number is added to the name.
    pub alone: bool,
    /// What the names of its vCPUs begin with.
    pub name: &'a [u8],
    pub machines: u32,
    /// The vCPUs of each VM.
    pub vcpus: u32,
    pub reservation: Reservation,
    /// Whether each of its vCPUs runs in its own slots alone.
    pub capped: bool,
    pub ghost some_machines: { 1 ≤ machines },
    pub ghost few_machines: { machines ≤ MAX_VCPUS },
    pub ghost some_vcpus: { 1 ≤ vcpus },
    pub ghost few_vcpus: { vcpus ≤ MAX_VCPUS },
}

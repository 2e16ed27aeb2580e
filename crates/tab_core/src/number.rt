ghost use Rattle.std.specs.Prelude.{◌≡◌, ℕ, ◌<◌};
ghost use Rattle.tab_core.specs.declared.TheConstants.{MAX_CORES, MAX_VCPUS};

use crate::{MAX_CORES, MAX_VCPUS};
use std::marker::Model;

/// The number of a vCPU: its place in the host, from 0. Contracts see it as that number.
#[derive(Clone, Copy, Debug, PartialEq, Eq, PartialOrd, Ord)]
pub struct VcpuNo(pub u32);

impl Model for VcpuNo {
    ghost Value = { ℕ };

    ghost view = { λ vcpu. vcpu.0 };

    ghost invariant = { λ vcpu. vcpu.0 < MAX_VCPUS };

    ghost inverse = { λ n. record { 0 = n } };
}

impl VcpuNo {
    /// The number as the place in a list by vCPU number.
    pub fn index(self) -> usize
        ensures value { result ≡ self }
        ensures small { result < MAX_VCPUS }
    {
        self.0 as usize
    }
}

/// The number of a core, from 0. Contracts see it as that number.
#[derive(Clone, Copy, Debug, PartialEq, Eq, PartialOrd, Ord)]
pub struct CoreNo(pub u32);

impl Model for CoreNo {
    ghost Value = { ℕ };

    ghost view = { λ core. core.0 };

    ghost invariant = { λ core. core.0 < MAX_CORES };

    ghost inverse = { λ n. record { 0 = n } };
}

impl CoreNo {
    /// The number as the place in a list by core number.
    pub fn index(self) -> usize
        ensures value { result ≡ self }
        ensures small { result < MAX_CORES }
    {
        self.0 as usize
    }
}

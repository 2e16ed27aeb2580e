ghost use Rattle.std.specs.Prelude.{◌≡◌, ◌↔◌, IsTrue};

use std::marker::Model;
use tab_core::VcpuNo;

// Stands for nobody: one more than the greatest number of a vCPU.
const NOBODY: u16 = 256;

/// The vCPU that cells are of, if they are of one, in two bytes. Contracts see the option.
#[derive(Clone, Copy, Debug, PartialEq, Eq)]
pub struct Owner(u16);

impl Model for Owner {
    ghost use Rattle.std.specs.Prelude.{ℕ, ◌≤◌, Option, None, Some, if◌then◌else◌, nat_lt};
    ghost use Rattle.std.specs.Option.{unwrap_or};
    ghost use Rattle.table_form.specs.declared.owner.TheConstants.{NOBODY};

    ghost Value = { Option ℕ };

    ghost view = { λ owner. if nat_lt owner.0 NOBODY then Some owner.0 else None };

    ghost invariant = { λ owner. owner.0 ≤ NOBODY };

    ghost inverse = { λ vcpu. record { 0 = unwrap_or vcpu NOBODY } };
}

impl Owner {
    /// The owner of cells of the vCPU, or of idle ones.
    pub fn of(vcpu: Option<VcpuNo>) -> Owner
        ensures { result ≡ vcpu }
    {
        match vcpu {
            Some(vcpu) => Owner(vcpu.0 as u16),
            None => Owner(NOBODY),
        }
    }

    /// The vCPU, or none where the cells are idle.
    pub fn vcpu(self) -> Option<VcpuNo>
        ensures { result ≡ self }
    {
        if self.0 < NOBODY {
            Some(VcpuNo(u32::from(self.0)))
        } else {
            None
        }
    }

    /// Whether both are the same vCPU, or both nobody.
    pub fn same(self, other: Owner) -> bool
        ensures { IsTrue result ↔ (self ≡ other) }
    {
        self == other
    }
}

// Sets of vCPUs as the bits of a word, since hosts here have at most 64 vCPUs.
use tab_core::Host;

/// The bit of a vCPU, which one from 64 on has none of.
pub fn bit(vcpu: u32) -> u64 {
    if vcpu < 64 { 1 << vcpu } else { 0 }
}

/// The capped vCPUs of a host.
pub fn capped_of(host: &Host) -> u64 {
    let mut capped = 0;
    let mut own: u64 = 1;
    for vcpu in host.vcpus.items() {
        if vcpu.capped {
            capped |= own;
        }
        own = own.wrapping_mul(2);
    }
    capped
}

/// A word that looks random, by its number: the number times 2^64 by the golden ratio. That of 0 is 0.
pub fn spread(number: u64) -> u64 {
    number.wrapping_mul(0x9E37_79B9_7F4A_7C15)
}

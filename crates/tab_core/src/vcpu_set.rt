ghost use Rattle.std.specs.Prelude.{◌≡◌, ◌↔◌, ◌<◌, ◌≤◌, ◌+◌, ◌%◌, ◌&&◌, not, ℕ, IfNone, IfSome, IsTrue, replicate, slice_set, false, true};
ghost use Rattle.std.specs.Int.{bit_at};
ghost use Rattle.tab_core.specs.Least.{IsLeast};
ghost use Rattle.tab_core.specs.VcpuSets.{IsInBoth, has_vcpu, has_bit, members_of};
ghost use Rattle.tab_core.specs.declared.TheConstants.{MAX_VCPUS};

use crate::MAX_VCPUS;
use crate::number::VcpuNo;
use std::marker::Model;

/// A set of vCPUs, in 32 bytes. Contracts see 256 truth values, by vCPU number.
#[derive(Drop)]
pub struct VcpuSet {
    words: [u64; 4],
}

impl Model for VcpuSet {
    ghost use Rattle.std.specs.Prelude.{Bool, List};
    ghost use Rattle.tab_core.specs.VcpuSets.{members_of};

    ghost Value = { List Bool };

    ghost view = { λ set. members_of set.words };
}

impl VcpuSet {
    /// The set of no vCPU.
    pub fn empty() -> VcpuSet
        ensures { result ≡ replicate MAX_VCPUS false }
    {
        VcpuSet { words: [0; 4] }
    }

    /// Whether the vCPU is a member.
    pub fn has(&self, vcpu: VcpuNo) -> bool
        ensures { result ≡ has_vcpu self.now vcpu }
    {
        bit_of(&self.words, vcpu.index())
    }

    /// Makes the vCPU a member.
    pub fn put(&mut self, vcpu: VcpuNo)
        ensures { self.new ≡ slice_set self.old vcpu true }
    {
        set_bit(&mut self.words, vcpu.index());
    }

    /// Makes the vCPU no member.
    pub fn take(&mut self, vcpu: VcpuNo)
        ensures { self.new ≡ slice_set self.old vcpu false }
    {
        clear_bit(&mut self.words, vcpu.index());
    }

    /// Another set of the same members.
    pub fn copy(&self) -> VcpuSet
        ensures { result ≡ self.now }
    {
        VcpuSet { words: self.words }
    }

    /// Whether the sets have the same members.
    pub fn same(&self, other: &VcpuSet) -> bool
        ensures { IsTrue result ↔ (self.now ≡ other.now) }
    {
        same_words(&self.words, &other.words)
    }

    /// The members of this set that aren't in the other.
    pub fn without(&self, other: &VcpuSet) -> VcpuSet
        ensures { (vcpu : ℕ) → has_vcpu result vcpu
            ≡ (has_vcpu self.now vcpu && not (has_vcpu other.now vcpu)) }
    {
        VcpuSet {
            words: bits_without(&self.words, &other.words),
        }
    }

    /// Whether some vCPU is a member of both sets.
    #[inline(always)]
    pub fn meets(&self, other: &VcpuSet) -> bool
        ensures { IsTrue result ↔ ((vcpu : ℕ) × IsInBoth self.now other.now vcpu) }
    {
        words_meet(&self.words, &other.words)
    }

    /// The least member of both sets that is `from` or more, if there is one.
    pub fn first_common(&self, other: &VcpuSet, from: u32) -> Option<VcpuNo>
        requires { from ≤ MAX_VCPUS }
        ensures some { IfSome result (λ v. IsLeast (IsInBoth self.now other.now) from v) }
        ensures none { IfNone result ((v : ℕ) → IsInBoth self.now other.now v → from ≤ v → ⊥) }
    {
        first_common_bit(&self.words, &other.words, from)
    }
}

fn bit_of(words: &[u64; 4], bit: usize) -> bool
    requires { bit < MAX_VCPUS }
    ensures { result ≡ has_bit words.now bit }
{
    (words[bit / 64] >> (bit % 64)) & 1 == 1
}

fn set_bit(words: &mut [u64; 4], bit: usize)
    requires { bit < MAX_VCPUS }
    ensures { members_of words.new ≡ slice_set (members_of words.old) bit true }
{
    words[bit / 64] |= 1 << (bit % 64);
}

fn clear_bit(words: &mut [u64; 4], bit: usize)
    requires { bit < MAX_VCPUS }
    ensures { members_of words.new ≡ slice_set (members_of words.old) bit false }
{
    words[bit / 64] &= !(1 << (bit % 64));
}

fn same_words(a: &[u64; 4], b: &[u64; 4]) -> bool
    ensures { IsTrue result ↔ (members_of a.now ≡ members_of b.now) }
{
    *a == *b
}

fn bits_without(a: &[u64; 4], b: &[u64; 4]) -> [u64; 4]
    ensures { (vcpu : ℕ) → has_vcpu (members_of result) vcpu
        ≡ (has_vcpu (members_of a.now) vcpu && not (has_vcpu (members_of b.now) vcpu)) }
{
    [a[0] & !b[0], a[1] & !b[1], a[2] & !b[2], a[3] & !b[3]]
}

// Whether some bit is in both, found without a branch for each word.
fn words_meet(a: &[u64; 4], b: &[u64; 4]) -> bool
    ensures { IsTrue result ↔ ((v : ℕ) × IsInBoth (members_of a.now) (members_of b.now) v) }
{
    let low = common_from(a, b, 0) | common_from(a, b, 64);
    let high = common_from(a, b, 128) | common_from(a, b, 192);
    low | high != 0
}

// The least bit of both from one on, by words: the bits below it are shifted out of the first.
fn first_common_bit(a: &[u64; 4], b: &[u64; 4], from: u32) -> Option<VcpuNo>
    requires { from ≤ MAX_VCPUS }
    ensures some { IfSome result (λ v. IsLeast (IsInBoth (members_of a.now) (members_of b.now)) from v) }
    ensures none { IfNone result ((v : ℕ) → IsInBoth (members_of a.now) (members_of b.now) v → from ≤ v → ⊥) }
{
    let mut at = from;
    'words: while at < MAX_VCPUS {
        let both = common_from(a, b, at);
        if both != 0 {
            return Some(VcpuNo(at + both.trailing_zeros()));
        }
        at = (at / 64 + 1) * 64;
    }
    None
}

// The bits of both from one on, up to the end of its word.
fn common_from(a: &[u64; 4], b: &[u64; 4], bit: u32) -> u64
    requires { bit < MAX_VCPUS }
    ensures { (i : ℕ) → i < 64 → (bit_at result i ≡ 1)
        ↔ ((i + bit % 64 < 64) × IsInBoth (members_of a.now) (members_of b.now) (bit + i)) }
{
    let word = (bit / 64) as usize;
    (a[word] & b[word]) >> (bit % 64)
}

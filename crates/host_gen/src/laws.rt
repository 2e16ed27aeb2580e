ghost use Rattle.std.specs.Prelude.{◌≡◌, ℕ, ◌≤◌, ◌+◌, ◌*◌, IsSomeAnd, List, Option};
ghost use Rattle.tab_core.specs.declared.host.Host.{Host};
ghost use Rattle.tab_core.specs.declared.over.Over.{Over};
ghost use Rattle.tab_core.specs.declared.periodic.Periodic.{Periodic};
ghost use Rattle.tab_core.specs.declared.vcpu.Vcpu.{Vcpu};
ghost use Rattle.period_choice.specs.Tasks.{AreTasksOf, IsFirstWithoutPeriod};
ghost use Rattle.worst_fit.specs.Bound.{IsWithinBound};
ghost use Rattle.plan_make.specs.Planned.{IsFirstWithoutRoom};
ghost use Rattle.host_gen.specs.Generated.{IsGenerated, IsGeneratedVcpu, percent_of, period_of};
ghost use Rattle.host_gen.specs.GeneratorWords.{first_word, second_word};
ghost use Rattle.host_gen.specs.Planning.{HasWholePeriod};

/// The first vCPU's words from one seed, as an example of SplitMix64.
pub fn the_words_of_a_seed()
    ensures first { first_word 1234567 0 ≡ 6457827717110365317 }
    ensures second { second_word 1234567 0 ≡ 3203168211198807973 }
{}

/// A seed has one host for counts of cores and vCPUs.
pub fn a_seed_has_one_host()
    ensures { (seed cores vcpus : ℕ) (host other : Host)
        → IsGenerated seed cores vcpus host → IsGenerated seed cores vcpus other → host ≡ other }
{}

/// A generated vCPU's period of whole ticks is admissible, and its chosen period takes as much of a
/// round: 1026 ticks for each percent.
pub fn a_generated_vcpu_has_its_period()
    ensures { (most number first second : ℕ) (vcpu : Vcpu) → IsGeneratedVcpu most number first second vcpu
        → IsSomeAnd vcpu.reservation (HasWholePeriod (percent_of most first) (period_of second)) }
{}

/// A generated host is within the bound of worst fit. So planning refuses it neither because a
/// period is missing nor because room is.
pub fn a_generated_host_is_within_the_bound()
    ensures bound { (seed cores vcpus : ℕ) (host : Host) (tasks : List (Option Periodic))
        → vcpus ≤ 99 * cores + 1 → IsGenerated seed cores vcpus host → AreTasksOf host tasks
        → IsWithinBound tasks host.cores }
    ensures no_period { (seed cores vcpus : ℕ) (host : Host) (vcpu : ℕ)
        → IsGenerated seed cores vcpus host → IsFirstWithoutPeriod host vcpu → ⊥ }
    ensures no_room { (seed cores vcpus : ℕ) (host : Host) (vcpu rest : ℕ) (over : List Over)
        → vcpus ≤ 99 * cores + 1 → IsGenerated seed cores vcpus host
        → IsFirstWithoutRoom host vcpu rest over → ⊥ }
{}

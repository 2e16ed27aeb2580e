ghost use Rattle.std.specs.Prelude.{◌≡◌, ℕ, ◌≤◌, List};
ghost use Rattle.tab_core.specs.Vcpus.{HaveDistinctNames};
ghost use Rattle.tab_core.specs.declared.TheConstants.{MAX_CORES};
ghost use Rattle.tab_core.specs.declared.vcpu.Vcpu.{Vcpu};
ghost use Rattle.vcpu_names.specs.Names.{names_of};
ghost use Rattle.script_doc.specs.Script.{IsScript};
ghost use Rattle.script_doc.specs.ScriptFaults.{IsFirstFault};
ghost use Rattle.script_doc.specs.Statements.{statements_of};
ghost use Rattle.script_doc.specs.Steps.{AreSteps, IsFirstBadLine};
ghost use Rattle.script_doc.specs.declared.event.Event.{Event};
ghost use Rattle.script_doc.specs.declared.script_fault.ScriptFault.{ScriptFault};
ghost use Rattle.script_doc.specs.declared.step.Step.{Step};

/// A text states one script at most, for a host whose vCPUs have names of their own.
pub fn a_text_states_one_script()
    ensures { (vcpus : List Vcpu) (rounds : ℕ) (bytes : List ℕ) (events others : List Event)
        → HaveDistinctNames vcpus → IsScript (names_of vcpus) rounds (statements_of bytes) events
        → IsScript (names_of vcpus) rounds (statements_of bytes) others → events ≡ others }
{}

/// A text that states a script has no first fault.
pub fn a_script_has_no_fault()
    ensures { (vcpus : List Vcpu) (rounds : ℕ) (bytes : List ℕ) (events : List Event) (fault : ScriptFault)
        → HaveDistinctNames vcpus → IsScript (names_of vcpus) rounds (statements_of bytes) events
        → ¬ (IsFirstFault (names_of vcpus) rounds (statements_of bytes) fault) }
{}

/// A text has one first fault at most.
pub fn a_text_has_one_script_fault()
    ensures { (vcpus : List Vcpu) (rounds : ℕ) (bytes : List ℕ) (fault other : ScriptFault)
        → HaveDistinctNames vcpus → IsFirstFault (names_of vcpus) rounds (statements_of bytes) fault
        → IsFirstFault (names_of vcpus) rounds (statements_of bytes) other → fault ≡ other }
{}

/// A text states one list of steps at most, for a host of at most 32 cores.
pub fn a_text_states_one_step_list()
    ensures { (cores : ℕ) (bytes : List ℕ) (steps others : List Step) (lines places : List ℕ)
        → cores ≤ MAX_CORES → AreSteps cores (statements_of bytes) steps lines
        → AreSteps cores (statements_of bytes) others places → (steps ≡ others) × (lines ≡ places) }
{}

/// A text that states a list of steps has no first line that is none.
pub fn a_step_list_has_no_bad_line()
    ensures { (cores : ℕ) (bytes : List ℕ) (steps : List Step) (lines : List ℕ) (line : ℕ)
        → AreSteps cores (statements_of bytes) steps lines
        → ¬ (IsFirstBadLine cores (statements_of bytes) line) }
{}

/// A text has one first line at most that is no step.
pub fn a_text_has_one_bad_step()
    ensures { (cores : ℕ) (bytes : List ℕ) (line other : ℕ)
        → IsFirstBadLine cores (statements_of bytes) line
        → IsFirstBadLine cores (statements_of bytes) other → line ≡ other }
{}

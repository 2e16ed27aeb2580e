ghost use Rattle.std.specs.Prelude.{◌≡◌, ℕ, List};
ghost use Rattle.tab_core.specs.declared.host.Host.{Host};
ghost use Rattle.host_doc.specs.Document.{IsHostText};

/// A text states one host at most.
pub fn a_text_states_one_host()
    ensures { (bytes : List ℕ) (host other : Host) → IsHostText bytes host → IsHostText bytes other
        → host ≡ other }
{}

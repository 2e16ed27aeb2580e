ghost use Rattle.std.specs.Prelude.{◌≡◌, ◌≤◌, ◌+◌, ◌*◌, ℕ, [], ◌∷◌, count_by, length};
ghost use Rattle.tab_core.specs.declared.TheConstants.{MAX_VCPUS};
ghost use Rattle.tab_core.specs.declared.host.Host.{Host};
ghost use Rattle.tab_words.specs.Sections.{sections_of};
ghost use Rattle.host_doc.specs.Document.{IsHostText};
ghost use Rattle.host_gen.specs.Generated.{IsGenerated};
ghost use Rattle.host_gen.specs.HostText.{host_text};
ghost use Rattle.host_text.specs.Admitted.{IsAdmittedHost};

/// The text that is written of a host whose vCPUs are all admitted is a host document of exactly that
/// host. It is one section, and has at most 100 bytes, 120 for each vCPU and 14 more for each capped
/// one.
pub fn a_written_host_is_read_back()
    ensures host { (host : Host) → IsAdmittedHost host → IsHostText (host_text host) host }
    ensures section { (host : Host) → IsAdmittedHost host
        → sections_of (host_text host) ≡ host_text host ∷ [] }
    ensures short { (host : Host) → IsAdmittedHost host
        → length (host_text host)
        ≤ 100 + 120 * length host.vcpus + 14 * count_by (λ vcpu. vcpu.capped) host.vcpus }
{}

/// The text of a generated host, which has no capped vCPU, is a host document of exactly that host.
pub fn a_generated_host_is_read_back()
    ensures host { (seed cores vcpus : ℕ) (host : Host) → vcpus ≤ MAX_VCPUS
        → IsGenerated seed cores vcpus host → IsHostText (host_text host) host }
    ensures section { (seed cores vcpus : ℕ) (host : Host) → vcpus ≤ MAX_VCPUS
        → IsGenerated seed cores vcpus host → sections_of (host_text host) ≡ host_text host ∷ [] }
    ensures short { (seed cores vcpus : ℕ) (host : Host) → vcpus ≤ MAX_VCPUS
        → IsGenerated seed cores vcpus host → length (host_text host) ≤ 100 + 120 * vcpus }
{}

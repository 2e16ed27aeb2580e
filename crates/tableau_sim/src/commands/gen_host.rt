ghost use Rattle.std.specs.Prelude.{ℕ, List};
ghost use Rattle.tab_words.specs.Commands.{IsGenerable};
ghost use Rattle.tableau_sim.specs.Gen.{Gens};
ghost use Rattle.tableau_sim.specs.Inside.Reply.{Makes};

use crate::reply::{Reply, Stop, Text};
use host_gen::generate;
use std::alloc::Global;

// The reply of `gen` to its seed and counts.
pub(crate) fn gen_reply(alloc: Global, seed: u64, cores: u32, vcpus: u32) -> Reply
    requires { IsGenerable seed cores vcpus }
    ensures { (section : List ℕ) → Makes (Gens seed cores vcpus) section result }
{
    match generate(alloc, seed, cores, vcpus) {
        Ok(host) => Ok(Text::Generated { host }),
        Err(_) => Err(Stop::NoMemory),
    }
}

ghost use Rattle.std.specs.Prelude.{◌≡◌, ◌≤◌, ℕ, List, length};
ghost use Rattle.tab_core.specs.declared.TheConstants.{MAX_ROUNDS};
ghost use Rattle.tab_words.specs.declared.command.RunMode.TheVariants.{Live};
ghost use Rattle.script_doc.specs.Script.{AreInRun, AreWithin};
ghost use Rattle.round_words.specs.Seats.{view_of, IsSeatOf};
ghost use Rattle.round_words.specs.Views.{unstarted};
ghost use Rattle.tableau_sim.specs.Inside.Reply.{HasItsHost, MakesOnSeat};
ghost use Rattle.tableau_sim.specs.Inside.Running.{RunsSections};
ghost use Rattle.tableau_sim.specs.Scripts.{HasScript};
ghost use Rattle.tableau_sim.specs.Seats.{LeavesRun};
ghost use Rattle.tableau_sim.specs.Sections.{host_section};

use crate::reply::{Reply, Text};
use crate::stage::Stage;
use crate::stops::stop_of_live;
use core_workers::Gate;
use round_words::RoundSeat;
use run_live::run_script;
use script_doc::Script;
use std::sync::Wait;
use std::thread::Threads;
use std::time::Clock;
use tab_core::Host;

// The reply of `run` with `live` to a host and a script, whose changes are planned beside the cores.
pub(crate) fn run_beside<R: Threads + Wait + Clock + Sync, G: Gate>(
    stage: &Stage<'_, R, G>,
    rounds: u32,
    host: Host,
    script: Script,
    seat: RoundSeat,
) -> (RoundSeat, Reply)
    requires some { 1 ≤ rounds }
    requires few { rounds ≤ MAX_ROUNDS }
    requires within { AreWithin (length host.vcpus) script }
    requires in_run { AreInRun rounds script }
    requires board { IsSeatOf stage.now.board.now seat }
    requires opening { view_of seat ≡ unstarted }
    ensures board { IsSeatOf stage.now.board.now result.0 }
    ensures makes { (sections : List (List ℕ)) → HasScript rounds sections host script
        → MakesOnSeat (RunsSections rounds Live (view_of result.0) sections)
        (LeavesRun rounds Live (view_of seat) (view_of result.0) sections) (view_of seat) (view_of result.0) result.1 }
    ensures host { (sections : List (List ℕ)) → HasScript rounds sections host script
        → HasItsHost (host_section sections) result.1 }
{
    match run_script(
        stage.rt,
        stage.alloc,
        &host,
        &script,
        rounds,
        stage.board,
        seat,
        stage.gate,
    ) {
        Ok((seat, ran)) => (seat, Ok(Text::RunBeside { rounds, host, ran })),
        Err((seat, fault)) => (seat, Err(stop_of_live(fault, host))),
    }
}

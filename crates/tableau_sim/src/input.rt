ghost use Rattle.std.specs.Prelude.{◌≡◌, ◌<◌, ◌≤◌, ◌^◌, ℕ, IfErr, IfOk, List, length, true};
ghost use Rattle.tab_words.specs.Commands.{IsCommand, texts};
ghost use Rattle.tab_words.specs.Sections.{sections_of};
ghost use Rattle.tableau_sim.specs.Columns.{reads};
ghost use Rattle.tableau_sim.specs.Commands.{AreStill, IsStillCommand, LeavesNothing, Replies};
ghost use Rattle.tableau_sim.specs.Inside.Reply.{HasGoodNumbers, HasInput, IsOff, IsReplyTo, Makes, StopsReading};
ghost use Rattle.tableau_sim.specs.Sections.{host_section};
ghost use Rattle.tableau_sim.specs.declared.input.TheConstants.{INPUT_LIMIT};

use crate::commands::check::check_reply;
use crate::commands::gen_host::gen_reply;
use crate::commands::plan::plan_reply;
use crate::commands::plan_stay::plan_stay_reply;
use crate::commands::plan_whole::plan_whole_reply;
use crate::commands::replay::replay_reply;
use crate::reply::{Reply, Stop, Text, stopped};
use crate::status::Status;
use std::alloc::Global;
use tab_io::{ReadAll, Source, read_all};
use tab_words::{Command, Sections, cut_sections, read_words};

/// The most bytes that are read.
pub const INPUT_LIMIT: usize = 4_194_304;

// The reply to the words, and to what they ask to read.
pub(crate) fn reply_to<S: Source>(alloc: Global, words: &[String], input: &mut S) -> Reply
    requires { AreStill (texts words.now) }
    ensures { IsReplyTo Replies LeavesNothing (texts words.now) (S.state input.old) (S.state input.new) result }
{
    match read_words(words) {
        Ok(command) => reply_of(alloc, command, input),
        Err(usage) => Err(stopped(Status::Usage { place: usage.place })),
    }
}

// The command's reply, which reads the input where the command does.
fn reply_of<S: Source>(alloc: Global, command: Command, input: &mut S) -> Reply
    requires good { HasGoodNumbers command }
    requires still { IsStillCommand command }
    ensures { (words : List (List ℕ)) → IsCommand words command
        → IsReplyTo Replies LeavesNothing words (S.state input.old) (S.state input.new) result }
{
    match command {
        Command::Help => Ok(Text::Help),
        Command::Version => Ok(Text::Version),
        Command::Gen { seed, cores, vcpus } => gen_reply(alloc, seed, cores, vcpus),
        command => match read_input(alloc, input) {
            Ok(bytes) => {
                let reply = reply_to_input(alloc, command, &bytes);
                input.take_back(bytes);
                reply
            }
            Err(stop) => Err(stop),
        },
    }
}

// What the command makes of its input. One row for each command that reads it.
fn reply_to_input(alloc: Global, command: Command, input: &[u8]) -> Reply
    requires good { HasGoodNumbers command }
    requires still { IsStillCommand command }
    requires reads { reads command ≡ true }
    requires short { length input.now ≤ INPUT_LIMIT }
    ensures { Makes (Replies command input.now) (host_section (sections_of input.now)) result }
{
    match command {
        Command::Plan => plan_reply(alloc, input),
        Command::PlanWhole => plan_whole_reply(alloc, input),
        Command::PlanStay => plan_stay_reply(alloc, input),
        Command::Check => check_reply(alloc, input),
        Command::Replay { rounds } => replay_reply(alloc, rounds, input),
        _ => unreachable!(),
    }
}

// The whole input, of which no more than the limit is taken.
pub(crate) fn read_input<S: Source>(alloc: Global, input: &mut S) -> Result<Vec<u8>, Stop>
    ensures ok { IfOk result (λ bytes. HasInput (S.state input.old) (S.state input.new) bytes.items) }
    ensures stop { IfErr result (StopsReading (S.state input.old) (S.state input.new)) }
{
    match read_all(alloc, input, INPUT_LIMIT) {
        Ok(bytes) => Ok(bytes),
        Err(ReadAll::ReadFault) => Err(stopped(Status::ReadFault)),
        Err(ReadAll::TooLong { .. }) => Err(stopped(Status::TooLong)),
        Err(ReadAll::NoMemory) => Err(Stop::NoMemory),
    }
}

// The sections of an input, where they are as many as wanted.
pub(crate) fn cut(input: &[u8], wanted: u32) -> Result<Sections<'_>, Stop>
    requires { length input.now < 2 ^ 32 }
    ensures ok { IfOk result (λ sections. sections ≡ sections_of input.now) }
    ensures wanted { IfOk result (λ _. length (sections_of input.now) ≡ wanted) }
    ensures off { IfErr result (IsOff wanted input.now) }
{
    let sections = cut_sections(input);
    let found = sections.count();
    if found == wanted {
        Ok(sections)
    } else {
        Err(stopped(Status::BadSections { found, wanted }))
    }
}
